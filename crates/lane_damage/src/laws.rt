//! The law on calls, and worked examples.
ghost use Rattle.std.specs.Prelude.{◌≡◌, List, [], ◌∷◌, true, false, replicate};
ghost use Rattle.lane_damage.specs.Bits.{damaged_from};
ghost use Rattle.lane_damage.specs.CallsLaw.{JoinsToTheDamagedLane};
ghost use Rattle.lane_damage.specs.OnWay.{dark_from, dark_refusal, flip_refusal, unharmed, untouched};
ghost use Rattle.lane_damage.specs.declared.refused.Refused.TheVariants.{OutOfRange, Passed};

/// States that the damaged pieces of a lane, joined, are the damaged lane. Its rows are all that were not refused, of each stretch the
/// bits that had not passed. The calls come in any order and on any lanes, refused ones among them.
pub fn joins_to_the_damaged_lane()
    ensures { JoinsToTheDamagedLane }
{}

/// Shows that two flips of one bit cancel each other, that a dark bit is 0 whatever flips name it, and that bits are counted from the
/// start of the lane.
pub fn worked_pieces()
    ensures flips { damaged_from (record { skew = 0; flips = 9 ∷ 9 ∷ 10 ∷ 1 ∷ []; darks = [] }) 8 (replicate 4 true) ≡ true ∷ true ∷ false ∷ true ∷ [] }
    ensures dark { damaged_from (record { skew = 0; flips = 9 ∷ []; darks = record { first = 9; count = 2 } ∷ [] }) 8 (replicate 4 true) ≡ true ∷ false ∷ false ∷ true ∷ [] }
{}

/// Shows that after two bytes bit 15 has passed and bit 16 has not, that of a stretch that has begun the rest is left, and that no lane
/// has bit 2^44.
pub fn worked_refusals()
    ensures passed { flip_refusal (record { passed = 2; damage = unharmed }) 15 ≡ Some Passed }
    ensures next { flip_refusal (record { passed = 2; damage = unharmed }) 16 ≡ None }
    ensures none { flip_refusal untouched 17592186044416 ≡ Some OutOfRange }
    ensures over { dark_refusal (record { passed = 2; damage = unharmed }) 10 6 ≡ Some Passed }
    ensures begun { dark_refusal (record { passed = 2; damage = unharmed }) 10 7 ≡ None }
    ensures rest { dark_from 16 10 7 ≡ record { first = 16; count = 1 } }
    ensures last { dark_refusal untouched 17592186044415 1 ≡ None }
    ensures long { dark_refusal untouched 17592186044415 2 ≡ Some OutOfRange }
{}
