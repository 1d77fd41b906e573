//! The laws on plans.
ghost use Rattle.std.specs.Prelude.{◌≡◌};
ghost use Rattle.lk_base.specs.Link.{IsLink, group_of};
ghost use Rattle.c_plan.specs.Examples.{at, two_lanes};
ghost use Rattle.c_plan.specs.Laws.{AllChannelsAreListed, NumbersAreOfPlans, PlacesAreFound, SlotsAreFound};
ghost use Rattle.c_plan.specs.Places.{place_found, slot_found};

/// The numbers of a plan that is read are within the limits, so `place` and `slot` never refuse them.
pub fn numbers_are_of_plans()
    ensures { NumbersAreOfPlans }
{}

/// The numbers of a plan count the channels that `channels` lists.
pub fn all_channels_are_listed()
    ensures { AllChannelsAreListed }
{}

/// Word number `slot` of a stream is on the lane that `slot` writes, and its code begins at the bit that it writes.
pub fn slots_are_found()
    ensures { SlotsAreFound }
{}

/// A word of a group is on the lane that `place` writes. Its code begins at the bit that it writes, except for the bits by which its
/// lane's Sync word is later than lane 0's.
pub fn places_are_found()
    ensures { PlacesAreFound }
{}

/// Worked places: on two lanes, with metaframes of 32 words, of which 28 are payload words.
pub fn worked_places()
    ensures link { IsLink two_lanes }
    ensures group { group_of two_lanes ≡ 56 }
    ensures first { slot_found two_lanes 0 ≡ at 0 201 }
    ensures second { slot_found two_lanes 1 ≡ at 1 201 }
    ensures third { slot_found two_lanes 2 ≡ at 0 268 }
    ensures last { slot_found two_lanes 55 ≡ at 1 2010 }
    ensures next_group { slot_found two_lanes 56 ≡ at 0 2345 }
    ensures received { place_found two_lanes (record { known = 1; index = 5; group = 100 }) ≡ at 1 435 }
{}
