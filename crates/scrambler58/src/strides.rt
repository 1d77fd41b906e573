ghost use Rattle.std.specs.Prelude.{◌≡◌, ◌^◌, ◌<◌};
ghost use Rattle.scrambler58.specs.Strides.{bits_after, state_after};

/// The next 39 key bits at once, the first of them highest: as none of 39 bits is 39 steps after another, each is made of two
/// bits of the state. The state has 58 bits.
#[inline]
pub fn first_bits(state: u64) -> u64
    ensures value { result ≡ bits_after state 39 }
    ensures bound { result < 2 ^ 39 }
{
    (state ^ state >> 19) & ((1 << 39) - 1)
}

/// The 25 key bits after these 39: of the two bits that make one of them the later is one of the 39, and so is the earlier of the
/// last six.
#[inline]
pub fn second_bits(state: u64, first: u64) -> u64
    requires { first ≡ bits_after state 39 }
    ensures value { result ≡ bits_after (state_after state 39) 25 }
    ensures bound { result < 2 ^ 25 }
{
    first >> 14 ^ ((state & ((1 << 19) - 1)) << 6 | first >> 33)
}
