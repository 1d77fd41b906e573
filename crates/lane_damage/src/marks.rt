//! Single bits and stretches of bits in bytes.
ghost use Rattle.std.specs.Prelude.{◌≡◌, ◌+◌, ◌-◌, ◌*◌, ◌/◌, ◌^◌, ◌≤◌, ◌<◌, ◌==◌, ◌&&◌, ℕ, false, length, not, nat_le, nat_lt, if◌then◌else◌};
ghost use Rattle.lane_damage.specs.Bits.{bit_in};

/// Inverts the bit at a place.
pub fn invert(bytes: &mut [u8], place: usize)
    requires { place < 8 * length bytes.old }
    ensures long { length bytes.new ≡ length bytes.old }
    ensures bits { (p : ℕ) → bit_in bytes.new p ≡ (if place == p then not (bit_in bytes.old p) else bit_in bytes.old p) }
{
    bytes[place / 8] ^= 128 >> (place % 8);
}

// Returns the byte whose bits `low..high` are 1.
fn mask(low: u32, high: u32) -> u8
    requires low { low ≤ high }
    requires high { high ≤ 8 }
    ensures { result ≡ 2 ^ high - 2 ^ low }
{
    ((255u32 >> (8 - high)) - (255u32 >> (8 - low))) as u8
}

// Makes the bits `from..to` 0, which are in one byte.
fn clear_within(bytes: &mut [u8], from: usize, to: usize)
    requires some { from < to }
    requires one { to ≤ 8 * (from / 8) + 8 }
    requires there { to ≤ 8 * length bytes.old }
    ensures long { length bytes.new ≡ length bytes.old }
    ensures bits { (p : ℕ) → bit_in bytes.new p ≡ (if nat_le from p && nat_lt p to then false else bit_in bytes.old p) }
{
    let high = 8 - from % 8;
    let keep = 255 - mask((high - (to - from)) as u32, high as u32);
    bytes[from / 8] &= keep;
}

/// Makes the bits `from..to` 0.
pub fn clear(bytes: &mut [u8], from: usize, to: usize)
    requires order { from ≤ to }
    requires there { to ≤ 8 * length bytes.old }
    ensures long { length bytes.new ≡ length bytes.old }
    ensures bits { (p : ℕ) → bit_in bytes.new p ≡ (if nat_le from p && nat_lt p to then false else bit_in bytes.old p) }
{
    let mut place = from;
    while place < to {
        let end = place + (8 - place % 8).min(to - place);
        clear_within(bytes, place, end);
        place = end;
    }
}
