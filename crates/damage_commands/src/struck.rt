//! How many bits of a lane were struck.
ghost use Rattle.std.specs.Prelude.{◌≡◌, ◌+◌, ◌*◌, ◌^◌, ◌≤◌, ◌<◌, length, take, drop};
ghost use Rattle.lk_base.specs.Checksum.{bits_of, bits_of_bytes};
ghost use Rattle.damage_commands.specs.Struck.{differing};

// The eight bits at a place among those of these bytes.
fn byte_at(bytes: &[u8], place: usize) -> u8
    requires { place + 8 ≤ 8 * length bytes.now }
    ensures { bits_of 8 result ≡ take 8 (drop place (bits_of_bytes bytes.now)) }
{
    let (byte, over) = (place / 8, place % 8);
    if over == 0 {
        return bytes[byte];
    }
    let two = (bytes[byte] as u32) << 8 | bytes[byte + 1] as u32;
    (two >> (8 - over) & 0xFF) as u8
}

// How many bits of two bytes differ.
fn differing_bits(a: u8, b: u8) -> u64
    ensures { result ≡ differing (bits_of 8 a) (bits_of 8 b) }
{
    (a ^ b).count_ones() as u64
}

/// How many bits of a lane, which were received after this many others, differ from those that were sent.
pub fn struck_bits(sent: &[u8], received: &[u8], skew: u32) -> u64
    requires few { length sent.now < 2 ^ 60 }
    requires there { skew + 8 * length sent.now ≤ 8 * length received.now }
    ensures { result ≡ differing (drop skew (bits_of_bytes received.now)) (bits_of_bytes sent.now) }
{
    let mut struck = 0;
    for i in 0..sent.len() {
        struck += differing_bits(byte_at(received, skew as usize + 8 * i), sent[i]);
    }
    struck
}
