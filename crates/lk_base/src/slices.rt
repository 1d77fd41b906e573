ghost use Rattle.std.specs.Prelude.{◌≡◌, ◌+◌, ◌≤◌, length, take, drop};
ghost use Rattle.lk_base.specs.Checksum.{bits_of, bits_of_bytes};

/// The first `count` items.
pub fn head<T>(items: &[T], count: usize) -> &[T]
    requires { count ≤ length items.now }
    ensures { result.now ≡ take count items.now }
{
    &items[..count]
}

/// The items from this place on.
pub fn tail<T>(items: &[T], from: usize) -> &[T]
    requires { from ≤ length items.now }
    ensures { result.now ≡ drop from items.now }
{
    &items[from..]
}

/// The bits of the eight bytes from this place on as a number, the first of them highest.
#[inline(always)]
pub fn eight_at(bytes: &[u8], place: usize) -> u64
    requires { place + 8 ≤ length bytes.now }
    ensures { bits_of 64 result ≡ bits_of_bytes (take 8 (drop place bytes.now)) }
{
    u64::from_be_bytes([
        bytes[place],
        bytes[place + 1],
        bytes[place + 2],
        bytes[place + 3],
        bytes[place + 4],
        bytes[place + 5],
        bytes[place + 6],
        bytes[place + 7],
    ])
}
