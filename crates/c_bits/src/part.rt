//! A part of a byte.
ghost use Rattle.std.specs.Prelude.{◌≡◌, ◌≤◌, ◌<◌, ◌+◌, ◌*◌, ◌==◌, ◌++◌, [], length};
ghost use Rattle.lk_base.specs.Checksum.{bits_of, bits_of_bytes};

/// The most bits of a call.
pub const MOST_BITS: u32 = 64;

/// The bits of a lane after its last whole byte: fewer than eight.
#[derive(Clone, Copy, Debug)]
pub struct Part {
    /// They are its lowest `count` bits, the first of them highest.
    pub bits: u8,
    pub count: u32,
    ghost few: { count < 8 },
}

impl Part {
    /// No bit.
    pub fn empty() -> Part
        ensures { bits_of result.count result.bits ≡ [] }
    {
        Part { bits: 0, count: 0 }
    }

    /// The lowest bits of a number, fewer than eight.
    pub fn low(number: u128, count: u32) -> Part
        requires { count < 8 }
        ensures bits { bits_of result.count result.bits ≡ bits_of count number }
        ensures count { result.count ≡ count }
    {
        Part {
            bits: (number & 0xFF) as u8,
            count,
        }
    }

    /// The number of its bits and then the lowest bits of another, at most 64.
    pub fn with(&self, bits: u64, count: u32) -> u128
        requires { count ≤ 64 }
        ensures { bits_of (self.now.count + count) result ≡ bits_of self.now.count self.now.bits ++ bits_of count bits }
    {
        let mask = (1u128 << count) - 1;
        (self.bits as u128) << count | bits as u128 & mask
    }

    /// The number of its bits and then those of bytes, eight at most.
    pub fn then(&self, bytes: &[u8]) -> u128
        requires { length bytes.now ≤ 8 }
        ensures { bits_of (self.now.count + 8 * length bytes.now) result ≡ bits_of self.now.count self.now.bits ++ bits_of_bytes bytes.now }
    {
        let mut number = self.bits as u128;
        for byte in bytes {
            number = number << 8 | *byte as u128;
        }
        number
    }
}
