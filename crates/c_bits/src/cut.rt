//! Bits as whole bytes and a part of one.
ghost use Rattle.std.specs.Prelude.{◌≡◌, ◌≤◌, ◌++◌, length};
ghost use Rattle.lk_base.specs.Checksum.{bits_of};
ghost use Rattle.c_bits.specs.Bits.{IsCut};
ghost use Rattle.c_bits.specs.PartBits.{bits_in};

use crate::part::Part;
use std::marker::Model;

/// Bits as whole bytes, eight at most, and then a part of one.
#[derive(Debug, Drop)]
pub struct Cut {
    /// The whole bytes are the last of these.
    bytes: [u8; 8],
    whole: usize,
    part: Part,
}

impl Model for Cut {
    ghost use Rattle.std.specs.Prelude.{◌≤◌, ◌-◌, drop};
    ghost use Rattle.c_bits.specs.Bits.{CutBits};
    ghost use Rattle.c_bits.specs.PartBits.{bits_in};

    ghost Value = { CutBits };

    ghost view = { λ c. record { bytes = drop (8 - c.whole) c.bytes; part = bits_in c.part } };

    ghost invariant = { λ c. c.whole ≤ 8 };
}

impl Cut {
    /// Cuts a part, and then the lowest `count` bits of a number, 64 at most.
    pub fn of(part: &Part, bits: u64, count: u32) -> Cut
        requires { count ≤ 64 }
        ensures { IsCut (bits_in part.now ++ bits_of count bits) result.bytes result.part }
    {
        let total = part.count + count;
        let number = part.with(bits, count);
        let rest = total % 8;
        Cut {
            bytes: ((number >> rest & u64::MAX as u128) as u64).to_be_bytes(),
            whole: (total / 8) as usize,
            part: Part::low(number, rest),
        }
    }

    /// The whole bytes.
    pub fn bytes(&self) -> &[u8]
        ensures bytes { result.now ≡ self.now.bytes }
        ensures few { length result.now ≤ 8 }
    {
        &self.bytes[8 - self.whole..]
    }

    /// The part after them.
    pub fn part(&self) -> Part
        ensures { bits_in result ≡ self.now.part }
    {
        self.part
    }
}
