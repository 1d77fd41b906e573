ghost use Rattle.std.specs.Prelude.{◌≡◌, ◌↔◌, ◌==◌, ◌<◌, ◌∷◌, [], IsNone, IfSome, IfNone};
ghost use Rattle.std.specs.Int.{bit_at};
ghost use Rattle.lk_base.specs.Checksum.{bits_of_bytes};

use std::marker::Model;

/// The bits of bytes, the highest of each first. It is seen as the list of the bits that are left.
#[derive(Debug, Drop)]
pub struct BitReader<'a> {
    /// The bytes of which no bit was given yet.
    rest: &'a [u8],
    /// The byte before them, of which the lowest `left` bits are left.
    byte: u8,
    left: u32,
}

impl<'a> Model for BitReader<'a> {
    ghost use Rattle.std.specs.Prelude.{Bool, List, ◌++◌, ◌≤◌};
    ghost use Rattle.lk_base.specs.Checksum.{bits_of, bits_of_bytes};

    ghost Value = { List Bool };

    ghost view = { λ r. bits_of r.left r.byte ++ bits_of_bytes r.rest.now };

    ghost invariant = { λ r. r.left ≤ 8 };
}

impl<'a> BitReader<'a> {
    /// Creates a reader of which all bits of the bytes are left.
    pub fn new(bytes: &'a [u8]) -> BitReader<'a>
        ensures { result ≡ bits_of_bytes bytes.now }
    {
        BitReader {
            rest: bytes,
            byte: 0,
            left: 0,
        }
    }

    /// Takes the next bit. `None` if no bit is left, and again then.
    pub fn bit(&mut self) -> Option<bool>
        ensures none { IsNone result ↔ self.old ≡ [] }
        ensures unchanged { IfNone result (self.new ≡ self.old) }
        ensures some { IfSome result (λ bit. self.old ≡ bit ∷ self.new) }
    {
        if self.left > 0 {
            self.left -= 1;
            return Some(bit_of(self.byte, self.left));
        }
        match self.rest.split_first() {
            None => None,
            Some((byte, rest)) => {
                self.byte = *byte;
                self.rest = rest;
                self.left = 7;
                Some(bit_of(self.byte, 7))
            }
        }
    }
}

/// True if the bit of a byte at a place is 1; bit 0 is the lowest.
fn bit_of(byte: u8, place: u32) -> bool
    requires { place < 8 }
    ensures { result ≡ (bit_at byte place == 1) }
{
    byte >> place & 1 == 1
}
