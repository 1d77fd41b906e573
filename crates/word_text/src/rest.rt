ghost use Rattle.std.specs.Prelude.{◌≡◌, ◌<◌, ◌^◌, ◌==◌, length, map, OnOk, IfOk, MatchOption};
ghost use Rattle.lk_base.specs.Checksum.{bits_of};
ghost use Rattle.word_text.specs.CodeLines.{rest_line};
ghost use Rattle.word_text.specs.Refusals.{IsRestLine};

use crate::digits::{bit_text, put};
use crate::piece::CodePiece;
use lk_base::OutOfMemory;

// Writes the line of the last bits of a lane to `line`, in place of what was in it.
pub fn rest_line(line: &mut Vec<u8>, rest: &CodePiece) -> Result<(), OutOfMemory>
    requires { rest.now.count < 67 }
    ensures { OnOk result (line.new.items ≡ rest_line (bits_of rest.now.count rest.now.bits)) }
{
    line.clear();
    put(line, b"rest ")?;
    for place in (0..rest.count).rev() {
        put(line, bit_text(rest.bits >> place & 1 == 1))?;
    }
    Ok(())
}

// Returns the bits that these characters give, as a number.
fn bits_told(text: &[u8]) -> u128
    requires { length text.now < 67 }
    ensures below { result < 2 ^ length text.now }
    ensures bits { bits_of (length text.now) result ≡ map (λ b. b == 49) text.now }
{
    let mut bits = 0u128;
    for byte in text {
        bits = bits << 1 | (*byte == b'1') as u128;
    }
    bits
}

// Returns the bits of which this is the last line, 1 to 66 of them; `None` if it is no such line. The bits are spelled in
// `spelled`.
pub fn rest_of(spelled: &mut Vec<u8>, line: &[u8]) -> Result<Option<CodePiece>, OutOfMemory>
    ensures { IfOk result (λ answer. MatchOption answer
        (IsRestLine line.now → ⊥)
        (λ rest. (0 < rest.count) × (rest.count < 67) × (rest.bits < 2 ^ rest.count) × (line.now ≡ rest_line (bits_of rest.count rest.bits)))) }
{
    if line.len() < 6 || line.len() > 71 {
        return Ok(None);
    }
    let rest = CodePiece {
        count: (line.len() - 5) as u32,
        bits: bits_told(&line[5..]),
    };
    rest_line(spelled, &rest)?;
    if spelled.as_slice() == line {
        Ok(Some(rest))
    } else {
        Ok(None)
    }
}
