ghost use Rattle.std.specs.Prelude.{◌≡◌, ◌<◌, ◌≤◌, true, ◌++◌, OnErr, OnOk};
ghost use Rattle.std.specs.Fmt.{digit_glyph};
ghost use Rattle.lk_base.specs.CutShort.{IsCutShort};
ghost use Rattle.lk_base.specs.Hex.{hex};

use crate::memory::OutOfMemory;

// The character of a hexadecimal digit.
fn glyph(digit: u8) -> u8
    requires { digit < 16 }
    ensures { result ≡ digit_glyph true digit }
{
    if digit < 10 { 48 + digit } else { 55 + digit }
}

/// Appends the last `count` hexadecimal digits of a number, in upper case. There are at most 16. After an error the first of
/// them stand there, none or more, and never all.
///
/// # Errors
///
/// `OutOfMemory` where memory ran out, and nowhere else.
#[tactic(auto, unfolding(crate::specs::Hex::hex))]
pub fn put_hex(text: &mut Vec<u8>, count: u32, x: u64) -> Result<(), OutOfMemory>
    requires { count ≤ 16 }
    ensures digits { OnOk result (text.new.items ≡ text.old.items ++ hex count x) }
    ensures err { OnErr result (IsCutShort text.old.items (hex count x) text.new.items) }
{
    if count == 0 {
        return Ok(());
    }
    put_hex(text, count - 1, x / 16)?;
    text.push(glyph((x % 16) as u8))?;
    Ok(())
}
