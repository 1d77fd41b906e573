ghost use Rattle.std.specs.Prelude.{◌≡◌, ◌<◌, ◌^◌, ◌++◌, ℕ, List, OnOk, IfOk, OnErr};
ghost use Rattle.lk_base.specs.Checksum.{bits_of};
ghost use Rattle.word_text.specs.Lines.{ended};
ghost use Rattle.word_text.specs.CodeLines.{IsCodeLine, rest_line};
ghost use Rattle.word_text.specs.Bytes.{IsKept};
ghost use Rattle.word_text.specs.Answers.{ListsLane};

use crate::digits::{put, put_byte};
use crate::line_of_code::code_line;
use crate::piece::{CodePiece, next_piece};
use crate::rest::rest_line;
use coding_67b::BitReader;
use lane_model::CODE_BITS;
use lk_base::OutOfMemory;
use std::alloc::Global;

// Appends the line of a code, ended, to a text. It is spelled in `line`.
fn put_code(line: &mut Vec<u8>, text: &mut Vec<u8>, code: u128) -> Result<(), OutOfMemory>
    requires { code < 2 ^ 67 }
    ensures ok { OnOk result ((told : List ℕ) × IsCodeLine code told × (text.new.items ≡ text.old.items ++ ended told)) }
    ensures err { OnErr result (text.new.items ≡ text.old.items) }
{
    code_line(line, code)?;
    put_byte(line, b'\n')?;
    put(text, line)
}

// Appends the line of the last bits, ended, to a text. It is spelled in `line`.
fn put_rest(line: &mut Vec<u8>, text: &mut Vec<u8>, rest: &CodePiece) -> Result<(), OutOfMemory>
    requires { rest.now.count < 67 }
    ensures ok { OnOk result (text.new.items ≡ text.old.items ++ ended (rest_line (bits_of rest.now.count rest.now.bits))) }
    ensures err { OnErr result (text.new.items ≡ text.old.items) }
{
    rest_line(line, rest)?;
    put_byte(line, b'\n')?;
    put(text, line)
}

// Appends the listing of a lane file to `out`, or as much of it as there is memory for.
fn put_lane_text(alloc: Global, bytes: &[u8], out: &mut Vec<u8>) -> Result<u64, OutOfMemory>
    ensures answer { IfOk result (λ count. ListsLane bytes.now out.old.items out.new.items count) }
    ensures kept { IsKept out.old.items out.new.items }
{
    put(out, b"lane\n")?;
    let mut line = Vec::new(alloc);
    let mut reader = BitReader::new(bytes);
    let mut piece = next_piece(&mut reader);
    let mut count = 1u64;
    while piece.count == CODE_BITS {
        put_code(&mut line, out, piece.bits)?;
        piece = next_piece(&mut reader);
        count += 1;
    }
    if piece.count == 0 {
        return Ok(count);
    }
    put_rest(&mut line, out, &piece)?;
    Ok(count + 1)
}

/// Appends the listing of a lane file to `out` and returns its count of lines. The lane is cut from its first bit on.
///
/// # Errors
///
/// `OutOfMemory` if memory ran out, and only then; `out` is then as it was.
pub fn list_lane(alloc: Global, bytes: &[u8], out: &mut Vec<u8>) -> Result<u64, OutOfMemory>
    ensures lane { IfOk result (λ count. ListsLane bytes.now out.old.items out.new.items count) }
    ensures memory { OnErr result (out.new.items ≡ out.old.items) }
{
    let before = out.len();
    let answer = put_lane_text(alloc, bytes, out);
    if answer.is_err() {
        out.truncate(before);
    }
    answer
}
