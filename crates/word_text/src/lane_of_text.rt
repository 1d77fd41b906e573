ghost use Rattle.std.specs.Prelude.{◌≡◌, ◌<◌, ◌≤◌, ◌+◌, ◌%◌, ◌^◌, ◌++◌, [], length, OnOk, IfOk};
ghost use Rattle.lk_base.specs.Checksum.{bits_of};
ghost use Rattle.word_text.specs.Lines.{ended};
ghost use Rattle.word_text.specs.Listings.{lane_head};
ghost use Rattle.word_text.specs.Bytes.{IsKept, PutsBytes, TakesBytes, CodesPut};

use crate::code_of_line::code_of;
use crate::cut::first_line;
use crate::digits::put_byte;
use crate::piece::CodePiece;
use crate::rest::rest_of;
use coding_67b::BitWriter;
use lane_model::CODE_BITS;
use lk_base::OutOfMemory;
use std::alloc::Global;
use words_files::TextError;

// Moves whole bytes from the writer to the end of the bytes.
fn drain(writer: &mut BitWriter, bytes: &mut Vec<u8>) -> Result<(), OutOfMemory>
    ensures few { OnOk result (length writer.new < 8) }
    ensures bits { OnOk result (TakesBytes writer.old writer.new bytes.old.items bytes.new.items) }
    ensures kept { IsKept bytes.old.items bytes.new.items }
{
    while let Some(byte) = writer.take() {
        put_byte(bytes, byte)?;
    }
    Ok(())
}

// The place at which the lines of codes end.
#[derive(Clone, Copy)]
struct CodesEnd<'a> {
    // The bits that wait.
    waiting: u32,
    // The lines from the first on that is no code's.
    left: &'a [u8],
    // The number of that line, counted from 1.
    number: u64,
}

// Appends the bits of the lines of codes, those after the first line of a text, to `out` as bytes. Bits that fill no
// byte wait in the writer. Codes are spelled in `spelled`.
fn put_codes<'a>(
    spelled: &mut Vec<u8>,
    writer: &mut BitWriter,
    lines: &'a [u8],
    out: &mut Vec<u8>,
) -> Result<CodesEnd<'a>, OutOfMemory>
    requires { writer.old ≡ [] }
    ensures codes { IfOk result (λ end. CodesPut (ended lane_head ++ lines.now) end.left.now end.number writer.new out.old.items out.new.items) }
    ensures waiting { IfOk result (λ end. (end.waiting ≡ length writer.new) × (end.waiting < 8)) }
    ensures few { IfOk result (λ end. end.number + length end.left.now ≤ length lines.now + 2) }
    ensures kept { IsKept out.old.items out.new.items }
{
    let mut left = lines;
    let mut number = 2u64;
    let mut waiting = 0u32;
    while let Some((line, more)) = first_line(left) {
        let Some(code) = code_of(spelled, line)? else {
            return Ok(CodesEnd {
                waiting,
                left,
                number,
            });
        };
        writer.push(code);
        drain(writer, out)?;
        waiting = (waiting + CODE_BITS) % 8;
        left = more;
        number += 1;
    }
    Ok(CodesEnd {
        waiting,
        left,
        number,
    })
}

// Appends the waiting bits and the last ones, whole bytes together, to the bytes.
fn put_last(
    writer: &mut BitWriter,
    waiting: u32,
    rest: &CodePiece,
    bytes: &mut Vec<u8>,
) -> Result<(), OutOfMemory>
    requires waiting { waiting ≡ length writer.old }
    requires few { waiting < 8 }
    requires count { rest.now.count < 67 }
    requires below { rest.now.bits < 2 ^ rest.now.count }
    requires whole { (waiting + rest.now.count) % 8 ≡ 0 }
    ensures bits { OnOk result (TakesBytes (writer.old ++ bits_of rest.now.count rest.now.bits) [] bytes.old.items bytes.new.items) }
    ensures kept { IsKept bytes.old.items bytes.new.items }
{
    writer.push(rest.bits << (CODE_BITS - rest.count));
    for _byte in 0..(waiting + rest.count) / 8 {
        match writer.take() {
            Some(byte) => put_byte(bytes, byte)?,
            // At least these bits wait.
            None => unreachable!(),
        }
    }
    Ok(())
}

// Appends the bytes of the lane of these lines, as `put_lane` does, through a writer in which nothing waits. Lines are spelled
// in `spelled`.
fn put_lines(
    spelled: &mut Vec<u8>,
    writer: &mut BitWriter,
    lines: &[u8],
    out: &mut Vec<u8>,
) -> Result<Result<(), TextError>, OutOfMemory>
    requires { writer.old ≡ [] }
    ensures answer { IfOk result (PutsBytes (ended lane_head ++ lines.now) out.old.items out.new.items) }
    ensures kept { IsKept out.old.items out.new.items }
{
    let end = put_codes(spelled, writer, lines, out)?;
    if end.left.is_empty() {
        if end.waiting != 0 {
            return Ok(Err(TextError::Length));
        }
        return Ok(Ok(()));
    }
    let Some((line, more)) = first_line(end.left) else {
        return Ok(Err(TextError::Line(end.number)));
    };
    let Some(rest) = rest_of(spelled, line)? else {
        return Ok(Err(TextError::Line(end.number)));
    };
    if !more.is_empty() {
        return Ok(Err(TextError::Line(end.number + 1)));
    }
    if (end.waiting + rest.count) % 8 != 0 {
        return Ok(Err(TextError::Length));
    }
    put_last(writer, end.waiting, &rest, out)?;
    Ok(Ok(()))
}

// Appends the bytes of the lane of these lines, those after the first line of a text, to `out`, or as many as there are
// before a refusal.
pub fn put_lane(
    alloc: Global,
    lines: &[u8],
    out: &mut Vec<u8>,
) -> Result<Result<(), TextError>, OutOfMemory>
    ensures answer { IfOk result (PutsBytes (ended lane_head ++ lines.now) out.old.items out.new.items) }
    ensures kept { IsKept out.old.items out.new.items }
{
    let mut spelled = Vec::new(alloc);
    let mut writer = BitWriter::new();
    put_lines(&mut spelled, &mut writer, lines, out)
}
