ghost use Rattle.std.specs.Prelude.{◌≡◌, OnErr, IfOk};
ghost use Rattle.word_text.specs.Bytes.{IsKept, PutsBytes};
ghost use Rattle.word_text.specs.Answers.{Assembles};

use crate::cut::first_line;
use crate::lane_of_text::put_lane;
use crate::words_of_text::put_words;
use lk_base::OutOfMemory;
use std::alloc::Global;
use words_files::TextError;

// Appends the bytes of which a text is the listing to `out`, or as many as there are before a refusal.
fn put_bytes(
    alloc: Global,
    text: &[u8],
    out: &mut Vec<u8>,
) -> Result<Result<(), TextError>, OutOfMemory>
    ensures answer { IfOk result (PutsBytes text.now out.old.items out.new.items) }
    ensures kept { IsKept out.old.items out.new.items }
{
    let Some((head, lines)) = first_line(text) else {
        return Ok(Err(TextError::Head));
    };
    if head == b"words".as_slice() {
        return put_words(alloc, lines, out);
    }
    if head == b"lane".as_slice() {
        return put_lane(alloc, lines, out);
    }
    Ok(Err(TextError::Head))
}

/// Appends the bytes of which a text is the listing to `out`.
///
/// # Errors
///
/// Why the text is no listing; `OutOfMemory` if memory ran out, and only then. Each leaves `out` as it was.
pub fn assemble(
    alloc: Global,
    text: &[u8],
    out: &mut Vec<u8>,
) -> Result<Result<(), TextError>, OutOfMemory>
    ensures answer { IfOk result (Assembles text.now out.old.items out.new.items) }
    ensures memory { OnErr result (out.new.items ≡ out.old.items) }
{
    let before = out.len();
    let answer = match put_bytes(alloc, text, out) {
        Ok(answer) => answer,
        Err(error) => {
            out.truncate(before);
            return Err(error);
        }
    };
    if answer.is_err() {
        out.truncate(before);
    }
    Ok(answer)
}
