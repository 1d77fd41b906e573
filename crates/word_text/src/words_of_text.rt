ghost use Rattle.std.specs.Prelude.{◌++◌, IfOk};
ghost use Rattle.word_text.specs.Lines.{ended};
ghost use Rattle.word_text.specs.Listings.{words_head};
ghost use Rattle.word_text.specs.Bytes.{IsKept, PutsBytes};

use crate::cut::first_line;
use crate::word_of_line::word_of;
use lk_base::OutOfMemory;
use std::alloc::Global;
use words_files::{TextError, append_word};

// Appends the bytes of the words of these lines, those after the first line of a text, to `out`, or as many as there are
// before a refusal.
pub fn put_words(
    alloc: Global,
    lines: &[u8],
    out: &mut Vec<u8>,
) -> Result<Result<(), TextError>, OutOfMemory>
    ensures answer { IfOk result (PutsBytes (ended words_head ++ lines.now) out.old.items out.new.items) }
    ensures kept { IsKept out.old.items out.new.items }
{
    let mut spelled = Vec::new(alloc);
    let mut rest = lines;
    let mut number = 2u64;
    while !rest.is_empty() {
        let Some((line, more)) = first_line(rest) else {
            return Ok(Err(TextError::Line(number)));
        };
        let Some(word) = word_of(&mut spelled, line)? else {
            return Ok(Err(TextError::Line(number)));
        };
        append_word(out, word)?;
        rest = more;
        number += 1;
    }
    Ok(Ok(()))
}
