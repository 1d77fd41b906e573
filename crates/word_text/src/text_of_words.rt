ghost use Rattle.std.specs.Prelude.{Err, OnOk, ◌≡◌, ◌++◌, ℕ, List, IfOk, OnErr, MatchResult};
ghost use Rattle.words_files.specs.WordsOfFile.{words_of_file};
ghost use Rattle.word_text.specs.Bytes.{IsKept};
ghost use Rattle.word_text.specs.Answers.{ListsWords, AnswersWords};
ghost use Rattle.word_text.specs.WordLines.{IsWordLine};
ghost use Rattle.word_text.specs.Lines.{ended};

use crate::cut::after;
use crate::digits::{put, put_byte};
use crate::line_of_word::word_line;
use lk_base::OutOfMemory;
use std::alloc::Global;
use words_files::{FileWord, Tags, WORD_BYTES, WordsError, read_word};

// Appends the line of a word, ended, to a text. It is spelled in `line`.
fn put_word(line: &mut Vec<u8>, text: &mut Vec<u8>, word: FileWord) -> Result<(), OutOfMemory>
    ensures ok { OnOk result ((told : List ℕ) × IsWordLine word told × (text.new.items ≡ text.old.items ++ ended told)) }
    ensures err { OnErr result (text.new.items ≡ text.old.items) }
{
    word_line(line, word)?;
    put_byte(line, b'\n')?;
    put(text, line)
}

// Appends the listing of a words file to `out`, or as much of it as there is before a refusal.
fn put_words_text(
    alloc: Global,
    bytes: &[u8],
    out: &mut Vec<u8>,
) -> Result<Result<u64, WordsError>, OutOfMemory>
    ensures answer { IfOk result (λ answer. MatchResult answer
        (λ count. ListsWords bytes.now out.old.items out.new.items count)
        (λ refusal. words_of_file bytes.now ≡ Err refusal)) }
    ensures kept { IsKept out.old.items out.new.items }
{
    put(out, b"words\n")?;
    let mut line = Vec::new(alloc);
    let mut count = 1u64;
    let mut rest = bytes;
    let mut offset = 0u64;
    while !rest.is_empty() {
        let word = match read_word(Tags::Received, offset, rest) {
            Ok(word) => word,
            Err(refusal) => return Ok(Err(refusal)),
        };
        put_word(&mut line, out, word)?;
        rest = after(rest, WORD_BYTES);
        offset += WORD_BYTES as u64;
        count += 1;
    }
    Ok(Ok(count))
}

/// Appends the listing of a words file to `out` and returns its count of lines. A file that has none is refused for the
/// least offset at which something is wrong, and at one offset for its tag first.
///
/// # Errors
///
/// The refusal of the file; `OutOfMemory` if memory ran out, and only then. Each leaves `out` as it was.
pub fn list_words(
    alloc: Global,
    bytes: &[u8],
    out: &mut Vec<u8>,
) -> Result<Result<u64, WordsError>, OutOfMemory>
    ensures answer { IfOk result (λ answer. AnswersWords bytes.now out.old.items out.new.items answer) }
    ensures memory { OnErr result (out.new.items ≡ out.old.items) }
{
    let before = out.len();
    let answer = match put_words_text(alloc, bytes, out) {
        Ok(answer) => answer,
        Err(error) => {
            out.truncate(before);
            return Err(error);
        }
    };
    if answer.is_err() {
        out.truncate(before);
    }
    Ok(answer)
}
