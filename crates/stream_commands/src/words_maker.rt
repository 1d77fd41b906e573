//! The words file of a stream, made as its words are.
ghost use Rattle.std.specs.Prelude.{◌≡◌, ◌≤◌, [], ◌∷◌, List, length, take, vec_len, IfOk, Some};
ghost use Rattle.lk_base.specs.declared.word.Word.{Word as SentWord};
ghost use Rattle.stream_model.specs.BurstStream.{IsBurstStream, Source};
ghost use Rattle.tx_words.specs.Streaming.{Streams};
ghost use Rattle.stream_commands.specs.Making.{words_inputs, GaveWordsFile, IsEndOf, MakesFile};

use crate::text::reported;
use lk_base::OutOfMemory;
use run_shell::{Finished, Maker, Outputs, Step, only_name, words_name};
use std::alloc::Global;
use tx_words::{StreamSource, StreamWords};
use words_files::{FileWord, WORD_BYTES, write_data, write_word};

// The words that are made at a time. Their bytes take 9 KiB, which stay in a processor's first cache, and a block costs little besides
// its words.
const BLOCK: usize = 1024;

// What is reported of a stream whose words were all made.
fn end_of(alloc: Global, source: &StreamSource, words: StreamWords) -> Result<Finished, OutOfMemory>
    requires { (made : List SentWord) × Streams words source.now made × IsBurstStream source.now made }
    ensures { IfOk result (λ f. (made : List SentWord) → Streams words.entry source.now made → IsBurstStream source.now made → IsEndOf source.now made f) }
{
    let held = words.held();
    let slots = words.slots();
    let counts = words.counts(alloc, source)?;
    reported(alloc, &counts, slots, held)
}

// What is reported once all words were made. What made them is used up: a step never lets it go.
fn finish(
    alloc: Global,
    source: &StreamSource,
    words: &mut Option<StreamWords>,
) -> Result<Finished, OutOfMemory>
    requires { (maker : StreamWords) × (made : List SentWord) × (words.old ≡ Some maker) × Streams maker source.now made × IsBurstStream source.now made }
    ensures { IfOk result (λ f. (maker : StreamWords) (made : List SentWord) → words.old ≡ Some maker → Streams maker source.now made → IsBurstStream source.now made → IsEndOf source.now made f) }
{
    let Some(words) = words.take() else {
        unreachable!()
    };
    end_of(alloc, source, words)
}

// Writes the bytes of the next words, which are the data words of the burst under way or the one next word, to the first places, and
// returns how many bytes these are: none if and only if all words were made before.
fn write_few(words: &mut StreamWords, bytes: &mut [u8]) -> usize
    requires streams { (source : Source) × (made : List SentWord) × Streams words.old source made }
    requires room { 9 ≤ length bytes.old }
    ensures file { (source : Source) (made : List SentWord) → Streams words.old source made → MakesFile words.new source made (take result bytes.new) }
    ensures whole { (source : Source) (made : List SentWord) → Streams words.old source made → result ≡ 0 → IsBurstStream source made }
    ensures within { result ≤ length bytes.old }
    ensures long { length bytes.new ≡ length bytes.old }
{
    let count = words.next_data(bytes.len() / WORD_BYTES);
    if count > 0 {
        write_data(bytes, words.last_data(count));
        return WORD_BYTES * count;
    }
    match words.next() {
        Some(word) => {
            write_word(bytes, 0, FileWord::from(word));
            WORD_BYTES
        }
        None => 0,
    }
}

// Writes the bytes of the next words, as many words as have room, to the first places, and returns how many bytes these are: none if
// and only if all words were made before.
fn write_block(words: &mut StreamWords, bytes: &mut [u8]) -> usize
    requires streams { (source : Source) × (made : List SentWord) × Streams words.old source made }
    requires room { 9 ≤ length bytes.old }
    ensures file { (source : Source) (made : List SentWord) → Streams words.old source made → MakesFile words.new source made (take result bytes.new) }
    ensures whole { (source : Source) (made : List SentWord) → Streams words.old source made → result ≡ 0 → Streams words.new source made × IsBurstStream source made }
    ensures within { result ≤ length bytes.old }
    ensures long { length bytes.new ≡ length bytes.old }
{
    let mut at = 0;
    while bytes.len() - at >= WORD_BYTES {
        let more = write_few(words, &mut bytes[at..]);
        if more == 0 {
            return at;
        }
        at += more;
    }
    at
}

/// What makes the words file of a stream.
#[derive(Drop)]
pub struct WordsMaker<'a> {
    /// The prefix of the file's name.
    pub prefix: &'a str,
    /// What the stream is made of.
    pub source: &'a StreamSource<'a>,
    /// What makes the words. The last step uses it up.
    pub words: Option<StreamWords<'a>>,
    /// Room for the bytes of a block of words.
    pub bytes: Vec<u8>,
}

impl<'a> WordsMaker<'a> {
    /// A maker that gave nothing yet.
    pub fn new(
        alloc: Global,
        prefix: &'a str,
        source: &'a StreamSource<'a>,
    ) -> Result<WordsMaker<'a>, OutOfMemory>
        ensures inputs { IfOk result (λ m. words_inputs m.prefix.now m.source.now ≡ words_inputs prefix.now source.now) }
        ensures fresh { IfOk result (λ m. GaveWordsFile m.words (vec_len m.bytes) m.source.now ([] ∷ [])) }
    {
        let bytes = vec![in alloc; 0u8; WORD_BYTES * BLOCK]?;
        let words = StreamWords::new(alloc, source)?;
        Ok(WordsMaker {
            prefix,
            source,
            words: Some(words),
            bytes,
        })
    }
}

impl Maker for WordsMaker<'_> {
    ghost use Rattle.std.specs.Prelude.{vec_len};
    ghost use Rattle.stream_commands.specs.Making.{names_of, words_inputs, words_left, GaveWordsFile, IsMadeOf, StreamInputs};

    ghost Inputs = { StreamInputs };

    ghost inputs = { λ m. words_inputs m.prefix.now m.source.now };

    ghost named = { names_of };

    ghost IsMade = { IsMadeOf };

    ghost gave = { λ m given. GaveWordsFile m.words (vec_len m.bytes) m.source.now given };

    ghost left = { λ m. words_left m.words };

    fn lawful(&self) {}

    fn names(&self, alloc: Global) -> Result<Vec<String>, OutOfMemory> {
        only_name(alloc, words_name(alloc, self.prefix)?)
    }

    fn step(&mut self, alloc: Global, outputs: &mut Outputs) -> Result<Step, OutOfMemory> {
        let Some(words) = &mut self.words else {
            // Only the last step takes it away.
            unreachable!()
        };
        let count = write_block(words, &mut self.bytes);
        if count == 0 {
            let finished = finish(alloc, self.source, &mut self.words)?;
            return Ok(Step::Done(finished));
        }
        outputs.give(0, &self.bytes[..count])?;
        Ok(Step::More)
    }
}
