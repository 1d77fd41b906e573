ghost use Rattle.std.specs.Prelude.{◌≡◌, ◌↔◌, ℕ, ◌≤◌, List, [], ◌∷◌, ◌++◌, map, length, Some, None, IfOk};
ghost use Rattle.stream_model.specs.BurstStream.{Source, IsBurstStream, IsHeld};
ghost use Rattle.lk_base.specs.declared.word.Word.{Word as SentWord};
ghost use Rattle.lk_base.specs.declared.word.Word.TheVariants.{Data};
ghost use Rattle.tx_words.specs.Counts.{AreCounts};
ghost use Rattle.tx_words.specs.Sources.{IsHeldOn};

use crate::counts::{Tally, count_burst, count_bursts_by, no_tallies};
use crate::source::StreamSource;
use crate::word_maker::WordMaker;
use lk_base::{OutOfMemory, Word};
use report_model::SentCount;
use std::alloc::Global;

/// The words of a payload stream as they are made, a run of data words or a word at a time. Its packets and rows are lent.
#[derive(Drop)]
pub struct StreamWords<'a> {
    maker: WordMaker<'a>,
    // The bursts of each channel so far.
    tallies: Vec<Tally>,
}

impl<'a> StreamWords<'a> {
    ghost use Rattle.tx_words.specs.Streaming.{HasStreamedData, Streams, last_streamed};

    /// No word was made yet.
    ///
    /// # Errors
    ///
    /// `OutOfMemory` where memory ran out, and nowhere else.
    pub fn new(alloc: Global, source: &StreamSource<'a>) -> Result<StreamWords<'a>, OutOfMemory>
        ensures { IfOk result (λ s. Streams s source.now []) }
    {
        let maker = WordMaker::new(alloc, source)?;
        let tallies = no_tallies(alloc)?;
        Ok(StreamWords { maker, tallies })
    }

    /// Makes the next data words of the burst under way, up to the slot of the next row, and returns how many: at most `most`.
    /// `last_data` lends their numbers.
    #[inline]
    pub fn next_data(&mut self, most: usize) -> usize
        requires { (source : Source) × (words : List SentWord) × Streams self.old source words }
        ensures given { (source : Source) (words : List SentWord) → Streams self.old source words → Streams self.new source (words ++ map Data (last_streamed self.new result)) }
        ensures within { result ≤ most }
        ensures lent { HasStreamedData self.new result }
    {
        // data words are no bursts
        self.maker.next_data(most)
    }

    /// Lends the numbers of the last `count` words made, which are data words of one burst, as `next_data` counts them.
    #[inline]
    pub fn last_data(&self, count: usize) -> &[u64]
        requires { HasStreamedData self.now count }
        ensures numbers { result.now ≡ last_streamed self.now count }
        ensures count { length result.now ≡ count }
    {
        self.maker.last_data(count)
    }

    /// Makes the next word, and returns it: `None` if and only if the last was made.
    pub fn next(&mut self) -> Option<Word>
        requires { (source : Source) × (words : List SentWord) × Streams self.old source words }
        ensures some { (source : Source) (words : List SentWord) (word : SentWord) → Streams self.old source words → result ≡ Some word → Streams self.new source (words ++ word ∷ []) }
        ensures none { (source : Source) (words : List SentWord) → Streams self.old source words → result ≡ None → Streams self.new source words × IsBurstStream source words }
    {
        match self.maker.next() {
            Some(word) => {
                count_burst(&mut self.tallies, word);
                Some(word)
            }
            None => None,
        }
    }

    /// The channel that holds the stream, also while words are still made. Once the whole stream is made, `None` exactly where
    /// all bytes are sent.
    pub fn held(&self) -> Option<u16>
        requires { (source : Source) × (words : List SentWord) × Streams self.now source words }
        ensures held { (source : Source) (words : List SentWord) (channel : ℕ) → Streams self.now source words → IsBurstStream source words → (result ≡ Some channel) ↔ IsHeldOn source words channel }
        ensures free { (source : Source) (words : List SentWord) → Streams self.now source words → IsBurstStream source words → (result ≡ None) ↔ (IsHeld source words → ⊥) }
        ensures only { (source : Source) (words : List SentWord) (channel : ℕ) → Streams self.now source words → result ≡ Some channel → IsHeldOn source words channel }
    {
        self.maker.held()
    }

    /// How many words were made.
    pub fn slots(&self) -> u64
        requires { (source : Source) × (words : List SentWord) × Streams self.now source words }
        ensures { (source : Source) (words : List SentWord) → Streams self.now source words → result ≡ length words }
    {
        self.maker.slots()
    }

    /// The counts of `count_sent`, once all words are made.
    ///
    /// # Errors
    ///
    /// `OutOfMemory` where memory ran out, and nowhere else.
    pub fn counts(self, alloc: Global, source: &StreamSource) -> Result<Vec<SentCount>, OutOfMemory>
        requires { (words : List SentWord) × Streams self source.now words }
        ensures { IfOk result (λ counts. (words : List SentWord) → Streams self.entry source.now words → IsBurstStream source.now words →
            AreCounts source.now words counts.items) }
    {
        count_bursts_by(alloc, source, self.tallies)
    }
}
