ghost use Rattle.std.specs.Prelude.{◌≡◌, ◌↔◌, ◌<◌, ◌≤◌, ℕ, List, [], ◌∷◌, ◌++◌, true, false, map, take, drop, length, Some, None, IfOk};
ghost use Rattle.stream_model.specs.BurstStream.{Source, IsBurstStream, IsHeld};
ghost use Rattle.lk_base.specs.declared.word.Word.{Word as SentWord};
ghost use Rattle.lk_base.specs.declared.word.Word.TheVariants.{Data};
ghost use Rattle.burst_scheduler.specs.Gives.{Gives};
ghost use Rattle.tx_words.specs.Driving.{driven};
ghost use Rattle.tx_words.specs.Sources.{IsHeldOn};

use crate::rows::{before_flow, before_local, pass_flow, pass_local};
use crate::source::StreamSource;
use burst_scheduler::Scheduler;
use lk_base::{OutOfMemory, Word};
use std::alloc::Global;
use stream_model::{FlowRow, LocalRow};

/// The words of a payload stream, one after another. Its packets and rows are lent.
#[derive(Drop)]
pub struct WordMaker<'a> {
    scheduler: Scheduler<'a>,
    flow: &'a [FlowRow],
    local: &'a [LocalRow],
    // How many of the rows were passed.
    flow_passed: usize,
    local_passed: usize,
}

// A scheduler with all packets of a source, and none of its rows.
fn loaded<'a>(alloc: Global, source: &StreamSource<'a>) -> Result<Scheduler<'a>, OutOfMemory>
    ensures { IfOk result (λ s. Gives s (driven source.now [] 0 0 0 false false)) }
{
    let mut scheduler = Scheduler::new(alloc, source.shape, source.channels, source.entries)?;
    for packet in source.packets {
        scheduler.add_packet(packet.channel, packet.bytes)?;
    }
    Ok(scheduler)
}

// Writes data words of these numbers into the first places of `out`. The other places stay as they are.
#[tactic(auto, using(crate::proofs::BlockWords::map_take_more, burst_scheduler::proofs::Lists::take_set, crate::proofs::BlockWords::drop_set))]
fn write_data(out: &mut [Word], numbers: &[u64])
    requires room { length numbers.now ≤ length out.old }
    ensures words { take (length numbers.now) out.new ≡ map Data numbers.now }
    ensures rest { drop (length numbers.now) out.new ≡ drop (length numbers.now) out.old }
    ensures long { length out.new ≡ length out.old }
{
    for place in 0..numbers.len() {
        out[place] = Word::Data(numbers[place]);
    }
}

impl<'a> WordMaker<'a> {
    ghost use Rattle.tx_words.specs.Making.{GaveWords, HasMadeData, last_made};

    /// No word was made yet.
    ///
    /// # Errors
    ///
    /// `OutOfMemory` where memory ran out, and nowhere else.
    pub fn new(alloc: Global, source: &StreamSource<'a>) -> Result<WordMaker<'a>, OutOfMemory>
        ensures { IfOk result (λ m. GaveWords m source.now []) }
    {
        let scheduler = loaded(alloc, source)?;
        Ok(WordMaker {
            scheduler,
            flow: source.flow,
            local: source.local,
            flow_passed: 0,
            local_passed: 0,
        })
    }

    /// Makes the next word, and returns it: `None` if and only if the last was made. The rows of its slot are passed before, the
    /// local ones first.
    pub fn next(&mut self) -> Option<Word>
        requires { (source : Source) × (words : List SentWord) × GaveWords self.old source words }
        ensures some { (source : Source) (words : List SentWord) (word : SentWord) → GaveWords self.old source words → result ≡ Some word → GaveWords self.new source (words ++ word ∷ []) }
        ensures none { (source : Source) (words : List SentWord) → GaveWords self.old source words → result ≡ None → GaveWords self.new source words × IsBurstStream source words }
    {
        let slot = self.scheduler.slot();
        self.local_passed = pass_local(&mut self.scheduler, self.local, self.local_passed, slot);
        self.flow_passed = pass_flow(&mut self.scheduler, self.flow, self.flow_passed, slot);
        self.scheduler.step(self.flow_passed < self.flow.len())
    }

    /// Makes the next data words of the burst under way, up to the slot of the next row, and returns how many: at most `most`.
    /// `last_data` lends their numbers.
    #[inline]
    pub fn next_data(&mut self, most: usize) -> usize
        requires { (source : Source) × (words : List SentWord) × GaveWords self.old source words }
        ensures given { (source : Source) (words : List SentWord) → GaveWords self.old source words → GaveWords self.new source (words ++ map Data (last_made self.new result)) }
        ensures within { result ≤ most }
        ensures lent { HasMadeData self.new result }
    {
        let slot = self.scheduler.slot();
        let local = before_local(self.local, self.local_passed, slot);
        let flow = before_flow(self.flow, self.flow_passed, slot);
        let room = local.min(flow).min(most as u64) as usize;
        self.scheduler.next_data(room)
    }

    /// Lends the numbers of the last `count` words made, which are data words of one burst, as `next_data` counts them.
    #[inline]
    pub fn last_data(&self, count: usize) -> &[u64]
        requires { HasMadeData self.now count }
        ensures numbers { result.now ≡ last_made self.now count }
        ensures count { length result.now ≡ count }
    {
        self.scheduler.last_data(count)
    }

    // Makes the next data words of the burst under way, as `next_data` makes them, and returns how many. They stand in the first places
    // of the block, whose other places stay as they are.
    fn data_run(&mut self, block: &mut [Word]) -> usize
        requires { (source : Source) × (words : List SentWord) × GaveWords self.old source words }
        ensures given { (source : Source) (words : List SentWord) → GaveWords self.old source words → GaveWords self.new source (words ++ take result block.new) }
        ensures within { result ≤ length block.old }
        ensures rest { drop result block.new ≡ drop result block.old }
        ensures long { length block.new ≡ length block.old }
    {
        let count = self.next_data(block.len());
        write_data(block, self.last_data(count));
        count
    }

    // The next words, one or more: the data words of the burst under way, or the one next word. None exactly after the last.
    fn next_few(&mut self, block: &mut [Word]) -> usize
        requires made { (source : Source) × (words : List SentWord) × GaveWords self.old source words }
        requires room { 1 ≤ length block.old }
        ensures given { (source : Source) (words : List SentWord) → GaveWords self.old source words → GaveWords self.new source (words ++ take result block.new) }
        ensures whole { (source : Source) (words : List SentWord) → GaveWords self.old source words → result ≡ 0 → IsBurstStream source words }
        ensures within { result ≤ length block.old }
        ensures rest { drop result block.new ≡ drop result block.old }
        ensures long { length block.new ≡ length block.old }
    {
        let count = self.data_run(block);
        if count > 0 {
            return count;
        }
        match self.next() {
            Some(word) => {
                block[0] = word;
                1
            }
            None => 0,
        }
    }

    /// Makes the next words, as many as the block has places, and answers how many they are: fewer only where the last word of
    /// the stream is made. They stand in the first places, and the other places stay as they are.
    pub fn next_block(&mut self, block: &mut [Word]) -> usize
        requires { (source : Source) × (words : List SentWord) × GaveWords self.old source words }
        ensures given { (source : Source) (words : List SentWord) → GaveWords self.old source words → GaveWords self.new source (words ++ take result block.new) }
        ensures whole { (source : Source) (words : List SentWord) → GaveWords self.old source words → result < length block.old → IsBurstStream source (words ++ take result block.new) }
        ensures within { result ≤ length block.old }
        ensures rest { drop result block.new ≡ drop result block.old }
        ensures long { length block.new ≡ length block.old }
    {
        let mut count = 0;
        while count < block.len() {
            let more = self.next_few(&mut block[count..]);
            if more == 0 {
                return count;
            }
            count += more;
        }
        count
    }

    /// Whether the last word was made.
    pub fn is_over(&self) -> bool
        requires { (source : Source) × (words : List SentWord) × GaveWords self.now source words }
        ensures over { (source : Source) (words : List SentWord) → GaveWords self.now source words → result ≡ true → IsBurstStream source words }
        ensures going { (source : Source) (words : List SentWord) → GaveWords self.now source words → result ≡ false → IsBurstStream source words → ⊥ }
    {
        self.scheduler.is_over()
    }

    /// The channel that holds the stream, also while words are still made. Once the whole stream is made, `None` exactly where
    /// all bytes are sent.
    pub fn held(&self) -> Option<u16>
        requires { (source : Source) × (words : List SentWord) × GaveWords self.now source words }
        ensures held { (source : Source) (words : List SentWord) (channel : ℕ) → GaveWords self.now source words → IsBurstStream source words → (result ≡ Some channel) ↔ IsHeldOn source words channel }
        ensures free { (source : Source) (words : List SentWord) → GaveWords self.now source words → IsBurstStream source words → (result ≡ None) ↔ (IsHeld source words → ⊥) }
        ensures only { (source : Source) (words : List SentWord) (channel : ℕ) → GaveWords self.now source words → result ≡ Some channel → IsHeldOn source words channel }
    {
        self.scheduler.held()
    }

    /// How many words were made.
    pub fn slots(&self) -> u64
        requires { (source : Source) × (words : List SentWord) × GaveWords self.now source words }
        ensures count { (source : Source) (words : List SentWord) → GaveWords self.now source words → result ≡ length words }
        ensures prefix { (source : Source) (words w : List SentWord) → GaveWords self.now source words → IsBurstStream source w → take (length words) w ≡ words }
    {
        self.scheduler.slot()
    }
}
