ghost use Rattle.std.specs.Prelude.{◌≡◌, ℕ, suc, ◌%◌, ◌^◌, ◌<◌, ◌++◌, ◌∷◌, [], ◌==◌, List, length, Contains, All, sum_by, ◌≤◌, IfOk, OnOk, OnErr};
ghost use Rattle.std.specs.List.{AllPairs};
ghost use Rattle.lk_base.specs.declared.word.Word.{Word};
ghost use Rattle.stream_model.specs.BurstStream.{Source};
ghost use Rattle.duplex_model.specs.DuplexRun.{Settings, AreSettings, Ends};
ghost use Rattle.duplex.specs.Sides.{IsFresh, Hears, IsSideAt, HasTaken, AreListed, joins, hearing, KeepsQueues};

use crate::queue::Queues;
use crate::way::first_word;
use burst_scheduler::Scheduler;
use circular_buffer::HeapCircularBuffer;
use control_words::ControlWord;
use lk_base::{OutOfMemory, Shape, Word};
use std::alloc::Global;

/// One of the two ends: what it sends, the queues of what arrives, and the words of the other end that are on their way.
#[derive(Drop)]
pub struct Side<'a> {
    pub scheduler: Scheduler<'a>,
    pub queues: Queues,
    pub way: HeapCircularBuffer<Word>,
    // The channel of the burst that arrives, and whether a control word arrived.
    pub burst: Option<u16>,
    pub heard: bool,
}

impl<'a> Side<'a> {
    /// An end that sends no packets, before its first slot.
    pub fn new(
        alloc: Global,
        shape: Shape,
        channels: &[u16],
        entries: &[u16],
        delay: usize,
    ) -> Result<Side<'a>, OutOfMemory>
        requires channels_low { 1 ≤ length channels.now }
        requires channels_high { length channels.now ≤ 1024 }
        requires entries_low { 1 ≤ length entries.now }
        requires entries_high { length entries.now ≤ 1024 }
        requires distinct { AllPairs (λ x y. x ≡ y → ⊥) channels.now }
        requires among { All (Contains channels.now) entries.now }
        ensures { IfOk result (λ s. (settings : Settings) (ends : Ends) → AreSettings settings → delay ≡ settings.delay → shape ≡ ends.shape → channels.now ≡ ends.channels → entries.now ≡ ends.entries → IsFresh s settings ends []) }
    {
        let queues = Queues::new(alloc)?;
        let way = HeapCircularBuffer::with_capacity(alloc, delay)?;
        let scheduler = Scheduler::new(alloc, shape, channels, entries)?;
        Ok(Side {
            scheduler,
            queues,
            way,
            burst: None,
            heard: false,
        })
    }

    /// Adds a packet that this end sends, lent, before its first slot.
    pub fn packet(&mut self, channel: u16, bytes: &'a [u8]) -> Result<(), OutOfMemory>
        requires fresh { (settings : Settings) × (ends : Ends) × (packets : List (ℕ × List ℕ)) × IsFresh self.old settings ends packets × Contains ends.channels channel × (sum_by (λ (p : ℕ × List ℕ). length p.1) packets < 2 ^ 40) }
        requires low { 1 ≤ length bytes.now }
        requires high { length bytes.now ≤ 262144 }
        ensures ok { OnOk result ((settings : Settings) (ends : Ends) (packets : List (ℕ × List ℕ)) → IsFresh self.old settings ends packets → IsFresh self.new settings ends (packets ++ (channel, bytes.now) ∷ [])) }
        ensures err { OnErr result ((settings : Settings) (ends : Ends) (packets : List (ℕ × List ℕ)) → IsFresh self.old settings ends packets → IsFresh self.new settings ends packets) }
    {
        self.scheduler.add_packet(channel, bytes)
    }

    // A control word arrives. It is heard, but for the first.
    fn hear(&mut self, word: u64)
        requires { (source : Source) × (own : List Word) × (arrived : List Word) × Hears self.old source own arrived }
        ensures hears { (source : Source) (own arrived : List Word) → Hears self.old source own arrived → Hears self.new (hearing source (length own) arrived (Word.Control word)) own (arrived ++ Word.Control word ∷ []) }
        ensures rest { KeepsQueues self.old self.new }
    {
        if self.heard {
            self.scheduler.hear(word);
        }
        self.heard = true;
        self.burst = ControlWord(word).burst_channel(true);
    }

    // A word arrives. It joins the queue of the channel of its burst.
    fn take_word(&mut self, word: Word) -> Option<u16>
        requires { (source : Source) × (own : List Word) × (arrived : List Word) × Hears self.old source own arrived }
        ensures hears { (source : Source) (own arrived : List Word) → Hears self.old source own arrived → Hears self.new (hearing source (length own) arrived word) own (arrived ++ word ∷ []) }
        ensures joins { (source : Source) (own arrived : List Word) → Hears self.old source own arrived → joins result arrived word }
        ensures rest { KeepsQueues self.old self.new }
    {
        match word {
            Word::Data(_) => self.burst,
            Word::Control(number) => {
                self.hear(number);
                None
            }
        }
    }

    // The word that arrives in this slot is taken, if there is one.
    fn take(&mut self) -> Option<u16>
        requires { (settings : Settings) × (ends : Ends) × (packets : List (ℕ × List ℕ)) × (own : List Word) × (sent : List Word) × AreSettings settings × (length own ≡ length sent) × IsSideAt self.old settings ends packets own sent (length sent) }
        ensures { (settings : Settings) (ends : Ends) (packets : List (ℕ × List ℕ)) (own sent : List Word) → AreSettings settings → length own ≡ length sent → IsSideAt self.old settings ends packets own sent (length sent) → HasTaken self.new settings ends packets own sent result }
    {
        match first_word(&self.way) {
            Some(word) => self.take_word(word),
            None => None,
        }
    }

    /// Does one slot, up to the word that it sends. The word that the other end sends in this slot is still to be given.
    pub fn turn(&mut self, drains: bool, mark: u32) -> Word
        requires { (settings : Settings) × (ends : Ends) × (packets : List (ℕ × List ℕ)) × (own : List Word) × (sent : List Word) × AreSettings settings × (length own ≡ length sent) × IsSideAt self.old settings ends packets own sent (length sent) × AreListed ends.channels sent × (mark ≡ settings.mark) × (length sent < 2 ^ 24) }
        ensures { (settings : Settings) (ends : Ends) (packets : List (ℕ × List ℕ)) (own sent : List Word) → AreSettings settings → length own ≡ length sent → IsSideAt self.old settings ends packets own sent (length sent) → AreListed ends.channels sent → mark ≡ settings.mark → drains ≡ (length sent % settings.drain == 0) → IsSideAt self.new settings ends packets (own ++ result ∷ []) sent (suc (length sent)) }
    {
        let joined = self.take();
        self.queues.turn(&mut self.scheduler, mark, joined, drains);
        self.scheduler.step_open()
    }
}
