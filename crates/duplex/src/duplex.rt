ghost use Rattle.std.specs.Prelude.{◌≡◌, ℕ, ◌≤◌};
ghost use Rattle.duplex_model.specs.DuplexRun as model;

use crate::inbox::Inbox;
use crate::side::Side;
use crate::way::send;
use lk_base::{OutOfMemory, Shape};
use std::alloc::Global;

/// One of the two ends of a run.
#[derive(Clone, Copy, Debug, PartialEq, Eq)]
pub enum End {
    A,
    B,
}

/// The settings of a run.
#[derive(Clone, Copy, Debug)]
pub struct Settings {
    /// How many slots a word is on its way: 1..=4096.
    pub delay: u32,
    /// The words in a queue from which on its channel is told to be off: at least 1.
    pub mark: u32,
    /// Each queue loses a word at the multiples of this number of slots: at least 1.
    pub drain: u32,
    pub ghost delay_low: { 1 ≤ delay },
    pub ghost delay_high: { delay ≤ 4096 },
    pub ghost mark_low: { 1 ≤ mark },
    pub ghost drain_low: { 1 ≤ drain },
}

/// What both ends of a run have.
#[derive(Clone, Copy, Debug)]
pub struct BothEnds<'c> {
    /// The shape of their streams.
    pub shape: Shape,
    /// The channels, each once.
    pub channels: &'c [u16],
    /// The calendar: a channel in each entry.
    pub entries: &'c [u16],
    /// The most bytes of a packet that comes.
    pub max_packet: u32,
    /// Whether channel numbers are read as wide ones.
    pub wide: bool,
}

/// A packet that arrived.
#[derive(Clone, Copy, Debug)]
pub struct Got {
    /// The end at which it arrived.
    pub end: End,
    pub channel: u16,
    /// How many bytes it has.
    pub length: u32,
}

// why: Duplex::new takes numbers, and not a plan and its settings: the crate of the machine needs neither the crate of plans
// nor the crate of settings. duplex_commands takes the numbers from both.
/// A run of two ends, slot by slot. `Waits duplex settings ends` says that it is before the first slot, with these packets;
/// `Runs duplex settings ends slots a b`, that this many slots were done, in which the ends sent the words a and b; and
/// `HasGot duplex setting settings slots a b got_a got_b`, that these packets of these words were given so far, by channel.
#[derive(Drop)]
pub struct Duplex<'a> {
    pub a: Side<'a>,
    pub b: Side<'a>,
    pub inbox_a: Inbox,
    pub inbox_b: Inbox,
    // The end of the packet that was given last.
    pub from: End,
    pub mark: u32,
    pub drain: u32,
    pub slot: u32,
}

impl<'a> Duplex<'a> {
    ghost use Rattle.std.specs.Prelude.{◌≡◌, ℕ, suc, ◌+◌, ◌-◌, ◌^◌, ◌<◌, ◌≤◌, ◌++◌, ◌∷◌, [], List, length, min, take, drop, All, Contains, sum_by, IfOk, OnOk, OnErr, OnSome, IfSome, IfNone};
    ghost use Rattle.lk_base.specs.Limits.{longest_packet};
    ghost use Rattle.receive_model.specs.Events.{Setting};
    ghost use Rattle.receive_model.specs.Pieces.{Packet};
    ghost use Rattle.reassembly.specs.Settings.{IsSettingOf};
    ghost use Rattle.std.specs.List.{AllPairs};
    ghost use Rattle.lk_base.specs.declared.word.Word.{Word};
    ghost use Rattle.duplex_model.specs.DuplexRun.{Ends, queue_before, peak};
    ghost use Rattle.duplex.specs.Duplexes.{settings_of, empty_ends, packet_added, packets_of, side_of, sent_to, Waits, Runs, HasGot, HasGotAll, GivesGot, IsGiven, Lends, lent_bytes, KeepsInboxes, KeepsSides, waiting_of};

    /// A run before its first slot, without packets, between two ends that have these. It answers `OutOfMemory` where memory ran out, and
    /// nowhere else.
    pub fn new(
        alloc: Global,
        ends: &BothEnds,
        settings: Settings,
    ) -> Result<Duplex<'a>, OutOfMemory>
        requires channels_low { 1 ≤ length ends.now.channels.now }
        requires channels_high { length ends.now.channels.now ≤ 1024 }
        requires entries_low { 1 ≤ length ends.now.entries.now }
        requires entries_high { length ends.now.entries.now ≤ 1024 }
        requires distinct { AllPairs (λ x y. x ≡ y → ⊥) ends.now.channels.now }
        requires among { All (Contains ends.now.channels.now) ends.now.entries.now }
        requires longest { ends.now.max_packet ≤ longest_packet }
        ensures waits { IfOk result (λ d. Waits d (settings_of settings) (empty_ends ends.now.shape ends.now.channels.now ends.now.entries.now)) }
        ensures given { IfOk result (λ d. IsGiven d) }
        ensures got { IfOk result (λ d. (setting : Setting) → IsSettingOf setting ends.now.channels.now ends.now.max_packet ends.now.wide → HasGot d setting (settings_of settings) 0 [] [] [] []) }
    {
        let inbox_a = Inbox::new(alloc, ends.channels, ends.max_packet, ends.wide)?;
        let inbox_b = Inbox::new(alloc, ends.channels, ends.max_packet, ends.wide)?;
        let a = Side::new(
            alloc,
            ends.shape,
            ends.channels,
            ends.entries,
            settings.delay as usize,
        )?;
        let b = Side::new(
            alloc,
            ends.shape,
            ends.channels,
            ends.entries,
            settings.delay as usize,
        )?;
        Ok(Duplex {
            a,
            b,
            inbox_a,
            inbox_b,
            from: End::A,
            mark: settings.mark,
            drain: settings.drain,
            slot: 0,
        })
    }

    /// Adds a packet that this end sends, lent, before the first slot.
    pub fn packet(&mut self, end: End, channel: u16, bytes: &'a [u8]) -> Result<(), OutOfMemory>
        requires waits { (settings : model.Settings) × (ends : Ends) × Waits self.old settings ends × Contains ends.channels channel × (sum_by (λ (p : ℕ × List ℕ). length p.1) (packets_of ends end) < 2 ^ 40) }
        requires low { 1 ≤ length bytes.now }
        requires high { length bytes.now ≤ 262144 }
        ensures ok { OnOk result ((settings : model.Settings) (ends : Ends) → Waits self.old settings ends → Waits self.new settings (packet_added ends end channel bytes.now)) }
        ensures err { OnErr result ((settings : model.Settings) (ends : Ends) → Waits self.old settings ends → Waits self.new settings ends) }
        ensures inboxes { KeepsInboxes self.old self.new }
    {
        match end {
            End::A => self.a.packet(channel, bytes),
            End::B => self.b.packet(channel, bytes),
        }
    }

    /// Does one slot, once `next` has answered `None` since the last: each end takes the word that the other sent `delay` slots
    /// ago, each queue may lose a word, each channel is told to be on exactly where its queue is below the mark, and each end
    /// sends one word. It takes no memory.
    pub fn slot(&mut self)
        requires runs { (settings : model.Settings) × (ends : Ends) × (slots : ℕ) × (a : List Word) × (b : List Word) × Runs self.old settings ends slots a b × (slots < 2 ^ 24) }
        requires got { (setting : Setting) × (settings : model.Settings) × (slots : ℕ) × (a : List Word) × (b : List Word) × (got_a : List (ℕ × Packet)) × (got_b : List (ℕ × Packet)) × HasGot self.old setting settings slots a b got_a got_b × (slots < 2 ^ 24) }
        requires given { IsGiven self.old }
        ensures runs { (settings : model.Settings) (ends : Ends) (slots : ℕ) (a b : List Word) → Runs self.old settings ends slots a b → (from_a from_b : Word) × Runs self.new settings ends (suc slots) (a ++ from_a ∷ []) (b ++ from_b ∷ []) }
        ensures got { (setting : Setting) (settings : model.Settings) (ends : Ends) (slots : ℕ) (a b : List Word) (got_a got_b : List (ℕ × Packet)) (from_a from_b : Word) → Runs self.old settings ends slots a b → HasGot self.old setting settings slots a b got_a got_b → HasGot self.new setting settings (suc slots) (a ++ from_a ∷ []) (b ++ from_b ∷ []) got_a got_b }
    {
        self.inbox_a.take(&self.a.way);
        self.inbox_b.take(&self.b.way);
        let drains = self.slot % self.drain == 0;
        let from_a = self.a.turn(drains, self.mark);
        let from_b = self.b.turn(drains, self.mark);
        send(&mut self.a.way, from_b);
        send(&mut self.b.way, from_a);
        self.slot += 1;
    }

    /// The next packet that arrived, those at end a before those at end b, and those of an end in the order of their end
    /// words. `None` exactly where all were given. It takes no memory, and the bytes are lent until the next call.
    pub fn next(&mut self) -> Option<Got>
        ensures some { IfSome result (λ got. (setting : Setting) (settings : model.Settings) (slots : ℕ) (a b : List Word) (got_a got_b : List (ℕ × Packet)) → HasGot self.old setting settings slots a b got_a got_b → GivesGot self.new setting settings slots a b got_a got_b got.end got.channel got.length) }
        ensures none { IfNone result ((setting : Setting) (settings : model.Settings) (slots : ℕ) (a b : List Word) (got_a got_b : List (ℕ × Packet)) → HasGot self.old setting settings slots a b got_a got_b → HasGot self.new setting settings slots a b got_a got_b × HasGotAll setting settings slots a b got_a got_b) }
        ensures given { IfNone result (IsGiven self.new) }
        ensures lends { IfSome result (λ got. (self.new.from ≡ got.end) × Lends self.new) }
        ensures fewer { OnSome result (waiting_of self.new < waiting_of self.old) }
        ensures rest { KeepsSides self.old self.new }
    {
        if let Some(packet) = self.inbox_a.next() {
            self.from = End::A;
            return Some(Got {
                end: End::A,
                channel: packet.channel,
                length: packet.length,
            });
        }
        if let Some(packet) = self.inbox_b.next() {
            self.from = End::B;
            return Some(Got {
                end: End::B,
                channel: packet.channel,
                length: packet.length,
            });
        }
        None
    }

    /// Copies the bytes of the packet that `next` gave from the offset on, as many as `buf` has room for, and returns how many.
    pub fn packet_read(&self, offset: u32, buf: &mut [u8]) -> usize
        requires { Lends self.now }
        ensures count { result ≡ min (length buf.old) (length (lent_bytes self.now) - offset) }
        ensures copied { buf.new ≡ take result (drop offset (lent_bytes self.now)) ++ drop result buf.old }
    {
        match self.from {
            End::A => self.inbox_a.packet_read(offset, buf),
            End::B => self.inbox_b.packet_read(offset, buf),
        }
    }

    // The end.
    fn side(&self, end: End) -> &Side<'a>
        ensures { result.now ≡ side_of self.now end }
    {
        match end {
            End::A => &self.a,
            End::B => &self.b,
        }
    }

    /// How many words are queued on a listed channel at an end.
    pub fn queue(&self, end: End, channel: u16) -> u32
        requires { (settings : model.Settings) × (ends : Ends) × (slots : ℕ) × (a : List Word) × (b : List Word) × Runs self.now settings ends slots a b × Contains ends.channels channel }
        ensures { (settings : model.Settings) (ends : Ends) (slots : ℕ) (a b : List Word) → Runs self.now settings ends slots a b → Contains ends.channels channel → result ≡ queue_before settings (sent_to end a b) channel slots }
    {
        self.side(end).queues.of(channel).words
    }

    /// The most words that were queued on a listed channel at an end.
    pub fn peak(&self, end: End, channel: u16) -> u32
        requires { (settings : model.Settings) × (ends : Ends) × (slots : ℕ) × (a : List Word) × (b : List Word) × Runs self.now settings ends slots a b × Contains ends.channels channel }
        ensures { (settings : model.Settings) (ends : Ends) (slots : ℕ) (a b : List Word) → Runs self.now settings ends slots a b → Contains ends.channels channel → result ≡ peak settings (sent_to end a b) channel slots }
    {
        self.side(end).queues.of(channel).peak
    }
}
