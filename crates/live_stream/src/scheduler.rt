use super::counts::Counts;
use super::refused::{Closed, LocalRefused, Refused};
use super::turns::{first_ready, place, to_back, turn_all};
use super::waiting::{Waiting, empty_queues, packets_left};
use arrayvec::ArrayVec;
use burst_scheduler::{BurstLine, BurstSizes};
use calendar::{CalendarIn, verified_word};
use lk_base::{OutOfMemory, Shape, Word};
use std::alloc::Global;

/// The most words of a stream. A scheduler makes none after them.
pub const MOST_WORDS: u64 = 1_152_921_504_606_846_976;

/// The maker of a payload stream that takes packets and rows at any time: between any two words a packet, a word of the far end's
/// flow control or a state of this end's own may be given, each of which counts from the next word on. `Gives scheduler given words`
/// says what it was given and which words it made; each call says what it makes of this, and `words_are_live` which words they are.
///
/// The queues stand in the order of their channels' turns: the next burst is on the first channel in it that is on and has bytes left,
/// and it goes to the back with its burst, as it does where flow control turns it on. A packet for an idle channel leaves the order as
/// it is, so that the channel goes before those that had a burst since its own last one.
#[derive(Drop)]
pub struct LiveScheduler {
    alloc: Global,
    // The settings: bytes of a burst, slots between two bursts, slots of a group, slots of the warm-up, bytes of the longest packet.
    sizes: BurstSizes,
    short: u64,
    group: u64,
    warm: u64,
    max_packet: u32,
    // The listed channels in the order of their turns.
    turns: Vec<Waiting>,
    incoming: CalendarIn,
    slot: u64,
    burst: BurstLine,
    // The first slot that is far enough from the last burst word.
    free: u64,
    // No packet is accepted any more.
    packets_closed: bool,
    // The slots at which it was closed, and at which the ending was found.
    closed: Option<u64>,
    finish: Option<u64>,
}

impl LiveScheduler {
    ghost use Rattle.std.specs.Prelude.{◌≡◌, ◌⊎◌, ◌↔◌, ℕ, ◌+◌, ◌*◌, ◌/◌, ◌<◌, ◌≤◌, List, [], ◌∷◌, ◌++◌, length, true, is_err, Contains, IfOk, OnOk, OnErr, Ok, Err, MatchOption, IsSome, Some, None};
    ghost use Rattle.std.specs.Bool.{MatchBool};
    ghost use Rattle.std.specs.List.{AllPairs};
    ghost use Rattle.lk_base.specs.declared.word.Word.{Word};
    ghost use Rattle.live_stream.specs.LiveStream.{Given, IsWholeLiveStream};
    ghost use Rattle.live_stream.specs.Gives.{Gives, nothing_given, packet_added, flow_added, local_added, packets_closed_in, closed_at, words_of, most_words, is_among, refuses_packets, refusal_of, local_refusal_of, left_in_all, AreCountsOf, Holds, IsDue, IsIdleTime, IsBurstTime, AddsBlock, MayGoOn, as_control, as_data};
    ghost use Rattle.calendar.specs.Changes.{told_back};
    ghost use Rattle.duplex_model.specs.DuplexRun.{heard_word};
    ghost use Rattle.live_stream.specs.declared.refused.Refused.TheVariants as refused;

    /// Nothing was given yet, and no word was made. A packet may have up to `max_packet` bytes.
    pub fn new(
        alloc: Global,
        shape: Shape,
        max_packet: u32,
        channels: &[u16],
        entries: &[u16],
    ) -> Result<LiveScheduler, OutOfMemory>
        requires entries_low { 1 ≤ length entries.now }
        requires entries_high { length entries.now ≤ 1024 }
        requires distinct { AllPairs (λ x y. x ≡ y → ⊥) channels.now }
        ensures { IfOk result (λ s. Gives s (nothing_given shape max_packet channels.now entries.now) []) }
    {
        let incoming = CalendarIn::new(alloc, entries)?;
        let burst = BurstLine::new(alloc, entries)?;
        let turns = empty_queues(alloc, channels)?;
        Ok(LiveScheduler {
            alloc,
            sizes: BurstSizes {
                most: shape.burst_max as usize,
                least: shape.burst_min as usize,
            },
            short: (shape.burst_short / 8) as u64,
            group: shape.group,
            warm: shape.warmup * shape.group,
            max_packet,
            turns,
            incoming,
            slot: 0,
            burst,
            free: 0,
            packets_closed: false,
            closed: None,
            finish: None,
        })
    }

    // Whether no packet is accepted any more.
    fn refuses_packets(&self) -> bool
        requires { (g : Given) × (w : List Word) × Gives self.now g w }
        ensures { (g : Given) (w : List Word) → Gives self.now g w → result ≡ refuses_packets g }
    {
        let closed = self.closed.is_some();
        self.packets_closed || closed
    }

    // Whether a channel is listed.
    fn lists(&self, channel: u16) -> bool
        requires { (g : Given) × (w : List Word) × Gives self.now g w }
        ensures { (g : Given) (w : List Word) → Gives self.now g w → result ≡ is_among g.channels channel }
    {
        place(&self.turns, channel) < self.turns.len()
    }

    /// Gives a packet, with its bytes copied. It counts from the next word on.
    ///
    /// # Errors
    ///
    /// In this order: the packets were closed or the stream, the channel is not listed, the packet has no bytes, or more than
    /// `max_packet`, the channel would be given more than `MOST_BYTES`, memory ran out. Nothing has changed then.
    pub fn packet(&mut self, channel: u16, bytes: &[u8]) -> Result<(), Refused>
        requires { (g : Given) × (w : List Word) × Gives self.old g w }
        ensures ok { OnOk result ((g : Given) (w : List Word) → Gives self.old g w → Gives self.new (packet_added g w channel bytes.now) w) }
        ensures err { OnErr result ((g : Given) (w : List Word) → Gives self.old g w → Gives self.new g w) }
        ensures why { (g : Given) (w : List Word) → Gives self.old g w → MatchOption (refusal_of g channel bytes.now) ((result ≡ Ok tt) ⊎ (result ≡ Err refused.OutOfMemory)) (λ why. result ≡ Err why) }
    {
        if self.refuses_packets() {
            return Err(Refused::Closed);
        }
        let at = place(&self.turns, channel);
        if at >= self.turns.len() {
            return Err(Refused::UnknownChannel);
        }
        if bytes.len() == 0 {
            return Err(Refused::Empty);
        }
        if bytes.len() > self.max_packet as usize {
            return Err(Refused::TooLong);
        }
        if !self.turns[at].has_room(bytes.len()) {
            return Err(Refused::TooMuch);
        }
        self.turns[at].add(self.alloc, bytes)?;
        Ok(())
    }

    /// Hears a control word of the far end that was verified, whatever its checksum. It counts from the next word on, as a flow row with the
    /// checksum of the word alone.
    ///
    /// # Errors
    ///
    /// The stream was closed. Nothing has changed then.
    pub fn hear(&mut self, word: u64) -> Result<(), Closed>
        requires { (g : Given) × (w : List Word) × Gives self.old g w }
        ensures open { (g : Given) (w : List Word) → Gives self.old g w → g.closed ≡ None → (result ≡ Ok tt) × Gives self.new (flow_added g w (heard_word word)) w }
        ensures closed { (g : Given) (w : List Word) (slot : ℕ) → Gives self.old g w → g.closed ≡ Some slot → (is_err result ≡ true) × Gives self.new g w }
    {
        if self.closed.is_some() {
            return Err(Closed);
        }
        let mut changed = ArrayVec::new();
        self.incoming.take(verified_word(word), &mut changed);
        turn_all(&mut self.turns, &changed);
        Ok(())
    }

    /// Gives a state of this end's own: the channel is on or off from the next control word on, as the control words tell it. It changes
    /// no burst. Of a channel that has no entry in the calendar no word tells it.
    ///
    /// # Errors
    ///
    /// In this order: the stream was closed, the channel is not listed. Nothing has changed then.
    pub fn local(&mut self, channel: u16, on: bool) -> Result<(), LocalRefused>
        requires { (g : Given) × (w : List Word) × Gives self.old g w }
        ensures ok { OnOk result ((g : Given) (w : List Word) → Gives self.old g w → Gives self.new (local_added g w channel on) w) }
        ensures err { OnErr result ((g : Given) (w : List Word) → Gives self.old g w → Gives self.new g w) }
        ensures why { (g : Given) (w : List Word) → Gives self.old g w → MatchOption (local_refusal_of g channel) (result ≡ Ok tt) (λ why. result ≡ Err why) }
    {
        if self.closed.is_some() {
            return Err(LocalRefused::Closed);
        }
        if !self.lists(channel) {
            return Err(LocalRefused::UnknownChannel);
        }
        self.burst.local(channel, on);
        Ok(())
    }

    /// Closes the packets: none is accepted from now on. Rows are, and the stream goes on. Of packets that were closed it changes nothing.
    pub fn close_packets(&mut self)
        requires { (g : Given) × (w : List Word) × Gives self.old g w }
        ensures { (g : Given) (w : List Word) → Gives self.old g w → Gives self.new (packets_closed_in g) w }
    {
        self.packets_closed = true;
    }

    /// Closes the stream: no packet and no row is accepted from now on, and it ends once no channel is ready. Of a stream that was closed
    /// it changes nothing.
    pub fn finish(&mut self)
        requires { (g : Given) × (w : List Word) × Gives self.old g w }
        ensures { (g : Given) (w : List Word) → Gives self.old g w → Gives self.new (closed_at g w) w }
    {
        if self.closed.is_some() {
            return;
        }
        self.closed = Some(self.slot);
    }

    // An idle, with no data after it.
    fn idle(&mut self) -> u64
        requires words { (g : Given) × (w : List Word) × Holds self.old g w }
        requires due { IsDue self.old }
        ensures { (g : Given) (w : List Word) → Holds self.old g w → IsIdleTime self.old (told_back g.entries g.flow) → Holds self.new g (w ++ as_control result ∷ []) × AddsBlock self.old self.new w result }
    {
        let x = self.burst.idle();
        self.slot += 1;
        x
    }

    // A burst word on the channel of the queue at this place, which goes to the back.
    fn burst(&mut self, at: usize) -> u64
        requires words { (g : Given) × (w : List Word) × Holds self.old g w × IsBurstTime self.old (told_back g.entries g.flow) at }
        requires due { IsDue self.old }
        ensures { (g : Given) (w : List Word) → Holds self.old g w → IsBurstTime self.old (told_back g.entries g.flow) at → Holds self.new g (w ++ as_control result ∷ []) × AddsBlock self.old self.new w result }
    {
        let channel = self.turns[at].channel;
        let first = self.turns[at].is_first();
        let x = self.burst.burst(channel, first);
        let taken = self.turns[at].take(self.sizes, &mut self.burst.run);
        self.burst.start(taken);
        to_back(&mut self.turns, at);
        self.free = self.slot + 1 + self.short;
        self.slot += 1;
        x
    }

    // The ending, where it is known once a control word stands at this slot: it is here where the stream is closed and no channel is
    // ready after the warm-up.
    fn ending(&self, ready: Option<usize>) -> Option<u64>
        ensures found { self.now.finish ≡ None → IsSome self.now.closed → self.now.warm ≤ self.now.slot → ready ≡ None → result ≡ Some self.now.slot }
        ensures still { self.now.finish ≡ None → self.now.closed ≡ None → result ≡ None }
        ensures early { self.now.finish ≡ None → self.now.slot < self.now.warm → result ≡ None }
        ensures ready { (at : ℕ) → self.now.finish ≡ None → ready ≡ Some at → result ≡ None }
        ensures before { (z : ℕ) → self.now.finish ≡ Some z → result ≡ Some z }
    {
        if self.finish.is_some() {
            return self.finish;
        }
        if self.closed.is_some() && self.slot >= self.warm && ready.is_none() {
            Some(self.slot)
        } else {
            None
        }
    }

    // The next control word: a burst word on the first channel in turn that is ready, or an idle. It is out of line, as most words are
    // data.
    #[inline(never)]
    fn control(&mut self) -> u64
        requires gives { (g : Given) × (w : List Word) × Gives self.old g w × MayGoOn self.old }
        requires due { IsDue self.old }
        ensures { (g : Given) (w : List Word) → Gives self.old g w → MayGoOn self.old → Gives self.new g (w ++ as_control result ∷ []) }
    {
        let ready = first_ready(&self.turns, &self.incoming);
        self.finish = self.ending(ready);
        let waits = self.slot < self.warm || self.slot < self.free;
        match ready {
            Some(at) => { if waits { self.idle() } else { self.burst(at) } }
            None => self.idle(),
        }
    }

    // Whether the last word was made: the words end with the group after that of the ending.
    fn ends_here(&self) -> bool
        requires { (g : Given) × (w : List Word) × Gives self.now g w × (self.now.slot < most_words) }
        ensures { (g : Given) (w : List Word) → Gives self.now g w → MatchBool result (IsWholeLiveStream g w) ((IsWholeLiveStream g w → ⊥) × MayGoOn self.now) }
    {
        match self.finish {
            Some(z) => self.slot == self.group * (z / self.group + 2),
            None => false,
        }
    }

    // The next data word of the burst that is under way.
    fn data(&mut self) -> u64
        requires gives { (g : Given) × (w : List Word) × Gives self.old g w × MayGoOn self.old }
        requires going { self.old.burst.given < self.old.burst.count }
        requires slot { self.old.slot < most_words }
        ensures { (g : Given) (w : List Word) → Gives self.old g w → MayGoOn self.old → Gives self.new g (w ++ as_data result ∷ []) }
    {
        let x = self.burst.data();
        self.slot += 1;
        x
    }

    /// The next word. `None` comes exactly where the stream is whole, which is so only after `finish`, or where it has `MOST_WORDS`
    /// words.
    #[inline]
    pub fn next(&mut self) -> Option<Word>
        requires { (g : Given) × (w : List Word) × Gives self.old g w }
        ensures gives { (g : Given) (w : List Word) → Gives self.old g w → Gives self.new g (w ++ words_of result) }
        ensures end { (g : Given) (w : List Word) → Gives self.old g w → (result ≡ None) ↔ (IsWholeLiveStream g w ⊎ (most_words ≤ length w)) }
    {
        if self.slot >= MOST_WORDS || self.ends_here() {
            return None;
        }
        if self.burst.given < self.burst.count {
            Some(Word::Data(self.data()))
        } else {
            Some(Word::Control(self.control()))
        }
    }

    /// What was given to a channel and what was sent of it, or `None` where the channel is not listed.
    pub fn counts(&self, channel: u16) -> Option<Counts>
        requires { (g : Given) × (w : List Word) × Gives self.now g w }
        ensures { (g : Given) (w : List Word) → Gives self.now g w → MatchOption result (Contains g.channels channel → ⊥) (λ counts. Contains g.channels channel × AreCountsOf counts g w channel) }
    {
        let at = place(&self.turns, channel);
        if at < self.turns.len() {
            Some(self.turns[at].counts)
        } else {
            None
        }
    }

    /// How many packets were given, to all channels, whose last burst was not sent. Where these are more than 64 bits can say, it is
    /// the most that they can.
    pub fn left(&self) -> u64
        requires { (g : Given) × (w : List Word) × Gives self.now g w }
        ensures { (g : Given) (w : List Word) → Gives self.now g w → result ≡ left_in_all g w }
    {
        packets_left(&self.turns)
    }

    /// Whether no word is made any more: the stream is whole, which is so only after `finish`, or it has `MOST_WORDS` words.
    pub fn is_over(&self) -> bool
        requires { (g : Given) × (w : List Word) × Gives self.now g w }
        ensures { (g : Given) (w : List Word) → Gives self.now g w → (result ≡ true) ↔ (IsWholeLiveStream g w ⊎ (most_words ≤ length w)) }
    {
        self.slot >= MOST_WORDS || self.ends_here()
    }

    /// How many words were made.
    pub fn slot(&self) -> u64
        requires { (g : Given) × (w : List Word) × Gives self.now g w }
        ensures { (g : Given) (w : List Word) → Gives self.now g w → result ≡ length w }
    {
        self.slot
    }
}
