ghost use Rattle.std.specs.Prelude.{◌≡◌, ◌≤◌, ◌<◌, ◌+◌, ◌⊎◌, ◌↔◌, ℕ, List, true, false, length, IfOk};
ghost use Rattle.std.specs.Bool.{OnFalse, OnTrue};
ghost use Rattle.std.specs.List.{AllPairs};
ghost use Rattle.duplex_model.specs.DuplexRun.{heard_word};
ghost use Rattle.live_stream.specs.LiveStream.{IsWholeLiveStream};
ghost use Rattle.live_stream.specs.Gives.{most_words};
ghost use Rattle.live_lanes.specs.Lanes.{AreLonger, has_room, waiting_on, wants_payload};
ghost use Rattle.tx_end.specs.Whole.{IsShapeOf};
ghost use Rattle.live_end.specs.Calls.{AreCounted, AreMade, IsClose, IsFilled, IsFlow, IsLocal, IsPacket, IsPacketsClose, IsStatusOf, IsStill, IsTake, MakesRow, MakesWords, Rests};
ghost use Rattle.live_end.specs.Sending.{IsOver, Sends, Sent, nothing_sent, with_columns};

use crate::row::next_row;
use crate::status::Status;
use live_lanes::LiveLanes;
use live_stream::{Closed, Counts, LiveScheduler, LocalRefused, MOST_WORDS, Refused};
use lk_base::{Link, OutOfMemory, Shape, Word};
use std::alloc::Global;
use std::marker::Model;

// why: LiveTransmitter::take makes each word only while fewer bytes wait than are asked for (MakesWords), so a caller that
// takes few bytes at a time has a flow word counted soon. For a lane that does not exist it makes no word.
/// A transmitter of the lanes of a link whose packets and rows are given while it sends. Words are made as bytes of lanes are asked
/// for, one of each lane at a time, so what is given counts from the next word on.
#[derive(Drop)]
pub struct LiveTransmitter {
    scheduler: LiveScheduler,
    lanes: LiveLanes,
    /// The row of words that was made last: one for each lane.
    row: Vec<Word>,
}

impl Model for LiveTransmitter {
    ghost use Rattle.live_end.specs.States.{State, state};
    ghost use Rattle.live_end.specs.Sending.{Sends, Sent};

    ghost Value = { State };

    ghost view = { λ a. state a.scheduler a.lanes a.row.items };

    ghost invariant = { λ a. (x : Sent) × Sends (state a.scheduler a.lanes a.row.items) x };
}

impl LiveTransmitter {
    /// A transmitter of a link that was given nothing and made no word. The shape is that of the link, with any BurstMin; the channels
    /// are different numbers, and the entries are those of the calendar.
    ///
    /// # Errors
    ///
    /// `OutOfMemory` if and only if memory ran out.
    pub fn new(
        alloc: Global,
        link: &Link,
        shape: Shape,
        channels: &[u16],
        entries: &[u16],
    ) -> Result<LiveTransmitter, OutOfMemory>
        requires suits { IsShapeOf link.now shape }
        requires entries_low { 1 ≤ length entries.now }
        requires entries_high { length entries.now ≤ 1024 }
        requires distinct { AllPairs (λ x y. x ≡ y → ⊥) channels.now }
        ensures { IfOk result (λ t. Sends t (nothing_sent link.now shape channels.now entries.now) × (t.lanes.ended ≡ false)) }
    {
        let scheduler = LiveScheduler::new(alloc, shape, link.max_packet(), channels, entries)?;
        let lanes = LiveLanes::new(alloc, link)?;
        let row = vec![in alloc; Word::Data(0); link.lanes() as usize]?;
        Ok(LiveTransmitter {
            scheduler,
            lanes,
            row,
        })
    }

    /// How many lanes the link has.
    pub fn lane_count(&self) -> usize
        ensures { result ≡ length self.now.lanes.lanes }
    {
        self.lanes.count()
    }

    /// Gives a packet, with its bytes copied. It counts from the next word on.
    ///
    /// # Errors
    ///
    /// In this order: it was closed, or its packets were; the channel is not listed; the packet has no bytes, or more than the link's
    /// `max_packet`. Then: the channel would be given more than `MOST_BYTES`; memory ran out. Nothing has changed then.
    pub fn packet(&mut self, channel: u16, bytes: &[u8]) -> Result<(), Refused>
        ensures { IsPacket self.old self.new channel bytes.now result }
    {
        self.scheduler.packet(channel, bytes)
    }

    /// Hears a control word of the far end that was verified, whatever its checksum. It counts from the next word on, as a flow row with the
    /// checksum of the word alone.
    ///
    /// # Errors
    ///
    /// It was closed. Nothing has changed then.
    pub fn hear(&mut self, word: u64) -> Result<(), Closed>
        ensures { IsFlow self.old self.new (heard_word word) result }
    {
        self.scheduler.hear(word)
    }

    /// Gives a state of this end's own. The control words tell it, from the next one on, if the channel has an entry in the calendar.
    ///
    /// # Errors
    ///
    /// In this order: it was closed, the channel is not listed. Nothing has changed then.
    pub fn local(&mut self, channel: u16, on: bool) -> Result<(), LocalRefused>
        ensures { IsLocal self.old self.new channel on result }
    {
        self.scheduler.local(channel, on)
    }

    /// Closes its packets: none is accepted from now on. Rows are, and the lanes go on. Of packets that were closed it changes nothing.
    pub fn close_packets(&mut self)
        ensures { IsPacketsClose self.old self.new }
    {
        // proof: the words that are right stay the same
        live_stream::laws::closed_packets_change_no_word();
        self.scheduler.close_packets();
    }

    /// Closes it: no packet and no row is accepted from now on, and the lanes end once what may be sent is sent. Of one that was closed
    /// it changes nothing.
    pub fn finish(&mut self)
        ensures { IsClose self.old self.new }
    {
        self.scheduler.finish();
    }

    /// What was given to a channel and what was sent of it, or `None` if the channel is not listed. A burst is sent once its burst
    /// word was made.
    pub fn counts(&self, channel: u16) -> Option<Counts>
        ensures { AreCounted self.now channel result }
    {
        self.scheduler.counts(channel)
    }

    /// How many payload words were made: the number of the next one, from which on counts what is given now.
    pub fn slots(&self) -> u64
        ensures { AreMade self.now result }
    {
        self.scheduler.slot()
    }

    /// The state of a lane and what is left to send, or `None` if the link has no such lane. It takes time for each channel.
    pub fn status(&self, lane: u32) -> Option<Status>
        ensures { IsStatusOf self.now lane result }
    {
        if lane as usize >= self.lanes.count() {
            return None;
        }
        Some(Status {
            waiting: self.lanes.waiting(lane) as u64,
            left: self.scheduler.left(),
            ended: self.lanes.has_ended(),
            held: !self.lanes.has_room(),
        })
    }

    // Makes the next word of each lane, a payload word.
    fn put_row(&mut self)
        requires going { self.old.lanes.ended ≡ false }
        requires room { has_room self.old.lanes ≡ true }
        requires wants { wants_payload self.old.lanes ≡ true }
        requires few { (x : Sent) → Sends self.old x → length x.words + 64 ≤ most_words }
        ensures makes { MakesRow self.old self.new }
        ensures longer { AreLonger self.old.lanes self.new.lanes }
    {
        next_row(&mut self.scheduler, &mut self.row);
        self.lanes.put(&self.row);
    }

    // Makes the next word of each lane, a framing word.
    fn frame(&mut self)
        requires going { self.old.lanes.ended ≡ false }
        requires room { has_room self.old.lanes ≡ true }
        requires wants { wants_payload self.old.lanes ≡ false }
        requires goes { (x : Sent) → Sends self.old x → self.old.lanes.place ≡ 0 → IsWholeLiveStream x.given x.words → ⊥ }
        ensures makes { MakesRow self.old self.new }
        ensures longer { AreLonger self.old.lanes self.new.lanes }
    {
        self.lanes.frame();
    }

    // Whether the stream is whole, if it has fewer than the most words.
    fn is_whole(&self) -> bool
        ensures whole { (x : Sent) → Sends self.now x → length x.words < most_words → (result ≡ true) ↔ IsWholeLiveStream x.given x.words }
        ensures few { (x : Sent) → Sends self.now x → result ≡ true → IsWholeLiveStream x.given x.words }
    {
        self.scheduler.slot() < MOST_WORDS && self.scheduler.is_over()
    }

    // Whether no word is made: the lanes have ended, or a ring has no room, or the stream has nearly the most words, or it is whole at the
    // end of a metaframe.
    fn rests(&self) -> bool
        ensures rests { result ≡ true → Rests self.now }
        ensures goes { result ≡ false → (self.now.lanes.ended ≡ false) × (has_room self.now.lanes ≡ true) × ((x : Sent) → Sends self.now x → (length x.words + 64 ≤ most_words) × (self.now.lanes.place ≡ 0 → IsWholeLiveStream x.given x.words → ⊥)) }
    {
        let room = self.lanes.has_room();
        if self.lanes.has_ended() || !room {
            return true;
        }
        if self.scheduler.slot() > MOST_WORDS - 64 {
            return true;
        }
        let whole = self.is_whole();
        self.lanes.is_whole() && whole
    }

    // Makes the next word of each lane.
    fn step(&mut self)
        requires goes { (self.old.lanes.ended ≡ false) × (has_room self.old.lanes ≡ true) × ((x : Sent) → Sends self.old x → (length x.words + 64 ≤ most_words) × (self.old.lanes.place ≡ 0 → IsWholeLiveStream x.given x.words → ⊥)) }
        ensures makes { MakesRow self.old self.new }
        ensures longer { AreLonger self.old.lanes self.new.lanes }
    {
        if self.lanes.wants_payload() {
            self.put_row();
        } else {
            self.frame();
        }
    }

    // Makes words until so many bytes of a lane wait, as far as that goes.
    fn fill(&mut self, lane: u32, count: usize)
        requires there { lane < length self.old.lanes.lanes }
        ensures makes { MakesWords lane count self.old self.new }
        ensures rests { length (waiting_on lane self.new.lanes) < count → Rests self.new }
        ensures stays { self.old.lanes.ended ≡ true → self.new.lanes.ended ≡ true }
    {
        while self.lanes.waiting(lane) < count {
            if self.rests() {
                return;
            }
            self.step();
        }
    }

    // Ends the lanes if the stream is whole at the end of a metaframe, and each ring has room.
    fn close(&mut self)
        ensures sends { (x : Sent) → Sends self.old x → Sends self.new x }
        ensures still { Rests self.old → IsStill self.new }
        ensures kept { (lane : ℕ) → length (waiting_on lane self.old.lanes) ≤ length (waiting_on lane self.new.lanes) }
        ensures stays { self.old.lanes.ended ≡ true → self.new.lanes.ended ≡ true }
    {
        let whole = self.is_whole();
        let room = self.lanes.has_room();
        if !self.lanes.has_ended() && self.lanes.is_whole() && whole && room {
            self.lanes.finish();
        }
    }

    // Takes the next bytes of a lane that is there.
    fn take_there(&mut self, lane: u32, out: &mut [u8]) -> usize
        requires there { lane < length self.old.lanes.lanes }
        ensures { IsTake self.old self.new lane out.old out.new result }
    {
        self.fill(lane, out.len());
        self.close();
        self.lanes.take(lane, out)
    }

    /// Takes the next bytes of a lane, and returns how many. Words are made until as many bytes wait as there is room for, and no word
    /// more. They stop before if a ring has no room, or if the lanes have ended. Of a lane that the link does not have no byte is taken,
    /// and no word is made.
    pub fn take(&mut self, lane: u32, out: &mut [u8]) -> usize
        ensures there { lane < length self.old.lanes.lanes → IsTake self.old self.new lane out.old out.new result }
        ensures absent { length self.old.lanes.lanes ≤ lane → (result ≡ 0) × (out.new ≡ out.old) × (self.new ≡ self.old) }
    {
        if lane as usize >= self.lanes.count() {
            return 0;
        }
        self.take_there(lane, out)
    }
}
