//! A receiver, with what it must know to answer for any call.
ghost use Rattle.std.specs.Prelude.{◌≡◌, true, false, None, [], IfOk, length, replicate};
ghost use Rattle.link_plan.specs.Listing.{channels_in_order, numbers_of};
ghost use Rattle.live_receiver.specs.FarEnd.{HasHeard};
ghost use Rattle.live_receiver.specs.Misuses.{feed_misuse, lane_misuse};
ghost use Rattle.live_receiver.specs.Runs.{Runs, is_lent};
ghost use Rattle.rx_end.specs.Standing.{IsUnfed};

use crate::far_end::FarEnd;
use c_parts::misuse::{self, Misuse};
use link_plan::{Plan, channels_in_order};
use lk_base::OutOfMemory;
use rx_end::{LaneReport, LaneState, Receiver, RxEvent};
use std::alloc::Global;

// why: live_receiver::Session has public fields: the clauses on its calls name them.
/// A receiver, with what it must know to answer for any call.
#[derive(Drop)]
pub struct Session {
    /// The receiver.
    pub receiver: Receiver,
    // True for each lane that is finished.
    finished: Vec<bool>,
    // How many bytes each lane was fed.
    fed: Vec<usize>,
    /// True if the last event was a packet, whose bytes are lent.
    pub lends: bool,
    /// The listed channels, in order of number.
    pub channels: Vec<u16>,
    /// What the far end tells of its channels.
    pub far: FarEnd,
    ghost runs: { ∥ Runs receiver finished.items fed.items ∥₁ },
    ghost lent: { ∥ (lends ≡ true → receiver.reassembly.lending ≡ true) ∥₁ },
}

// Makes the marks of `lanes` lanes that are not finished.
fn none_finished(alloc: Global, lanes: usize) -> Result<Vec<bool>, OutOfMemory>
    ensures { IfOk result (λ v. v.items ≡ replicate lanes false) }
{
    let finished = vec![in alloc; false; lanes]?;
    Ok(finished)
}

// Makes the counts of `lanes` lanes that were fed no byte.
fn none_fed(alloc: Global, lanes: usize) -> Result<Vec<usize>, OutOfMemory>
    ensures { IfOk result (λ v. v.items ≡ replicate lanes 0) }
{
    let fed = vec![in alloc; 0usize; lanes]?;
    Ok(fed)
}

impl Session {
    ghost use Rattle.live_receiver.specs.Calls.{IsChannelState, IsFeed, IsFinish, IsLaneState, IsNextOf, IsRead, IsReport};

    /// Creates a receiver of a plan's lanes to which nothing was fed.
    pub fn new(alloc: Global, plan: &Plan) -> Result<Session, OutOfMemory>
        ensures unfed { IfOk result (λ s. IsUnfed plan.now s.receiver) }
        ensures unheard { IfOk result (λ s. HasHeard s.far plan.now.entries.items []) }
        ensures unlent { IfOk result (λ s. s.lends ≡ false) }
        ensures listed { IfOk result (λ s. s.channels.items ≡ channels_in_order (numbers_of plan.now.channels.items)) }
    {
        let lanes = plan.link.lanes() as usize;
        let finished = none_finished(alloc, lanes)?;
        let fed = none_fed(alloc, lanes)?;
        let channels = channels_in_order(alloc, &plan.channels)?;
        let far = FarEnd::new(alloc, &plan.entries)?;
        let receiver = Receiver::new(alloc, plan)?;
        Ok(Session {
            receiver,
            finished,
            fed,
            lends: false,
            channels,
            far,
        })
    }

    // Returns why a lane takes no byte and no end, if it does not.
    fn lane_misuse(&self, lane: u32) -> Option<Misuse>
        ensures { result ≡ lane_misuse self.now.receiver lane }
    {
        misuse::lane_misuse(&self.finished, lane)
    }

    // Returns why a lane does not take a piece of this many bytes, if it does not.
    fn feed_misuse(&self, lane: u32, count: usize) -> Option<Misuse>
        ensures { result ≡ feed_misuse self.now.receiver lane count }
    {
        match self.lane_misuse(lane) {
            Some(why) => Some(why),
            None => misuse::piece_misuse(self.fed[lane as usize], count),
        }
    }

    /// Feeds a lane with the longest prefix of the piece that its ring has room for, and returns how many bytes that is.
    pub fn feed(&mut self, lane: u32, piece: &[u8]) -> Result<usize, Misuse>
        ensures { IsFeed self.old self.new lane piece.now result }
    {
        match self.feed_misuse(lane, piece.len()) {
            Some(why) => Err(why),
            None => Ok(self.take(lane, piece)),
        }
    }

    // Feeds a lane that takes the piece.
    fn take(&mut self, lane: u32, piece: &[u8]) -> usize
        requires { feed_misuse self.old.receiver lane (length piece.now) ≡ None }
        ensures { IsFeed self.old self.new lane piece.now (Ok result) }
    {
        let count = self.receiver.feed(lane, piece);
        self.fed[lane as usize] += count;
        count
    }

    /// Finishes a lane: no further byte of it is fed.
    pub fn finish(&mut self, lane: u32) -> Result<(), Misuse>
        ensures { IsFinish self.old self.new lane result }
    {
        match self.lane_misuse(lane) {
            Some(why) => Err(why),
            None => {
                self.end(lane);
                Ok(())
            }
        }
    }

    // Finishes a lane that is not finished.
    fn end(&mut self, lane: u32)
        requires { lane_misuse self.old.receiver lane ≡ None }
        ensures { IsFinish self.old self.new lane (Ok tt) }
    {
        self.finished[lane as usize] = true;
        self.receiver.finish(lane);
    }

    /// Returns the next event, if there is one.
    pub fn next(&mut self) -> Option<RxEvent>
        ensures { IsNextOf self.old self.new result }
    {
        let event = self.receiver.next();
        self.lends = is_lent(event);
        self.far.hear(event);
        event
    }

    /// Copies bytes of the packet that `next` gave last, from the offset on, and returns how many.
    pub fn read(&self, offset: u32, bytes: &mut [u8]) -> Result<usize, Misuse>
        ensures { IsRead self.now offset bytes.old bytes.new result }
    {
        if !self.lends {
            return Err(Misuse::NoPacket);
        }
        Ok(self.receiver.packet_read(offset, bytes))
    }

    /// Returns the report of a lane.
    pub fn report(&self, lane: u32) -> Result<LaneReport, Misuse>
        ensures { IsReport self.now lane result }
    {
        if lane as usize >= self.finished.len() {
            return Err(Misuse::NoLane);
        }
        Ok(self.receiver.lane_report(lane))
    }

    /// Returns how far the search for the locks of a lane is.
    pub fn lane_state(&self, lane: u32) -> Result<LaneState, Misuse>
        ensures { IsLaneState self.now lane result }
    {
        if lane as usize >= self.finished.len() {
            return Err(Misuse::NoLane);
        }
        Ok(self.receiver.lane_state(lane))
    }

    /// Returns whether the far end lets packets be sent on a channel, by the control words that were given, or `None` if the channel is
    /// not listed.
    pub fn is_on(&self, channel: u16) -> Option<bool>
        ensures { IsChannelState self.now channel result }
    {
        if self.channels.contains(&channel) {
            Some(self.far.is_on(channel))
        } else {
            None
        }
    }
}

// True if an event lends a packet.
fn is_lent(event: Option<RxEvent>) -> bool
    ensures { result ≡ is_lent event }
{
    match event {
        Some(RxEvent::Packet { .. }) => true,
        Some(_) => false,
        None => false,
    }
}
