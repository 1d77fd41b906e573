ghost use Rattle.std.specs.Prelude.{◌≡◌, ℕ, ◌≤◌, nat_lt, true, length, slice_set};
ghost use Rattle.burst_scheduler.specs.Asked.{Asked};
ghost use Rattle.duplex.specs.Queues.{queue_at, drained_by, AreFilled, Tells};

use burst_scheduler::Scheduler;
use std::alloc::{AllocError, Global};

/// The queue of what arrives on a channel at an end: how many words are queued, and the most that were.
#[derive(Clone, Copy, Debug)]
pub struct ArrivalQueue {
    pub words: u32,
    pub peak: u32,
}

/// The queues of an end, and the channels of those that are not empty.
#[derive(Drop)]
pub struct Queues {
    // The queue of each channel by its number.
    pub by_channel: Vec<ArrivalQueue>,
    // The channels whose queues are not empty are the first of `filled`.
    pub filled: Vec<u16>,
    pub count: usize,
}

// A channel has this queue from now on. It is told to be on or off where that changes.
fn put(
    queues: &mut Vec<ArrivalQueue>,
    scheduler: &mut Scheduler,
    mark: u32,
    channel: u16,
    queue: ArrivalQueue,
)
    requires wide { length queues.old.items ≡ 65536 }
    requires tells { (a : Asked) × Tells scheduler.old a mark queues.old.items }
    ensures queues { queues.new.items ≡ slice_set queues.old.items channel queue }
    ensures tells { (a : Asked) → Tells scheduler.old a mark queues.old.items → Tells scheduler.new a mark queues.new.items }
{
    let before = queues[channel as usize].words < mark;
    let now = queue.words < mark;
    queues[channel as usize] = queue;
    if now != before {
        scheduler.local(channel, now);
    }
}

// A queue that is not empty loses a word. Returns whether it still is not.
fn lose(queues: &mut Vec<ArrivalQueue>, scheduler: &mut Scheduler, mark: u32, channel: u16) -> bool
    requires wide { length queues.old.items ≡ 65536 }
    requires some { 1 ≤ (queue_at queues.old.items channel).words }
    requires tells { (a : Asked) × Tells scheduler.old a mark queues.old.items }
    ensures queues { queues.new.items ≡ slice_set queues.old.items channel (drained_by true (queue_at queues.old.items channel)) }
    ensures some { result ≡ nat_lt 1 (queue_at queues.old.items channel).words }
    ensures tells { (a : Asked) → Tells scheduler.old a mark queues.old.items → Tells scheduler.new a mark queues.new.items }
{
    let queue = queues[channel as usize];
    let words = queue.words - 1;
    let peak = queue.peak;
    put(
        queues,
        scheduler,
        mark,
        channel,
        ArrivalQueue { words, peak },
    );
    words > 0
}

// Each queue that is not empty loses a word. Returns how many still are not, whose channels are then the first of `filled`.
fn drain(
    queues: &mut Vec<ArrivalQueue>,
    filled: &mut Vec<u16>,
    count: usize,
    scheduler: &mut Scheduler,
    mark: u32,
) -> usize
    requires wide { length queues.old.items ≡ 65536 }
    requires filled { AreFilled queues.old.items filled.old.items count }
    requires tells { (a : Asked) × Tells scheduler.old a mark queues.old.items }
    ensures wide { length queues.new.items ≡ 65536 }
    ensures room { length filled.new.items ≡ length filled.old.items }
    ensures queues { (channel : ℕ) → queue_at queues.new.items channel ≡ drained_by true (queue_at queues.old.items channel) }
    ensures filled { AreFilled queues.new.items filled.new.items result }
    ensures tells { (a : Asked) → Tells scheduler.old a mark queues.old.items → Tells scheduler.new a mark queues.new.items }
{
    let mut kept = 0;
    for i in 0..count {
        let channel = filled[i];
        if lose(queues, scheduler, mark, channel) {
            filled[kept] = channel;
            kept += 1;
        }
    }
    kept
}

impl Queues {
    ghost use Rattle.std.specs.Prelude.{◌≡◌, ℕ, ◌^◌, ◌<◌, ◌==◌, true, IfOk};
    ghost use Rattle.burst_scheduler.specs.Asked.{Asked};
    ghost use Rattle.duplex.specs.Queues.{names, empty_queue, queue_at, joined_by, turned_in, AreQueues, Tells};

    /// An empty queue for each channel.
    pub fn new(alloc: Global) -> Result<Queues, AllocError>
        ensures queues { IfOk result (λ q. AreQueues q) }
        ensures empty { IfOk result (λ q. (channel : ℕ) → queue_at q.by_channel.items channel ≡ empty_queue) }
    {
        let by_channel = vec![in alloc; ArrivalQueue { words: 0, peak: 0 }; 65536]?;
        let filled = vec![in alloc; 0; 65536]?;
        Ok(Queues {
            by_channel,
            filled,
            count: 0,
        })
    }

    /// The queue of a channel.
    pub fn of(&self, channel: u16) -> ArrivalQueue
        requires { AreQueues self.now }
        ensures { result ≡ queue_at self.now.by_channel.items channel }
    {
        self.by_channel[channel as usize]
    }

    // A word joins the queue of a channel.
    fn join(&mut self, scheduler: &mut Scheduler, mark: u32, channel: u16)
        requires queues { AreQueues self.old }
        requires low { (queue_at self.old.by_channel.items channel).words < 2 ^ 31 }
        requires tells { (a : Asked) × Tells scheduler.old a mark self.old.by_channel.items }
        ensures queues { AreQueues self.new }
        ensures joined { (other : ℕ) → queue_at self.new.by_channel.items other ≡ joined_by (channel == other) (queue_at self.old.by_channel.items other) }
        ensures tells { (a : Asked) → Tells scheduler.old a mark self.old.by_channel.items → Tells scheduler.new a mark self.new.by_channel.items }
    {
        let queue = self.by_channel[channel as usize];
        let words = queue.words + 1;
        let peak = queue.peak.max(words);
        put(
            &mut self.by_channel,
            scheduler,
            mark,
            channel,
            ArrivalQueue { words, peak },
        );
        if queue.words == 0 {
            self.filled[self.count] = channel;
            self.count += 1;
        }
    }

    // A word may join the queue of a channel.
    fn take(&mut self, scheduler: &mut Scheduler, mark: u32, joined: Option<u16>)
        requires queues { AreQueues self.old }
        requires low { (channel : ℕ) → channel < 65536 → (queue_at self.old.by_channel.items channel).words < 2 ^ 31 }
        requires tells { (a : Asked) × Tells scheduler.old a mark self.old.by_channel.items }
        ensures queues { AreQueues self.new }
        ensures joined { (channel : ℕ) → queue_at self.new.by_channel.items channel ≡ joined_by (names joined channel) (queue_at self.old.by_channel.items channel) }
        ensures tells { (a : Asked) → Tells scheduler.old a mark self.old.by_channel.items → Tells scheduler.new a mark self.new.by_channel.items }
    {
        if let Some(channel) = joined {
            self.join(scheduler, mark, channel);
        }
    }

    /// One more slot, in which a word may have joined the queue of a channel, and each queue may lose one. A channel is told to
    /// be on or off where its queue crosses the mark.
    pub fn turn(&mut self, scheduler: &mut Scheduler, mark: u32, joined: Option<u16>, drains: bool)
        requires queues { AreQueues self.old }
        requires low { (channel : ℕ) → channel < 65536 → (queue_at self.old.by_channel.items channel).words < 2 ^ 31 }
        requires tells { (a : Asked) × Tells scheduler.old a mark self.old.by_channel.items }
        ensures queues { AreQueues self.new }
        ensures turned { (channel : ℕ) → queue_at self.new.by_channel.items channel ≡ turned_in joined drains channel (queue_at self.old.by_channel.items channel) }
        ensures tells { (a : Asked) → Tells scheduler.old a mark self.old.by_channel.items → Tells scheduler.new a mark self.new.by_channel.items }
    {
        self.take(scheduler, mark, joined);
        if drains {
            self.count = drain(
                &mut self.by_channel,
                &mut self.filled,
                self.count,
                scheduler,
                mark,
            );
        }
    }
}
