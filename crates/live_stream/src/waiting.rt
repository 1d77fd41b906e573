ghost use Rattle.std.specs.Prelude.{min, sum_by, ◌≡◌, ◌↔◌, ℕ, ◌+◌, ◌-◌, ◌*◌, ◌^◌, ◌<◌, ◌≤◌, List, [], ◌∷◌, ◌++◌, length, take, slice_get, slice_index, Some, true, OnOk, OnErr, IfOk, All, IsPermutation};
ghost use Rattle.std.specs.List.Sorted.{IsNonDecreasing};
ghost use Rattle.stream_model.specs.BurstStream.{Chunk, data_words};
ghost use Rattle.burst_scheduler.specs.Queues.{chunks_in};
ghost use Rattle.burst_scheduler.specs.declared.sizes.BurstSizes.{BurstSizes};
ghost use Rattle.live_stream.specs.Waiting.{channels_of, left_of, IsEmpty};
ghost use Rattle.live_stream.specs.declared.waiting.Waiting.{Waiting};

use super::counts::{Counts, MOST_BYTES};
use burst_scheduler::{BurstSizes, Taken, fill};
use lk_base::OutOfMemory;
use std::alloc::Global;
use std::collections::VecDeque;

/// A channel and its packets that are not wholly sent. A packet is let go with its last chunk.
#[derive(Drop)]
pub struct Waiting {
    pub channel: u16,
    pub packets: VecDeque<Vec<u8>>,
    // How many bytes of the first packet were taken.
    pub taken: usize,
    pub counts: Counts,
}

/// A queue without a packet for each channel, in order of number.
pub fn empty_queues(alloc: Global, channels: &[u16]) -> Result<Vec<Waiting>, OutOfMemory>
    ensures same { IfOk result (λ v. IsPermutation channels.now (channels_of v.items)) }
    ensures rising { IfOk result (λ v. IsNonDecreasing (channels_of v.items)) }
    ensures empty { IfOk result (λ v. All (λ (q : Waiting). IsEmpty q) v.items) }
{
    let mut order = Vec::from_slice(alloc, channels)?;
    order.sort_unstable();
    let mut queues = Vec::new(alloc);
    for i in 0..order.len() {
        let empty = Waiting {
            channel: order[i],
            packets: VecDeque::new(alloc),
            taken: 0,
            counts: Counts {
                packets_given: 0,
                bytes_given: 0,
                packets_sent: 0,
                bytes_sent: 0,
            },
        };
        queues.push(empty)?;
    }
    Ok(queues)
}

/// The packets of these queues that are not wholly sent, or the most that 64 bits can say.
pub fn packets_left(queues: &[Waiting]) -> u64
    ensures { result ≡ min (sum_by (λ (q : Waiting). left_of q.counts) queues.now) (2 ^ 64 - 1) }
{
    let mut left: u64 = 0;
    for at in 0..queues.len() {
        left = left.saturating_add(queues[at].counts.packets_left());
    }
    left
}

impl Waiting {
    ghost use Rattle.std.specs.Prelude.{nat_le, ◌≡◌, ◌↔◌, ℕ, ◌+◌, ◌*◌, ◌^◌, ◌<◌, ◌≤◌, List, [], ◌∷◌, ◌++◌, length, take, slice_get, slice_index, Some, true, OnOk, OnErr};
    ghost use Rattle.stream_model.specs.BurstStream.{Chunk, data_words};
    ghost use Rattle.burst_scheduler.specs.Queues.{chunks_in};
    ghost use Rattle.burst_scheduler.specs.declared.sizes.BurstSizes.{BurstSizes};
    ghost use Rattle.live_stream.specs.Waiting.{HasLeft, DoFit, has_packets, most_bytes};

    /// Whether the channel may be given as many bytes more.
    pub fn has_room(&self, bytes: usize) -> bool
        requires fit { DoFit self.now.counts }
        requires few { bytes < 2 ^ 32 }
        ensures { result ≡ nat_le (self.now.counts.bytes_given + bytes) most_bytes }
    {
        self.counts.bytes_given + bytes as u64 <= MOST_BYTES
    }

    /// Adds a packet at the back, with its bytes copied.
    pub fn add(&mut self, alloc: Global, packet: &[u8]) -> Result<(), OutOfMemory>
        requires some { 1 ≤ length packet.now }
        requires few { length packet.now < 2 ^ 32 }
        requires fit { DoFit self.old.counts }
        requires room { self.old.counts.bytes_given + length packet.now ≤ most_bytes }
        ensures ok { OnOk result ((sizes : BurstSizes) (packets : List (List ℕ)) (done : ℕ) → HasLeft self.old sizes packets done → HasLeft self.new sizes (packets ++ packet.now ∷ []) done) }
        ensures err { OnErr result ((sizes : BurstSizes) (packets : List (List ℕ)) (done : ℕ) → HasLeft self.old sizes packets done → HasLeft self.new sizes packets done) }
        ensures channel { self.new.channel ≡ self.old.channel }
    {
        let own = Vec::from_slice(alloc, packet)?;
        self.packets.push_back(own)?;
        self.counts.packets_given += 1;
        self.counts.bytes_given += packet.len() as u64;
        Ok(())
    }

    /// Whether the next chunk is the first of its packet.
    pub fn is_first(&self) -> bool
        ensures { (sizes : BurstSizes) (packets : List (List ℕ)) (done : ℕ) (chunk : Chunk) → HasLeft self.now sizes packets done → slice_get (chunks_in sizes packets) done ≡ Some chunk → result ≡ chunk.is_first }
    {
        self.taken == 0
    }

    /// Whether a chunk is left.
    pub fn is_left(&self) -> bool
        ensures packets { result ≡ has_packets self.now }
        ensures left { (sizes : BurstSizes) (packets : List (List ℕ)) (done : ℕ) → HasLeft self.now sizes packets done → (result ≡ true) ↔ (done < length (chunks_in sizes packets)) }
    {
        !self.packets.is_empty()
    }

    /// Takes the next chunk, by these sizes, and writes its data words into the first places of `run`.
    pub fn take(&mut self, sizes: BurstSizes, run: &mut [u64]) -> Taken
        requires low { 64 ≤ sizes.most }
        requires high { sizes.most ≤ 4096 }
        requires half { 2 * sizes.least ≤ sizes.most }
        requires room { length run.old ≡ 512 }
        requires left { (packets : List (List ℕ)) × (done : ℕ) × HasLeft self.old sizes packets done × (done < length (chunks_in sizes packets)) }
        ensures chunk { (packets : List (List ℕ)) (done : ℕ) → HasLeft self.old sizes packets done → (chunk : Chunk) × (slice_get (chunks_in sizes packets) done ≡ Some chunk) × (take result.words run.new ≡ data_words chunk.bytes) × (result.bytes ≡ length chunk.bytes) × (result.first ≡ chunk.is_first) × (result.last ≡ chunk.is_last) }
        ensures next { (packets : List (List ℕ)) (done : ℕ) → HasLeft self.old sizes packets done → HasLeft self.new sizes packets (done + 1) }
        ensures channel { self.new.channel ≡ self.old.channel }
        ensures long { length run.new ≡ length run.old }
        ensures words { result.words ≤ 512 }
        ensures fits { (k : ℕ) → slice_index run.new k < 2 ^ 64 }
    {
        let start = self.taken;
        let packet = &self.packets[0];
        let left = packet.len() - start;
        let bytes = sizes.next(left);
        let words = fill(run, &packet[start..start + bytes]);
        let last = bytes == left;
        self.counts.bytes_sent += bytes as u64;
        if last {
            self.counts.packets_sent += 1;
            self.packets.pop_front();
            self.taken = 0;
        } else {
            self.taken = start + bytes;
        }
        Taken {
            words,
            bytes,
            first: start == 0,
            last,
        }
    }
}
