//! The lanes of a plan in their files, each read some bytes at a time.
ghost use Rattle.std.specs.Prelude.{◌≡◌, ◌<◌, ◌≤◌, ◌+◌, ◌^◌, [], ℕ, List, Some, get_or, length, map, All, IfOk, IfSome, OnOk, string_bytes};
ghost use Rattle.lk_base.specs.Limits.{lane_limit};
ghost use Rattle.lk_outside.specs.Files.{file};
ghost use Rattle.run_stops.specs.Stops.{StopCount};
ghost use Rattle.receive_commands.specs.ReadLanes.{AreBuffers, IsBuffer, IsFresh, LanesFill, piece_in};

use crate::lane_buffer::LaneBuffer;
use lane_receipts::LanePieces;
use lk_base::OutOfMemory;
use lk_outside::Store;
use run_stops::Stop;
use std::alloc::Global;

/// The lanes in the files of these names, and what is held of each.
#[derive(Drop)]
pub struct FileLanes<'n> {
    /// The names of the files, by number of the lane.
    pub names: &'n [String],
    /// A buffer for each lane.
    pub buffers: Vec<LaneBuffer>,
}

// Buffers in which nothing is held yet.
fn fresh_buffers(alloc: Global, count: usize) -> Result<Vec<LaneBuffer>, OutOfMemory>
    ensures many { IfOk result (λ buffers. length buffers.items ≡ count) }
    ensures fresh { IfOk result (λ buffers. All IsFresh buffers.items) }
{
    let mut buffers = Vec::new(alloc);
    for _lane in 0..count {
        buffers.push(LaneBuffer::new(alloc)?)?;
    }
    Ok(buffers)
}

// Reads a lane on, in the file of this name.
fn read_lane<S: Store>(
    alloc: Global,
    store: &mut S,
    buffers: &mut [LaneBuffer],
    lane: u32,
    name: &str,
    offset: u64,
) -> Result<(), Stop>
    requires count { S.faults store.old < 2 ^ 60 }
    requires place { lane < length buffers.old }
    requires within { offset ≤ 2 ^ 56 }
    requires buffers { All IsBuffer buffers.old }
    ensures cause { StopCount result (S.faults store.old) (S.faults store.new) }
    ensures unchanged { S.files store.new ≡ S.files store.old }
    ensures many { length buffers.new ≡ length buffers.old }
    ensures buffers { OnOk result (All IsBuffer buffers.new) }
    ensures reads { IfSome (S.files store.old) (λ files. (lanes : List (List ℕ)) → file files name.now ≡ Some (get_or lanes lane []) → length (get_or lanes lane []) ≤ lane_limit → LanesFill name.now lanes lane offset result buffers.old buffers.new) }
{
    buffers[lane as usize].read_on(alloc, store, name, offset)
}

// What is held of a lane from the offset on.
fn lane_piece(buffers: &[LaneBuffer], lane: u32, offset: u64) -> &[u8]
    requires place { lane < length buffers.now }
    requires buffers { All IsBuffer buffers.now }
    ensures held { result.now ≡ piece_in buffers.now lane offset }
    ensures few { length result.now ≤ 4096 }
    ensures within { offset ≤ 2 ^ 56 → offset + length result.now ≤ 2 ^ 56 }
{
    buffers[lane as usize].piece(offset)
}

impl<'n> FileLanes<'n> {
    /// The lanes in the files of these names, of which nothing is held yet.
    pub fn new(alloc: Global, names: &'n [String]) -> Result<FileLanes<'n>, OutOfMemory>
        ensures names { IfOk result (λ lanes. lanes.names.now ≡ names.now) }
        ensures buffers { IfOk result (λ lanes. AreBuffers (map string_bytes lanes.names.now) lanes.buffers.items) }
        ensures fresh { IfOk result (λ lanes. All IsFresh lanes.buffers.items) }
    {
        let buffers = fresh_buffers(alloc, names.len())?;
        Ok(FileLanes { names, buffers })
    }
}

impl LanePieces for FileLanes<'_> {
    ghost use Rattle.std.specs.Prelude.{length, map, string_bytes};
    ghost use Rattle.receive_commands.specs.ReadLanes.{AreBuffers, AreFileLanes, piece_in};

    ghost lane_count = { λ files. length files.buffers.items };

    ghost file_names = { λ files. map string_bytes files.names.now };

    ghost fits = { λ files. AreBuffers (map string_bytes files.names.now) files.buffers.items };

    ghost are_lanes = { λ files was lanes. AreFileLanes (map string_bytes files.names.now) files.buffers.items was lanes };

    ghost piece_at = { λ files lane offset. piece_in files.buffers.items lane offset };

    fn read_on<S: Store>(
        &mut self,
        alloc: Global,
        store: &mut S,
        lane: u32,
        offset: u64,
    ) -> Result<(), Stop> {
        let name = self.names[lane as usize].as_str();
        read_lane(alloc, store, &mut self.buffers, lane, name, offset)
    }

    fn piece(&self, lane: u32, offset: u64) -> &[u8] {
        lane_piece(&self.buffers, lane, offset)
    }
}
