// why: A batch of bytes ends with a word of lane 0, if a word of it ends with a byte at all. Then the next words begin with a
// byte and are taken eight at once. Lanes that are skewed by other bits gain nothing.
ghost use Rattle.std.specs.Prelude.{◌≡◌, ◌<◌, ◌≤◌, ◌+◌, ◌*◌, ◌^◌, [], length, take};
ghost use Rattle.lk_base.specs.Checksum.{bits_of_bytes};
ghost use Rattle.deskew.specs.Steps.{steps_taken};
ghost use Rattle.lane_lock.specs.Bytes.{BringsBatch};

use crate::steps::LaneSteps;
use circular_buffer::HeapCircularBuffer;
use deskew::Deskew;
use lane_lock::{MOST_BYTES, StepList};
use lk_base::OutOfMemory;
use std::alloc::Global;
use std::marker::Model;

// The number of steps that there is room for: one for each bit, and one.
const ROOM: usize = 8 * MOST_BYTES + 1;

/// The steps that one lane shows in many bytes.
#[derive(Drop)]
pub struct Batch {
    found: StepList,
}

impl Model for Batch {
    ghost use Rattle.std.specs.Prelude.{◌≤◌, List};
    ghost use Rattle.lane_lock.specs.Found.{found_steps};
    ghost use Rattle.lock_model.specs.Low.{all_low};
    ghost use Rattle.lock_model.specs.declared.types.LaneStep.{LaneStep as Step};

    ghost Value = { List Step };

    ghost view = { λ a. found_steps a.found };

    ghost invariant = { λ a. (4289 ≤ a.found.room) × all_low (found_steps a.found) };
}

impl Batch {
    /// Creates an empty batch. It takes memory here, and no later call does.
    pub fn new(alloc: Global) -> Result<Batch, OutOfMemory> {
        let found = StepList::new(alloc, ROOM)?;
        Ok(Batch { found })
    }

    /// Takes the first bytes of a lane's ring, at most 536, and keeps the steps that their bits show.
    pub fn take(&mut self, steps: &mut LaneSteps, ring: &HeapCircularBuffer<u8>, count: usize)
        requires most { count ≤ 536 }
        requires there { count ≤ length ring.now.items }
        requires few { steps.old.lock.taken + 8 * count ≤ 2 ^ 60 }
        ensures taken { steps.new.lock.taken ≡ steps.old.lock.taken + 8 * count }
        ensures shown { steps.new.shown ≡ [] }
        ensures stands { BringsBatch steps.old.lock steps.new.lock (bits_of_bytes (take count ring.now.items)) [] self.new }
    {
        self.found.clear();
        let (front, rest) = ring.as_slices();
        if count <= front.len() {
            steps.take_batch(&front[..count], &mut self.found);
        } else {
            steps.take_batch(front, &mut self.found);
            steps.take_batch(&rest[..count - front.len()], &mut self.found);
        }
    }

    /// Gives the deskew the steps, in order, as the next ones of this lane, which is below the link's lanes. They are kept here, too.
    pub fn give(&self, lane: u32, deskew: &mut Deskew)
        requires { lane < deskew.old.settings.lanes }
        ensures { deskew.new ≡ steps_taken lane self.now deskew.old }
    {
        deskew.take_steps(lane, self.found.first_steps());
        deskew.take_payloads(lane, self.found.payload_words(), self.found.payload_at());
        deskew.take_steps(lane, self.found.last_steps());
    }
}
