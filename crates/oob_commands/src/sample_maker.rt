//! The samples of a calendar and of local rows, made frame by frame.
use crate::output::{count_text, output_names};
use crate::reading::PlanLocal;
use lk_base::OutOfMemory;
use oob_flow::FrameWriter;
use run_shell::{Finished, Maker, Outputs, Step};
use std::alloc::Global;

/// What makes the samples of a plan's calendar and its local rows.
#[derive(Drop)]
pub struct SampleMaker<'a> {
    /// The plan and its local rows.
    pub reading: &'a PlanLocal,
    /// The writer of the frames.
    pub frames: FrameWriter,
    /// Room for the samples of a frame.
    pub samples: Vec<u8>,
}

impl<'a> SampleMaker<'a> {
    ghost use Rattle.std.specs.Prelude.{◌≡◌, [], ◌∷◌, IfOk, IsTrue};
    ghost use Rattle.std.specs.List.{list_all};
    ghost use Rattle.std.specs.List.Sorted.{IsNonDecreasingBy};
    ghost use Rattle.stream_model.specs.declared.rows.LocalRow.{LocalRow};
    ghost use Rattle.link_plan.specs.Listing.{numbers_of};
    ghost use Rattle.link_plan.specs.Timed.{is_local};
    ghost use Rattle.oob_commands.specs.Making.{GaveFrames};

    /// A maker that gave nothing yet.
    pub fn new(alloc: Global, reading: &'a PlanLocal) -> Result<SampleMaker<'a>, OutOfMemory>
        requires order { IsNonDecreasingBy (λ (row : LocalRow). row.slot) reading.now.local.items }
        requires low { IsTrue (list_all (is_local (numbers_of reading.now.plan.channels.items)) reading.now.local.items) }
        ensures reading { IfOk result (λ m. m.reading.now ≡ reading.now) }
        ensures fresh { IfOk result (λ m. GaveFrames m.reading.now m.frames ([] ∷ [])) }
    {
        let frames = FrameWriter::new(alloc, &reading.plan.entries)?;
        Ok(SampleMaker {
            reading,
            frames,
            samples: Vec::new(alloc),
        })
    }
}

impl Maker for SampleMaker<'_> {
    ghost use Rattle.std.specs.Prelude.{◌-◌, [], ◌∷◌};
    ghost use Rattle.oob_commands.specs.Making.{GaveFrames};
    ghost use Rattle.oob_commands.specs.Values.{local_value};
    ghost use Rattle.oob_commands.specs.WriteSamples.{LocalReading, IsOfSamples, samples_name};

    ghost Inputs = { LocalReading };

    ghost inputs = { λ m. local_value m.reading.now };

    ghost named = { λ i. samples_name i.plan.out ∷ [] };

    ghost IsMade = { IsOfSamples };

    ghost gave = { λ m given. GaveFrames m.reading.now m.frames given };

    ghost left = { λ m. 16779392 - m.frames.begin };

    fn lawful(&self) {}

    fn names(&self, alloc: Global) -> Result<Vec<String>, OutOfMemory> {
        output_names(alloc, self.reading.plan.out.as_str(), ".oob")
    }

    fn step(&mut self, alloc: Global, outputs: &mut Outputs) -> Result<Step, OutOfMemory> {
        self.samples.clear();
        let last = self.frames.next(&self.reading.local, &mut self.samples)?;
        outputs.give(0, &self.samples)?;
        if !last {
            return Ok(Step::More);
        }
        let text = count_text(alloc, "samples", self.frames.given())?;
        Ok(Step::Done(Finished { held: false, text }))
    }
}
