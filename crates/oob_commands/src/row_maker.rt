//! The rows that samples give, made as the samples are taken.
use crate::flow_text::rows_text;
use crate::output::{count_text, output_names};
use crate::reading::PlanSamples;
use arrayvec::ArrayVec;
use lk_base::OutOfMemory;
use oob_flow::OobIn;
use run_shell::{Finished, Maker, Outputs, Step};
use std::alloc::Global;

/// What makes the flow file of a plan's samples.
#[derive(Drop)]
pub struct RowMaker<'a> {
    /// The plan and its samples.
    pub reading: &'a PlanSamples,
    /// What takes the samples.
    pub taker: OobIn,
    /// How many samples were taken.
    pub slot: usize,
    /// How many rows were given.
    pub count: u64,
}

impl<'a> RowMaker<'a> {
    ghost use Rattle.std.specs.Prelude.{◌≡◌, ◌≤◌, [], ◌∷◌, All, IsTrue, length};
    ghost use Rattle.oob_flow.specs.Samples.{is_sample};
    ghost use Rattle.oob_commands.specs.Making.{GaveRows};

    /// A maker that gave nothing yet.
    pub fn new(reading: &'a PlanSamples) -> RowMaker<'a>
        requires samples { All (λ byte. IsTrue (is_sample byte)) reading.now.samples.items }
        requires short { length reading.now.samples.items ≤ 4194304 }
        ensures reading { result.reading.now ≡ reading.now }
        ensures fresh { GaveRows result.reading.now result.taker result.slot result.count ([] ∷ []) }
    {
        RowMaker {
            reading,
            taker: OobIn::new(reading.plan.entries.len() as u32),
            slot: 0,
            count: 0,
        }
    }
}

impl Maker for RowMaker<'_> {
    ghost use Rattle.std.specs.Prelude.{◌≡◌, ◌-◌, [], ◌∷◌, length};
    ghost use Rattle.oob_commands.specs.Making.{GaveRows};
    ghost use Rattle.oob_commands.specs.Values.{samples_value};
    ghost use Rattle.oob_commands.specs.ReadRows.{SamplesReading, rows_outcome, flow_name};

    ghost Inputs = { SamplesReading };

    ghost inputs = { λ m. samples_value m.reading.now };

    ghost named = { λ i. flow_name i.plan.out ∷ [] };

    ghost IsMade = { λ i o. o ≡ rows_outcome i };

    ghost gave = { λ m given. GaveRows m.reading.now m.taker m.slot m.count given };

    ghost left = { λ m. length m.reading.now.samples.items - m.slot };

    fn lawful(&self) {}

    fn names(&self, alloc: Global) -> Result<Vec<String>, OutOfMemory> {
        output_names(alloc, self.reading.plan.out.as_str(), ".oob.flow")
    }

    fn step(&mut self, alloc: Global, outputs: &mut Outputs) -> Result<Step, OutOfMemory> {
        if self.slot == self.reading.samples.len() {
            let text = count_text(alloc, "rows", self.count)?;
            return Ok(Step::Done(Finished { held: false, text }));
        }
        let sample = self.reading.samples[self.slot];
        let mut words = ArrayVec::new();
        self.taker.sample(sample, &mut words);
        if words.is_empty() {
            self.slot += 1;
            return Ok(Step::More);
        }
        let text = rows_text(alloc, self.slot as u64, words.as_slice())?;
        outputs.give(0, &text)?;
        self.slot += 1;
        self.count += words.len() as u64;
        Ok(Step::More)
    }
}
