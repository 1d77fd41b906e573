//! The words file of a stream that is carried by events, made as its pieces are accepted.
ghost use Rattle.std.specs.Prelude.{◌≡◌, ◌≤◌, ◌^◌, [], ◌∷◌, false, IfOk};
ghost use Rattle.link_plan.specs.Listing.{numbers_of};
ghost use Rattle.plan_inputs.specs.Values.{inputs_value, reading_value, FitPlan};
ghost use Rattle.resend_events.specs.Events.{count_of};
ghost use Rattle.resend_commands.specs.Carried.{IsBegun, line_of};
ghost use Rattle.resend_commands.specs.Making.{GaveWords};
ghost use Rattle.resend_commands.specs.Values.{reading_with};

use crate::carrying::carry;
use crate::place::Place;
use link_reports::{ResendCounts, resend_line};
use lk_base::OutOfMemory;
use plan_inputs::PlanReading;
use resend_events::EventRow;
use retransmit::Resend;
use run_shell::{Finished, Maker, Outputs, Step, only_name, words_name};
use std::alloc::Global;
use stream_commands::plan_stream;

// The stream of a plan and its inputs, of which nothing was sent yet.
fn begin(alloc: Global, reading: &PlanReading, window: u32) -> Result<Resend, OutOfMemory>
    requires fit { FitPlan (numbers_of reading.now.plan.channels.items) (inputs_value reading.now.inputs) }
    requires narrow { reading.now.plan.wide ≡ false }
    requires some_window { 1 ≤ window }
    requires small_window { window ≤ 255 }
    ensures { IfOk result (IsBegun (reading_value reading.now) window) }
{
    let stream = plan_stream(alloc, reading)?;
    Resend::new(alloc, &stream.words, window)
}

// The line of a retransmission.
fn told(alloc: Global, resend: &Resend) -> Result<Vec<u8>, OutOfMemory>
    ensures { IfOk result (λ line. line.items ≡ line_of resend.now) }
{
    let counts = ResendCounts {
        pieces: resend.pieces(),
        accepted: resend.accepted(),
        acknowledged: resend.acknowledged(),
        sent: resend.sent(),
    };
    let mut line = Vec::new(alloc);
    resend_line(alloc, &mut line, &counts)?;
    Ok(line)
}

/// What makes the words file of a plan whose stream is carried by events.
#[derive(Drop)]
pub struct ResendMaker<'a> {
    /// The plan and its inputs.
    pub reading: &'a PlanReading,
    /// The events.
    pub rows: &'a [EventRow],
    /// How far the events were done.
    pub place: Place,
    /// The plan's stream after these events.
    pub resend: Resend,
    /// Room for the bytes of the words that a step gives.
    pub bytes: Vec<u8>,
}

impl<'a> ResendMaker<'a> {
    /// A maker that gave nothing yet. This many pieces may be sent without an acknowledgement.
    pub fn new(
        alloc: Global,
        reading: &'a PlanReading,
        window: u32,
        rows: &'a [EventRow],
    ) -> Result<ResendMaker<'a>, OutOfMemory>
        requires fit { FitPlan (numbers_of reading.now.plan.channels.items) (inputs_value reading.now.inputs) }
        requires narrow { reading.now.plan.wide ≡ false }
        requires some_window { 1 ≤ window }
        requires small_window { window ≤ 255 }
        requires few { count_of rows.now ≤ 2 ^ 60 }
        ensures inputs { IfOk result (λ m. reading_with m.reading.now m.resend.window m.rows.now ≡ reading_with reading.now window rows.now) }
        ensures fresh { IfOk result (λ m. GaveWords (reading_with m.reading.now m.resend.window m.rows.now) m.resend m.place ([] ∷ [])) }
    {
        let resend = begin(alloc, reading, window)?;
        Ok(ResendMaker {
            reading,
            rows,
            place: Place { row: 0, done: 0 },
            resend,
            bytes: Vec::new(alloc),
        })
    }
}

impl Maker for ResendMaker<'_> {
    ghost use Rattle.std.specs.Prelude.{[], ◌∷◌};
    ghost use Rattle.run_shell.specs.Names.{words_name};
    ghost use Rattle.resend_commands.specs.Left.{count_left};
    ghost use Rattle.resend_commands.specs.Making.{GaveWords};
    ghost use Rattle.resend_commands.specs.Plan.{ResendReading, IsPlanResent};
    ghost use Rattle.resend_commands.specs.Values.{reading_with};

    ghost Inputs = { ResendReading };

    ghost inputs = { λ m. reading_with m.reading.now m.resend.window m.rows.now };

    ghost named = { λ i. words_name i.reading.plan.out ∷ [] };

    ghost IsMade = { λ i o. IsPlanResent i o };

    ghost gave = { λ m given. GaveWords (reading_with m.reading.now m.resend.window m.rows.now) m.resend m.place given };

    ghost left = { λ m. count_left m.rows.now m.place };

    fn lawful(&self) {}

    fn names(&self, alloc: Global) -> Result<Vec<String>, OutOfMemory> {
        only_name(alloc, words_name(alloc, self.reading.plan.out.as_str())?)
    }

    fn step(&mut self, alloc: Global, outputs: &mut Outputs) -> Result<Step, OutOfMemory> {
        if self.place.row == self.rows.len() {
            let text = told(alloc, &self.resend)?;
            return Ok(Step::Done(Finished { held: false, text }));
        }
        let run = self.place.next(self.rows);
        carry(outputs, &mut self.bytes, &mut self.resend, run)?;
        Ok(Step::More)
    }
}
