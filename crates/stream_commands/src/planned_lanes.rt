//! The lanes of the stream of a plan, made a group at a time.
ghost use Rattle.std.specs.Prelude.{◌<◌, ◌^◌, length, IfOk};
ghost use Rattle.link_plan.specs.Listing.{numbers_of};
ghost use Rattle.plan_inputs.specs.Values.{inputs_value, reading_value, FitPlan};
ghost use Rattle.stream_commands.specs.PlanLanes.{AreLanesOf, AreLanesOfPlan};
ghost use Rattle.tx_end.specs.Whole.{IsShapeOf};

use crate::plan_source::{parts_of, source_from};
use crate::sent_stream::listed_lines;
use lk_base::{Link, OutOfMemory};
use plan_inputs::PlanReading;
use std::alloc::Global;
use tx_end::{SentLanes, sent_lanes_of};
use tx_words::StreamSource;

/// The lanes of a plan's stream, and what is reported of the stream.
#[derive(Drop)]
pub struct PlanLanes {
    /// Its lanes, the packets that it sends, and the channel that holds it.
    pub lanes: SentLanes,
    /// The lines of its channels and of its slots.
    pub lines: Vec<u8>,
}

// Makes the lanes of the stream of a source over this link, and the lines of the stream.
fn lanes_of_source(
    alloc: Global,
    link: &Link,
    source: &StreamSource,
) -> Result<PlanLanes, OutOfMemory>
    requires suits { IsShapeOf link.now source.now.shape }
    requires few { length source.now.packets < 2 ^ 32 }
    ensures { IfOk result (AreLanesOf link.now source.now) }
{
    let lanes = sent_lanes_of(alloc, link, source)?;
    let lines = listed_lines(alloc, source, &lanes.sent, lanes.slots)?;
    Ok(PlanLanes { lanes, lines })
}

/// Makes the lanes of the stream of a plan and its inputs, without its words, and lists the packets that it sends.
///
/// # Errors
///
/// `OutOfMemory` if memory ran out, or if the stream has more words than a computer can hold, and only then.
pub fn plan_lanes(alloc: Global, reading: &PlanReading) -> Result<PlanLanes, OutOfMemory>
    requires { FitPlan (numbers_of reading.now.plan.channels.items) (inputs_value reading.now.inputs) }
    ensures { IfOk result (AreLanesOfPlan (reading_value reading.now)) }
{
    let parts = parts_of(alloc, reading)?;
    let source = source_from(reading, parts.channels.as_slice(), parts.packets.as_slice());
    lanes_of_source(alloc, &reading.plan.link, &source)
}
