//! The lane files of a stream, made as its lanes are.
ghost use Rattle.std.specs.Prelude.{◌≡◌, ◌+◌, ◌≤◌, ◌<◌, ◌^◌, ℕ, List, length, IfOk, IfSome, IfNone};
ghost use Rattle.lk_base.specs.Link.{Settings};
ghost use Rattle.lk_base.specs.declared.word.Word.{Word};
ghost use Rattle.stream_model.specs.BurstStream.{Source, IsBurstStream};
ghost use Rattle.tx_end.specs.Sending.{sending, Sends};
ghost use Rattle.tx_end.specs.Whole.{IsShapeOf};
ghost use Rattle.tx_end.specs.declared.tx_out.TxOut.{TxOut};
ghost use Rattle.run_shell.specs.Names.{lane_names};
ghost use Rattle.run_shell.specs.Outputs.{blank, open_names};
ghost use Rattle.run_shell.specs.Rests.{join, rests_of};
ghost use Rattle.stream_commands.specs.Making.{lanes_inputs, GaveAllLanes, GaveLanes, HasLanes, IsEndOf};

use crate::text::reported;
use lk_base::{Link, OutOfMemory};
use run_shell::{Finished, Maker, Outputs, Step, lane_names};
use std::alloc::Global;
use tx_end::Transmitter;
use tx_words::{StreamSource, count_listed};

// How many bytes of a lane are taken at a time, at most.
const BLOCK: usize = 4096;

// How many bytes a step gives at least, where there are as many. All outputs are gone over once a step: beside so many bytes that
// is nothing, however short the metaframes are.
const STEP: usize = 32_768;

// What is reported of the stream that a transmitter made whole.
fn end_of(
    alloc: Global,
    source: &StreamSource,
    transmitter: &Transmitter,
) -> Result<Finished, OutOfMemory>
    requires { (s : Settings) × (words : List Word) × (outs : List TxOut) × Sends transmitter.now (sending s source.now words outs) × IsBurstStream source.now words }
    ensures { IfOk result (λ f. (s : Settings) (words : List Word) (outs : List TxOut) → Sends transmitter.now (sending s source.now words outs) → IsBurstStream source.now words → IsEndOf source.now words f) }
{
    let counts = count_listed(alloc, source, transmitter.sent())?;
    reported(alloc, &counts, transmitter.slots(), transmitter.held())
}

// Gives the outputs the next bytes of their lanes, `STEP` of them or more, and returns how many they are; `None` once the last bytes
// of all lanes are given.
fn give_runs(
    outputs: &mut Outputs,
    transmitter: &mut Transmitter,
) -> Result<Option<usize>, OutOfMemory>
    requires { (s : Settings) × (source : Source) × (n : ℕ) × (done : List (List ℕ)) × HasLanes transmitter.old n s source done outputs.old }
    ensures names { open_names outputs.new ≡ open_names outputs.old }
    ensures low { IfOk result (λ more. IfSome more (λ count. 1 ≤ count)) }
    ensures some { IfOk result (λ more. IfSome more (λ count. (s : Settings) (source : Source) (n : ℕ) (done : List (List ℕ)) → HasLanes transmitter.old n s source done outputs.old →
        HasLanes transmitter.new (n + count) s source done outputs.new)) }
    ensures none { IfOk result (λ more. IfNone more ((s : Settings) (source : Source) (n : ℕ) (done : List (List ℕ)) → HasLanes transmitter.old n s source done outputs.old →
        GaveAllLanes transmitter.new s source (join done (rests_of outputs.new)))) }
{
    let mut block = [0; BLOCK];
    let mut count = 0;
    while count < STEP {
        let Some(taken) = transmitter.next_run(&mut block) else {
            return Ok(None);
        };
        outputs.give(taken.lane as usize, &block[..taken.count])?;
        count += taken.count;
    }
    Ok(Some(count))
}

/// What makes the lane files of a stream.
#[derive(Drop)]
pub struct LanesMaker<'a> {
    /// The prefix of the files' names.
    pub prefix: &'a str,
    /// The link of the lanes.
    pub link: Link,
    /// What the stream is made of.
    pub source: &'a StreamSource<'a>,
    /// What makes the lanes.
    pub transmitter: Transmitter<'a>,
    /// How many bytes were given, by which the steps are shown to end.
    pub given: u64,
}

impl<'a> LanesMaker<'a> {
    /// A maker that gave nothing yet.
    pub fn new(
        alloc: Global,
        prefix: &'a str,
        link: &Link,
        source: &'a StreamSource<'a>,
    ) -> Result<LanesMaker<'a>, OutOfMemory>
        requires suits { IsShapeOf link.now source.now.shape }
        requires few { length source.now.packets < 2 ^ 32 }
        ensures inputs { IfOk result (λ m. lanes_inputs m.link m.prefix.now m.source.now ≡ lanes_inputs link.now prefix.now source.now) }
        ensures fresh { IfOk result (λ m. GaveLanes m.transmitter m.given m.link m.source.now (blank (lane_names m.prefix.now m.link.lanes))) }
    {
        let transmitter = Transmitter::new(alloc, link, source)?;
        Ok(LanesMaker {
            prefix,
            link: *link,
            source,
            transmitter,
            given: 0,
        })
    }
}

impl Maker for LanesMaker<'_> {
    ghost use Rattle.std.specs.Prelude.{◌-◌, ◌^◌};
    ghost use Rattle.stream_commands.specs.Making.{lanes_inputs, names_of, GaveLanes, IsMadeOf, StreamInputs};

    ghost Inputs = { StreamInputs };

    ghost inputs = { λ m. lanes_inputs m.link m.prefix.now m.source.now };

    ghost named = { names_of };

    ghost IsMade = { IsMadeOf };

    ghost gave = { λ m given. GaveLanes m.transmitter m.given m.link m.source.now given };

    ghost left = { λ m. 2 ^ 60 - m.given };

    fn lawful(&self) {}

    fn names(&self, alloc: Global) -> Result<Vec<String>, OutOfMemory> {
        Ok(lane_names(alloc, self.prefix, self.link.lanes())?)
    }

    fn step(&mut self, alloc: Global, outputs: &mut Outputs) -> Result<Step, OutOfMemory> {
        let Some(count) = give_runs(outputs, &mut self.transmitter)? else {
            let finished = end_of(alloc, self.source, &self.transmitter)?;
            return Ok(Step::Done(finished));
        };
        self.given += count as u64;
        Ok(Step::More)
    }
}
