//! The one loop of makers that has the store: it creates the outputs of a command, and appends what its maker gives them.
ghost use Rattle.std.specs.Prelude.{◌≡◌, ◌<◌, ◌^◌, ℕ, List, Contains, IfOk, Option};
ghost use Rattle.lk_outside.specs.Files.{Files};
ghost use Rattle.run_stops.specs.Stops.{StopCount, StoreStops};
ghost use Rattle.run_shell.specs.Outputs.{Differ, open_names, IsOpen, blank};
ghost use Rattle.run_shell.specs.Writing.{Writes};
ghost use Rattle.run_shell.specs.Making.{IfMore, Stepped, Worked};

use crate::finished::Finished;
use crate::maker::Maker;
use crate::outputs::Outputs;
use crate::step::Step;
use lk_outside::Store;
use run_stops::Stop;
use std::alloc::Global;

// Has the maker take one step, and appends the whole pieces of what it gave the outputs.
fn take_step<M: Maker, S: Store>(
    alloc: Global,
    store: &mut S,
    maker: &mut M,
    outputs: &mut Outputs,
) -> Result<Step, Stop>
    requires count { S.faults store.old < 2 ^ 60 }
    requires differ { Differ (open_names outputs.old) }
    requires opens { open_names outputs.old ≡ M.named (M.inputs maker.old) }
    requires stands { (given : List (List ℕ)) × (was : Option Files) × M.gave maker.old given × IsOpen outputs.old given was (S.files store.old) }
    ensures opens { open_names outputs.new ≡ open_names outputs.old }
    ensures cause { StopCount result (S.faults store.old) (S.faults store.new) }
    ensures stops { StoreStops (Contains (open_names outputs.old)) result }
    ensures less { IfOk result (IfMore ((M.left maker.new < M.left maker.old) × (M.inputs maker.new ≡ M.inputs maker.old))) }
    ensures steps { (given : List (List ℕ)) (was : Option Files) → M.gave maker.old given → IsOpen outputs.old given was (S.files store.old) →
        Stepped (M.IsMade (M.inputs maker.old)) (M.named (M.inputs maker.old)) (M.gave maker.new) outputs.new result was (S.files store.new) }
{
    maker.lawful();
    let step = maker.step(alloc, outputs)?;
    outputs.append_pieces(alloc, store)?;
    Ok(step)
}

// Has the maker take steps until its work is done.
fn take_steps<M: Maker, S: Store>(
    alloc: Global,
    store: &mut S,
    maker: &mut M,
    outputs: &mut Outputs,
) -> Result<Finished, Stop>
    requires count { S.faults store.old < 2 ^ 60 }
    requires differ { Differ (open_names outputs.old) }
    requires opens { open_names outputs.old ≡ M.named (M.inputs maker.old) }
    requires stands { (given : List (List ℕ)) × (was : Option Files) × M.gave maker.old given × IsOpen outputs.old given was (S.files store.old) }
    ensures opens { open_names outputs.new ≡ open_names outputs.old }
    ensures cause { StopCount result (S.faults store.old) (S.faults store.new) }
    ensures stops { StoreStops (Contains (open_names outputs.old)) result }
    ensures works { (given : List (List ℕ)) (was : Option Files) → M.gave maker.old given → IsOpen outputs.old given was (S.files store.old) →
        Worked (M.IsMade (M.inputs maker.old)) (M.named (M.inputs maker.old)) outputs.new result was (S.files store.new) }
{
    maker.lawful();
    // proof: the label names the loop in its invariant
    'working: loop {
        match take_step(alloc, store, maker, outputs)? {
            Step::More => {}
            Step::Done(finished) => return Ok(finished),
        }
    }
}

/// Creates the outputs of a maker that gave nothing yet, in order, has it fill them, and appends what is left at the end. After an
/// error each output that was created has a prefix of what is made.
pub fn make_all<M: Maker, S: Store>(
    alloc: Global,
    store: &mut S,
    maker: &mut M,
) -> Result<Finished, Stop>
    requires count { S.faults store.old < 2 ^ 60 }
    requires fresh { M.gave maker.old (blank (M.named (M.inputs maker.old))) }
    ensures cause { StopCount result (S.faults store.old) (S.faults store.new) }
    ensures writes { Writes (M.IsMade (M.inputs maker.old)) (M.named (M.inputs maker.old)) result (S.files store.old) (S.files store.new) }
{
    maker.lawful();
    let names = maker.names(alloc)?;
    let mut outputs = Outputs::create(alloc, store, names)?;
    let finished = take_steps(alloc, store, maker, &mut outputs)?;
    outputs.finish(alloc, store)?;
    Ok(finished)
}
