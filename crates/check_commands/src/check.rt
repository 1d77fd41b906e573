//! `check FILE`: the words of a plan's words file are judged by the rules.
ghost use Rattle.std.specs.Prelude.{◌≡◌, ◌<◌, ◌^◌, [], ◌∷◌, length, string_bytes};
ghost use Rattle.std.specs.List.Sorted.{IsNonDecreasingBy};
ghost use Rattle.stream_model.specs.declared.rows.FlowRow.{FlowRow};
ghost use Rattle.run_stops.specs.Stops.{StopCount};
ghost use Rattle.run_shell.specs.Writing.{Writes};
ghost use Rattle.check_commands.specs.Check.{IsChecked, faults_name};
ghost use Rattle.check_commands.specs.Values.{inputs_value};

use crate::fault_maker::FaultMaker;
use crate::inputs::{CheckInputs, let_go, read_check_inputs};
use lk_outside::Store;
use run_shell::{FileCommand, Finished, make_all};
use run_stops::Stop;
use std::alloc::Global;

// The table of the faults of what was read.
fn write_checked<S: Store>(
    alloc: Global,
    store: &mut S,
    inputs: &CheckInputs,
) -> Result<Finished, Stop>
    requires count { S.faults store.old < 2 ^ 60 }
    requires order { IsNonDecreasingBy (λ (row : FlowRow). row.slot) inputs.now.flow.items }
    requires few { length inputs.now.words < 2 ^ 32 }
    ensures cause { StopCount result (S.faults store.old) (S.faults store.new) }
    ensures writes { Writes (IsChecked (inputs_value inputs.now)) (faults_name (string_bytes inputs.now.plan.out) ∷ []) result (S.files store.old) (S.files store.new) }
{
    let mut maker = FaultMaker::new(alloc, inputs)?;
    make_all(alloc, store, &mut maker)
}

/// `check FILE`: the faults of a plan's words file, by the rules that a sender keeps, become a table, `OUT.faults.csv`. The text has
/// the number of the words, that of the faults, and that of the faults of each rule.
pub struct Check;

impl FileCommand for Check {
    ghost use Rattle.check_commands.specs.Check.{check_meaning};

    ghost meaning = { check_meaning };

    fn obey<S: Store>(alloc: Global, store: &mut S, file: &str) -> Result<Finished, Stop> {
        let inputs = read_check_inputs(alloc, store, file)?;
        let finished = write_checked(alloc, store, &inputs);
        let_go(inputs.plan);
        finished
    }
}
