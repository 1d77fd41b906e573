//! A plan, the rows of its flow file, and the words of its words file.
ghost use Rattle.std.specs.Prelude.{◌≡◌, ◌<◌, ◌^◌, IfOk, IfSome, length};
ghost use Rattle.std.specs.List.Sorted.{IsNonDecreasingBy};
ghost use Rattle.stream_model.specs.declared.rows.FlowRow.{FlowRow};
ghost use Rattle.link_plan.specs.Views.{plan_value};
ghost use Rattle.run_stops.specs.Stops.{StopCount};
ghost use Rattle.run_stops.specs.Reading.{Reads};
ghost use Rattle.run_shell.specs.Names.{words_name};
ghost use Rattle.run_stops.specs.WordsInputs.{words_in};
ghost use Rattle.check_commands.specs.Check.{IsReadFor, check_inputs_in};
ghost use Rattle.check_commands.specs.Values.{inputs_value};

use link_plan::Plan;
use lk_outside::Store;
use plan_inputs::{read_flow_file, read_plan_file};
use run_shell::words_name;
use run_stops::{Stop, read_words_file};
use std::alloc::Global;
use stream_model::FlowRow;
use words_files::WordsFile;

/// What is read for `check`.
#[derive(Drop)]
pub struct CheckInputs {
    /// The plan.
    pub plan: Plan,
    /// The rows of its flow file, in order of slot; none if it names no such file.
    pub flow: Vec<FlowRow>,
    /// The words of its words file, in order.
    pub words: WordsFile,
}

// The words of a plan's words file.
fn read_plan_words<S: Store>(alloc: Global, store: &mut S, plan: &Plan) -> Result<WordsFile, Stop>
    requires { S.faults store.old < 2 ^ 60 }
    ensures cause { StopCount result (S.faults store.old) (S.faults store.new) }
    ensures unchanged { S.files store.new ≡ S.files store.old }
    ensures few { IfOk result (λ words. length words < 2 ^ 32) }
    ensures reads { IfSome (S.files store.old) (λ files. Reads (λ words. words) (λ q. q ≡ words_name (plan_value plan.now).out) result (words_in files (words_name (plan_value plan.now).out))) }
{
    let name = words_name(alloc, plan.out.as_str())?;
    read_words_file(alloc, store, name.as_str())
}

/// Drops a plan.
// proof: a function that drops one by itself is slow to prove
pub fn let_go(_plan: Plan) {}

/// The plan of this name, after it the rows of its flow file, and then the words of its words file, each read and checked whole
/// before the next. The first that is absent, too large or refused is refused, unless the store fails or memory runs out. The
/// files are as they were.
pub fn read_check_inputs<S: Store>(
    alloc: Global,
    store: &mut S,
    file: &str,
) -> Result<CheckInputs, Stop>
    requires { S.faults store.old < 2 ^ 60 }
    ensures cause { StopCount result (S.faults store.old) (S.faults store.new) }
    ensures unchanged { S.files store.new ≡ S.files store.old }
    ensures order { IfOk result (λ i. IsNonDecreasingBy (λ (row : FlowRow). row.slot) i.flow.items) }
    ensures few { IfOk result (λ i. length i.words < 2 ^ 32) }
    ensures reads { IfSome (S.files store.old) (λ files. Reads inputs_value (IsReadFor file.now files) result (check_inputs_in files file.now)) }
{
    let plan = read_plan_file(alloc, store, file)?;
    let flow = match read_flow_file(alloc, store, &plan) {
        Ok(flow) => flow,
        Err(stop) => {
            let_go(plan);
            return Err(stop);
        }
    };
    match read_plan_words(alloc, store, &plan) {
        Ok(words) => Ok(CheckInputs { plan, flow, words }),
        Err(stop) => {
            let_go(plan);
            Err(stop)
        }
    }
}
