//! The table of the faults of words, made as the words are judged.
ghost use Rattle.std.specs.Prelude.{◌≡◌, ◌<◌, ◌^◌, [], ◌∷◌, IfOk, OnOk, length, map, string_bytes};
ghost use Rattle.std.specs.List.Sorted.{IsNonDecreasingBy};
ghost use Rattle.stream_model.specs.declared.rows.FlowRow.{FlowRow};
ghost use Rattle.link_plan.specs.Views.{plan_value};
ghost use Rattle.run_shell.specs.Outputs.{Differ, more, open_names};
ghost use Rattle.run_shell.specs.Rests.{rests_of};
ghost use Rattle.word_rules.specs.Checks.{Keeps};
ghost use Rattle.check_commands.specs.Check.{faults_name, rules_of};
ghost use Rattle.check_commands.specs.Making.{GaveFaults};
ghost use Rattle.check_commands.specs.Table as table;

use crate::inputs::CheckInputs;
use crate::pass::{BLOCK, block_faults};
use crate::table::{fault_rows, heading};
use crate::tally::Tally;
use link_plan::channels_in_order;
use lk_base::OutOfMemory;
use run_shell::{Finished, Maker, Outputs, Step, only_name};
use std::alloc::Global;
use word_rules::{Checker, Fault, WordLimits, WordPlan};

// The name of the table, as the only one.
fn table_names(alloc: Global, out: &str) -> Result<Vec<String>, OutOfMemory>
    ensures names { IfOk result (λ v. map string_bytes v.items ≡ faults_name out.now ∷ []) }
    ensures differ { IfOk result (λ v. Differ (map string_bytes v.items)) }
{
    only_name(alloc, format!(in alloc; "{out}.faults.csv")?)
}

// What checks the words by the rules of a plan.
fn checker_of(alloc: Global, inputs: &CheckInputs) -> Result<Checker, OutOfMemory>
    ensures { IfOk result (λ checker. Keeps checker (rules_of (plan_value inputs.now.plan) inputs.now.flow.items) []) }
{
    let channels = channels_in_order(alloc, inputs.plan.channels.as_slice())?;
    let plan = WordPlan {
        limits: WordLimits::of(&inputs.plan),
        channels: &channels,
        entries: inputs.plan.entries.as_slice(),
        flow: inputs.flow.as_slice(),
    };
    Checker::new(alloc, &plan)
}

// Gives the rows of these faults to the table, and nothing if there are none.
fn give_rows(alloc: Global, outputs: &mut Outputs, faults: &[Fault]) -> Result<(), OutOfMemory>
    requires { 0 < length outputs.old }
    ensures names { open_names outputs.new ≡ open_names outputs.old }
    ensures given { OnOk result (rests_of outputs.new ≡ more (rests_of outputs.old) 0 (table.fault_rows faults.now)) }
{
    if faults.is_empty() {
        return Ok(());
    }
    let rows = fault_rows(alloc, faults)?;
    outputs.give_owned(0, rows)
}

/// What makes the table of the faults of a plan's words.
#[derive(Drop)]
pub struct FaultMaker<'a> {
    /// The plan, its rows of flow control and its words.
    pub inputs: &'a CheckInputs,
    /// What checks the words.
    pub checker: Checker,
    /// The counts of the faults so far.
    pub tally: Tally,
    /// True if the heading was given.
    pub begun: bool,
    /// The count of words that were judged.
    pub judged: usize,
}

impl<'a> FaultMaker<'a> {
    /// A maker that gave nothing yet.
    pub fn new(alloc: Global, inputs: &'a CheckInputs) -> Result<FaultMaker<'a>, OutOfMemory>
        requires order { IsNonDecreasingBy (λ (row : FlowRow). row.slot) inputs.now.flow.items }
        requires few { length inputs.now.words < 2 ^ 32 }
        ensures inputs { IfOk result (λ m. m.inputs.now ≡ inputs.now) }
        ensures fresh { IfOk result (λ m. GaveFaults m.inputs.now m.checker m.tally m.begun m.judged ([] ∷ [])) }
    {
        let checker = checker_of(alloc, inputs)?;
        Ok(FaultMaker {
            inputs,
            checker,
            tally: Tally::new(),
            begun: false,
            judged: 0,
        })
    }
}

impl Maker for FaultMaker<'_> {
    ghost use Rattle.std.specs.Prelude.{◌+◌, ◌-◌, cond, length};
    ghost use Rattle.check_commands.specs.Check.{CheckInputs, IsChecked};
    ghost use Rattle.check_commands.specs.Values.{inputs_value};

    ghost Inputs = { CheckInputs };

    ghost inputs = { λ m. inputs_value m.inputs.now };

    ghost named = { λ i. faults_name i.plan.out ∷ [] };

    ghost IsMade = { IsChecked };

    ghost gave = { λ m given. GaveFaults m.inputs.now m.checker m.tally m.begun m.judged given };

    ghost left = { λ m. cond m.begun 0 1 + (length m.inputs.now.words - m.judged) };

    fn lawful(&self) {}

    fn names(&self, alloc: Global) -> Result<Vec<String>, OutOfMemory> {
        table_names(alloc, self.inputs.plan.out.as_str())
    }

    fn step(&mut self, alloc: Global, outputs: &mut Outputs) -> Result<Step, OutOfMemory> {
        if !self.begun {
            outputs.give(0, heading())?;
            self.begun = true;
            return Ok(Step::More);
        }
        let words = &self.inputs.words;
        if self.judged == words.len() {
            let text = self.tally.text(alloc, words.len() as u64)?;
            return Ok(Step::Done(Finished { held: false, text }));
        }
        let to = words.len().min(self.judged + BLOCK);
        let found = block_faults(alloc, &mut self.checker, words, self.judged, to)?;
        self.tally.take(&found);
        give_rows(alloc, outputs, &found)?;
        self.judged = to;
        Ok(Step::More)
    }
}
