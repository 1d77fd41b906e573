//! The counts of faults, in all and of each rule.
// why: Counts of rules are arrays of fixed length: the place of a rule is proved to be below it.
ghost use Rattle.std.specs.Prelude.{◌≡◌, ◌<◌, ◌+◌, ◌-◌, ◌^◌, ◌==◌, ◌++◌, [], List, cond, length, slice_index, slice_set, IfOk, OnOk, string_bytes};
ghost use Rattle.std.specs.List.{flat_map};
ghost use Rattle.word_rules.specs.declared.fault.Fault.{Fault};
ghost use Rattle.word_rules.specs.Names.{rule_place};
ghost use Rattle.check_commands.specs.Table.{check_text, rule_line, rule_line_of};
ghost use Rattle.check_commands.specs.Tally.{IsTally, counts_of};

use link_reports::count_line;
use lk_base::OutOfMemory;
use std::alloc::{AllocError, Global};
use word_rules::{Fault, WordRule};

// Counts one more fault of a rule.
fn count_fault(counts: &mut [u64; 19], rule: WordRule)
    requires { slice_index counts.old (rule_place rule) < 2 ^ 64 - 1 }
    ensures { counts.new ≡ slice_set counts.old (rule_place rule) (slice_index counts.old (rule_place rule) + 1) }
{
    counts[rule.place()] += 1;
}

// Counts faults by their rules.
fn count_faults(counts: &mut [u64; 19], faults: &[Fault])
    requires { (told : List Fault) × (counts.old ≡ counts_of told) × (length told + length faults.now < 2 ^ 64) }
    ensures { (told : List Fault) → counts.old ≡ counts_of told → counts.new ≡ counts_of (told ++ faults.now) }
{
    for fault in faults {
        count_fault(counts, fault.rule);
    }
}

// The line of a rule.
fn rule_text(alloc: Global, rule: WordRule, count: u64) -> Result<String, AllocError>
    ensures { IfOk result (λ text. string_bytes text ≡ rule_line rule count) }
{
    format!(in alloc; "rule {rule}={count}\n")
}

// Appends the line of a rule to a text, if the rule has faults.
fn put_rule(
    alloc: Global,
    text: &mut Vec<u8>,
    rule: WordRule,
    count: u64,
) -> Result<(), OutOfMemory>
    ensures { OnOk result (text.new.items ≡ text.old.items ++ cond (count == 0) [] (rule_line rule count)) }
{
    if count == 0 {
        return Ok(());
    }
    let line = rule_text(alloc, rule, count)?;
    text.extend_from_slice(line.as_bytes())?;
    Ok(())
}

// Puts the lines of these rules after a text; `counts` has the faults of each rule at its place.
fn put_rules(
    alloc: Global,
    text: &mut Vec<u8>,
    rules: &[WordRule],
    counts: &[u64; 19],
) -> Result<(), OutOfMemory>
    ensures { (told : List Fault) → counts.now ≡ counts_of told → OnOk result (text.new.items ≡ text.old.items ++ flat_map (rule_line_of told) rules.now) }
{
    for rule in rules {
        put_rule(alloc, text, *rule, counts[rule.place()])?;
    }
    Ok(())
}

/// The counts of faults, in all and of each rule.
#[derive(Drop)]
pub struct Tally {
    total: u64,
    // By the places of the rules in `WordRule::ALL`.
    counts: [u64; 19],
}

impl Tally {
    /// No fault.
    pub fn new() -> Tally
        ensures { IsTally result [] }
    {
        Tally {
            total: 0,
            counts: [0; 19],
        }
    }

    /// Counts these faults, too.
    pub fn take(&mut self, faults: &[Fault])
        requires { (told : List Fault) × IsTally self.old told × (length told + length faults.now < 2 ^ 64) }
        ensures { (told : List Fault) → IsTally self.old told → IsTally self.new (told ++ faults.now) }
    {
        count_faults(&mut self.counts, faults);
        self.total += faults.len() as u64;
    }

    /// The text of this many words that have these faults.
    pub fn text(&self, alloc: Global, words: u64) -> Result<Vec<u8>, OutOfMemory>
        ensures { (told : List Fault) → IsTally self.now told → IfOk result (λ text. text.items ≡ check_text words told) }
    {
        let mut text = Vec::new(alloc);
        count_line(alloc, &mut text, "words", words)?;
        count_line(alloc, &mut text, "faults", self.total)?;
        put_rules(alloc, &mut text, &WordRule::ALL, &self.counts)?;
        Ok(text)
    }
}
