//! The lanes that carry the words of a words file, made a group at a time.
ghost use Rattle.std.specs.Prelude.{◌≡◌, ◌<◌, ◌≤◌, ◌+◌, ◌*◌, ◌^◌, ◌++◌, ℕ, List, length, replicate, take, drop, IfOk, OnOk};
ghost use Rattle.lk_base.specs.Link.{group_of};
ghost use Rattle.lk_base.specs.declared.word.Word.{Word as SentWord};
ghost use Rattle.link_reports.specs.Lines.{slots_line};
ghost use Rattle.run_shell.specs.Outputs.{open_names};
ghost use Rattle.run_shell.specs.Rests.{join, rests_of};
ghost use Rattle.tx_end.specs.Lanes.{AreEnded, AreFilled};
ghost use Rattle.lane_commands.specs.Stripe.{filler};

use crate::plan_words::StripeInputs;
use control_words::{Control, Eop, sealed};
use link_reports::slots_line;
use lk_base::{OutOfMemory, Word};
use run_shell::{Finished, Maker, Outputs, Step, lane_names};
use std::alloc::Global;
use tx_end::{LaneFiller, group_room};
use words_files::SentFile;

// Returns the word that fills a group: an idle that resets the calendar, with all flow bits 1 and the CRC24 of itself alone.
fn filler() -> Word
    ensures { result ≡ filler }
{
    Word::Control(sealed(Control::idle(Eop::Going, true, u16::MAX), &[]))
}

// Reads the words from number `first` on into a group. Fillers are after the last word.
fn read_group(words: &SentFile, first: usize, group: &mut [Word])
    requires there { first ≤ length words.now }
    requires few { length words.now < 2 ^ 60 }
    ensures { group.new ≡ take (length group.old) (drop first words.now ++ replicate (length group.old) filler) }
{
    let idle = filler();
    for place in 0..group.len() {
        group[place] = words.get(first + place).unwrap_or(idle);
    }
}

// Puts a group on the lanes, and gives each output the bytes of its lane.
fn give_group(
    lanes: &mut LaneFiller,
    group: &[Word],
    outputs: &mut Outputs,
) -> Result<(), OutOfMemory>
    requires group { length group.now ≡ group_of lanes.old.settings }
    requires count { length outputs.old ≡ lanes.old.settings.lanes }
    requires filled { (words : List SentWord) × (made : ℕ) × (done : List (List ℕ)) × (length words ≡ made * group_of lanes.old.settings) × AreFilled lanes.old.settings words made lanes.old.lanes (join done (rests_of outputs.old)) }
    ensures settings { lanes.new.settings ≡ lanes.old.settings }
    ensures names { open_names outputs.new ≡ open_names outputs.old }
    ensures filled { OnOk result ((words : List SentWord) (made : ℕ) (done : List (List ℕ)) → length words ≡ made * group_of lanes.old.settings → AreFilled lanes.old.settings words made lanes.old.lanes (join done (rests_of outputs.old)) →
        AreFilled lanes.old.settings (words ++ group.now) (made + 1) lanes.new.lanes (join done (rests_of outputs.new))) }
{
    for number in 0..lanes.count() {
        lanes.make_metaframe(number, group);
        outputs.give(number as usize, lanes.bytes())?;
    }
    Ok(())
}

// Gives each output the last byte of its lane, if bits wait.
fn give_ends(lanes: &mut LaneFiller, outputs: &mut Outputs) -> Result<(), OutOfMemory>
    requires count { length outputs.old ≡ lanes.old.settings.lanes }
    requires filled { (words : List SentWord) × (made : ℕ) × (done : List (List ℕ)) × AreFilled lanes.old.settings words made lanes.old.lanes (join done (rests_of outputs.old)) }
    ensures names { open_names outputs.new ≡ open_names outputs.old }
    ensures ended { OnOk result ((words : List SentWord) (made : ℕ) (done : List (List ℕ)) → AreFilled lanes.old.settings words made lanes.old.lanes (join done (rests_of outputs.old)) →
        AreEnded lanes.old.settings words made (join done (rests_of outputs.new))) }
{
    for number in 0..lanes.count() {
        lanes.make_end(number);
        outputs.give(number as usize, lanes.bytes())?;
    }
    Ok(())
}

// Makes the line of a stream of this many words.
fn slots_text(alloc: Global, slots: u64) -> Result<Vec<u8>, OutOfMemory>
    ensures { IfOk result (λ text. text.items ≡ slots_line slots) }
{
    let mut text = Vec::new(alloc);
    slots_line(alloc, &mut text, slots)?;
    Ok(text)
}

/// Makes the lanes that carry the words of a plan's words file.
#[derive(Drop)]
pub struct LaneMaker<'a> {
    /// The plan and its words.
    pub inputs: &'a StripeInputs,
    /// The lanes.
    pub lanes: LaneFiller,
    /// Room for a group of words.
    pub group: Vec<Word>,
    /// How many words of the stream the lanes carry so far: whole groups.
    pub slots: usize,
}

impl<'a> LaneMaker<'a> {
    ghost use Rattle.std.specs.Prelude.{◌≡◌, IfOk, string_bytes};
    ghost use Rattle.run_shell.specs.Names.{lane_names};
    ghost use Rattle.run_shell.specs.Outputs.{blank};
    ghost use Rattle.lane_commands.specs.Making.{GaveLanes};

    /// Creates a maker that gave nothing yet.
    ///
    /// # Errors
    ///
    /// `OutOfMemory` if memory ran out, and only then.
    pub fn new(alloc: Global, inputs: &'a StripeInputs) -> Result<LaneMaker<'a>, OutOfMemory>
        ensures inputs { IfOk result (λ m. m.inputs.now ≡ inputs.now) }
        ensures fresh { IfOk result (λ m. GaveLanes m.inputs.now m.lanes m.group.items m.slots (blank (lane_names (string_bytes m.inputs.now.plan.out) m.inputs.now.plan.link.lanes))) }
    {
        // proof: the settings of a link are within their limits
        inputs.plan.link.keeps_limits();
        let group = group_room(alloc, &inputs.plan.link)?;
        let lanes = LaneFiller::new(alloc, &inputs.plan.link)?;
        Ok(LaneMaker {
            inputs,
            lanes,
            group,
            slots: 0,
        })
    }
}

impl Maker for LaneMaker<'_> {
    ghost use Rattle.std.specs.Prelude.{◌-◌, length};
    ghost use Rattle.run_shell.specs.Names.{lane_names};
    ghost use Rattle.lane_commands.specs.Making.{GaveLanes};
    ghost use Rattle.lane_commands.specs.Stripe.{IsStriped, StripeInputs};
    ghost use Rattle.lane_commands.specs.Values.{words_value};

    ghost Inputs = { StripeInputs };

    ghost inputs = { λ m. words_value m.inputs.now };

    ghost named = { λ i. lane_names i.plan.out i.plan.settings.lanes };

    ghost IsMade = { IsStriped };

    ghost gave = { λ m given. GaveLanes m.inputs.now m.lanes m.group.items m.slots given };

    ghost left = { λ m. length m.inputs.now.words - m.slots };

    fn lawful(&self) {}

    fn names(&self, alloc: Global) -> Result<Vec<String>, OutOfMemory> {
        let plan = &self.inputs.plan;
        Ok(lane_names(alloc, plan.out.as_str(), plan.link.lanes())?)
    }

    fn step(&mut self, alloc: Global, outputs: &mut Outputs) -> Result<Step, OutOfMemory> {
        let words = &self.inputs.words;
        if self.slots < words.len() {
            read_group(words, self.slots, &mut self.group);
            give_group(&mut self.lanes, &self.group, outputs)?;
            self.slots += self.group.len();
            return Ok(Step::More);
        }
        give_ends(&mut self.lanes, outputs)?;
        let text = slots_text(alloc, self.slots as u64)?;
        Ok(Step::Done(Finished { held: false, text }))
    }
}
