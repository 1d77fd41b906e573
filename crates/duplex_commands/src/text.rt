//! What is reported of a run.
ghost use Rattle.std.specs.Prelude.{◌≡◌, ◌++◌, ℕ, List, All, Contains, IfOk, OnOk, Option};
ghost use Rattle.std.specs.List.{flat_map};
ghost use Rattle.lk_base.specs.declared.word.Word.{Word};
ghost use Rattle.lk_outside.specs.Files.{Files};
ghost use Rattle.duplex_model.specs.DuplexRun.{Ends, Settings};
ghost use Rattle.duplex.specs.Duplexes.{Runs, IsGiven, sent_to};
ghost use Rattle.receipts.specs.declared.receipt.ChannelReceipt.{ChannelReceipt as Count};
ghost use Rattle.duplex_commands.specs.Captures.{Beginning};
ghost use Rattle.duplex_commands.specs.Slots.{IsAt};
ghost use Rattle.duplex_commands.specs.Ended.{counted_line, letter_of, run_text};

use crate::captures::Captures;
use duplex::{Duplex, End};
use link_reports::{EndCounts, end_line, slots_line};
use lk_base::OutOfMemory;
use receipts::ChannelReceipt;
use std::alloc::Global;

// The letter of an end, as a byte.
fn letter(end: End) -> u8
    ensures { result ≡ letter_of end }
{
    match end {
        End::A => b'a',
        End::B => b'b',
    }
}

// Appends what came at an end for each channel: its packets, their bytes, and the peak of its queue.
fn end_lines(
    alloc: Global,
    text: &mut Vec<u8>,
    duplex: &Duplex,
    end: End,
    counts: &[ChannelReceipt],
) -> Result<(), OutOfMemory>
    requires { (settings : Settings) × (ends : Ends) × (slots : ℕ) × (a : List Word) × (b : List Word) × Runs duplex.now settings ends slots a b × All (λ (c : Count). Contains ends.channels c.channel) counts.now }
    ensures { OnOk result ((settings : Settings) (ends : Ends) (slots : ℕ) (a b : List Word) → Runs duplex.now settings ends slots a b → All (λ (c : Count). Contains ends.channels c.channel) counts.now →
        text.new.items ≡ text.old.items ++ flat_map (counted_line (letter_of end) settings (sent_to end a b) slots) counts.now) }
{
    for one in counts {
        let peak = u64::from(duplex.peak(end, one.channel));
        let counts = EndCounts {
            end: letter(end),
            channel: one.channel,
            packets: one.packets,
            bytes: one.bytes,
            peak,
        };
        end_line(alloc, text, &counts)?;
    }
    Ok(())
}

/// What is reported of a run once all of its slots are done and all that arrived was given: the lines of end a and then of end b,
/// and how many slots there were.
pub fn text_of(
    alloc: Global,
    captures: &Captures,
    duplex: &Duplex,
    slots: u32,
) -> Result<Vec<u8>, OutOfMemory>
    requires given { IsGiven duplex.now }
    requires at { (b : Beginning) × (settings : Settings) × (ends : Ends) × (now : Option Files) × IsAt b settings ends slots duplex.now captures.now now × (ends.channels ≡ b.setting.channels) }
    ensures { IfOk result (λ text. (b : Beginning) (settings : Settings) (ends : Ends) (now : Option Files) (at : IsAt b settings ends slots duplex.now captures.now now) → ends.channels ≡ b.setting.channels → settings.slots ≡ slots →
        text.items ≡ run_text b settings at.from_a at.from_b) }
{
    let mut text = Vec::new(alloc);
    end_lines(alloc, &mut text, duplex, End::A, &captures.a)?;
    end_lines(alloc, &mut text, duplex, End::B, &captures.b)?;
    slots_line(alloc, &mut text, u64::from(slots))?;
    Ok(text)
}
