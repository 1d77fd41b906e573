//! A stream is carried by events, and the words of what is accepted are given to the output.
ghost use Rattle.std.specs.Prelude.{◌≡◌, ◌+◌, ◌<◌, ◌≤◌, ◌^◌, ℕ, List, [], ◌∷◌, length, replicate, OnOk};
ghost use Rattle.words_files.specs.WordsFile.{words_file};
ghost use Rattle.run_shell.specs.Outputs.{more, open_names};
ghost use Rattle.run_shell.specs.Rests.{join, rests_of};
ghost use Rattle.resend_commands.specs.Carried.{accepted_file, events_done};

use lk_base::{OutOfMemory, Word, tail};
use resend_events::EventRow;
use retransmit::Resend;
use run_shell::Outputs;
use words_files::append_words;

// Does an event as often as its row says.
fn do_events(resend: &mut Resend, run: EventRow)
    requires { resend.old.state.sends + run.count ≤ 2 ^ 60 }
    ensures done { resend.new ≡ events_done resend.old (replicate run.count run.event) }
    ensures sends { resend.new.state.sends ≤ resend.old.state.sends + run.count }
{
    for _turn in 0..run.count {
        resend.event(run.event);
    }
}

// Gives the first output the bytes of words. They take the room of `bytes`.
fn give_words(outputs: &mut Outputs, bytes: &mut Vec<u8>, words: &[Word]) -> Result<(), OutOfMemory>
    requires { 0 < length outputs.old }
    ensures names { open_names outputs.new ≡ open_names outputs.old }
    ensures given { OnOk result (rests_of outputs.new ≡ more (rests_of outputs.old) 0 (words_file words.now)) }
{
    if words.is_empty() {
        return Ok(());
    }
    bytes.clear();
    append_words(bytes, words)?;
    outputs.give(0, bytes)
}

/// Does an event as often as its row says, and gives the one output the words of the pieces that are accepted meanwhile. Their bytes
/// take the room of `bytes`.
pub fn carry(
    outputs: &mut Outputs,
    bytes: &mut Vec<u8>,
    resend: &mut Resend,
    run: EventRow,
) -> Result<(), OutOfMemory>
    requires few { resend.old.state.sends + run.count ≤ 2 ^ 60 }
    requires one { 0 < length outputs.old }
    ensures done { resend.new ≡ events_done resend.old (replicate run.count run.event) }
    ensures sends { resend.new.state.sends ≤ resend.old.state.sends + run.count }
    ensures names { open_names outputs.new ≡ open_names outputs.old }
    ensures given { OnOk result ((before : List (List ℕ)) → join before (rests_of outputs.old) ≡ accepted_file resend.old ∷ [] → join before (rests_of outputs.new) ≡ accepted_file resend.new ∷ []) }
{
    let before = resend.words().len();
    do_events(resend, run);
    let words = tail(resend.words(), before);
    give_words(outputs, bytes, words)
}
