ghost use Rattle.std.specs.Prelude.{◌≡◌, ◌<◌, ◌≤◌, ◌+◌, ◌^◌, ◌++◌, true, false, List, length, max, take};
ghost use Rattle.lk_base.specs.Positions.{words_from};
ghost use Rattle.lk_base.specs.declared.word.Aligned.{Aligned as Item};
ghost use Rattle.receive_model.specs.Behind.{is_after};
ghost use Rattle.receive_model.specs.Events.{Event, Setting};
ghost use Rattle.reassembly.specs.Stands.{Stands};
ghost use Rattle.reassembly.specs.States.{NothingWaits};
ghost use Rattle.rx_front.specs.Waiting.{words_in};
ghost use Rattle.word_list.specs.Received.{data_front};

use lk_base::{Aligned, Pos};
use reassembly::Reassembly;
use rx_front::Front;

/// Puts the first of the words that wait in the front, which is at the place `at`, and if it is a data word those up to the next word
/// of another kind. Returns the number of words that were put.
pub fn put_first(reassembly: &mut Reassembly, front: &Front, at: Pos) -> usize
    requires waits { NothingWaits reassembly.old }
    requires some { 1 ≤ length front.now.waiting }
    requires are { front.now.waiting ≡ words_from at.group at.index (words_in front.now.waiting) }
    requires fits { at.index + length front.now.waiting < 2 ^ 32 }
    ensures count { result ≡ max 1 (length (data_front (words_in front.now.waiting))) }
    ensures some { 1 ≤ result }
    ensures most { result ≤ length front.now.waiting }
    ensures stands { (setting : Setting) (put : List Item) (given : List Event) → is_after at put ≡ true →
        Stands reassembly.old setting put false given → Stands reassembly.new setting (put ++ words_from at.group at.index (take result (words_in front.now.waiting))) false given }
{
    let run = front.data_run(0);
    if run.is_empty() {
        reassembly.put(Aligned::Word(at, front.word(0)));
        return 1;
    }
    reassembly.put_data(at, run);
    run.len()
}
