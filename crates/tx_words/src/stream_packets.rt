ghost use Rattle.std.specs.Prelude.{◌<◌, ◌^◌, ◌+◌, ℕ, List, cond, count_by, IfOk, OnOk};
ghost use Rattle.lk_base.specs.declared.word.Word.{Word as SentWord};
ghost use Rattle.tx_words.specs.Sent.{AreSent, starts};
ghost use Rattle.tx_words.specs.SentLists.{Lists};

use crate::sent::{Sent, start_channel};
use crate::sent_list::SentList;
use lk_base::{OutOfMemory, Word};
use std::alloc::Global;
use word_list::WordList;

// Takes the room for the packet that the word starts, if it starts one.
fn make_room(list: &mut SentList, word: Word) -> Result<(), OutOfMemory>
    ensures { OnOk result ((p : List SentWord) (room : ℕ) → Lists list.old p room → Lists list.new p (room + cond (starts word) 1 0)) }
{
    match start_channel(word) {
        Some(_) => list.room()?,
        None => {}
    }
    Ok(())
}

/// The packets whose SOP word is among these words of a stream, which are fewer than 2^32, in the order of their SOP words. The
/// slot of a word is its place, from 0.
///
/// # Errors
///
/// `OutOfMemory` where memory ran out, and nowhere else.
pub fn sent_in(alloc: Global, words: &WordList) -> Result<Vec<Sent>, OutOfMemory>
    requires { count_by starts words.now < 2 ^ 32 }
    ensures { IfOk result (λ sent. AreSent words.now sent.items) }
{
    let mut list = SentList::new(alloc, 0)?;
    for slot in 0..words.len() {
        let word = words.get(slot);
        make_room(&mut list, word)?;
        list.pass(word);
    }
    Ok(list.into_sent())
}
