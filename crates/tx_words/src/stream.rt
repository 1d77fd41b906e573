ghost use Rattle.std.specs.Prelude.{◌≡◌, ◌↔◌, ◌++◌, ℕ, OnOk, Some, None, IfOk};
ghost use Rattle.stream_model.specs.BurstStream.{IsBurstStream, IsHeld};
ghost use Rattle.stream_model.specs.Cutting.{HoldTheLeast};
ghost use Rattle.tx_words.specs.Sources.{IsHeldOn};

use crate::packet::MadeStream;
use crate::source::StreamSource;
use crate::word_maker::WordMaker;
use lk_base::{OutOfMemory, Word};
use std::alloc::Global;
use word_list::WordList;

// Puts the words of a block after the others.
fn push_block(words: &mut WordList, block: &[Word]) -> Result<(), OutOfMemory>
    ensures { OnOk result (words.new ≡ words.old ++ block.now) }
{
    words.extend(block)
}

/// The whole payload stream of a source, and the channel that holds it. Each burst holds at least the lesser of the shape's
/// BurstMin and its packet's length.
///
/// # Errors
///
/// `OutOfMemory` where memory ran out, and nowhere else.
pub fn words_of(alloc: Global, source: &StreamSource) -> Result<MadeStream, OutOfMemory>
    ensures stream { IfOk result (λ made. IsBurstStream source.now made.words) }
    ensures least { IfOk result (λ made. HoldTheLeast source.now made.words) }
    ensures held { IfOk result (λ made. (channel : ℕ) → (made.held ≡ Some channel) ↔ IsHeldOn source.now made.words channel) }
    ensures free { IfOk result (λ made. (made.held ≡ None) ↔ (IsHeld source.now made.words → ⊥)) }
{
    let mut maker = WordMaker::new(alloc, source)?;
    let mut words = WordList::new(alloc);
    let mut block = [Word::Data(0); 512];
    while !maker.is_over() {
        let count = maker.next_block(&mut block);
        push_block(&mut words, &block[..count])?;
    }
    let held = maker.held();
    Ok(MadeStream { words, held })
}
