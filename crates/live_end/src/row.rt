//! The next words of a stream, a row of them at once.
ghost use Rattle.std.specs.Prelude.{◌≡◌, ◌∷◌, ◌++◌, [], List, length};
ghost use Rattle.lk_base.specs.declared.word.Word.{Word as SentWord};
ghost use Rattle.live_stream.specs.LiveStream.{Given};
ghost use Rattle.live_stream.specs.Gives.{Gives};
ghost use Rattle.live_end.specs.Calls.{GoesOn};
ghost use Rattle.live_end.specs.Sending.{IsOver};

use live_stream::LiveScheduler;
use lk_base::Word;

// The next word of a stream that goes on.
fn next_word(scheduler: &mut LiveScheduler) -> Word
    requires { (g : Given) × (w : List SentWord) × Gives scheduler.old g w × (IsOver g w → ⊥) }
    ensures { (g : Given) (w : List SentWord) → Gives scheduler.old g w → Gives scheduler.new g (w ++ result ∷ []) }
{
    match scheduler.next() {
        Some(word) => word,
        // The stream goes on.
        None => unreachable!(),
    }
}

/// Makes the next words of a stream, as many as the row has places for.
pub fn next_row(scheduler: &mut LiveScheduler, row: &mut [Word])
    requires { (g : Given) × (w : List SentWord) × Gives scheduler.old g w × GoesOn (length row.old) g w }
    ensures gives { (g : Given) (w : List SentWord) → Gives scheduler.old g w → Gives scheduler.new g (w ++ row.new) }
    ensures long { length row.new ≡ length row.old }
{
    for i in 0..row.len() {
        row[i] = next_word(scheduler);
    }
}
