//! The numbers of misuses and of kinds of words.
ghost use Rattle.std.specs.Prelude.{◌≡◌};
ghost use Rattle.c_gatherer.specs.Codes.{kind_of, misuse_code};

use c_parts::codes::{FINISHED, NO_LANE, TOO_MANY, WORD_BAD, WORD_CONTROL, WORD_DATA};
use live_gatherer::Misuse;
use lk_base::RxWord;

/// The result of a misuse.
pub fn misuse_code(why: Misuse) -> u32
    ensures { result ≡ misuse_code why }
{
    match why {
        Misuse::NoLane => NO_LANE,
        Misuse::Finished => FINISHED,
        Misuse::TooMany => TOO_MANY,
    }
}

/// The number of the kind of a word.
pub fn kind_of(word: RxWord) -> u32
    ensures { result ≡ kind_of word }
{
    match word {
        RxWord::Data(_) => WORD_DATA,
        RxWord::Control(_) => WORD_CONTROL,
        RxWord::Bad => WORD_BAD,
    }
}
