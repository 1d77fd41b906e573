//! The numbers of rules and of kinds of words, and the results of words that are refused.
ghost use Rattle.std.specs.Prelude.{◌≡◌};
ghost use Rattle.c_checker.specs.Codes.{misuse_code, rule_code, word_of};

use c_parts::codes::{FINISHED, TOO_MANY, WAITING, WORD_BAD, WORD_CONTROL, WORD_DATA};
use live_checker::Misuse;
use lk_base::RxWord;
use word_rules::WordRule;

/// The word of this kind and number, if there is such a kind. The number of a Bad word is not looked at.
pub fn word_of(kind: u32, number: u64) -> Option<RxWord>
    ensures { result ≡ word_of kind number }
{
    match kind {
        WORD_DATA => Some(RxWord::Data(number)),
        WORD_CONTROL => Some(RxWord::Control(number)),
        WORD_BAD => Some(RxWord::Bad),
        _ => None,
    }
}

/// The result of a word, or of a word of flow control, that is refused.
pub fn misuse_code(why: Misuse) -> u32
    ensures { result ≡ misuse_code why }
{
    match why {
        Misuse::Finished => FINISHED,
        Misuse::Waiting => WAITING,
        Misuse::TooMany => TOO_MANY,
    }
}

/// The number of a rule.
pub fn rule_code(rule: WordRule) -> u32
    ensures { result ≡ rule_code rule }
{
    rule.place() as u32 + 1
}
