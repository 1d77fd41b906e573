ghost use Rattle.std.specs.Prelude.{◌≡◌};
ghost use Rattle.word_list.specs.Received.{kind_of, rx_word_of};

use lk_base::RxWord;

/// What a received word is.
#[derive(Clone, Copy, Debug, PartialEq, Eq)]
pub enum WordKind {
    Data,
    Control,
    /// A word whose header was neither that of data nor that of control.
    Bad,
}

/// Returns the kind of a word.
pub fn kind_of(word: RxWord) -> WordKind
    ensures { result ≡ kind_of word }
{
    match word {
        RxWord::Data(_) => WordKind::Data,
        RxWord::Control(_) => WordKind::Control,
        RxWord::Bad => WordKind::Bad,
    }
}

/// Returns the word with this number and this kind.
pub fn rx_word_of(number: u64, kind: WordKind) -> RxWord
    ensures { result ≡ rx_word_of number kind }
{
    match kind {
        WordKind::Data => RxWord::Data(number),
        WordKind::Control => RxWord::Control(number),
        WordKind::Bad => RxWord::Bad,
    }
}
