ghost use Rattle.std.specs.Prelude.{◌≡◌, ◌<◌, IfSome};
ghost use Rattle.tx_words.specs.Sent.{burst_channel};

use control_words::ControlWord;
use lk_base::Word;

// How many numbers a channel can have.
pub const NUMBERS: usize = 65536;

// The channel of a burst word.
pub fn burst_channel(word: Word) -> Option<usize>
    ensures channel { result ≡ burst_channel word }
    ensures within { IfSome result (λ channel. channel < 65536) }
{
    match word {
        Word::Control(x) => match ControlWord(x).burst_channel(true) {
            Some(channel) => Some(channel as usize),
            None => None,
        },
        Word::Data(_) => None,
    }
}
