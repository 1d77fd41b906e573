ghost use Rattle.std.specs.Prelude.{Some, ℕ};
ghost use Rattle.calendar.specs.Incoming.{StandsFor, IsHeardAs};

use control_words::{Control, ControlWord, sealed};
use lk_crc::crc24_of;

/// Returns the word of a flow row with these fields and the checksum of itself alone. The word is valid.
pub fn flow_word(c: Control) -> u64
    ensures { StandsFor (Some c) result }
{
    sealed(c, &[])
}

/// Returns the fields of the word of a flow row, if it is valid: a control word with the checksum of itself alone.
pub fn valid_word(word: u64) -> Option<Control>
    ensures { StandsFor result word }
{
    let empty: [u64; 0] = [];
    let control = match ControlWord(word).control() {
        Ok(control) => control,
        Err(_) => return None,
    };
    if ControlWord(word).crc() == crc24_of(&empty, word) {
        Some(control)
    } else {
        None
    }
}

// why: A control word that a receiver verified is heard by its fields (calendar::verified_word). Its own checksum, over the
// data before it, is not looked at. The contracts still say which flow row it is: the word with a checksum over only
// itself (heard_word). Rows of a flow file are verified (valid_word).
/// Returns the fields of a control word that was verified with the data before it, or `None` if the number is no control word. It does
/// not look at the checksum: the fields are those of the flow row with the checksum of the word alone.
pub fn verified_word(word: u64) -> Option<Control>
    ensures { (heard : ℕ) → IsHeardAs word heard → StandsFor result heard }
{
    ControlWord(word).control().ok()
}
