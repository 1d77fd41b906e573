ghost use Rattle.std.specs.Prelude.{◌≡◌, ◌≢◌, ◌+◌, ◌*◌, ◌/◌, ◌^◌, ◌<◌, ◌==◌, ◌≤ℤ◌, ◌&&◌, ◌||◌, ◌↔◌, ◌⊎◌, ◌-ℤ◌, ◌+ℤ◌, if◌then◌else◌, pos, negsuc, int_le, int_lt};
ghost use Rattle.lk_base.specs.declared.word.RxWord.TheVariants as received;
ghost use Rattle.lk_base.specs.Checksum.{digit};
ghost use Rattle.lane_model.specs.Coding.{code_of, header_for, header_in, inverse_of, payload_in, weight, word_of_code};

use lane_model::CODE_BITS;
use lk_base::{RxWord, Word};

// The place of the inversion bit of a code: its highest bit.
const INVERSION: u32 = CODE_BITS - 1;

/// True if the payload of a code is inverted: if its inversion bit, bit 66, is 1.
pub fn inversion_of(code: u128) -> bool
    requires { code < 2 ^ 67 }
    ensures { result ≡ (code / 2 ^ 66 == 1) }
{
    code >> INVERSION == 1
}

/// Returns the header of a code: bits 65:64.
pub fn header_of(code: u128) -> u8
    requires { code < 2 ^ 67 }
    ensures value { result ≡ header_in code }
    ensures below { result < 4 }
{
    (code >> 64 & 3) as u8
}

/// Returns the payload of a code as it is meant: bits 63:0, or their complement if bit 66 is 1.
pub fn payload_of(code: u128) -> u64
    requires { code < 2 ^ 67 }
    ensures { result ≡ payload_in code }
{
    let low = (code & u64::MAX as u128) as u64;
    if inversion_of(code) { !low } else { low }
}

/// Makes the code with this inversion bit, this header and this payload, which is given before inversion.
pub fn code_with(inverted: bool, header: u8, payload: u64) -> u128
    requires { header < 4 }
    ensures below { result < 2 ^ 67 }
    ensures inversion { (result / 2 ^ 66 == 1) ≡ inverted }
    ensures header { header_in result ≡ header }
    ensures payload { payload_in result ≡ payload }
{
    if inverted {
        (4 | header as u128) << 64 | !payload as u128
    } else {
        (header as u128) << 64 | payload as u128
    }
}

/// Returns the word that a code of 67 bits means: the word whose header it has, with the payload complemented if bit 66 is 1.
/// It is Bad if the header, bits 65:64, is 00 or 11, and only then.
#[tactic(auto, unfolding(lane_model::specs::Coding::word_of_code))]
pub fn decode(code: u128) -> RxWord
    requires { code < 2 ^ 67 }
    ensures value { result ≡ word_of_code code }
    ensures bad { (result ≡ received.Bad) ↔ ((header_in code ≡ 0) ⊎ (header_in code ≡ 3)) }
{
    let payload = payload_of(code);
    match header_of(code) {
        1 => RxWord::Data(payload),
        2 => RxWord::Control(payload),
        _ => RxWord::Bad,
    }
}

/// Returns the ones less the zeros in a payload and one further zero bit.
pub fn weight_of(payload: u64) -> i32
    ensures value { result ≡ weight payload }
    ensures low { negsuc 64 ≤ℤ result }
    ensures high { result ≤ℤ pos 63 }
    ensures odd { result ≢ pos 0 }
{
    2 * payload.count_ones() as i32 - 65
}

/// True if a word of this weight, which is odd, is sent inverted at this disparity.
pub fn inverts(disparity: i32, weight: i32) -> bool
    requires { weight ≢ pos 0 }
    ensures { result ≡ ((int_le (pos 0) disparity && int_lt (pos 0) weight) || (int_lt disparity (pos 0) && int_lt weight (pos 0))) }
{
    (disparity ^ weight) >= 0
}

// Makes bits 66:64 of a code.
fn top_bits(inverted: bool, word: Word) -> u128
    ensures value { result ≡ digit inverted * 4 + header_for word }
    ensures below { result < 8 }
{
    let header = 1 + word.is_control() as u128;
    4 * inverted as u128 + header
}

// Makes bits 63:0 of a code.
fn low_bits(inverted: bool, payload: u64) -> u64
    ensures { result ≡ (if inverted then inverse_of payload else payload) }
{
    if inverted { !payload } else { payload }
}

/// Makes the code of a word, inverted or plain.
#[tactic(auto, unfolding(lane_model::specs::Coding::code_of))]
pub fn code(inverted: bool, word: Word) -> u128
    ensures value { result ≡ code_of inverted word }
    ensures below { result < 2 ^ 67 }
{
    let top = top_bits(inverted, word);
    let low = low_bits(inverted, word.number());
    top << 64 | low as u128
}

/// Returns the disparity after a word of this weight, sent inverted or plain.
pub fn disparity_after(disparity: i32, weight: i32, inverted: bool) -> i32
    requires disparity_low { negsuc 64 ≤ℤ disparity }
    requires disparity_high { disparity ≤ℤ pos 64 }
    requires weight_low { negsuc 64 ≤ℤ weight }
    requires weight_high { weight ≤ℤ pos 63 }
    ensures { result ≡ (if inverted then disparity -ℤ weight else disparity +ℤ weight) }
{
    if inverted {
        disparity - weight
    } else {
        disparity + weight
    }
}
