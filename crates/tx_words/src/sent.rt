ghost use Rattle.std.specs.Prelude.{◌≡◌, ℕ, ◌<◌, slice_index_or, IfOk, IfSome, vec_len};
ghost use Rattle.lk_base.specs.declared.word.Word.{Word};
ghost use Rattle.tx_words.specs.Sent.{ends};
ghost use Rattle.tx_words.specs.Places.{channel_after, ended_channel, fresh_place, start_channel};
ghost use Rattle.tx_words.specs.declared.sent.Place.{Place};

use crate::bursts::{NUMBERS, burst_channel};
use control_words::ControlWord;
use lk_base::{OutOfMemory, Word};
use std::alloc::Global;

/// A packet whose SOP word, its first word, is in a stream. Its end word is the next control word with an end format whose
/// last burst word is on the packet's channel.
#[derive(Clone, Copy, Debug, PartialEq, Eq)]
pub struct Sent {
    /// Its channel.
    pub channel: u16,
    /// Its number among the packets of its channel, from 0.
    pub number: u32,
    /// The slot of its SOP word.
    pub first: u64,
    /// The slot of its end word, `None` exactly where the end word is not in the stream.
    pub last: Option<u64>,
}

// What is known of a channel while the words are gone over.
#[derive(Clone, Copy)]
pub struct Place {
    // How many packets have started.
    pub started: u32,
    // Where the packet that has not ended stands in the list, if there is one.
    pub current: Option<usize>,
}

// This many places of no words.
fn fresh_places(alloc: Global, count: usize) -> Result<Vec<Place>, OutOfMemory>
    ensures len { IfOk result (λ places. vec_len places ≡ count) }
    ensures none { IfOk result (λ places. (k : ℕ) (e : Place) → k < count → slice_index_or places.items k e ≡ fresh_place) }
{
    let fresh = Place {
        started: 0,
        current: None,
    };
    Ok(vec![in alloc; fresh; count]?)
}

// A place for each number of a channel, of no words.
pub fn no_places(alloc: Global) -> Result<Vec<Place>, OutOfMemory>
    ensures len { IfOk result (λ places. vec_len places ≡ 65536) }
    ensures none { IfOk result (λ places. (c : ℕ) (e : Place) → c < 65536 → slice_index_or places.items c e ≡ fresh_place) }
{
    fresh_places(alloc, NUMBERS)
}

// The channel of the SOP word of a packet.
pub fn start_channel(word: Word) -> Option<usize>
    ensures channel { result ≡ start_channel word }
    ensures within { IfSome result (λ channel. channel < 65536) }
{
    match word {
        Word::Control(x) if ControlWord(x).starts_packet() => burst_channel(word),
        _ => None,
    }
}

// Whether the word is a control word with an end format.
fn ends(word: Word) -> bool
    ensures { result ≡ ends word }
{
    match word {
        Word::Control(x) => ControlWord(x).ends_packet(),
        Word::Data(_) => false,
    }
}

// The channel of the last burst word after this word, where `last` is that of the one before.
pub fn channel_after(last: Option<usize>, word: Word) -> Option<usize>
    ensures channel { result ≡ channel_after last word }
    ensures within { IfSome last (λ channel. channel < 65536) → IfSome result (λ channel. channel < 65536) }
{
    burst_channel(word).or(last)
}

// The channel on which the word ends a packet.
pub fn ended_channel(last: Option<usize>, word: Word) -> Option<usize>
    ensures channel { result ≡ ended_channel last word }
    ensures within { IfSome last (λ channel. channel < 65536) → IfSome result (λ channel. channel < 65536) }
{
    if ends(word) { last } else { None }
}
