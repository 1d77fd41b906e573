ghost use Rattle.std.specs.Prelude.{◌≡◌, ℕ, ◌+◌, ◌^◌, ◌<◌, ◌≤◌, List, [], ◌∷◌, ◌++◌, map, length, get_or, slice_index_or, sum_by, All, IfOk, vec_len};
ghost use Rattle.stream_model.specs.BurstStream.{IsBurstStream, bursts_in};
ghost use Rattle.tx_words.specs.Sources.{packets_by};
ghost use Rattle.lk_base.specs.declared.word.Word.{Word as SentWord};
ghost use Rattle.tx_words.specs.Counts.{AreCounts};
ghost use Rattle.tx_words.specs.Sent.{AreSent};
ghost use Rattle.tx_words.specs.Tallies.{AreTallies, count_from, ended_in, first_tally, tally_of, with_packet};
ghost use Rattle.tx_words.specs.declared.sent.Sent.{Sent};

use crate::bursts::{NUMBERS, burst_channel};
use crate::packet::Packet;
use crate::sent::Sent;
use crate::source::StreamSource;
use lk_base::{LONGEST_PACKET, OutOfMemory, Word};
use report_model::SentCount;
use std::alloc::Global;
use word_list::WordList;

// What is known of a channel's packets while they are gone over.
#[derive(Clone, Copy)]
pub struct Tally {
    // The channel's bursts that carry none of the packets so far.
    bursts: u64,
    packets: u64,
    bytes: u64,
    left: u64,
}

// This many tallies of no bursts.
fn empty_tallies(alloc: Global, count: usize) -> Result<Vec<Tally>, OutOfMemory>
    ensures len { IfOk result (λ tallies. vec_len tallies ≡ count) }
    ensures none { IfOk result (λ tallies. (k : ℕ) (d : Tally) → k < count → slice_index_or tallies.items k d ≡ first_tally 0) }
{
    let none = Tally {
        bursts: 0,
        packets: 0,
        bytes: 0,
        left: 0,
    };
    Ok(vec![in alloc; none; count]?)
}

// A tally for each number of a channel, of no bursts.
pub fn no_tallies(alloc: Global) -> Result<Vec<Tally>, OutOfMemory>
    ensures len { IfOk result (λ tallies. vec_len tallies ≡ 65536) }
    ensures none { IfOk result (λ tallies. AreTallies (λ _. first_tally 0) tallies.items) }
{
    empty_tallies(alloc, NUMBERS)
}

// Counts the burst of one more word, if it is a burst word.
pub fn count_burst(tallies: &mut Vec<Tally>, word: Word)
    requires long { vec_len tallies.old ≡ 65536 }
    requires few { (before : List SentWord) × AreTallies (λ c. first_tally (bursts_in before c)) tallies.old.items × (length before < 2 ^ 63) }
    ensures long { vec_len tallies.new ≡ 65536 }
    ensures bursts { (before : List SentWord) → AreTallies (λ c. first_tally (bursts_in before c)) tallies.old.items → AreTallies (λ c. first_tally (bursts_in (before ++ word ∷ []) c)) tallies.new.items }
{
    if let Some(channel) = burst_channel(word) {
        tallies[channel].bursts += 1;
    }
}

// A tally for each number of a channel, of the channel's bursts among these words.
fn count_bursts(alloc: Global, words: &WordList) -> Result<Vec<Tally>, OutOfMemory>
    ensures len { IfOk result (λ tallies. vec_len tallies ≡ 65536) }
    ensures bursts { IfOk result (λ tallies. AreTallies (λ c. first_tally (bursts_in words.now c)) tallies.items) }
{
    let mut tallies = no_tallies(alloc)?;
    for slot in 0..words.len() {
        count_burst(&mut tallies, words.get(slot));
    }
    Ok(tallies)
}

// The tally with one more packet of this many bytes.
fn with_packet(most: u32, tally: Tally, bytes: u64) -> Tally
    requires most { 1 ≤ most }
    requires bytes { tally.bytes + bytes < 2 ^ 41 }
    requires packets { tally.packets + 1 < 2 ^ 64 }
    requires left { tally.left + 1 < 2 ^ 64 }
    ensures { result ≡ with_packet most tally bytes }
{
    let most = most as u64;
    let chunks = (bytes + (most - 1)) / most;
    if chunks <= tally.bursts {
        Tally {
            bursts: tally.bursts - chunks,
            packets: tally.packets + 1,
            bytes: tally.bytes + bytes,
            left: tally.left,
        }
    } else {
        Tally {
            bursts: 0,
            packets: tally.packets,
            bytes: tally.bytes,
            left: tally.left + 1,
        }
    }
}

// The tallies with these packets as well. A packet takes a burst for each chunk, of at most this many bytes.
fn with_packets(most: u32, packets: &[Packet], first: Vec<Tally>) -> Vec<Tally>
    requires most { 1 ≤ most }
    requires fit { All (λ packet. packet.channel ≤ 65535) packets.now }
    requires bytes { sum_by (λ (p : ℕ × List ℕ). length p.1) (packets_by packets.now) < 2 ^ 40 }
    requires len { vec_len first ≡ 65536 }
    requires first { (n : ℕ → ℕ) × AreTallies (λ c. first_tally (n c)) first.items }
    ensures len { vec_len result ≡ 65536 }
    ensures tallies { (n : ℕ → ℕ) → AreTallies (λ c. first_tally (n c)) first.items → AreTallies (λ c. tally_of most c (n c) packets.now) result.items }
{
    let mut tallies = first;
    for packet in packets {
        let channel = packet.channel as usize;
        tallies[channel] = with_packet(most, tallies[channel], packet.bytes.len() as u64);
    }
    tallies
}

// What the tallies say of these channels, in their order.
fn counts_by(
    alloc: Global,
    channels: &[u16],
    tallies: &[Tally],
) -> Result<Vec<SentCount>, OutOfMemory>
    requires len { length tallies.now ≡ 65536 }
    ensures { IfOk result (λ counts. counts.items ≡ map (λ c. count_from c (get_or tallies.now c (first_tally 0))) channels.now) }
{
    let mut counts = Vec::new(alloc);
    for channel in channels {
        let tally = tallies[*channel as usize];
        let count = SentCount {
            channel: *channel,
            packets: tally.packets,
            bytes: tally.bytes,
            left: tally.left,
        };
        counts.push(count)?;
    }
    Ok(counts)
}

// The counts of a stream whose bursts were counted.
pub fn count_bursts_by(
    alloc: Global,
    source: &StreamSource,
    bursts: Vec<Tally>,
) -> Result<Vec<SentCount>, OutOfMemory>
    requires len { vec_len bursts ≡ 65536 }
    requires bursts { (words : List SentWord) × AreTallies (λ c. first_tally (bursts_in words c)) bursts.items }
    ensures { IfOk result (λ counts. (words : List SentWord) → AreTallies (λ c. first_tally (bursts_in words c)) bursts.items → IsBurstStream source.now words →
        AreCounts source.now words counts.items) }
{
    let tallies = with_packets(source.shape.burst_max, source.packets, bursts);
    counts_by(alloc, source.channels, &tallies)
}

/// For each listed channel, in their order, how many of its packets the stream `words` of the source sends, with how many
/// bytes, and how many of its packets are not sent.
///
/// # Errors
///
/// `OutOfMemory` where memory ran out, and nowhere else.
pub fn count_sent(
    alloc: Global,
    source: &StreamSource,
    words: &WordList,
) -> Result<Vec<SentCount>, OutOfMemory>
    ensures { IfOk result (λ counts. IsBurstStream source.now words.now → AreCounts source.now words.now counts.items) }
{
    let bursts = count_bursts(alloc, words)?;
    count_bursts_by(alloc, source, bursts)
}

// A tally for each number of a channel, of one burst for each of its listed packets that has an end word.
fn count_ended(alloc: Global, sent: &[Sent]) -> Result<Vec<Tally>, OutOfMemory>
    requires low { All (λ s. s.channel < 65536) sent.now }
    ensures len { IfOk result (λ tallies. vec_len tallies ≡ 65536) }
    ensures ended { IfOk result (λ tallies. AreTallies (λ c. first_tally (ended_in c sent.now)) tallies.items) }
{
    let mut tallies = no_tallies(alloc)?;
    for one in sent {
        if one.last.is_some() {
            tallies[one.channel as usize].bursts += 1;
        }
    }
    Ok(tallies)
}

/// What a stream sends of each channel, counted by the list of the packets whose SOP word is in the stream. A channel sends its first packets, as many as
/// have their end words in the stream.
///
/// # Errors
///
/// `OutOfMemory` where memory ran out, and nowhere else.
pub fn count_listed(
    alloc: Global,
    source: &StreamSource,
    sent: &[Sent],
) -> Result<Vec<SentCount>, OutOfMemory>
    requires { (words : List SentWord) × AreSent words sent.now }
    ensures { IfOk result (λ counts. (words : List SentWord) → IsBurstStream source.now words → AreSent words sent.now → AreCounts source.now words counts.items) }
{
    let ended = count_ended(alloc, sent)?;
    let tallies = with_packets(LONGEST_PACKET, source.packets, ended);
    counts_by(alloc, source.channels, &tallies)
}
