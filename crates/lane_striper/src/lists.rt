ghost use Rattle.std.specs.Prelude.{◌≡◌, ◌^◌, ◌<◌, ◌≤◌, IfOk, length, map};
ghost use Rattle.std.specs.List.{range_with_len};
ghost use Rattle.lane_model.specs.Striping.{lane_payload, share};
ghost use Rattle.lane_striper.specs.Gathered.{IsGathered};

use lk_base::{OutOfMemory, Word};
use std::alloc::Global;

// How many of this many words a lane gets.
fn share_of(lanes: u32, total: usize, lane: u32) -> usize
    requires lane { lane < lanes }
    requires lanes { lanes ≤ 64 }
    requires total { total < 2 ^ 63 }
    ensures { result ≡ share lanes total lane }
{
    (total + (lanes - 1 - lane) as usize) / lanes as usize
}

// The payload words of one lane.
fn lane_words(
    alloc: Global,
    words: &[Word],
    lanes: u32,
    lane: u32,
) -> Result<Vec<Word>, OutOfMemory>
    requires lane { lane < lanes }
    requires lanes { lanes ≤ 64 }
    ensures { IfOk result (λ list. list.items ≡ lane_payload lanes words.now lane) }
{
    let mut list = Vec::new(alloc);
    for place in 0..share_of(lanes, words.len(), lane) {
        let word = words[place * lanes as usize + lane as usize];
        list.push(word)?;
    }
    Ok(list)
}

/// The payload words of each lane: list number i holds the words whose number is i modulo the lanes, in order. There
/// are 1 to 64 lanes.
///
/// # Errors
///
/// `OutOfMemory` where memory ran out, and nowhere else.
pub fn stripe(alloc: Global, words: &[Word], lanes: u32) -> Result<Vec<Vec<Word>>, OutOfMemory>
    requires { (1 ≤ lanes) × (lanes ≤ 64) }
    ensures { IfOk result (λ lists. map (λ list. list.items) lists.items ≡ map (lane_payload lanes words.now) (range_with_len 0 lanes)) }
{
    let mut lists = Vec::new(alloc);
    for lane in 0..lanes {
        let list = lane_words(alloc, words, lanes, lane)?;
        lists.push(list)?;
    }
    Ok(lists)
}

/// The words of 1 to 64 lists in order of number, up to the first that a list lacks: word number n stands in list
/// number n modulo the lists.
///
/// # Errors
///
/// `OutOfMemory` where memory ran out, and nowhere else.
pub fn gather(alloc: Global, lists: &[Vec<Word>]) -> Result<Vec<Word>, OutOfMemory>
    requires { (1 ≤ length lists.now) × (length lists.now ≤ 64) }
    ensures { IfOk result (λ words. IsGathered (map (λ list. list.items) lists.now) words.items) }
{
    let mut words = Vec::new(alloc);
    loop {
        let number = words.len();
        let list = &lists[number % lists.len()];
        let Some(word) = list.get(number / lists.len()) else {
            return Ok(words);
        };
        words.push(*word)?;
    }
}
