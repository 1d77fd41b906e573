// A search over the positions of many bytes.
ghost use Rattle.std.specs.Prelude.{◌≡◌, ◌<◌, ◌≤◌, ◌+◌, ◌-◌, ◌*◌, ◌^◌, ◌++◌, Bool, List, ℕ, map, length, IfSome};
ghost use Rattle.std.specs.List.{range_with_len};
ghost use Rattle.std.specs.Int.{bit_at};
ghost use Rattle.lk_base.specs.Checksum.{bits_of_bytes, digit};
ghost use Rattle.lane_model.specs.Coding.{is_legal};
ghost use Rattle.lock_model.specs.Locks.{code_at as code_in, has_legal, has_sync};
ghost use Rattle.phase_finder.specs.Phases.{Watches};
ghost use Rattle.lane_lock.specs.Marks.{Recalls};
ghost use Rattle.lane_lock.specs.Search.{MissEach};

use crate::marks::Marks;
use crate::places::code_at;
use crate::words::is_control_of;
use coding_67b::decode;
use lane_model::{CODE_BITS, SYNC};
use phase_finder::Finder;

// The bits of a code after its first one.
const LATER_BITS: usize = CODE_BITS as usize - 1;

// As many positions as a code has bits, all of them.
const ALL: u128 = (1 << CODE_BITS) - 1;

// The most words that are looked at: a position that has legal headers in all of them may be one of a word lock.
const MOST_WORDS: usize = 24;

/// Counts the last words of these bytes that show an illegal header at each of 67 positions, at most 24; `None` if it takes more.
/// There are at least 256 bytes.
pub fn words_to_miss(bytes: &[u8]) -> Option<usize>
    requires long { 256 ≤ length bytes.now }
    requires size { 8 * length bytes.now ≤ 2 ^ 60 }
    ensures few { IfSome result (λ words. words ≤ 24) }
    ensures each { IfSome result (λ words. MissEach (bits_of_bytes bytes.now) words) }
{
    let end = 8 * bytes.len() - LATER_BITS;
    let mut legal = ALL;
    let mut words = 0;
    while legal != 0 {
        if words == MOST_WORDS {
            return None;
        }
        words += 1;
        legal &= legal_headers(bytes, end - CODE_BITS as usize * words);
    }
    Some(words)
}

// Marks those of 67 positions, from bit `at` of these bytes on, at which a word would have a legal header; the first is highest.
#[inline(always)]
fn legal_headers(bytes: &[u8], at: usize) -> u128
    requires long { 16 ≤ length bytes.now }
    requires size { 8 * length bytes.now ≤ 2 ^ 60 }
    requires there { at + 133 ≤ 8 * length bytes.now }
    ensures { (j : ℕ) → j < 67 → bit_at result (66 - j) ≡ digit (is_legal (code_in (bits_of_bytes bytes.now) (at + j))) }
{
    // A header is legal if its two bits, those after the first of the code, differ.
    code_at(bytes, at + 1) ^ code_at(bytes, at + 2)
}

/// Takes the last `count` positions of these bytes that have all bits of a word.
pub fn search_last(starts: &mut Finder, marks: &mut Marks, bytes: &[u8], count: usize)
    requires long { 16 ≤ length bytes.now }
    requires size { 8 * length bytes.now ≤ 2 ^ 60 }
    requires there { count + 66 ≤ 8 * length bytes.now }
    requires few { starts.old.taken + count ≤ 2 ^ 60 }
    ensures taken { starts.new.taken ≡ starts.old.taken + count }
    ensures period { starts.new.period ≡ starts.old.period }
    ensures need { starts.new.need ≡ starts.old.need }
    ensures hits { (period need first : ℕ) (hits : List Bool) → Watches starts.old period need first hits →
        Watches starts.new period need first (hits ++ map (has_legal (bits_of_bytes bytes.now)) (range_with_len (8 * length bytes.now - 66 - count) count)) }
    ensures marks { (given : List Bool) → Recalls marks.old given →
        Recalls marks.new (given ++ map (has_sync (bits_of_bytes bytes.now)) (range_with_len (8 * length bytes.now - 66 - count) count)) }
{
    let first = 8 * bytes.len() - LATER_BITS - count;
    for k in 0..count {
        let word = decode(code_at(bytes, first + k));
        let _syncs = marks.step(is_control_of(SYNC, word));
        let _start = starts.step(!word.is_bad());
    }
}
