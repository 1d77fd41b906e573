//! The next metaframe of a lane, of the payload words of one group.
ghost use Rattle.std.specs.Prelude.{◌≡◌, ◌+◌, ◌*◌, ◌^◌, ◌<◌, ◌≤◌, ℕ, List, [], ◌∷◌, ◌++◌, true, length, take, vec_capacity, IfOk};
ghost use Rattle.lk_base.specs.Link.{Settings, IsLink, group_of};
ghost use Rattle.lk_base.specs.declared.word.Word.{Word as SentWord};
ghost use Rattle.lane_model.specs.Striping.{lane_payload};
ghost use Rattle.metaframe.specs.Writing.{wants_payload};
ghost use Rattle.tx_end.specs.Lanes.{Carries, Fills, HasEnded, HasFilled, HasRoom};

use crate::lane_writer::LaneWriter;
use coding_67b::EIGHT_CODES_BYTES;
use lk_base::{Link, OutOfMemory, Word};
use std::alloc::Global;

// The payload word of a lane at a place, out of a group.
#[tactic(auto, using(crate::proofs::LanePlaces::in_stream, crate::proofs::LanePlaces::taken_more))]
fn payload_at(group: &[Word], lanes: u32, number: u32, place: usize) -> Word
    requires lane { number < lanes }
    requires there { place < length (lane_payload lanes group.now number) }
    ensures { take (place + 1) (lane_payload lanes group.now number) ≡ take place (lane_payload lanes group.now number) ++ result ∷ [] }
{
    group[place * lanes as usize + number as usize]
}

// Makes the next word of a lane, of the lane's next payload word in the group where it is one, and says how many of these
// were taken so far.
fn next_word(lane: &mut LaneWriter, group: &[Word], lanes: u32, number: u32, taken: usize) -> usize
    requires waiting { length lane.old.bits < 8 }
    requires lane { number < lanes }
    requires there { wants_payload lane.old.framing ≡ true → taken < length (lane_payload lanes group.now number) }
    requires within { taken ≤ length (lane_payload lanes group.now number) }
    requires few { taken ≤ 2 ^ 20 }
    ensures carries { (s : Settings) (given : List SentWord) (made : ℕ) (bytes : List ℕ) → Carries lane.old s number (given ++ take taken (lane_payload lanes group.now number)) made bytes → Carries lane.new s number (given ++ take result (lane_payload lanes group.now number)) (made + 1) bytes }
    ensures within { result ≤ length (lane_payload lanes group.now number) }
    ensures more { length lane.new.bits ≡ length lane.old.bits + 67 }
{
    if lane.wants_payload() {
        lane.payload(payload_at(group, lanes, number, taken));
        taken + 1
    } else {
        lane.framing();
        taken
    }
}

// The next eight payload words of a lane, out of a group.
fn next_eight(group: &[Word], lanes: u32, number: u32, place: usize) -> [Word; 8]
    requires lane { number < lanes }
    requires there { place + 8 ≤ length (lane_payload lanes group.now number) }
    requires few { place ≤ 2 ^ 20 }
    ensures { take (place + 8) (lane_payload lanes group.now number) ≡ take place (lane_payload lanes group.now number) ++ result }
{
    let mut eight = [Word::Data(0); 8];
    let mut at = place * lanes as usize + number as usize;
    for k in 0..8 {
        eight[k] = group[at];
        at += lanes as usize;
    }
    eight
}

// Puts these bytes at a place.
fn put_bytes(bytes: &mut [u8], at: usize, more: &[u8])
    requires { at + length more.now ≤ length bytes.old }
    ensures { take (at + length more.now) bytes.new ≡ take at bytes.old ++ more.now }
{
    bytes[at..at + more.len()].copy_from_slice(more);
}

// Puts the whole bytes that wait at a place, and returns the place after them.
fn give_bytes(lane: &mut LaneWriter, bytes: &mut [u8], at: usize) -> usize
    requires many { 64 ≤ length lane.old.bits }
    requires few { length lane.old.bits < 80 }
    requires room { at + 9 ≤ length bytes.old }
    ensures carries { (s : Settings) (number : ℕ) (given : List SentWord) (made : ℕ) (before : List ℕ) → Carries lane.old s number given made (before ++ take at bytes.old) → Carries lane.new s number given made (before ++ take result bytes.new) }
    ensures waiting { length lane.new.bits < 8 }
    ensures most { result ≤ at + 9 }
{
    let mut piece = [0; 9];
    let count = lane.give(&mut piece);
    put_bytes(bytes, at, &piece[..count]);
    at + count
}

// Makes the words of a lane's next metaframe, as `fill_lane` does. Their whole bytes become the first of the block, and the answer
// counts them.
fn fill_block(
    lane: &mut LaneWriter,
    link: &Link,
    group: &[Word],
    number: u32,
    block: &mut [u8],
) -> usize
    requires limits { IsLink link.now }
    requires group { length group.now ≡ group_of link.now }
    requires lane { number < link.now.lanes }
    requires filled { (given : List SentWord) × (made : ℕ) × (before : List ℕ) × HasFilled lane.old link.now number given made before }
    requires room { 9 * link.now.metaframe ≤ length block.old }
    ensures { Fills link.now number group.now lane.old lane.new (take result block.new) }
{
    let lanes = link.lanes();
    let metaframe = link.metaframe();
    let mut taken = 0;
    let mut place = 0;
    let mut at = 0;
    while place < metaframe {
        if lane.takes_eight() {
            let eight = next_eight(group, lanes, number, taken);
            lane.put_eight(&eight, block, at);
            taken += 8;
            place += 8;
            at += EIGHT_CODES_BYTES;
        } else {
            taken = next_word(lane, group, lanes, number, taken);
            at = give_bytes(lane, block, at);
            place += 1;
        }
    }
    at
}

// Gives the list this many bytes, for which there is room.
fn set_count(bytes: &mut Vec<u8>, count: usize)
    requires { count ≤ vec_capacity bytes.old }
    ensures count { length bytes.new.items ≡ count }
    ensures room { vec_capacity bytes.old ≤ vec_capacity bytes.new }
{
    match bytes.resize(count, 0) {
        Ok(()) => {}
        // There is room.
        Err(_) => unreachable!(),
    }
}

/// Makes the words of a lane's next metaframe, whose payload words are the lane's own among those of a group. The bytes
/// become the whole bytes of these words.
pub fn fill_lane(
    lane: &mut LaneWriter,
    link: &Link,
    group: &[Word],
    number: u32,
    bytes: &mut Vec<u8>,
)
    requires limits { IsLink link.now }
    requires group { length group.now ≡ group_of link.now }
    requires lane { number < link.now.lanes }
    requires filled { (given : List SentWord) × (made : ℕ) × (before : List ℕ) × HasFilled lane.old link.now number given made before }
    requires room { HasRoom link.now bytes.old }
    ensures fills { Fills link.now number group.now lane.old lane.new bytes.new.items }
    ensures room { HasRoom link.now bytes.new }
{
    set_count(bytes, 9 * link.metaframe() as usize);
    let count = fill_block(lane, link, group, number, bytes);
    bytes.truncate(count);
}

/// The bytes become the last one of a lane, where bits wait, and none elsewhere.
pub fn end_lane(lane: &mut LaneWriter, bytes: &mut Vec<u8>)
    requires waiting { length lane.old.bits < 8 }
    requires room { 1 ≤ vec_capacity bytes.old }
    ensures ended { (before : List ℕ) → HasEnded lane.old before (before ++ bytes.new.items) }
    ensures none { bytes.new.items ≡ [] → length lane.old.bits ≡ 0 }
    ensures room { vec_capacity bytes.old ≤ vec_capacity bytes.new }
{
    bytes.clear();
    if let Some(byte) = lane.last_byte() {
        bytes.push_reserved(byte);
    }
}

/// Places for the words of a group.
pub fn group_room(alloc: Global, link: &Link) -> Result<Vec<Word>, OutOfMemory>
    ensures { IfOk result (λ group. length group.items ≡ group_of link.now) }
{
    Ok(vec![in alloc; Word::Data(0); link.group_words() as usize]?)
}

/// No bytes, with room for those of a metaframe.
pub fn metaframe_room(alloc: Global, link: &Link) -> Result<Vec<u8>, OutOfMemory>
    ensures { IfOk result (λ bytes. (bytes.items ≡ []) × HasRoom link.now bytes) }
{
    Ok(Vec::with_capacity(alloc, 9 * link.metaframe() as usize)?)
}
