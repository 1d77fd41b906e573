//! One word of each lane, and what is asked of all.
ghost use Rattle.std.specs.Prelude.{◌≡◌, ◌<◌, ◌+◌, ◌%◌, ℕ, [], true, false, length, get_or, All, IfOk};
ghost use Rattle.lk_base.specs.declared.word.Word.TheVariants.{Data};
ghost use Rattle.std.specs.List.{list_all};
ghost use Rattle.metaframe.specs.Writing.{wants_payload};
ghost use Rattle.tx_end.specs.Lanes.{Carries};
ghost use Rattle.live_lanes.specs.States.{Lane};
ghost use Rattle.live_lanes.specs.Lanes.{AreEach, IsFresh, MakesEnd, MakesFraming, MakesPayload, lane_has_room};

use crate::lane::LiveLane;
use lk_base::{Link, OutOfMemory, Word};
use std::alloc::Global;

/// Creates the lanes of a link before their first words.
pub fn make_lanes(alloc: Global, link: &Link) -> Result<Vec<LiveLane>, OutOfMemory>
    ensures count { IfOk result (λ lanes. length lanes.items ≡ link.now.lanes) }
    ensures made { IfOk result (λ lanes. (i : ℕ) (d : Lane) → i < link.now.lanes → IsFresh link.now i (get_or lanes.items i d)) }
{
    let mut lanes = Vec::new(alloc);
    for number in 0..link.lanes() {
        let lane = LiveLane::new(alloc, link, number)?;
        lanes.push(lane)?;
    }
    Ok(lanes)
}

/// True if each lane has room for the bytes of one word more.
pub fn have_room(lanes: &[LiveLane]) -> bool
    ensures { result ≡ list_all lane_has_room lanes.now }
{
    lanes.iter().all(|lane| lane.has_room())
}

/// Has each lane make its next word, a framing word.
pub fn frame_each(lanes: &mut [LiveLane])
    requires room { list_all lane_has_room lanes.old ≡ true }
    requires wants { All (λ l. wants_payload l.writer.framing ≡ false) lanes.old }
    ensures { AreEach (λ i. MakesFraming) lanes.old lanes.new }
{
    for i in 0..lanes.len() {
        lanes[i].frame();
    }
}

/// Has each lane make its next word, a payload word, of these in the order of lanes.
pub fn put_each(lanes: &mut [LiveLane], words: &[Word])
    requires room { list_all lane_has_room lanes.old ≡ true }
    requires wants { All (λ l. wants_payload l.writer.framing ≡ true) lanes.old }
    requires count { length words.now ≡ length lanes.old }
    ensures { AreEach (λ i. MakesPayload (get_or words.now i (Data 0))) lanes.old lanes.new }
{
    for i in 0..lanes.len() {
        let word = words[i];
        lanes[i].put(word);
    }
}

/// Has each lane make its last byte, if bits are left.
pub fn finish_each(lanes: &mut [LiveLane])
    requires { list_all lane_has_room lanes.old ≡ true }
    ensures { AreEach (λ i. MakesEnd) lanes.old lanes.new }
{
    for i in 0..lanes.len() {
        lanes[i].finish();
    }
}

/// Returns the place after this one in the metaframes of a link.
pub fn next_place(place: u32, link: &Link) -> u32
    requires { place < link.now.metaframe }
    ensures { result ≡ (place + 1) % link.now.metaframe }
{
    // proof: the settings of a link are within their limits, so the sum is no wide one
    link.keeps_limits();
    if place + 1 == link.metaframe() {
        0
    } else {
        place + 1
    }
}
