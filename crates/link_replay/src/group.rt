ghost use Rattle.std.specs.Prelude.{◌≡◌, ◌≤◌, ◌<◌, ◌*◌, ◌^◌, List, length};
ghost use Rattle.lk_base.specs.declared.word.Word.{Word as SentWord};
ghost use Rattle.deskew.specs.Cursor.{head_of};
ghost use Rattle.link_laws.specs.Accidents.{lane_0};
ghost use Rattle.link_replay.specs.Groups.{starts_of};
ghost use Rattle.link_replay.specs.Standing.{are_numbered as have_number, are_sent_places, skews_of};

use crate::places::{made, number_at};
use crate::watched_lane::WatchedLane;
use lane_model::CODE_BITS;
use lk_base::Link;
use rx_front::Front;
use word_list::WordList;

// True if each lane's Sync in the group that was given last is the sender's Sync of this number, whose bit position in the sent lane
// is at most 2^60.
fn are_numbered(lanes: &[WatchedLane], link: &Link, front: &Front, number: u64) -> bool
    requires there { length lanes.now ≤ length front.now.lanes }
    requires count { length (starts_of front.now) ≡ length lanes.now }
    requires most { length lanes.now ≤ 64 }
    requires number { 67 * (number * link.now.metaframe) ≤ 2 ^ 60 }
    ensures { (words : List SentWord) → result ≡ have_number (record { settings = link.now; words = words; skews = skews_of lanes.now }) (starts_of front.now) number }
{
    // proof: the settings of a link are within their limits
    link.keeps_limits();
    let sent = CODE_BITS as u64 * (number * link.metaframe() as u64);
    for i in 0..lanes.len() {
        if front.start(i as u32) != lanes[i].skew() as u64 + sent {
            return false;
        }
    }
    true
}

/// True if the group that was given last, which has this name, is one of the sender's: all its Syncs are of one number. The skew is
/// that of lane 0.
pub fn is_sent_group(
    lanes: &[WatchedLane],
    link: &Link,
    sent: &WordList,
    skew: u32,
    front: &Front,
    name: u64,
) -> bool
    requires there { length lanes.now ≤ length front.now.lanes }
    requires count { length (starts_of front.now) ≡ length lanes.now }
    requires some { 1 ≤ length lanes.now }
    requires most { length lanes.now ≤ 64 }
    requires name { name < 2 ^ 60 }
    requires head { head_of (starts_of front.now) ≡ name }
    requires skew { skew ≡ lane_0 (skews_of lanes.now) }
    ensures { result ≡ are_sent_places (record { settings = link.now; words = sent.now; skews = skews_of lanes.now }) (starts_of front.now) }
{
    // proof: the settings of a link are within their limits
    link.keeps_limits();
    match number_at(link, made(link, sent), skew, name) {
        Some(number) => are_numbered(lanes, link, front, number),
        None => false,
    }
}
