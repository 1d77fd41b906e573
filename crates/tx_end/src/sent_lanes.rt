//! The lanes of a payload stream, made a group at a time. The words of the stream are never held together.
ghost use Rattle.std.specs.Prelude.{◌≡◌, ◌+◌, ◌^◌, ◌<◌, ℕ, List, [], ◌++◌, length, map, IfOk, OnOk};
ghost use Rattle.lk_base.specs.Link.{group_of};
ghost use Rattle.lk_base.specs.declared.word.Word.{Word as SentWord};
ghost use Rattle.stream_model.specs.BurstStream.{Source, IsBurstStream};
ghost use Rattle.tx_words.specs.Making.{GaveWords};
ghost use Rattle.tx_end.specs.Lanes.{AreLaneFiles};
ghost use Rattle.tx_end.specs.SentLanes.{AreSentLanes, HasSent, IsListed};
ghost use Rattle.tx_end.specs.Whole.{IsShapeOf};

use crate::fill::group_room;
use crate::lane_filler::LaneFiller;
use crate::lanes::{fill_group, finish, make_files};
use lk_base::{Link, OutOfMemory, Word};
use std::alloc::Global;
use tx_words::{Sent, SentList, StreamSource, WordMaker};

/// The lanes of a payload stream, and what is reported of the stream.
#[derive(Drop)]
pub struct SentLanes {
    /// The files of the lanes, by number.
    pub files: Vec<Vec<u8>>,
    /// The packets whose SOP word is in the stream, in the order of these words.
    pub sent: Vec<Sent>,
    /// How many words the stream has.
    pub slots: u64,
    /// The least listed channel that has bytes left at the finish, if there is one.
    pub held: Option<u16>,
}

// Makes the words of the next group, lists the packets that start in them, and makes a metaframe of each lane of them.
fn fill_next(
    maker: &mut WordMaker,
    list: &mut SentList,
    filler: &mut LaneFiller,
    group: &mut [Word],
    files: &mut [Vec<u8>],
) -> Result<(), OutOfMemory>
    requires group { length group.old ≡ group_of filler.old.settings }
    requires sent { (source : Source) × (words : List SentWord) × (made : ℕ) × HasSent maker.old list.old source filler.old.settings words made filler.old.lanes (map (λ file. file.items) files.old) × (IsBurstStream source words → ⊥) }
    ensures settings { filler.new.settings ≡ filler.old.settings }
    ensures long { length group.new ≡ length group.old }
    ensures sent { OnOk result ((source : Source) (words : List SentWord) (made : ℕ) → HasSent maker.old list.old source filler.old.settings words made filler.old.lanes (map (λ file. file.items) files.old) → (IsBurstStream source words → ⊥) →
        HasSent maker.new list.new source filler.old.settings (words ++ group.new) (made + 1) filler.new.lanes (map (λ file. file.items) files.new)) }
{
    maker.next_block(group);
    list.pass_block(group);
    fill_group(filler, group, files)
}

// Makes the words of a stream that are still to be made, a group at a time, and the metaframes of the lanes of them.
fn fill_all(
    maker: &mut WordMaker,
    list: &mut SentList,
    filler: &mut LaneFiller,
    group: &mut [Word],
    files: &mut [Vec<u8>],
) -> Result<(), OutOfMemory>
    requires group { length group.old ≡ group_of filler.old.settings }
    requires sent { (source : Source) × (words : List SentWord) × (made : ℕ) × HasSent maker.old list.old source filler.old.settings words made filler.old.lanes (map (λ file. file.items) files.old) }
    ensures settings { filler.new.settings ≡ filler.old.settings }
    ensures sent { OnOk result ((source : Source) (words : List SentWord) (made : ℕ) → HasSent maker.old list.old source filler.old.settings words made filler.old.lanes (map (λ file. file.items) files.old) →
        (all : List SentWord) × (groups : ℕ) × HasSent maker.new list.new source filler.old.settings all groups filler.new.lanes (map (λ file. file.items) files.new) × IsBurstStream source all) }
{
    while !maker.is_over() {
        fill_next(maker, list, filler, group, files)?;
    }
    Ok(())
}

// Makes the lanes of a stream by a maker of its words that made none yet, and lists the packets that start in them.
fn lanes_by(
    alloc: Global,
    link: &Link,
    maker: &mut WordMaker,
    list: &mut SentList,
) -> Result<Vec<Vec<u8>>, OutOfMemory>
    requires { (source : Source) × IsListed maker.old list.old source [] × IsShapeOf link.now source.shape }
    ensures { IfOk result (λ files. (source : Source) → IsListed maker.old list.old source [] → IsShapeOf link.now source.shape →
        (words : List SentWord) × IsListed maker.new list.new source words × IsBurstStream source words × AreLaneFiles link.now words (map (λ file. file.items) files.items)) }
{
    // proof: the settings of a link are within their limits
    link.keeps_limits();
    let mut filler = LaneFiller::new(alloc, link)?;
    let mut group = group_room(alloc, link)?;
    let mut files = make_files(alloc, link.lanes(), 0)?;
    fill_all(maker, list, &mut filler, &mut group, &mut files)?;
    finish(&mut filler, &mut files)?;
    Ok(files)
}

// Makes the lanes of a source's stream by a maker of its words that made none yet.
fn sent_lanes_by(
    alloc: Global,
    link: &Link,
    source: &StreamSource,
    maker: &mut WordMaker,
) -> Result<SentLanes, OutOfMemory>
    requires suits { IsShapeOf link.now source.now.shape }
    requires few { length source.now.packets < 2 ^ 32 }
    requires maker { GaveWords maker.old source.now [] }
    ensures { IfOk result (AreSentLanes link.now source.now) }
{
    let mut list = SentList::new(alloc, source.packet_count())?;
    let files = lanes_by(alloc, link, maker, &mut list)?;
    let sent = list.into_sent();
    Ok(SentLanes {
        files,
        sent,
        slots: maker.slots(),
        held: maker.held(),
    })
}

/// Makes the lanes of the stream of a source, as `lanes_of` makes them of its words, and lists the packets that it sends. The shape
/// is that of the link, with any BurstMin.
///
/// # Errors
///
/// `OutOfMemory` if memory ran out, and only then.
pub fn sent_lanes_of(
    alloc: Global,
    link: &Link,
    source: &StreamSource,
) -> Result<SentLanes, OutOfMemory>
    requires suits { IsShapeOf link.now source.now.shape }
    requires few { length source.now.packets < 2 ^ 32 }
    ensures { IfOk result (AreSentLanes link.now source.now) }
{
    let mut maker = WordMaker::new(alloc, source)?;
    sent_lanes_by(alloc, link, source, &mut maker)
}
