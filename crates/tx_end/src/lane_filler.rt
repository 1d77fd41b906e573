//! The lanes of a link, made of groups of words that are there.
ghost use Rattle.std.specs.Prelude.{◌≡◌, ◌<◌, ℕ, List, [], length, replicate, slice_index_or, IfOk};
ghost use Rattle.lk_base.specs.Link.{group_of};
ghost use Rattle.lk_base.specs.declared.word.Word.{Word as SentWord};
ghost use Rattle.tx_end.specs.declared.lane_writer.LaneWriter.{LaneWriter as Lane};
ghost use Rattle.tx_end.specs.Lanes.{AreFilled, HasFilled};
ghost use Rattle.tx_end.specs.Rounds.{MakesEnd, MakesMetaframe};

use crate::fill::{end_lane, fill_lane, metaframe_room};
use crate::lane_writer::{LaneWriter, make_lanes};
use lk_base::{Link, OutOfMemory, Word};
use std::alloc::Global;
use std::marker::Model;

/// The lanes of a link as they are made of groups of words: of each group a metaframe of each lane, and last the last byte of
/// each. It has the bytes of one lane at a time: those that were made last.
#[derive(Drop)]
pub struct LaneFiller {
    link: Link,
    lanes: Vec<LaneWriter>,
    bytes: Vec<u8>,
}

impl Model for LaneFiller {
    ghost use Rattle.std.specs.Prelude.{◌≡◌, length};
    ghost use Rattle.tx_end.specs.Lanes.{HasRoom};
    ghost use Rattle.tx_end.specs.Rounds.{Filler};

    ghost Value = { Filler };

    ghost view = { λ a. record { settings = a.link; lanes = a.lanes.items; bytes = a.bytes.items } };

    ghost invariant = { λ a. HasRoom a.link a.bytes × (length a.lanes.items ≡ a.link.lanes) };
}

impl LaneFiller {
    /// The lanes of a link before their first words. They take memory here, and no later call does.
    ///
    /// # Errors
    ///
    /// `OutOfMemory` where memory ran out, and nowhere else.
    pub fn new(alloc: Global, link: &Link) -> Result<LaneFiller, OutOfMemory>
        ensures settings { IfOk result (λ f. f.settings ≡ link.now) }
        ensures none { IfOk result (λ f. AreFilled link.now [] 0 f.lanes (replicate link.now.lanes [])) }
    {
        let lanes = make_lanes(alloc, link)?;
        let bytes = metaframe_room(alloc, link)?;
        Ok(LaneFiller {
            link: *link,
            lanes,
            bytes,
        })
    }

    /// How many lanes there are: 1 to 64.
    pub fn count(&self) -> u32
        ensures { result ≡ self.now.settings.lanes }
    {
        self.link.lanes()
    }

    /// A lane makes its next metaframe, whose payload words are the lane's own among those of a group. The bytes become the whole
    /// bytes of its words.
    pub fn make_metaframe(&mut self, number: u32, group: &[Word])
        requires lane { number < self.old.settings.lanes }
        requires group { length group.now ≡ group_of self.old.settings }
        requires filled { (given : List SentWord) × (made : ℕ) × (before : List ℕ) × ((d : Lane) → HasFilled (slice_index_or self.old.lanes number d) self.old.settings number given made before) }
        ensures settings { self.new.settings ≡ self.old.settings }
        ensures makes { MakesMetaframe self.old.settings number group.now self.old.lanes self.new.lanes self.new.bytes }
    {
        // proof: the settings of a link are within their limits
        self.link.keeps_limits();
        let lane = &mut self.lanes[number as usize];
        fill_lane(lane, &self.link, group, number, &mut self.bytes);
    }

    /// A lane makes its last byte. The bytes become this one, where bits wait, and none elsewhere.
    pub fn make_end(&mut self, number: u32)
        requires lane { number < self.old.settings.lanes }
        requires waiting { (d : Lane) → length (slice_index_or self.old.lanes number d).bits < 8 }
        ensures settings { self.new.settings ≡ self.old.settings }
        ensures makes { MakesEnd number self.old.lanes self.new.lanes self.new.bytes }
    {
        // proof: there is room for a metaframe, which has a word
        self.link.keeps_limits();
        end_lane(&mut self.lanes[number as usize], &mut self.bytes);
    }

    /// The bytes that a lane made last.
    pub fn bytes(&self) -> &[u8]
        ensures { result.now ≡ self.now.bytes }
    {
        &self.bytes
    }
}
