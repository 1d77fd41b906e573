ghost use Rattle.std.specs.Prelude.{◌≡◌, ◌<◌, ◌≤◌, ◌==◌, ◌+◌, ◌%◌, ◌^◌, ◌++◌, [], List, drop, false, get_or, true, length, IfOk};
ghost use Rattle.lk_base.specs.Link.{Settings};
ghost use Rattle.lk_base.specs.Positions.{words_from};
ghost use Rattle.lk_base.specs.declared.word.Aligned.{Aligned as Item};
ghost use Rattle.lk_base.specs.declared.word.RxWord.TheVariants.{Bad};
ghost use Rattle.lock_model.specs.declared.types.LaneStep.{LaneStep};
ghost use Rattle.deskew.specs.Blocks.{has_row};
ghost use Rattle.deskew.specs.Stands.{StandsAhead};
ghost use Rattle.deskew.specs.Work.{work};
ghost use Rattle.rx_front.specs.Waiting.{words_in};
ghost use Rattle.word_list.specs.Received.{data_front};

use deskew::Deskew;
use lk_base::{OutOfMemory, Pos, RxWord};
use std::alloc::Global;
use std::marker::Model;
use word_list::RxBlock;

// The words that a block has room for.
const ROOM: usize = 512;

/// Words of one group, one after another, that the deskew gave and that are still to be taken.
#[derive(Drop)]
pub struct Block {
    words: RxBlock,
    /// The place of the first of them.
    first: Pos,
    /// How many of them were taken.
    cursor: usize,
}

impl Model for Block {
    ghost use Rattle.std.specs.Prelude.{◌≡◌, ◌≤◌, ◌<◌, ◌+◌, ◌^◌, List, drop, length};
    ghost use Rattle.lk_base.specs.Positions.{words_from};
    ghost use Rattle.lk_base.specs.declared.word.Aligned.{Aligned};

    ghost Value = { List Aligned };

    ghost view = { λ a. words_from a.first.group (a.first.index + a.cursor) (drop a.cursor a.words.words) };

    ghost invariant = { λ a. (a.cursor ≤ length a.words.words) × (a.first.index + length a.words.words < 2 ^ 32) × (a.first.group < 2 ^ 60) × (a.words.room ≡ 512) };
}

impl Block {
    /// Creates a block without words. It takes memory here, and no later call does.
    pub fn new(alloc: Global) -> Result<Block, OutOfMemory>
        ensures { IfOk result (λ b. b ≡ []) }
    {
        let words = RxBlock::new(alloc, ROOM)?;
        Ok(Block {
            words,
            first: Pos { group: 0, index: 0 },
            cursor: 0,
        })
    }

    /// True if all words were taken.
    pub fn is_empty(&self) -> bool
        ensures { result ≡ (length self.now == 0) }
    {
        self.cursor == self.words.len()
    }

    /// Takes the next whole rows of the deskew in place of the words that it held: as many as it has to give and fit into 512 words.
    pub fn fill(&mut self, deskew: &mut Deskew)
        ensures ahead { (s : Settings) (ticks : List (List LaneStep)) (given : List Item) →
            StandsAhead deskew.old s ticks given → StandsAhead deskew.new s ticks (given ++ self.new) }
        ensures rows { deskew.new.settings.lanes ≤ 64 → length self.new ≡ 0 → has_row deskew.new ≡ false }
        ensures whole { length self.new % deskew.new.settings.lanes ≡ 0 }
        ensures most { has_row deskew.new ≡ true → 512 < length self.new + deskew.new.settings.lanes }
        ensures settings { deskew.new.settings ≡ deskew.old.settings }
        ensures fewer { work deskew.new + length self.new ≤ work deskew.old }
    {
        self.first = deskew.next_block(&mut self.words);
        self.cursor = 0;
    }

    /// Returns the place of the first word that waits. It means nothing if none waits.
    pub fn at(&self) -> Pos
        ensures waiting { self.now ≡ words_from result.group result.index (words_in self.now) }
        ensures fits { result.index + length self.now < 2 ^ 32 }
        ensures low { result.group < 2 ^ 60 }
    {
        Pos {
            group: self.first.group,
            index: self.first.index + self.cursor as u32,
        }
    }

    /// Returns the number of words that wait.
    pub fn len(&self) -> usize
        ensures count { result ≡ length self.now }
        ensures most { result < 2 ^ 32 }
    {
        self.words.len() - self.cursor
    }

    /// Returns the word number `i` of those that wait, from 0.
    pub fn word(&self, i: usize) -> RxWord
        requires { i < length self.now }
        ensures { result ≡ get_or (words_in self.now) i Bad }
    {
        self.words.get(self.cursor + i)
    }

    /// Returns the numbers of the data words from number `from` of those that wait on, before the first word of another kind.
    pub fn data_run(&self, from: usize) -> &[u64]
        requires { from ≤ length self.now }
        ensures { result.now ≡ data_front (drop from (words_in self.now)) }
    {
        self.words.data_run(self.cursor + from)
    }

    /// Passes over the first `count` of the words that wait.
    pub fn pass(&mut self, count: usize)
        requires { count ≤ length self.old }
        ensures { self.new ≡ drop count self.old }
    {
        self.cursor += count;
    }
}
