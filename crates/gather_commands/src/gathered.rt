//! Items of aligned lanes, whose words and places are given to the files one after another.
ghost use Rattle.std.specs.Prelude.{◌≡◌, ◌<◌, ◌≤◌, ◌+◌, ◌^◌, ◌++◌, [], ◌∷◌, ℕ, Bool, List, Option, IfOk, OnOk, length, cond};
ghost use Rattle.lk_base.specs.declared.word.Aligned.{Aligned as Item};
ghost use Rattle.lk_base.specs.declared.word.RxWord.{RxWord as Received};
ghost use Rattle.lk_outside.specs.Files.{Files};
ghost use Rattle.run_stops.specs.Stops.{StopCount};
ghost use Rattle.run_shell.specs.Writing.{Writes};
ghost use Rattle.lane_words.specs.declared.places.PlaceRow.{PlaceRow as Row};
ghost use Rattle.gather_commands.specs.Table.{gathered_names, gathered_outcome, gathered_text};
ghost use Rattle.lane_words.specs.Gathered.{between, is_break, own_epochs};
ghost use Rattle.gather_commands.specs.Growing.{Gathers, GathersNew, HasPut, IsGathered, Puts};

use crate::files::{GatheredFiles, counted};
use link_reports::count_line;
use lk_base::{Aligned, OutOfMemory, RxWord};
use lk_outside::Store;
use run_shell::Finished;
use run_stops::Stop;
use rx_front::Front;
use std::alloc::Global;

// Whether an epoch ends with the item.
fn is_break(item: Aligned) -> bool
    ensures { result ≡ is_break item }
{
    matches!(item, Aligned::Break(_, _))
}

// A count of epochs, and one more where an epoch ends with the item. A count that finds no room in 64 bits is reported as out of
// memory.
fn count_epoch(epochs: u64, item: Aligned) -> Result<u64, OutOfMemory>
    ensures { IfOk result (λ count. count ≡ epochs + own_epochs item) }
{
    match item {
        Aligned::Break(_, _) => counted(epochs, 1),
        Aligned::Group(_) | Aligned::Word(_, _) => Ok(epochs),
    }
}

// Gives the words file the one word between an epoch that has ended and what comes next.
fn put_between<S: Store>(
    alloc: Global,
    store: &mut S,
    files: &mut GatheredFiles,
    broken: bool,
) -> Result<(), Stop>
    requires count { S.faults store.old < 2 ^ 60 }
    requires has { (out : List ℕ) × (words : List Received) × (rows : List Row) × (was : Option Files) × HasPut out words rows files.old was (S.files store.old) }
    ensures cause { StopCount result (S.faults store.old) (S.faults store.new) }
    ensures puts { (out : List ℕ) (words : List Received) (rows : List Row) (was : Option Files) → HasPut out words rows files.old was (S.files store.old) →
        Puts out (words ++ between broken) rows result files.new was (S.files store.new) }
{
    if broken {
        files.put_words(alloc, store, &[RxWord::Bad])
    } else {
        files.put_words(alloc, store, &[])
    }
}

/// What was gathered so far of the items of aligned lanes, which are given one after another.
#[derive(Drop)]
pub struct Gathered {
    /// The words file and the table.
    pub files: GatheredFiles,
    /// How many epochs have ended.
    pub epochs: u64,
    /// Whether the last item was a break: a word for it comes before the next item.
    pub broken: bool,
}

impl Gathered {
    /// Creates the words file and the table of places, under names that begin with `out`. Nothing is gathered yet.
    pub fn create<S: Store>(alloc: Global, store: &mut S, out: &str) -> Result<Gathered, Stop>
        requires count { S.faults store.old < 2 ^ 60 }
        ensures cause { StopCount result (S.faults store.old) (S.faults store.new) }
        ensures gathers { GathersNew out.now [] result (S.files store.old) (S.files store.new) }
    {
        let files = GatheredFiles::create(alloc, store, out)?;
        Ok(Gathered {
            files,
            epochs: 0,
            broken: false,
        })
    }

    /// The words that wait in the front come next, one or more. A count that finds no room in 64 bits is reported as out of memory.
    pub fn add_front<S: Store>(
        &mut self,
        alloc: Global,
        store: &mut S,
        front: &Front,
    ) -> Result<(), Stop>
        requires count { S.faults store.old < 2 ^ 60 }
        requires some { 1 ≤ length front.now.waiting }
        requires has { (out : List ℕ) × (items : List Item) × (was : Option Files) × IsGathered out items self.old was (S.files store.old) }
        ensures cause { StopCount result (S.faults store.old) (S.faults store.new) }
        ensures gathers { (out : List ℕ) (items : List Item) (was : Option Files) → IsGathered out items self.old was (S.files store.old) →
            Gathers out (items ++ front.now.waiting) result self.new was (S.files store.new) }
    {
        // proof: the words stand one after another from some place on
        front.at();
        put_between(alloc, store, &mut self.files, self.broken)?;
        self.broken = false;
        self.files.put_front(alloc, store, front)
    }

    /// This item comes next. A count that finds no room in 64 bits is reported as out of memory.
    pub fn add_item<S: Store>(
        &mut self,
        alloc: Global,
        store: &mut S,
        item: Aligned,
    ) -> Result<(), Stop>
        requires count { S.faults store.old < 2 ^ 60 }
        requires has { (out : List ℕ) × (items : List Item) × (was : Option Files) × IsGathered out items self.old was (S.files store.old) }
        ensures cause { StopCount result (S.faults store.old) (S.faults store.new) }
        ensures gathers { (out : List ℕ) (items : List Item) (was : Option Files) → IsGathered out items self.old was (S.files store.old) →
            Gathers out (items ++ item ∷ []) result self.new was (S.files store.new) }
    {
        let epochs = count_epoch(self.epochs, item)?;
        put_between(alloc, store, &mut self.files, self.broken)?;
        self.epochs = epochs;
        self.broken = is_break(item);
        self.files.put_item(alloc, store, item)
    }

    // The text of what was gathered, after this one.
    fn text(&self, alloc: Global, before: Vec<u8>) -> Result<Vec<u8>, OutOfMemory>
        ensures { IfOk result (λ text. (out : List ℕ) (items : List Item) (was now : Option Files) → IsGathered out items self.now was now →
            text.items ≡ before.items ++ gathered_text items) }
    {
        let mut text = before;
        count_line(alloc, &mut text, "words", self.files.words)?;
        count_line(alloc, &mut text, "epochs", self.epochs)?;
        Ok(text)
    }

    /// Nothing more comes: both files are filled. The text is that of what was gathered, after `before`.
    pub fn finish<S: Store>(
        &self,
        alloc: Global,
        store: &mut S,
        before: Vec<u8>,
    ) -> Result<Finished, Stop>
        requires count { S.faults store.old < 2 ^ 60 }
        requires has { (out : List ℕ) × (items : List Item) × (was : Option Files) × IsGathered out items self.now was (S.files store.old) }
        ensures cause { StopCount result (S.faults store.old) (S.faults store.new) }
        ensures writes { (out : List ℕ) (items : List Item) (was : Option Files) → IsGathered out items self.now was (S.files store.old) →
            Writes (λ o. o ≡ gathered_outcome out before.items items) (gathered_names out) result was (S.files store.new) }
    {
        let text = self.text(alloc, before)?;
        self.files.finish(alloc, store, text)
    }
}
