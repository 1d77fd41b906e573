//! The words file and the table of places, which grow.
ghost use Rattle.std.specs.Prelude.{◌≡◌, ◌<◌, ◌+◌, ◌^◌, ◌++◌, [], ◌∷◌, ℕ, List, Option, IfOk, Contains, length, map, string_bytes};
ghost use Rattle.lk_base.specs.declared.word.RxWord.{RxWord as Received};
ghost use Rattle.lk_outside.specs.Files.{Files};
ghost use Rattle.run_stops.specs.Stops.{StopCount};
ghost use Rattle.run_shell.specs.Writing.{Writes};
ghost use Rattle.lane_words.specs.declared.places.PlaceRow.{PlaceRow as Row};
ghost use Rattle.gather_commands.specs.Table.{finished_outcome, gathered_names};
ghost use Rattle.lane_words.specs.Gathered.{own_rows, own_words};
ghost use Rattle.lane_words.specs.WordsFile.{rx_words_file};
ghost use Rattle.rx_front.specs.Waiting.{words_in};
ghost use Rattle.gather_commands.specs.Growing.{HasPut, Puts, PutsNew};

use crate::front_words::front_bytes;
use crate::table::{heading, row_bytes};
use lane_words::{PlaceRow, words_bytes};
use lk_base::{Aligned, OutOfMemory, Pos, RxWord};
use lk_outside::Store;
use run_shell::{Finished, Outputs, words_name};
use run_stops::Stop;
use rx_front::Front;
use std::alloc::{AllocError, Global};

// The places of the outputs in the order of creation.
const WORDS: usize = 0;

const TABLE: usize = 1;

// The names of the words file and of the table.
fn output_names(alloc: Global, out: &str) -> Result<Vec<String>, AllocError>
    ensures names { IfOk result (λ v. map string_bytes v.items ≡ gathered_names out.now) }
{
    let mut names = Vec::new(alloc);
    names.push(words_name(alloc, out)?)?;
    names.push(format!(in alloc; "{out}.places.csv")?)?;
    Ok(names)
}

/// A count of 64 bits, and this many more. A count that finds no room is reported as out of memory.
pub fn counted(count: u64, more: usize) -> Result<u64, OutOfMemory>
    ensures { IfOk result (λ sum. sum ≡ count + more) }
{
    match count.checked_add(more as u64) {
        Some(sum) => Ok(sum),
        None => Err(OutOfMemory),
    }
}

/// The words file and the table of places, to which words and rows are given.
#[derive(Drop)]
pub struct GatheredFiles {
    /// The words file, and after it the table.
    pub outputs: Outputs,
    /// How many words the words file was given.
    pub words: u64,
    /// Room for the bytes of words.
    pub bytes: Vec<u8>,
}

impl GatheredFiles {
    /// Creates both files, under names that begin with `out`, and gives the table its heading.
    pub fn create<S: Store>(alloc: Global, store: &mut S, out: &str) -> Result<GatheredFiles, Stop>
        requires count { S.faults store.old < 2 ^ 60 }
        ensures cause { StopCount result (S.faults store.old) (S.faults store.new) }
        ensures puts { PutsNew out.now [] [] result (S.files store.old) (S.files store.new) }
    {
        let names = output_names(alloc, out)?;
        let mut outputs = Outputs::create(alloc, store, names)?;
        outputs.put(alloc, store, TABLE, heading())?;
        Ok(GatheredFiles {
            outputs,
            words: 0,
            bytes: Vec::new(alloc),
        })
    }

    /// Gives these words to the words file. A count that finds no room in 64 bits is reported as out of memory.
    pub fn put_words<S: Store>(
        &mut self,
        alloc: Global,
        store: &mut S,
        words: &[RxWord],
    ) -> Result<(), Stop>
        requires count { S.faults store.old < 2 ^ 60 }
        requires has { (out : List ℕ) × (before : List Received) × (rows : List Row) × (was : Option Files) × HasPut out before rows self.old was (S.files store.old) }
        ensures cause { StopCount result (S.faults store.old) (S.faults store.new) }
        ensures puts { (out : List ℕ) (before : List Received) (rows : List Row) (was : Option Files) → HasPut out before rows self.old was (S.files store.old) →
            Puts out (before ++ words.now) rows result self.new was (S.files store.new) }
    {
        words_bytes(&mut self.bytes, words)?;
        self.put_made(alloc, store, words.len())
    }

    /// Gives the words that wait in the front to the words file. A count that finds no room in 64 bits is reported as out of memory.
    pub fn put_front<S: Store>(
        &mut self,
        alloc: Global,
        store: &mut S,
        front: &Front,
    ) -> Result<(), Stop>
        requires count { S.faults store.old < 2 ^ 60 }
        requires has { (out : List ℕ) × (before : List Received) × (rows : List Row) × (was : Option Files) × HasPut out before rows self.old was (S.files store.old) }
        ensures cause { StopCount result (S.faults store.old) (S.faults store.new) }
        ensures puts { (out : List ℕ) (before : List Received) (rows : List Row) (was : Option Files) → HasPut out before rows self.old was (S.files store.old) →
            Puts out (before ++ words_in front.now.waiting) rows result self.new was (S.files store.new) }
    {
        // proof: as many words wait as items
        front.at();
        front_bytes(&mut self.bytes, front)?;
        self.put_made(alloc, store, front.len())
    }

    // Gives the words file as many words, whose bytes are made.
    fn put_made<S: Store>(&mut self, alloc: Global, store: &mut S, count: usize) -> Result<(), Stop>
        requires count { S.faults store.old < 2 ^ 60 }
        requires has { (out : List ℕ) × (before : List Received) × (rows : List Row) × (was : Option Files) × HasPut out before rows self.old was (S.files store.old) }
        ensures cause { StopCount result (S.faults store.old) (S.faults store.new) }
        ensures puts { (out : List ℕ) (before more : List Received) (rows : List Row) (was : Option Files) → HasPut out before rows self.old was (S.files store.old) →
            self.old.bytes.items ≡ rx_words_file more → count ≡ length more → Puts out (before ++ more) rows result self.new was (S.files store.new) }
    {
        self.words = counted(self.words, count)?;
        self.outputs.put(alloc, store, WORDS, &self.bytes)
    }

    /// Gives this row to the table.
    pub fn put_row<S: Store>(
        &mut self,
        alloc: Global,
        store: &mut S,
        row: &PlaceRow,
    ) -> Result<(), Stop>
        requires count { S.faults store.old < 2 ^ 60 }
        requires has { (out : List ℕ) × (words : List Received) × (rows : List Row) × (was : Option Files) × HasPut out words rows self.old was (S.files store.old) }
        ensures cause { StopCount result (S.faults store.old) (S.faults store.new) }
        ensures puts { (out : List ℕ) (words : List Received) (rows : List Row) (was : Option Files) → HasPut out words rows self.old was (S.files store.old) →
            Puts out words (rows ++ row.now ∷ []) result self.new was (S.files store.new) }
    {
        let bytes = row_bytes(alloc, row)?;
        self.outputs.put(alloc, store, TABLE, &bytes)
    }

    /// Gives an item's own word to the words file, or its row to the table: the place of its row has the number of the words
    /// before.
    pub fn put_item<S: Store>(
        &mut self,
        alloc: Global,
        store: &mut S,
        item: Aligned,
    ) -> Result<(), Stop>
        requires count { S.faults store.old < 2 ^ 60 }
        requires has { (out : List ℕ) × (words : List Received) × (rows : List Row) × (was : Option Files) × HasPut out words rows self.old was (S.files store.old) }
        ensures cause { StopCount result (S.faults store.old) (S.faults store.new) }
        ensures puts { (out : List ℕ) (words : List Received) (rows : List Row) (was : Option Files) → HasPut out words rows self.old was (S.files store.old) →
            Puts out (words ++ own_words item) (rows ++ own_rows (length words) item) result self.new was (S.files store.new) }
    {
        match item {
            Aligned::Group(at) => {
                let at = Pos {
                    group: at.group,
                    index: 0,
                };
                let row = PlaceRow {
                    word: self.words,
                    at,
                    why: None,
                };
                self.put_row(alloc, store, &row)
            }
            Aligned::Word(_, word) => self.put_words(alloc, store, &[word]),
            Aligned::Break(at, why) => {
                let row = PlaceRow {
                    word: self.words,
                    at,
                    why: Some(why),
                };
                self.put_row(alloc, store, &row)
            }
        }
    }

    /// Nothing more comes: both files are filled. The text is the command's.
    pub fn finish<S: Store>(
        &self,
        alloc: Global,
        store: &mut S,
        text: Vec<u8>,
    ) -> Result<Finished, Stop>
        requires count { S.faults store.old < 2 ^ 60 }
        requires has { (out : List ℕ) × (words : List Received) × (rows : List Row) × (was : Option Files) × HasPut out words rows self.now was (S.files store.old) }
        ensures cause { StopCount result (S.faults store.old) (S.faults store.new) }
        ensures writes { (out : List ℕ) (words : List Received) (rows : List Row) (was : Option Files) → HasPut out words rows self.now was (S.files store.old) →
            Writes (λ o. o ≡ finished_outcome out text.items words rows) (gathered_names out) result was (S.files store.new) }
    {
        self.outputs.finish(alloc, store)?;
        Ok(Finished { held: false, text })
    }
}
