//! `list FILE`.
ghost use Rattle.std.specs.Prelude.{◌≡◌, ℕ};
ghost use Rattle.run_stops.specs.Stops.{StopCount};
ghost use Rattle.listing_commands.specs.Conversion.{Gives};
ghost use Rattle.listing_commands.specs.Listing.{is_words_name, IsTextOfWords, IsTextOfLane, RefusesWords, IsTextOf, RefusesListed};

use crate::conversion::{MadeFile, write_made};
use crate::limits::LISTED_LIMIT;
use lk_outside::Store;
use run_shell::{FileCommand, Finished};
use run_stops::{InputError, Stop, input_stop, read_input};
use std::alloc::Global;
use word_text::{list_lane, list_words};

// Whether a name is that of a words file.
fn is_words_name(name: &str) -> bool
    ensures { result ≡ is_words_name name.now }
{
    name.as_bytes().ends_with(b".words")
}

// The listing of a words file.
fn list_words_file(alloc: Global, file: &str, bytes: &[u8]) -> Result<MadeFile, Stop>
    ensures answers { Gives file.now (IsTextOfWords bytes.now) (RefusesWords bytes.now) result }
    ensures calm { (count : ℕ) → StopCount result count count }
{
    let mut content = Vec::new(alloc);
    match list_words(alloc, bytes, &mut content)? {
        Ok(count) => Ok(MadeFile { content, count }),
        Err(refusal) => Err(input_stop(alloc, file, InputError::Words(refusal))),
    }
}

// The listing of a lane file.
fn list_lane_file(alloc: Global, file: &str, bytes: &[u8]) -> Result<MadeFile, Stop>
    ensures answers { Gives file.now (IsTextOfLane bytes.now) (λ _. ⊥) result }
    ensures calm { (count : ℕ) → StopCount result count count }
{
    let mut content = Vec::new(alloc);
    let count = list_lane(alloc, bytes, &mut content)?;
    Ok(MadeFile { content, count })
}

// The listing of a file, by its name.
fn list_bytes(alloc: Global, file: &str, bytes: &[u8]) -> Result<MadeFile, Stop>
    ensures answers { Gives file.now (IsTextOf (is_words_name file.now) bytes.now) (RefusesListed (is_words_name file.now) bytes.now) result }
    ensures calm { (count : ℕ) → StopCount result count count }
{
    if is_words_name(file) {
        list_words_file(alloc, file, bytes)
    } else {
        list_lane_file(alloc, file, bytes)
    }
}

/// `list FILE`: a words file, where FILE ends in `.words`, or else a lane file becomes its listing, `FILE.txt`.
pub struct ListFile;

impl FileCommand for ListFile {
    ghost use Rattle.listing_commands.specs.Listing.{list_meaning};

    ghost meaning = { list_meaning };

    fn obey<S: Store>(alloc: Global, store: &mut S, file: &str) -> Result<Finished, Stop> {
        let bytes = read_input(alloc, store, file, LISTED_LIMIT)?;
        let made = list_bytes(alloc, file, &bytes)?;
        write_made(alloc, store, file, ".txt", "lines", made)
    }
}
