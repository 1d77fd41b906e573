//! `assemble FILE`.
ghost use Rattle.std.specs.Prelude.{ℕ};
ghost use Rattle.run_stops.specs.Stops.{StopCount};
ghost use Rattle.listing_commands.specs.Conversion.{Gives};
ghost use Rattle.listing_commands.specs.Assembling.{IsFileOfText, RefusesText};

use crate::conversion::{MadeFile, write_made};
use crate::limits::TEXT_LIMIT;
use lk_outside::Store;
use run_shell::{FileCommand, Finished};
use run_stops::{InputError, Stop, input_stop, read_input};
use std::alloc::Global;
use word_text::assemble;

// The bytes of which a text is the listing.
fn assemble_bytes(alloc: Global, file: &str, text: &[u8]) -> Result<MadeFile, Stop>
    ensures answers { Gives file.now (IsFileOfText text.now) (RefusesText text.now) result }
    ensures calm { (count : ℕ) → StopCount result count count }
{
    let mut content = Vec::new(alloc);
    match assemble(alloc, text, &mut content)? {
        Ok(()) => {
            let count = content.len() as u64;
            Ok(MadeFile { content, count })
        }
        Err(refusal) => Err(input_stop(alloc, file, InputError::Text(refusal))),
    }
}

/// `assemble FILE`: a text becomes the words file or the lane file of which it is the listing, `FILE.bin`.
pub struct AssembleText;

impl FileCommand for AssembleText {
    ghost use Rattle.listing_commands.specs.Assembling.{assemble_meaning};

    ghost meaning = { assemble_meaning };

    fn obey<S: Store>(alloc: Global, store: &mut S, file: &str) -> Result<Finished, Stop> {
        let text = read_input(alloc, store, file, TEXT_LIMIT)?;
        let made = assemble_bytes(alloc, file, &text)?;
        write_made(alloc, store, file, ".bin", "bytes", made)
    }
}
