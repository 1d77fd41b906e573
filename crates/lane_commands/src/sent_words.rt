//! A words file whose words were all sent is an input.
ghost use Rattle.std.specs.Prelude.{◌≡◌, ◌<◌, ◌^◌, IfSome};
ghost use Rattle.run_stops.specs.Stops.{StopCount};
ghost use Rattle.run_stops.specs.Reading.{Reads};
ghost use Rattle.lane_commands.specs.SentWords.{sent_words_in};

use lk_base::WORDS_LIMIT;
use lk_outside::Store;
use run_stops::{InputError, Stop, input_stop, read_input};
use std::alloc::Global;
use words_files::SentFile;

/// Reads the words of the words file of this name. The files are unchanged.
///
/// # Errors
///
/// Unless the store fails or memory runs out: `Input` if the file is absent, has more than 1,073,741,824 bytes, or has a word that was
/// not sent or is not whole, and only then.
pub fn read_sent_words_file<S: Store>(
    alloc: Global,
    store: &mut S,
    name: &str,
) -> Result<SentFile, Stop>
    requires { S.faults store.old < 2 ^ 60 }
    ensures cause { StopCount result (S.faults store.old) (S.faults store.new) }
    ensures unchanged { S.files store.new ≡ S.files store.old }
    ensures reads { IfSome (S.files store.old) (λ files. Reads (λ words. words) (λ n. n ≡ name.now) result (sent_words_in files name.now)) }
{
    let bytes = read_input(alloc, store, name, WORDS_LIMIT)?;
    SentFile::new(bytes).map_err(|why| input_stop(alloc, name, InputError::Words(why)))
}
