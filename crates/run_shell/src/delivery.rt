//! Outputs whose contents are made before they are created.
ghost use Rattle.std.specs.Prelude.{◌≡◌, ◌<◌, ◌^◌, map, length, Contains, string_bytes};
ghost use Rattle.lk_outside.specs.Files.{Told};
ghost use Rattle.run_stops.specs.Stops.{StopCount, StoreStops};
ghost use Rattle.run_stops.specs.Reading.{vec_items};
ghost use Rattle.run_shell.specs.Outputs.{Differ, FilledAll, FilledInTurn};
ghost use Rattle.run_shell.specs.Writing.{Writes, delivered};

use crate::appending::append_all;
use crate::finished::Finished;
use crate::outputs::{Outputs, create_all};
use lk_outside::Store;
use run_stops::Stop;
use std::alloc::Global;

/// Creates the files of these names, which differ, and fills them with these contents, one for each. With that the work is
/// finished.
pub fn deliver<S: Store>(
    alloc: Global,
    store: &mut S,
    names: Vec<String>,
    contents: &[Vec<u8>],
    finished: Finished,
) -> Result<Finished, Stop>
    requires count { S.faults store.old < 2 ^ 60 }
    requires each { length (map vec_items contents.now) ≡ length (map string_bytes names.items) }
    requires differ { Differ (map string_bytes names.items) }
    ensures cause { StopCount result (S.faults store.old) (S.faults store.new) }
    ensures writes { Writes (λ o. o ≡ delivered (map string_bytes names.items) (map vec_items contents.now) finished) (map string_bytes names.items) result (S.files store.old) (S.files store.new) }
{
    let mut outputs = Outputs::create(alloc, store, names)?;
    for place in 0..contents.len() {
        outputs.put(alloc, store, place, &contents[place])?;
    }
    outputs.finish(alloc, store)?;
    Ok(finished)
}

/// Creates the files of these names, which differ, and then appends these contents to them, one for each: each to its end, in
/// pieces of 65,536 bytes and a rest, before the next. After an error some first of the files are there and empty, or all are
/// there: the first of them whole, of the next a prefix, and the others empty.
pub fn deliver_in_turn<S: Store>(
    alloc: Global,
    store: &mut S,
    names: Vec<String>,
    contents: &[Vec<u8>],
) -> Result<(), Stop>
    requires count { S.faults store.old < 2 ^ 60 }
    requires each { length (map vec_items contents.now) ≡ length (map string_bytes names.items) }
    requires differ { Differ (map string_bytes names.items) }
    ensures cause { StopCount result (S.faults store.old) (S.faults store.new) }
    ensures stops { StoreStops (Contains (map string_bytes names.items)) result }
    ensures delivered { Told (S.files store.old) (S.files store.new) (FilledAll (map string_bytes names.items) (map vec_items contents.now) result) }
    ensures in_turn { Told (S.files store.old) (S.files store.new) (FilledInTurn (map string_bytes names.items) (map vec_items contents.now) result) }
{
    create_all(alloc, store, &names)?;
    for turn in 0..contents.len() {
        append_all(alloc, store, names[turn].as_str(), &contents[turn])?;
    }
    Ok(())
}
