//! `duplex FILE`: two ends that hold each other back.

use crate::reading::{let_go, read_duplex_inputs};
use crate::write::write_duplex;
use lk_outside::Store;
use run_shell::{FileCommand, Finished};
use run_stops::Stop;
use std::alloc::Global;

/// `duplex FILE`: the packets that come at each end of a run become the captures of the plan's channels, by number, under names
/// that begin with the `out` of FILE: first those of end a, then those of end b.
pub struct DuplexFile;

impl FileCommand for DuplexFile {
    ghost use Rattle.duplex_commands.specs.Run.{duplex_meaning};

    ghost meaning = { duplex_meaning };

    fn obey<S: Store>(alloc: Global, store: &mut S, file: &str) -> Result<Finished, Stop> {
        let inputs = read_duplex_inputs(alloc, store, file)?;
        let finished = write_duplex(alloc, store, &inputs);
        let_go(inputs.plan);
        finished
    }
}
