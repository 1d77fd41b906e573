//! The lanes of a plan, which are asked for before anything is created.
ghost use Rattle.std.specs.Prelude.{◌≡◌, ◌<◌, ◌^◌, Contains, map, IfSome, string_bytes};
ghost use Rattle.run_stops.specs.Stops.{StopCount};
ghost use Rattle.run_stops.specs.Reading.{Probes};
ghost use Rattle.receive_commands.specs.Receive.{lanes_in};

use lk_base::LANE_LIMIT;
use lk_outside::Store;
use run_stops::{Stop, probe_input};
use std::alloc::Global;

/// Asks for each lane in the files of these names, in their order, for its first byte and for a byte at the limit of
/// 4,294,967,296 bytes. The first that is absent or longer is refused, unless the store fails or memory runs out. The
/// files are as they were.
pub fn probe_lanes<S: Store>(alloc: Global, store: &mut S, names: &[String]) -> Result<(), Stop>
    requires { S.faults store.old < 2 ^ 60 }
    ensures cause { StopCount result (S.faults store.old) (S.faults store.new) }
    ensures unchanged { S.files store.new ≡ S.files store.old }
    ensures probes { IfSome (S.files store.old) (λ files. Probes (Contains (map string_bytes names.now)) result (lanes_in files (map string_bytes names.now))) }
{
    for name in names {
        probe_input(alloc, store, name.as_str(), LANE_LIMIT)?;
    }
    Ok(())
}
