//! What was read is run, and its outputs are written.
ghost use Rattle.std.specs.Prelude.{◌≡◌, ◌<◌, ◌^◌, ℕ};
ghost use Rattle.link_plan.specs.Listing.{numbers_of, channels_in_order};
ghost use Rattle.duplex_model.specs.DuplexRun.{Ends, Settings};
ghost use Rattle.duplex.specs.Duplexes.{IsGiven};
ghost use Rattle.plan_inputs.specs.Values.{packet_values};
ghost use Rattle.run_stops.specs.Stops.{StopCount};
ghost use Rattle.run_shell.specs.Writing.{Writes};
ghost use Rattle.duplex_commands.specs.Captures.{Beginning, names_of};
ghost use Rattle.duplex_commands.specs.Slots.{IsAt};
ghost use Rattle.duplex_commands.specs.Ended.{IsEnded};
ghost use Rattle.duplex_commands.specs.Loaded.{FitEnds, IsLoaded};
ghost use Rattle.duplex_commands.specs.Run.{IsDuplexed, duplex_names};
ghost use Rattle.duplex_commands.specs.Values.{duplex_reading};

use crate::captures::Captures;
use crate::lending::loaded;
use crate::reading::DuplexInputs;
use crate::slots::run_slots;
use crate::text::text_of;
use duplex::Duplex;
use link_plan::channels_in_order;
use lk_outside::Store;
use run_shell::Finished;
use run_stops::Stop;
use std::alloc::Global;

// Does the slots of a run, fills its captures, and makes its text.
fn run_ends<S: Store>(
    alloc: Global,
    store: &mut S,
    captures: &mut Captures,
    duplex: &mut Duplex,
    slots: u32,
) -> Result<Finished, Stop>
    requires count { S.faults store.old < 2 ^ 60 }
    requires few { slots < 2 ^ 24 }
    requires given { IsGiven duplex.old }
    requires at { (b : Beginning) × (settings : Settings) × (ends : Ends) × IsAt b settings ends 0 duplex.old captures.old (S.files store.old) × (ends.channels ≡ b.setting.channels) }
    ensures cause { StopCount result (S.faults store.old) (S.faults store.new) }
    ensures writes { (b : Beginning) (settings : Settings) (ends : Ends) → IsAt b settings ends 0 duplex.old captures.old (S.files store.old) → ends.channels ≡ b.setting.channels → settings.slots ≡ slots →
        Writes (IsEnded b settings ends) (names_of b) result b.was (S.files store.new) }
{
    run_slots(alloc, store, captures, duplex, slots)?;
    let text = text_of(alloc, captures, duplex, slots)?;
    captures.outputs.finish(alloc, store)?;
    Ok(Finished { held: false, text })
}

// Creates the captures of what comes, and runs both ends, which are loaded, while these grow.
fn run_loaded<S: Store>(
    alloc: Global,
    store: &mut S,
    inputs: &DuplexInputs,
    channels: &[u16],
    duplex: &mut Duplex,
) -> Result<Finished, Stop>
    requires count { S.faults store.old < 2 ^ 60 }
    requires channels { channels.now ≡ channels_in_order (numbers_of inputs.now.plan.channels.items) }
    requires loaded { IsLoaded (duplex_reading inputs.now) duplex.old }
    ensures cause { StopCount result (S.faults store.old) (S.faults store.new) }
    ensures writes { Writes (IsDuplexed (duplex_reading inputs.now)) (duplex_names (duplex_reading inputs.now)) result (S.files store.old) (S.files store.new) }
{
    let mut captures = Captures::open(
        alloc,
        store,
        inputs.settings.out.as_str(),
        channels,
        inputs.plan.link_type,
    )?;
    run_ends(alloc, store, &mut captures, duplex, inputs.settings.slots)
}

/// Runs both ends of what was read, while the captures of what comes grow, and makes the text of the run.
pub fn write_duplex<S: Store>(
    alloc: Global,
    store: &mut S,
    inputs: &DuplexInputs,
) -> Result<Finished, Stop>
    requires count { S.faults store.old < 2 ^ 60 }
    requires fit { FitEnds (numbers_of inputs.now.plan.channels.items) (packet_values inputs.now.packets_of_a.items) (packet_values inputs.now.packets_of_b.items) }
    ensures cause { StopCount result (S.faults store.old) (S.faults store.new) }
    ensures writes { Writes (IsDuplexed (duplex_reading inputs.now)) (duplex_names (duplex_reading inputs.now)) result (S.files store.old) (S.files store.new) }
{
    let channels = channels_in_order(alloc, &inputs.plan.channels)?;
    let mut duplex = loaded(alloc, inputs, &channels)?;
    run_loaded(alloc, store, inputs, &channels, &mut duplex)
}
