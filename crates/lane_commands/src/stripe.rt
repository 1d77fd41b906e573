//! `stripe FILE`: the words of a plan's words file are put on the lanes of its link.
ghost use Rattle.std.specs.Prelude.{◌≡◌, ◌<◌, ◌^◌, string_bytes};
ghost use Rattle.run_stops.specs.Stops.{StopCount};
ghost use Rattle.run_shell.specs.Names.{lane_names};
ghost use Rattle.run_shell.specs.Writing.{Writes};
ghost use Rattle.lane_commands.specs.Stripe.{IsStriped};
ghost use Rattle.lane_commands.specs.Values.{words_value};

use crate::lane_maker::LaneMaker;
use crate::plan_words::{StripeInputs, let_go, read_plan_words};
use lk_outside::Store;
use run_shell::{FileCommand, Finished, make_all};
use run_stops::Stop;
use std::alloc::Global;

// Creates and fills the files of the lanes that carry the words of a plan.
fn write_stripes<S: Store>(
    alloc: Global,
    store: &mut S,
    read: &StripeInputs,
) -> Result<Finished, Stop>
    requires count { S.faults store.old < 2 ^ 60 }
    ensures cause { StopCount result (S.faults store.old) (S.faults store.new) }
    ensures writes { Writes (IsStriped (words_value read.now)) (lane_names (string_bytes read.now.plan.out) read.now.plan.link.lanes) result (S.files store.old) (S.files store.new) }
{
    let mut maker = LaneMaker::new(alloc, read)?;
    make_all(alloc, store, &mut maker)
}

/// `stripe FILE`: the words of a plan's words file become the files of the lanes that carry them, `OUT.lane.I` by number. The last
/// group is filled with idles.
pub struct Stripe;

impl FileCommand for Stripe {
    ghost use Rattle.lane_commands.specs.Stripe.{stripe_meaning};

    ghost meaning = { stripe_meaning };

    fn obey<S: Store>(alloc: Global, store: &mut S, file: &str) -> Result<Finished, Stop> {
        let read = read_plan_words(alloc, store, file)?;
        let finished = write_stripes(alloc, store, &read);
        let_go(read.plan);
        finished
    }
}
