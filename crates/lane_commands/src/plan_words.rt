//! A plan and the words of its words file.
ghost use Rattle.std.specs.Prelude.{◌≡◌, ◌<◌, ◌^◌, IfSome};
ghost use Rattle.link_plan.specs.Views.{plan_value};
ghost use Rattle.run_stops.specs.Stops.{StopCount};
ghost use Rattle.run_stops.specs.Reading.{Reads};
ghost use Rattle.run_shell.specs.Names.{words_name};
ghost use Rattle.lane_commands.specs.SentWords.{sent_words_in};
ghost use Rattle.lane_commands.specs.Stripe.{IsReadFor, plan_words_in};
ghost use Rattle.lane_commands.specs.Values.{words_value};

use crate::sent_words::read_sent_words_file;
use link_plan::Plan;
use lk_outside::Store;
use plan_inputs::read_plan_file;
use run_shell::words_name;
use run_stops::Stop;
use std::alloc::Global;
use words_files::SentFile;

/// A plan and the words of its words file.
#[derive(Drop)]
pub struct StripeInputs {
    /// The plan.
    pub plan: Plan,
    /// The words, in order.
    pub words: SentFile,
}

/// Drops a plan.
// proof: a function that drops one by itself is slow to prove
pub fn let_go(_plan: Plan) {}

// Reads the words of a plan's words file.
fn read_words<S: Store>(alloc: Global, store: &mut S, plan: &Plan) -> Result<SentFile, Stop>
    requires { S.faults store.old < 2 ^ 60 }
    ensures cause { StopCount result (S.faults store.old) (S.faults store.new) }
    ensures unchanged { S.files store.new ≡ S.files store.old }
    ensures reads { IfSome (S.files store.old) (λ files. Reads (λ words. words) (λ q. q ≡ words_name (plan_value plan.now).out) result (sent_words_in files (words_name (plan_value plan.now).out))) }
{
    let name = words_name(alloc, plan.out.as_str())?;
    read_sent_words_file(alloc, store, name.as_str())
}

/// Reads the plan of this name, and then the words of its words file. Each is read and checked whole before the next. The files are
/// unchanged.
///
/// # Errors
///
/// Unless the store fails or memory runs out: the refusal of the first of the two that is absent, too large or refused.
pub fn read_plan_words<S: Store>(
    alloc: Global,
    store: &mut S,
    file: &str,
) -> Result<StripeInputs, Stop>
    requires { S.faults store.old < 2 ^ 60 }
    ensures cause { StopCount result (S.faults store.old) (S.faults store.new) }
    ensures unchanged { S.files store.new ≡ S.files store.old }
    ensures reads { IfSome (S.files store.old) (λ files. Reads words_value (IsReadFor file.now files) result (plan_words_in files file.now)) }
{
    let plan = read_plan_file(alloc, store, file)?;
    match read_words(alloc, store, &plan) {
        Ok(words) => Ok(StripeInputs { plan, words }),
        Err(stop) => {
            let_go(plan);
            Err(stop)
        }
    }
}
