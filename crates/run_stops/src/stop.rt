//! Why the work of a command stopped.
ghost use Rattle.std.specs.Prelude.{◌≡◌, true};
ghost use Rattle.run_stops.specs.Stops.{IsOfStore, is_of_store};
ghost use Rattle.run_stops.specs.Reading.{IsOfInput};

use crate::input_error::InputError;
use lk_base::OutOfMemory;
use plan_errors::PlanError;
use std::alloc::{AllocError, AllocFailed, Global};
use std::fmt;
use thiserror::Error;

/// What stopped a command.
#[derive(Debug, Drop, Error)]
pub enum Stop {
    /// The plan is refused.
    Plan(PlanError),
    /// The input of this name is refused.
    Input(String, InputError),
    /// A call of the store with this name failed.
    Store(String),
    /// A call of the store failed, and its name found no memory.
    StoreNoMemory,
    /// Memory ran out.
    OutOfMemory,
}

impl fmt::Display for Stop {
    ghost use Rattle.std.specs.Prelude.{Some};
    ghost use Rattle.run_stops.specs.Stops.{stop_words};

    ghost output = { λ s. Some (stop_words s) };

    fn fmt<W: fmt::Write>(&self, f: &mut fmt::Formatter<W>) -> fmt::Result {
        match self {
            Stop::Plan(why) => write!(f, "plan refused: {why}"),
            Stop::Input(name, why) => write!(f, "input refused: {name}: {why}"),
            Stop::Store(name) => write!(f, "store fault: {name}"),
            Stop::StoreNoMemory | Stop::OutOfMemory => f.write_str("out of memory"),
        }
    }
}

impl From<OutOfMemory> for Stop {
    ghost use Rattle.std.specs.Prelude.{◌≡◌};
    ghost use Rattle.run_stops.specs.declared.stop.Stop.TheVariants as stop;

    ghost from_gives = { λ _ e. e ≡ stop.OutOfMemory };

    fn from(_: OutOfMemory) -> Stop {
        Stop::OutOfMemory
    }
}

impl From<AllocError> for Stop {
    ghost use Rattle.std.specs.Prelude.{◌≡◌};
    ghost use Rattle.run_stops.specs.declared.stop.Stop.TheVariants as stop;

    ghost from_gives = { λ _ e. e ≡ stop.OutOfMemory };

    fn from(_: AllocError) -> Stop {
        Stop::OutOfMemory
    }
}

impl<T: Drop> From<AllocFailed<T>> for Stop {
    ghost use Rattle.std.specs.Prelude.{◌≡◌};
    ghost use Rattle.run_stops.specs.declared.stop.Stop.TheVariants as stop;

    ghost from_gives = { λ _ e. e ≡ stop.OutOfMemory };

    fn from(_: AllocFailed<T>) -> Stop {
        Stop::OutOfMemory
    }
}

/// Makes the stop of a call of the store with this name that failed.
pub fn store_stop(alloc: Global, name: &str) -> Stop
    ensures name { IsOfStore (λ n. n ≡ name.now) result }
    ensures store { is_of_store result ≡ true }
{
    match String::from_str(alloc, name) {
        Ok(name) => Stop::Store(name),
        Err(_) => Stop::StoreNoMemory,
    }
}

/// Makes the stop of a refused input with this name.
pub fn input_stop(alloc: Global, name: &str, why: InputError) -> Stop
    ensures { IsOfInput name.now why result }
{
    match String::from_str(alloc, name) {
        Ok(name) => Stop::Input(name, why),
        Err(_) => Stop::OutOfMemory,
    }
}
