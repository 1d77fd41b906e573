//! The inputs of a run, read whole or in pieces.
ghost use Rattle.std.specs.Prelude.{◌≡◌, ◌<◌, ◌≤◌, ◌^◌, length, IfOk, IfSome, vec_len};
ghost use Rattle.run_stops.specs.Stops.{StopCount};
ghost use Rattle.run_stops.specs.Reading.{Probes, Reads, ReadsPiece, bytes_in, plan_bytes, vec_items};

use crate::input_error::InputError;
use crate::stop::{Stop, input_stop, store_stop};
use lk_outside::{ReadError, Store, WholeError, read_whole};
use plan_errors::PlanError;
use std::alloc::Global;

// why: A generic input reader that takes a tree of needed files was rejected. For commands with one input it says no more than
// run_stops::read_input, and costs a struct and two methods.
/// Reads the whole of an input of at most `limit` bytes. The files are unchanged.
///
/// # Errors
///
/// Unless the store fails or memory runs out: `Input` if the input is absent or longer, and only then.
pub fn read_input<S: Store>(
    alloc: Global,
    store: &mut S,
    name: &str,
    limit: u64,
) -> Result<Vec<u8>, Stop>
    requires { S.faults store.old < 2 ^ 60 }
    ensures cause { StopCount result (S.faults store.old) (S.faults store.new) }
    ensures unchanged { S.files store.new ≡ S.files store.old }
    ensures fits { IfOk result (λ v. vec_len v ≤ limit) }
    ensures reads { IfSome (S.files store.old) (λ files. Reads vec_items (λ n. n ≡ name.now) result (bytes_in files name.now limit)) }
{
    match read_whole(alloc, store, name, limit) {
        Ok(bytes) => Ok(bytes),
        Err(WholeError::NoFile) => Err(input_stop(alloc, name, InputError::NoFile)),
        Err(WholeError::TooLarge) => Err(input_stop(alloc, name, InputError::TooLarge)),
        Err(WholeError::Failed) => Err(store_stop(alloc, name)),
        Err(WholeError::OutOfMemory) => Err(Stop::OutOfMemory),
    }
}

/// Reads the whole of a plan of at most `limit` bytes. The files are unchanged.
///
/// # Errors
///
/// Unless the store fails or memory runs out: `Plan` if the plan is absent or longer, and only then.
pub fn read_plan<S: Store>(
    alloc: Global,
    store: &mut S,
    name: &str,
    limit: u64,
) -> Result<Vec<u8>, Stop>
    requires { S.faults store.old < 2 ^ 60 }
    ensures cause { StopCount result (S.faults store.old) (S.faults store.new) }
    ensures unchanged { S.files store.new ≡ S.files store.old }
    ensures reads { IfSome (S.files store.old) (λ files. Reads vec_items (λ n. n ≡ name.now) result (plan_bytes files name.now limit)) }
{
    match read_whole(alloc, store, name, limit) {
        Ok(bytes) => Ok(bytes),
        Err(WholeError::NoFile) => Err(Stop::Plan(PlanError::NoFile)),
        Err(WholeError::TooLarge) => Err(Stop::Plan(PlanError::TooLarge)),
        Err(WholeError::Failed) => Err(store_stop(alloc, name)),
        Err(WholeError::OutOfMemory) => Err(Stop::OutOfMemory),
    }
}

/// Reads bytes of an input from `offset` on to the front of `buf`, and returns how many: 0 if `buf` is empty or the offset is at or
/// past the end, and only then. The files are unchanged.
///
/// # Errors
///
/// Unless the store fails or memory runs out: `Input` if the input is absent, and only then.
pub fn read_piece<S: Store>(
    alloc: Global,
    store: &mut S,
    name: &str,
    offset: u64,
    buf: &mut [u8],
) -> Result<usize, Stop>
    requires { S.faults store.old < 2 ^ 60 }
    ensures cause { StopCount result (S.faults store.old) (S.faults store.new) }
    ensures unchanged { S.files store.new ≡ S.files store.old }
    ensures within { IfOk result (λ n. n ≤ length buf.new) }
    ensures reads { IfSome (S.files store.old) (ReadsPiece result name.now offset buf.new) }
{
    match store.read_at(name, offset, buf) {
        Ok(count) => Ok(count),
        Err(ReadError::NoFile) => Err(input_stop(alloc, name, InputError::NoFile)),
        Err(ReadError::Failed) => Err(store_stop(alloc, name)),
        Err(ReadError::OutOfMemory) => Err(Stop::OutOfMemory),
    }
}

/// Asks for an input of at most `limit` bytes that is read later: for its first byte, and for a byte at the limit. The files are
/// unchanged.
///
/// # Errors
///
/// Unless the store fails or memory runs out: `Input` if the input is absent or longer, and only then.
pub fn probe_input<S: Store>(
    alloc: Global,
    store: &mut S,
    name: &str,
    limit: u64,
) -> Result<(), Stop>
    requires { S.faults store.old < 2 ^ 60 }
    ensures cause { StopCount result (S.faults store.old) (S.faults store.new) }
    ensures unchanged { S.files store.new ≡ S.files store.old }
    ensures probes { IfSome (S.files store.old) (λ files. Probes (λ n. n ≡ name.now) result (bytes_in files name.now limit)) }
{
    let mut byte = [0; 1];
    read_piece(alloc, store, name, 0, &mut byte)?;
    let past = read_piece(alloc, store, name, limit, &mut byte)?;
    if past > 0 {
        return Err(input_stop(alloc, name, InputError::TooLarge));
    }
    Ok(())
}
