//! How the work of a command ends, and the saying of its text.
ghost use Rattle.std.specs.Prelude.{◌≡◌, ◌<◌, ◌^◌, IfOk};
ghost use Rattle.run_stops.specs.Stops.{stop_text, is_of_store};
ghost use Rattle.run_shell.specs.Ends.{stop_status, held_status};
ghost use Rattle.run_shell.specs.Run.{Says, sink_failed};
ghost use Rattle.run_shell.specs.Ending.{IsEndingOf, IsEnding, IsMisused, IsNoMemory};
ghost use Rattle.run_stops.specs.Lines.{usage_line};

use crate::command::Command;
use crate::status::Status;
use lk_base::OutOfMemory;
use lk_outside::{Sink, Store, WriteError};
use run_stops::{Stop, memory_line, stop_line, usage_line};
use std::alloc::Global;
use std::marker::Model;

// What is to be said: a text that was made, or the line that needs no memory.
#[derive(Drop)]
enum EndingText {
    Made(Vec<u8>),
    NoMemory,
}

/// A status, what is to be said with it, and whether the store failed.
#[derive(Drop)]
pub struct Ending {
    status: Status,
    text: EndingText,
    // True if the store failed.
    store_failed: bool,
}

impl Model for Ending {
    ghost use Rattle.run_shell.specs.Ended.{Ended};
    ghost use Rattle.run_shell.specs.Ending.{text_bytes};

    ghost Value = { Ended };

    ghost view = { λ e. record { status = e.status; text = text_bytes e.text; store_failed = e.store_failed } };
}

impl EndingText {
    ghost use Rattle.run_shell.specs.Ending.{text_bytes};

    fn bytes(&self) -> &[u8]
        ensures { result.now ≡ text_bytes self.now }
    {
        match self {
            EndingText::Made(text) => text.as_slice(),
            EndingText::NoMemory => memory_line(),
        }
    }
}

fn status_when(held: bool) -> Status
    ensures { result ≡ held_status held }
{
    if held { Status::Held } else { Status::Done }
}

fn status_of(stop: &Stop) -> Status
    ensures { result ≡ stop_status stop.now }
{
    match stop {
        Stop::Plan(_) => Status::PlanRefused,
        Stop::Input(_, _) => Status::InputRefused,
        Stop::Store(_) => Status::StoreFault,
        Stop::StoreNoMemory | Stop::OutOfMemory => Status::OutOfMemory,
    }
}

fn is_of_store(stop: &Stop) -> bool
    ensures { result ≡ is_of_store stop.now }
{
    matches!(stop, Stop::Store(_) | Stop::StoreNoMemory)
}

// Makes the one line of a stop.
fn line_of(alloc: Global, stop: &Stop) -> Result<Vec<u8>, OutOfMemory>
    ensures { IfOk result (λ line. line.items ≡ stop_text stop.now) }
{
    let mut line = Vec::new(alloc);
    stop_line(alloc, &mut line, stop)?;
    Ok(line)
}

// Makes the line that says how the program is called.
fn usage_text(alloc: Global) -> Result<Vec<u8>, OutOfMemory>
    ensures { IfOk result (λ line. line.items ≡ usage_line) }
{
    let mut line = Vec::new(alloc);
    usage_line(&mut line)?;
    Ok(line)
}

fn ending_of(alloc: Global, stop: &Stop) -> Ending
    ensures { IsEndingOf stop.now result }
{
    let store_failed = is_of_store(stop);
    match line_of(alloc, stop) {
        Ok(text) => Ending {
            status: status_of(stop),
            text: EndingText::Made(text),
            store_failed,
        },
        Err(_) => Ending {
            status: Status::OutOfMemory,
            text: EndingText::NoMemory,
            store_failed,
        },
    }
}

/// Ends the work of a command with a status and a text.
pub fn end<C: Command, S: Store>(alloc: Global, command: &C, store: &mut S) -> Ending
    requires { S.faults store.old < 2 ^ 60 }
    ensures { IsEnding (Unit {0}) (C.meaning command.now) result (S.faults store.old) (S.faults store.new) (S.files store.old) (S.files store.new) }
{
    match command.obey(alloc, store) {
        Ok(finished) => Ending {
            status: status_when(finished.held),
            text: EndingText::Made(finished.text),
            store_failed: false,
        },
        Err(stop) => ending_of(alloc, &stop),
    }
}

/// Creates the ending for words that are not accepted: the line of the usage, or that of memory if it ran out.
pub fn misused(alloc: Global) -> Ending
    ensures { IsMisused result }
{
    match usage_text(alloc) {
        Ok(text) => Ending {
            status: Status::Usage,
            text: EndingText::Made(text),
            store_failed: false,
        },
        Err(_) => Ending {
            status: Status::OutOfMemory,
            text: EndingText::NoMemory,
            store_failed: false,
        },
    }
}

/// Creates the ending for memory that ran out before there was a command.
pub fn no_memory() -> Ending
    ensures { IsNoMemory result }
{
    Ending {
        status: Status::OutOfMemory,
        text: EndingText::NoMemory,
        store_failed: false,
    }
}

// Returns the status of a run: a fault of the sink replaces every status, if the store did not fail.
fn sink_failed(status: Status, store_failed: bool) -> Status
    ensures { result ≡ sink_failed status store_failed }
{
    if store_failed {
        status
    } else {
        Status::SinkFault
    }
}

// Gives a text to the sink, in one write.
fn write_text<K: Sink>(status: Status, store_failed: bool, text: &[u8], out: &mut K) -> Status
    requires { K.faults out.old < 2 ^ 60 }
    ensures { Says status store_failed text.now result (K.faults out.old) (K.faults out.new) (K.written out.old) (K.written out.new) }
{
    match out.write(text) {
        Ok(()) => status,
        Err(WriteError::Failed) => sink_failed(status, store_failed),
        Err(WriteError::OutOfMemory) => Status::OutOfMemory,
    }
}

/// Gives the text to the sink, in one write, and returns the status of the run.
pub fn say<K: Sink>(ending: &Ending, out: &mut K) -> Status
    requires { K.faults out.old < 2 ^ 60 }
    ensures { Says ending.now.status ending.now.store_failed ending.now.text result (K.faults out.old) (K.faults out.new) (K.written out.old) (K.written out.new) }
{
    let text = ending.text.bytes();
    write_text(ending.status, ending.store_failed, text, out)
}
