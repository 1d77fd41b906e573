//! Runs commands over a store in memory. Fails each read, create and append of each of them in turn, and its one write, and prints
//! how many bytes the outputs have then, and what was printed; or which file is no prefix of what it would hold.
#![tactic(auto)]

mod trial;

use interlaken::number;
use lk_outside::MemStore;
use std::io;
use trial::{Call, Ended, INPUTS, run_failing, run_whole};

// No command of this program makes more calls of a kind.
const MOST: u64 = 100;

const OUTPUTS_OF_LINK: [&str; 4] = ["o.lane.0", "o.1.pcap", "o.2.pcap", "o.spans.csv"];

const OUTPUTS_OF_BURST: [&str; 1] = ["o.words"];

const OUTPUTS_OF_JOIN: [&str; 2] = ["w.words.0.pcap", "w.words.spans.csv"];

// Whether a file is there with a prefix of its whole content, or is not there.
fn is_prefix(file: Option<&[u8]>, whole: Option<&[u8]>) -> bool {
    match (file, whole) {
        (Some(file), Some(whole)) => whole.starts_with(file),
        (Some(_), None) => false,
        (None, _) => true,
    }
}

// Whether a file is as it is in another store.
fn is_same(file: Option<&[u8]>, other: Option<&[u8]>) -> bool {
    match (file, other) {
        (Some(file), Some(other)) => file == other,
        (None, None) => true,
        _ => false,
    }
}

// The first file that is not as it has to be: an output that is no prefix of what the command without a fault leaves, or an
// input that was changed.
fn wrong_file(
    store: &MemStore,
    whole: &MemStore,
    outputs: &[&'static str],
) -> Option<&'static str> {
    for name in outputs {
        if !is_prefix(store.get(*name), whole.get(*name)) {
            return Some(*name);
        }
    }
    for name in INPUTS {
        if !is_same(store.get(name), whole.get(name)) {
            return Some(name);
        }
    }
    None
}

// Prints the bytes of an output.
fn print_length(rt: &HostRuntime, file: Option<&[u8]>) -> io::Result<()> {
    match file {
        Some(bytes) => print!(rt; " {}", bytes.len()),
        None => print!(rt; " -"),
    }
}

// Prints how a run ended.
fn print_ended(rt: &HostRuntime, ended: &Ended, outputs: &[&'static str]) -> io::Result<()> {
    print!(rt; "status {}, bytes", number(ended.status))?;
    for name in outputs {
        print_length(rt, ended.store.get(*name))?;
    }
    print!(rt; ", ")?;
    match str::from_utf8(ended.out.written()) {
        Ok("") => println!(rt; "no text"),
        Ok(text) => print!(rt; "{text}"),
        Err(_) => println!(rt; "no UTF-8"),
    }
}

// Prints what came of a run one of whose calls was to fail, and whether that call was made.
fn print_failed(
    rt: &HostRuntime,
    call: (Call, u64),
    ended: &Ended,
    whole: &Ended,
    outputs: &[&'static str],
) -> io::Result<bool> {
    if ended.status == whole.status {
        println!(rt; "{:?}: calls {}", call.0, call.1)?;
        return Ok(false);
    }
    print!(rt; "{:?} {}: ", call.0, call.1)?;
    print_ended(rt, ended, outputs)?;
    if let Some(name) = wrong_file(&ended.store, &whole.store, outputs) {
        println!(rt; "not as it has to be: {name}")?;
    }
    Ok(true)
}

// Fails one call, and answers whether it was made.
fn fail_one(
    rt: &HostRuntime,
    words: [&str; 2],
    call: (Call, u64),
    whole: &Ended,
    outputs: &[&'static str],
) -> io::Result<bool> {
    let Ok(ended) = run_failing(rt.alloc(), words, call.0, call.1) else {
        println!(rt; "no memory")?;
        return Ok(false);
    };
    print_failed(rt, call, &ended, whole, outputs)
}

// Fails the calls of a kind in turn, until one is not made.
fn fail_each(
    rt: &HostRuntime,
    words: [&str; 2],
    call: Call,
    whole: &Ended,
    outputs: &[&'static str],
) -> io::Result<()> {
    for at in 0..MOST {
        if !fail_one(rt, words, (call, at), whole, outputs)? {
            return Ok(());
        }
    }
    println!(rt; "{call:?}: no end")
}

// Prints how a command ended, and then how it ends where one of its calls fails.
fn print_trials(
    rt: &HostRuntime,
    words: [&str; 2],
    whole: &Ended,
    outputs: &[&'static str],
) -> io::Result<()> {
    println!(rt; "{} {}", words[0], words[1])?;
    print_ended(rt, whole, outputs)?;
    for call in [Call::Read, Call::Create, Call::Append, Call::Write] {
        fail_each(rt, words, call, whole, outputs)?;
    }
    Ok(())
}

// Runs a command, and then again for each of its calls, which fails.
fn try_command(rt: &HostRuntime, words: [&str; 2], outputs: &[&'static str]) -> io::Result<()> {
    let Ok(whole) = run_whole(rt.alloc(), words) else {
        return println!(rt; "no memory");
    };
    print_trials(rt, words, &whole, outputs)
}

fn main(rt: HostRuntime) -> io::Result<()> {
    try_command(&rt, ["link", "p.plan"], &OUTPUTS_OF_LINK)?;
    try_command(&rt, ["burst", "p.plan"], &OUTPUTS_OF_BURST)?;
    try_command(&rt, ["join", "w.words"], &OUTPUTS_OF_JOIN)
}
