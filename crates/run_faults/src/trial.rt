ghost use Rattle.std.specs.Prelude.{◌≡◌, IfOk};

use interlaken::{Status, run};
use lk_base::OutOfMemory;
use lk_outside::{MemSink, MemStore};
use pcap_files::{write_header, write_packet};
use std::alloc::{AllocError, Global};

/// The files that are there before.
pub const INPUTS: [&str; 7] = ["p.plan", "a.pcap", "b.pcap", "f", "l", "s", "w.words"];

const PLAN: &[u8] =
    b"lanes,1\nmetaframe,32\nwarmup,4\nchannel,1,a.pcap\nchannel,2,b.pcap\nflow,f\nlocal,l\nschedule,s\nout,o\n";

const FLOW: &[u8] = b"5,81FFFF0000188177\n";

const LOCAL: &[u8] = b"6,2,off\n";

const SCHEDULE: &[u8] = b"skew,0,5\n";

// An idle word.
const WORDS: [u8; 9] = [2, 0x81, 0xFF, 0xFF, 0, 0, 0x18, 0x81, 0x77];

/// A call of the store or of the sink.
#[derive(Clone, Copy, Debug)]
pub enum Call {
    Read,
    Create,
    Append,
    Write,
}

/// How a run ended, and what stands then.
#[derive(Drop)]
pub struct Ended {
    pub status: Status,
    pub store: MemStore,
    pub out: MemSink,
}

// A capture of packets of 300 and of 40 bytes.
fn capture(alloc: Global) -> Result<Vec<u8>, OutOfMemory> {
    let mut capture = Vec::new(alloc);
    write_header(&mut capture, 1)?;
    write_packet(&mut capture, &[7; 300])?;
    write_packet(&mut capture, &[9; 40])?;
    Ok(capture)
}

// Puts the plan with its two captures and its rows, and a words file.
fn fill(store: &mut MemStore, capture: &[u8]) -> Result<(), OutOfMemory>
    ensures { store.new.faults ≡ store.old.faults }
{
    store.put("p.plan", PLAN)?;
    store.put("a.pcap", capture)?;
    store.put("b.pcap", capture)?;
    store.put("f", FLOW)?;
    store.put("l", LOCAL)?;
    store.put("s", SCHEDULE)?;
    store.put("w.words", &WORDS)
}

// The store before a run.
fn store_of(alloc: Global) -> Result<MemStore, OutOfMemory>
    ensures { IfOk result (λ store. store.faults ≡ 0) }
{
    let capture = capture(alloc)?;
    let mut store = MemStore::new(alloc);
    fill(&mut store, &capture)?;
    Ok(store)
}

// Has the call of this kind and number fail, if it is one of the store.
fn fail_call(store: &mut MemStore, call: Call, number: u64) -> Result<(), OutOfMemory>
    ensures { store.new.faults ≡ store.old.faults }
{
    let failing = [number];
    match call {
        Call::Read => store.fail(&failing, &[], &[]),
        Call::Create => store.fail(&[], &failing, &[]),
        Call::Append => store.fail(&[], &[], &failing),
        Call::Write => Ok(()),
    }
}

// The store before a run, where the call of this kind and number is to fail.
fn failing_store(alloc: Global, call: Call, number: u64) -> Result<MemStore, OutOfMemory>
    ensures { IfOk result (λ store. store.faults ≡ 0) }
{
    let mut store = store_of(alloc)?;
    fail_call(&mut store, call, number)?;
    Ok(store)
}

// The sink, where the write of this number is to fail, if the call is a write.
fn failing_sink(alloc: Global, call: Call, number: u64) -> Result<MemSink, OutOfMemory>
    ensures { IfOk result (λ out. out.faults ≡ 0) }
{
    let mut out = MemSink::new(alloc);
    if let Call::Write = call {
        out.fail(&[number])?;
    }
    Ok(out)
}

fn words_of(alloc: Global, texts: [&str; 2]) -> Result<Vec<String>, AllocError> {
    let mut words = Vec::new(alloc);
    for text in texts {
        words.push(String::from_str(alloc, text)?)?;
    }
    Ok(words)
}

// Runs the command of these words.
fn run_over(alloc: Global, words: &[String], mut store: MemStore, mut out: MemSink) -> Ended
    requires store { store.faults ≡ 0 }
    requires out { out.faults ≡ 0 }
{
    let status = run(alloc, words, &mut store, &mut out);
    Ended { status, store, out }
}

/// The command of these words, where no call fails.
pub fn run_whole(alloc: Global, texts: [&str; 2]) -> Result<Ended, OutOfMemory> {
    let words = words_of(alloc, texts)?;
    let store = store_of(alloc)?;
    Ok(run_over(alloc, &words, store, MemSink::new(alloc)))
}

/// The command of these words, where the call of this kind and number fails.
pub fn run_failing(
    alloc: Global,
    texts: [&str; 2],
    call: Call,
    number: u64,
) -> Result<Ended, OutOfMemory> {
    let words = words_of(alloc, texts)?;
    let store = failing_store(alloc, call, number)?;
    let out = failing_sink(alloc, call, number)?;
    Ok(run_over(alloc, &words, store, out))
}
