//! The calls of `oob_flow`.
ghost use Rattle.std.specs.Prelude.{◌≡◌, ◌∷◌, ◌<◌, ◌≤◌, [], ℕ, Bool, List, OnOk};
ghost use Rattle.oob_flow.specs.Receiving.{StandsIn};
ghost use Rattle.oob_flow.specs.Sending.{StandsOut};

use crate::values::tell_value;
use arrayvec::ArrayVec;
use lk_base::OutOfMemory;
use oob_flow::{FrameWriter, OobIn, OobOut, bad_sample};
use std::alloc::Global;
use std::io;
use stream_model::LocalRow;

// Appends the next samples.
fn append_samples(out: &mut OobOut, count: u32, samples: &mut Vec<u8>) -> Result<(), OutOfMemory>
    requires { (entries : List ℕ) × (states : ℕ → Bool) × (shown : List Bool) × (given : ℕ) × StandsOut out.old entries states shown given }
    ensures { (entries : List ℕ) × (states : ℕ → Bool) × (shown : List Bool) × (given : ℕ) × StandsOut out.new entries states shown given }
{
    for _sample in 0..count {
        samples.push(out.sample())?;
    }
    Ok(())
}

// Two frames of channel 1, which is turned off within the first.
fn turned_off_within(alloc: Global) -> Result<Vec<u8>, OutOfMemory> {
    let mut samples = Vec::new(alloc);
    let mut out = OobOut::new(alloc, &[1])?;
    append_samples(&mut out, 6, &mut samples)?;
    out.set(1, false);
    append_samples(&mut out, 14, &mut samples)?;
    Ok(samples)
}

// A frame of the channels 1 and 2, of which 2 is off.
fn second_off(alloc: Global) -> Result<Vec<u8>, OutOfMemory> {
    let mut samples = Vec::new(alloc);
    let mut out = OobOut::new(alloc, &[1, 2])?;
    out.set(2, false);
    append_samples(&mut out, 12, &mut samples)?;
    Ok(samples)
}

// The frames of channel 1 by this local row, whether each is the last, and how many samples were given.
fn written(alloc: Global, row: LocalRow) -> Result<(Vec<u8>, bool, bool, u64), OutOfMemory> {
    let mut samples = Vec::new(alloc);
    let local = [row];
    let mut writer = FrameWriter::new(alloc, &[1])?;
    let first = writer.next(&local, &mut samples)?;
    let second = writer.next(&local, &mut samples)?;
    let given = writer.given();
    Ok((samples, first, second, given))
}

// The rows of samples for a calendar of this many entries: the number of a sample, and the words that it gives.
fn tell_rows(rt: &HostRuntime, name: &str, entries: u32, samples: &[u8]) -> io::Result<()>
    requires low { 1 ≤ entries }
    requires high { entries ≤ 1024 }
{
    let mut reader = OobIn::new(entries);
    for (number, sample) in samples.iter().enumerate() {
        let mut words = ArrayVec::new();
        reader.sample(*sample % 8, &mut words);
        for word in words.as_slice() {
            println!(rt; "{name}: {number} {word:016X}")?;
        }
    }
    Ok(())
}

fn tell_read(rt: &HostRuntime) -> io::Result<()> {
    tell_rows(
        rt,
        "a frame of two entries",
        2,
        &[6, 7, 0, 1, 0, 1, 0, 1, 0, 1, 0, 1],
    )?;
    tell_rows(
        rt,
        "one with a wrong checksum",
        2,
        &[6, 7, 0, 1, 0, 1, 0, 1, 0, 1, 0, 3],
    )?;
    tell_rows(
        rt,
        "two frames of one entry",
        1,
        &[6, 7, 0, 1, 0, 1, 0, 1, 2, 3, 4, 5, 0, 1, 0, 1, 2, 3, 0, 1],
    )
}

/// Prints samples that are made, the rows that samples give, and the least byte that is no sample.
pub fn tell_all(rt: &HostRuntime) -> io::Result<()> {
    tell_value(rt, "channel 2 of two is off", &second_off(rt.alloc()))?;
    tell_value(
        rt,
        "channel 1 is turned off within a frame",
        &turned_off_within(rt.alloc()),
    )?;
    let row = LocalRow {
        slot: 5,
        channel: 1,
        on: false,
    };
    tell_value(rt, "the frames of a local row", &written(rt.alloc(), row))?;
    tell_read(rt)?;
    tell_value(rt, "a byte that is no sample", &bad_sample(&[6, 7, 9, 8]))?;
    tell_value(rt, "samples alone", &bad_sample(&[6, 7, 0, 1]))
}
