//! The calls of the sink of `lk_outside` in memory.
ghost use Rattle.std.specs.Prelude.{◌≡◌};

use crate::lines::tell;
use crate::texts::text_in;
use lk_base::OutOfMemory;
use lk_outside::{MemSink, Sink};
use std::alloc::Global;
use std::io;

// The second write is to fail.
fn write_thrice(alloc: Global, sink: &mut MemSink) -> Result<String, OutOfMemory>
    requires { sink.old.faults ≡ 0 }
{
    sink.fail(&[1])?;
    let first = sink.write(b"ab");
    let second = sink.write(b"cd");
    let third = sink.write(b"ef");
    Ok(format!(in alloc;
        "{first:?}, {second:?}, {third:?}, written {}",
        text_in(sink.written())
    )?)
}

fn three_writes(alloc: Global) -> Result<String, OutOfMemory> {
    let mut sink = MemSink::new(alloc);
    write_thrice(alloc, &mut sink)
}

/// Prints what a sink in memory answers, and what was written to it.
pub fn tell_all(rt: &HostRuntime) -> io::Result<()> {
    tell(rt, "writes of ab, cd and ef", three_writes(rt.alloc()))
}
