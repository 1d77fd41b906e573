//! Prints what calls came to: a text, or that a call found no memory.
use lk_base::OutOfMemory;
use std::io;

/// Prints that a call found no memory, in one line after its name.
///
/// # Errors
///
/// What printing gave.
pub fn tell_no_memory(rt: &impl Print, name: &str) -> io::Result<()> {
    println!(rt; "{name}: out of memory")
}

/// Prints what calls came to, in one line after a name.
///
/// # Errors
///
/// What printing gave.
pub fn tell(rt: &impl Print, name: &str, text: Result<String, OutOfMemory>) -> io::Result<()> {
    match text {
        Ok(text) => println!(rt; "{name}: {text}"),
        Err(_) => tell_no_memory(rt, name),
    }
}
