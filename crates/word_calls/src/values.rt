//! Prints what calls gave, by kind.
use lk_base::RxWord;
use std::fmt::Debug;
use std::io;

/// Prints what a call gave, as its `Debug` writes it, in one line after a name.
///
/// # Errors
///
/// What printing gave.
pub fn tell_value<T: Debug>(rt: &impl Print, name: &str, given: &T) -> io::Result<()> {
    println!(rt; "{name}: {given:?}")
}

/// Prints what calls gave, each in one line after its name.
///
/// # Errors
///
/// What printing gave; later lines are then left out.
pub fn tell_each<T: Debug>(rt: &impl Print, rows: &[(&str, T)]) -> io::Result<()> {
    for row in rows {
        tell_value(rt, row.0, &row.1)?;
    }
    Ok(())
}

/// Prints numbers in hexadecimal digits, each in one line after its name.
///
/// # Errors
///
/// What printing gave; later lines are then left out.
pub fn tell_numbers(rt: &impl Print, rows: &[(&str, u128)]) -> io::Result<()> {
    for row in rows {
        println!(rt; "{}: {:X}", row.0, row.1)?;
    }
    Ok(())
}

// What a word is called, and its number.
fn shown(word: Option<RxWord>) -> (&'static str, u64) {
    match word {
        Some(RxWord::Data(x)) => ("data", x),
        Some(RxWord::Control(x)) => ("control", x),
        Some(RxWord::Bad) => ("bad", 0),
        None => ("none", 0),
    }
}

/// Prints a word, by its kind and its number, in one line after a name.
///
/// # Errors
///
/// What printing gave.
pub fn tell_word(rt: &impl Print, name: &str, word: Option<RxWord>) -> io::Result<()> {
    let (kind, number) = shown(word);
    println!(rt; "{name}: {kind} {number:016X}")
}

/// Prints words, each in one line after its name.
///
/// # Errors
///
/// What printing gave; later lines are then left out.
pub fn tell_words(rt: &impl Print, rows: &[(&str, Option<RxWord>)]) -> io::Result<()> {
    for row in rows {
        tell_word(rt, row.0, row.1)?;
    }
    Ok(())
}
