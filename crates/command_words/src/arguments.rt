//! The arguments of a command, by its rule.
ghost use Rattle.std.specs.Prelude.{◌≡◌};
ghost use Rattle.command_words.specs.Arguments.{is_name, file_in, prefix_in, number_and_prefix_in, arguments_of, number_of_word};
ghost use Rattle.command_words.specs.CommandLine.{arguments_in};

use crate::command_line::CommandLine;
use crate::digits::number_of_word;
use crate::table::Rule;
use std::marker::Model;

// The most bytes of a file's name, and of a prefix of names.
const FILE_NAME: usize = 255;

const PREFIX: usize = 180;

/// The arguments of a command.
#[derive(Drop)]
pub struct Arguments<'w> {
    /// The number, 0 where none is asked for.
    pub number: u64,
    /// The file, or the prefix of files.
    pub file: &'w str,
}

impl<'w> Model for Arguments<'w> {
    ghost use Rattle.command_words.specs.Given.{Given};

    ghost Value = { Given };

    ghost view = { λ a. record { number = a.number; file = a.file.now } };
}

// A word that is not empty, does not begin with a dash, and has at most this many bytes.
fn is_name(most: usize, word: &str) -> bool
    ensures { result ≡ is_name most word.now }
{
    let bytes = word.as_bytes();
    0 < bytes.len() && bytes[0] != b'-' && bytes.len() <= most
}

fn file_in<'w>(file: &'w str) -> Option<Arguments<'w>>
    ensures { result ≡ file_in file.now }
{
    if is_name(FILE_NAME, file) {
        Some(Arguments { number: 0, file })
    } else {
        None
    }
}

fn prefix_in<'w>(number: u64, prefix: &'w str) -> Option<Arguments<'w>>
    ensures { result ≡ prefix_in number prefix.now }
{
    if is_name(PREFIX, prefix) {
        Some(Arguments {
            number,
            file: prefix,
        })
    } else {
        None
    }
}

fn number_and_prefix_in<'w>(number: &str, prefix: &'w str) -> Option<Arguments<'w>>
    ensures { result ≡ number_and_prefix_in (number_of_word number.now) prefix.now }
{
    match number_of_word(number) {
        Some(number) => prefix_in(number, prefix),
        None => None,
    }
}

/// The arguments of a command with this rule, where they are accepted.
pub fn arguments_of<'w>(rule: Rule, line: &CommandLine<'w>) -> Option<Arguments<'w>>
    ensures { result ≡ arguments_of rule (arguments_in line.now) }
{
    match (rule, line.number) {
        (Rule::File, None) => file_in(line.file),
        (Rule::NumberAndPrefix, Some(number)) => number_and_prefix_in(number, line.file),
        _ => None,
    }
}
