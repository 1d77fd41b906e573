//! The reading of accepted words: a command with its arguments.
ghost use Rattle.std.specs.Prelude.{◌≡◌, ℕ, List, map, option_map, is_some, true, false, IfOk, IfErr, string_bytes};
ghost use Rattle.clap.specs.Words.{app_of, kind_of};
ghost use Rattle.clap.specs.declared.builder.command.Command.TheViews.{out-Command as fields_of};
ghost use Rattle.command_words.specs.Table.{rows, shown};
ghost use Rattle.command_words.specs.Accepted.{given_in};
ghost use Rattle.command_words.specs.CommandLine.{line_of, words_of};
ghost use Rattle.command_words.specs.Parser.{file_app, number_app, row_app, bare_app, program_app, IsReadAs};

use crate::table::{Row, Rule, rows};
use clap::error::ErrorKind;
use clap::{Arg, ArgMatches, Command, Error};
use lk_base::OutOfMemory;
use std::alloc::{AllocError, Global};

/// A command with its arguments.
#[derive(Clone, Copy)]
pub struct CommandLine<'w> {
    /// The command's word.
    pub command: &'w str,
    /// A number, where one is given.
    pub number: Option<&'w str>,
    /// A file, or the prefix of files.
    pub file: &'w str,
}

/// Two or three words as a command with its arguments.
pub fn line_of<'w>(words: &'w [String]) -> Option<CommandLine<'w>>
    ensures { option_map words_of result ≡ line_of (map string_bytes words.now) }
{
    match words {
        [command, file] => Some(CommandLine {
            command: command.as_str(),
            number: None,
            file: file.as_str(),
        }),
        [command, number, file] => Some(CommandLine {
            command: command.as_str(),
            number: Some(number.as_str()),
            file: file.as_str(),
        }),
        _ => None,
    }
}

// A command of this name that takes one file.
fn file_command<'w>(alloc: Global, name: &'w str) -> Result<Command<'w>, AllocError>
    ensures shape { IfOk result (λ c. app_of c ≡ file_app name.entry.now) }
    ensures local { IfOk result (λ c. (fields_of c).has_globals ≡ false) }
{
    let file = Arg::new(alloc, "file").required(true);
    Command::new(alloc, name).arg(file)
}

// A command of this name that takes a number and a prefix of files.
fn number_command<'w>(alloc: Global, name: &'w str) -> Result<Command<'w>, AllocError>
    ensures shape { IfOk result (λ c. app_of c ≡ number_app name.entry.now) }
    ensures local { IfOk result (λ c. (fields_of c).has_globals ≡ false) }
{
    let number = Arg::new(alloc, "number").required(true);
    let file = Arg::new(alloc, "file").required(true);
    Command::new(alloc, name).arg(number)?.arg(file)
}

// The command of a row.
fn row_command<'w>(alloc: Global, row: &Row) -> Result<Command<'w>, AllocError>
    ensures shape { IfOk result (λ c. app_of c ≡ row_app (shown row.now)) }
    ensures local { IfOk result (λ c. (fields_of c).has_globals ≡ false) }
{
    match row.rule {
        Rule::File => file_command(alloc, row.word),
        Rule::NumberAndPrefix => number_command(alloc, row.word),
    }
}

// The program before its commands. No word calls for help: the line of the usage stands for it.
fn bare_program<'w>(alloc: Global) -> Command<'w>
    ensures { app_of result ≡ bare_app }
{
    Command::new(alloc, "interlaken")
        .no_binary_name(true)
        .disable_help_flag(true)
        .disable_help_subcommand(true)
        .subcommand_required(true)
}

// The program with the commands of a table.
fn program<'w>(alloc: Global, table: &[Row]) -> Result<Command<'w>, AllocError>
    ensures { IfOk result (λ c. app_of c ≡ program_app bare_app (map shown table.now)) }
{
    let mut program = bare_program(alloc);
    for i in 0..table.len() {
        let command = row_command(alloc, &table[i])?;
        program = program.subcommand(command)?;
    }
    Ok(program)
}

// What is found in accepted words. They are refused only where memory runs out.
fn matches_of<'w>(alloc: Global, words: &'w [String]) -> Result<ArgMatches<'w>, Error>
    requires { is_some (given_in (map string_bytes words.now)) ≡ true }
    ensures read { IfOk result (IsReadAs (map string_bytes words.now)) }
    ensures memory { IfErr result (λ e. kind_of e ≡ ErrorKind.OutOfMemory) }
{
    program(alloc, rows())?.try_get_matches_from(words)
}

// The words that were found.
fn found_in<'w>(matches: &ArgMatches<'w>) -> CommandLine<'w>
    requires { (words : List (List ℕ)) × IsReadAs words matches.now }
    ensures { IsReadAs (words_of result) matches.now }
{
    let (command, inner) = matches.subcommand().unwrap();
    let number = inner.get_str("number");
    let file = inner.get_str("file").unwrap();
    CommandLine {
        command,
        number,
        file,
    }
}

/// Accepted words, read as a command with its arguments.
///
/// `OutOfMemory` where memory ran out, and nowhere else.
pub fn read_line<'w>(alloc: Global, words: &'w [String]) -> Result<CommandLine<'w>, OutOfMemory>
    requires { is_some (given_in (map string_bytes words.now)) ≡ true }
    ensures { IfOk result (λ line. map string_bytes words.now ≡ words_of line) }
{
    match matches_of(alloc, words) {
        Ok(matches) => Ok(found_in(&matches)),
        Err(error) => match error.kind() {
            ErrorKind::OutOfMemory => Err(OutOfMemory),
            // The words are accepted.
            _ => unreachable!(),
        },
    }
}
