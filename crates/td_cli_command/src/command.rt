//! The commands of the tool, and which one the words of a command line mean.

ghost use Rattle.std.specs.Prelude.{◌≡◌, ◌≢◌, ◌≤◌, ◌↔◌, ℕ, IfOk, IsTrue, MatchOption, MatchResult, None, decimal, false, map, option_map, string_bytes};
ghost use Rattle.clap.specs.Words.{app_of, kind_of, shape_of, subcommand_rows_of, with_subcommand};
ghost use Rattle.clap.specs.Simple.{new_shape};
ghost use Rattle.clap.specs.declared.builder.command.Command.TheViews.{out-Command};
ghost use Rattle.td_cli_command.specs.Command.{Is, IsNamed, Means, MeansNone, bench, command_app};

use clap::error::ErrorKind;
use clap::{Arg, ArgAction, ArgMatches};
use itoa::Buffer;
use std::alloc::{AllocError, Global};

/// What is to be done with an input that is read, without waiting for anybody.
#[derive(Clone, Copy, PartialEq, Eq)]
pub enum Reading {
    /// Tells whether a module text is accepted, and what it has.
    Check,
    /// Writes the canonical text of a module text that is accepted.
    Tidy,
    /// Validates the message of a job by its module, while others store to its words, and reports it.
    Run,
    /// Writes the listing of the code of a module text that is accepted.
    Code,
    /// Writes the image of the code of a module text that is accepted.
    Pack,
}

/// What the tool is to do.
#[derive(Clone, Copy, PartialEq, Eq)]
pub enum Command {
    /// Answers an input, alone.
    Read(Reading),
    /// Serves the posts of a job's guests by its module, while they go on storing, and reports the replies.
    Host,
    /// Runs so many messages of the generator, and tells how many were accepted, up to which bytes, and by how many loads.
    Bench(u32),
}

/// The most messages that `bench` runs.
pub const MOST_MESSAGES: u32 = 10_000;

/// How many words a command line of `bench` has: the program, the command and the number.
const BENCH_WORDS: usize = 3;

// Whether the text is this number in decimal digits, without a sign or a leading zero.
fn is_written(text: &str, number: u32) -> bool
    ensures { IsTrue result ↔ (text.now ≡ decimal number) }
{
    let mut digits = Buffer::new();
    digits.format(number) == text
}

// This number, where the text is it and `bench` takes it.
fn messages_in(text: &str, number: u32) -> Option<u32>
    ensures { MatchOption result
        (text.now ≡ decimal number → 1 ≤ number → number ≤ MOST_MESSAGES → ⊥)
        (λ n. (text.now ≡ decimal n) × (1 ≤ n) × (n ≤ MOST_MESSAGES)) }
{
    if number < 1 || number > MOST_MESSAGES {
        None
    } else if is_written(text, number) {
        Some(number)
    } else {
        None
    }
}

// The number of messages that is written as this text: 1 to 10,000, in decimal digits without a sign or a leading zero.
fn messages_of(text: &str) -> Option<u32>
    ensures { MatchOption result
        ((n : ℕ) → text.now ≡ decimal n → 1 ≤ n → n ≤ MOST_MESSAGES → ⊥)
        (λ n. (text.now ≡ decimal n) × (1 ≤ n) × (n ≤ MOST_MESSAGES)) }
{
    match text.parse::<u32>() {
        Ok(number) => messages_in(text, number),
        Err(_) => None,
    }
}

// The number of messages in so many words with these matches, where they are those of `bench`.
fn number_of(matches: &ArgMatches, count: usize) -> Option<u32>
    ensures { MatchOption result
        ((n : ℕ) → Is count (subcommand_rows_of matches.now) (Command.Bench n) → ⊥)
        (λ n. Is count (subcommand_rows_of matches.now) (Command.Bench n)) }
{
    if count != BENCH_WORDS {
        return None;
    }
    match matches.subcommand_matches("bench") {
        Some(own) => match own.get_str("N") {
            Some(text) => messages_of(text),
            None => None,
        },
        None => None,
    }
}

// The command of this name, where there is a name; `bench` with this number of messages, where there is one.
fn named_command(name: Option<&str>, number: Option<u32>) -> Option<Command>
    ensures { IsNamed (option_map (λ text. text.now) name.entry) number result }
{
    match name {
        Some("check") => Some(Command::Read(Reading::Check)),
        Some("tidy") => Some(Command::Read(Reading::Tidy)),
        Some("run") => Some(Command::Read(Reading::Run)),
        Some("host") => Some(Command::Host),
        Some("code") => Some(Command::Read(Reading::Code)),
        Some("pack") => Some(Command::Read(Reading::Pack)),
        Some("bench") => match number {
            Some(number) => Some(Command::Bench(number)),
            None => None,
        },
        _ => None,
    }
}

// The command line with one more command, behind whose name no word stands.
fn with_command<'a>(
    alloc: Global,
    tool: clap::Command<'a>,
    name: &'a str,
) -> Result<clap::Command<'a>, AllocError>
    ensures { IfOk result (λ c. app_of c ≡ with_subcommand (app_of tool.entry) (new_shape name.entry.now)) }
{
    let command = clap::Command::new(alloc, name);
    let made = tool.subcommand(command)?;
    Ok(made)
}

// The command `bench`, behind which one word stands.
fn bench_command<'a>(alloc: Global) -> Result<clap::Command<'a>, AllocError>
    ensures shape { IfOk result (λ c. shape_of c ≡ bench) }
    ensures local { IfOk result (λ c. (out-Command c).has_globals ≡ false) }
{
    let number = Arg::new(alloc, "N");
    let number = number.required(true).action(ArgAction::Set);
    let command = clap::Command::new(alloc, "bench");
    let made = command.arg(number)?;
    Ok(made)
}

// The command line as `clap` knows it.
fn command_app<'a>(alloc: Global) -> Result<clap::Command<'a>, AllocError>
    ensures { IfOk result (λ c. app_of c ≡ command_app) }
{
    let tool = clap::Command::new(alloc, "td");
    let tool = with_command(alloc, tool, "check")?;
    let tool = with_command(alloc, tool, "tidy")?;
    let tool = with_command(alloc, tool, "run")?;
    let tool = with_command(alloc, tool, "host")?;
    let tool = with_command(alloc, tool, "code")?;
    let tool = with_command(alloc, tool, "pack")?;
    let bench = bench_command(alloc)?;
    let tool = tool.subcommand(bench)?;
    Ok(tool.subcommand_required(true))
}

// What words mean over which there is an error: no command, unless it says that there was no memory. Takes no memory.
fn meant_by(error: &clap::Error) -> Result<Option<Command>, AllocError>
    ensures { MatchResult result
        (λ found. (found ≡ None) × (kind_of error.now ≢ ErrorKind.OutOfMemory))
        (λ _. kind_of error.now ≡ ErrorKind.OutOfMemory) }
{
    match error.kind() {
        ErrorKind::OutOfMemory => Err(AllocError),
        _ => Ok(None),
    }
}

/// The command that the words mean, the program's name first. None: they mean none. `AllocError`: there was no memory.
pub fn command_of(alloc: Global, words: &[String]) -> Result<Option<Command>, AllocError>
    ensures { IfOk result (λ found. MatchOption found (MeansNone (map string_bytes words.now)) (Means (map string_bytes words.now))) }
{
    let tool = command_app(alloc)?;
    match tool.try_get_matches_from(words) {
        Ok(matches) => {
            let number = number_of(&matches, words.len());
            Ok(named_command(matches.subcommand_name(), number))
        }
        Err(error) => meant_by(&error),
    }
}
