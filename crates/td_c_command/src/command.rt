//! The commands of `tdc`, and which one the words of a command line mean.

ghost use Rattle.std.specs.Prelude.{◌≡◌, ◌≢◌, ℕ, List, IfOk, MatchOption, MatchResult, None, false, map, option_map, string_bytes};
ghost use Rattle.clap.specs.Words.{app_of, kind_of, shape_of, subcommand_rows_of, with_subcommand};
ghost use Rattle.clap.specs.declared.builder.command.Command.TheViews.{out-Command};
ghost use Rattle.td_c_command.specs.Command.{Fits, Is, IsThe, Means, MeansNone, command_app, named_shape, word_of};

use clap::error::ErrorKind;
use clap::{Arg, ArgAction, ArgMatches};
use std::alloc::{AllocError, Global};
use td_num::text::Text;

/// A file of C.
#[derive(Clone, Copy, PartialEq, Eq)]
pub enum CFile {
    /// What is compiled: the functions.
    Source,
    /// What is included: the declarations.
    Header,
    /// What is compiled for messages in pieces: their functions.
    Parts,
}

/// What `tdc` is to do: to write a file of C, of a module text.
#[derive(Drop)]
pub struct Command {
    /// The file that is written.
    pub file: CFile,
    /// What begins the names of its functions, and of the header. It may be any text: [`is_prefix`](crate::is_prefix) says
    /// whether it can.
    pub prefix: Text,
}

// The file that a word asks for.
fn file_of(word: &str) -> Option<CFile>
    ensures { MatchOption result ((file : CFile) → word.now ≡ word_of file → ⊥) (λ file. word.now ≡ word_of file) }
{
    match word {
        "c" => Some(CFile::Source),
        "header" => Some(CFile::Header),
        "parts" => Some(CFile::Parts),
        _ => None,
    }
}

// The command of a word and the name behind it.
fn command_by(alloc: Global, word: &str, name: Option<&str>) -> Result<Option<Command>, AllocError>
    ensures { IfOk result (IsThe (Fits word.now (option_map (λ text. text.now) name.entry))) }
{
    match file_of(word) {
        Some(file) => match name {
            Some(name) => {
                let prefix = Text::copy_of(alloc, name.as_bytes())?;
                Ok(Some(Command { file, prefix }))
            }
            None => Ok(None),
        },
        None => Ok(None),
    }
}

// The command that was found.
fn command_in(alloc: Global, matches: &ArgMatches) -> Result<Option<Command>, AllocError>
    ensures { IfOk result (IsThe (Is (subcommand_rows_of matches.now))) }
{
    match matches.subcommand() {
        Some((word, own)) => command_by(alloc, word, own.get_str("NAME")),
        None => Ok(None),
    }
}

// A command behind whose word one name stands.
fn named_command<'a>(alloc: Global, word: &'a str) -> Result<clap::Command<'a>, AllocError>
    ensures shape { IfOk result (λ c. shape_of c ≡ named_shape word.entry.now) }
    ensures local { IfOk result (λ c. (out-Command c).has_globals ≡ false) }
{
    let name = Arg::new(alloc, "NAME");
    let name = name.required(true).action(ArgAction::Set);
    let command = clap::Command::new(alloc, word);
    let made = command.arg(name)?;
    Ok(made)
}

// The command line with one more command.
fn with_command<'a>(
    alloc: Global,
    tool: clap::Command<'a>,
    word: &'a str,
) -> Result<clap::Command<'a>, AllocError>
    ensures { IfOk result (λ c. app_of c ≡ with_subcommand (app_of tool.entry) (named_shape word.entry.now)) }
{
    let command = named_command(alloc, word)?;
    let made = tool.subcommand(command)?;
    Ok(made)
}

// The command line as `clap` knows it.
fn command_app<'a>(alloc: Global) -> Result<clap::Command<'a>, AllocError>
    ensures { IfOk result (λ c. app_of c ≡ command_app) }
{
    let tool = clap::Command::new(alloc, "tdc");
    let tool = with_command(alloc, tool, "c")?;
    let tool = with_command(alloc, tool, "header")?;
    let tool = with_command(alloc, tool, "parts")?;
    Ok(tool.subcommand_required(true))
}

// What words mean over which there is an error: no command, unless it says that there was no memory. Takes no memory.
fn meant_by(error: &clap::Error) -> Result<Option<Command>, AllocError>
    ensures { MatchResult result
        (λ found. (found ≡ None) × (kind_of error.now ≢ ErrorKind.OutOfMemory))
        (λ _. kind_of error.now ≡ ErrorKind.OutOfMemory) }
{
    match error.kind() {
        ErrorKind::OutOfMemory => Err(AllocError),
        _ => Ok(None),
    }
}

/// The command that the words mean, the program's name first. None: they mean none. `AllocError`: there was no memory.
pub fn command_of(alloc: Global, words: &[String]) -> Result<Option<Command>, AllocError>
    ensures { IfOk result (λ found. MatchOption found (MeansNone (map string_bytes words.now)) (Means (map string_bytes words.now))) }
{
    let tool = command_app(alloc)?;
    match tool.try_get_matches_from(words) {
        Ok(matches) => command_in(alloc, &matches),
        Err(error) => meant_by(&error),
    }
}
