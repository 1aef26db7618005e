//! The lines of errors.

ghost use Rattle.std.specs.Prelude.{◌≡◌, ◌≤◌, ◌+◌, ◌^◌, ◌<◌, length, take, codes, ◌++◌};
ghost use Rattle.td_io.specs.States.{Writes};
ghost use Rattle.td_report.specs.ErrorLine.{error_line, line_at, column_at, place_words, after_space};

use crate::pieces::write_pieces;
use itoa::Buffer;
use td_io::{Sink, WriteFault};

/// A place in a text: its line, and its byte in the line, both from 1.
#[derive(Clone, Copy, PartialEq, Eq)]
pub struct Position {
    pub line: u64,
    pub column: u64,
}

fn position_at(text: &[u8], at: usize) -> Position
    requires { at ≤ length text.now }
    ensures line { result.line ≡ line_at text.now at }
    ensures column { result.column ≡ column_at text.now at }
{
    let mut line = 1u64;
    let mut column = 1u64;
    for i in 0..at {
        if text[i] == b'\n' {
            line += 1;
            column = 1;
        } else {
            column += 1;
        }
    }
    Position { line, column }
}

// The first bytes of a text, or all of it where it has fewer.
fn first_bytes(text: &[u8], count: u32) -> &[u8]
    ensures { result.now ≡ take count text.now }
{
    match text.get(..count as usize) {
        Some(first) => first,
        None => text,
    }
}

/// The place of a byte of a text, from 0; past the text's end, that of the end. Takes no memory.
pub fn position_of(text: &[u8], at: u32) -> Position
    ensures line { result.line ≡ line_at text.now at }
    ensures column { result.column ≡ column_at text.now at }
{
    let before = first_bytes(text, at);
    position_at(before, before.len())
}

/// The word `error` and a code.
pub(crate) fn write_code<E: Sink>(err: &mut E, code: &[u8]) -> Result<(), WriteFault>
    ensures { Writes (E.state err.old) (E.state err.new) (codes "error " ++ code.now) result }
{
    write_pieces(err, &[b"error ", code])
}

fn write_place<E: Sink>(err: &mut E, text: &[u8], at: Option<u32>) -> Result<(), WriteFault>
    ensures { Writes (E.state err.old) (E.state err.new) (place_words text.now at) result }
{
    let Some(at) = at else {
        return Ok(());
    };
    let position = position_of(text, at);
    let mut line = Buffer::new();
    let mut column = Buffer::new();
    let line = line.format(position.line).as_bytes();
    let column = column.format(position.column).as_bytes();
    write_pieces(err, &[b" ", line, b":", column])
}

/// Words after a space, where there are any.
pub(crate) fn write_words<E: Sink>(err: &mut E, words: &[u8]) -> Result<(), WriteFault>
    ensures { Writes (E.state err.old) (E.state err.new) (after_space words.now) result }
{
    if words.is_empty() {
        return Ok(());
    }
    write_pieces(err, &[b" ", words])
}

/// Writes the line of an error: `error`, its code, the line and the column of the place `at` (a byte of the text, from
/// 0; one past the text's end stands for the end) where there is one, and its words. Takes no memory.
///
/// `WriteFault`: a write failed. What went out is a prefix of the line.
#[tactic(auto, unfolding(crate::specs::ErrorLine::error_line))]
pub fn front_line<E: Sink>(
    text: &[u8],
    at: Option<u32>,
    code: &[u8],
    words: &[u8],
    err: &mut E,
) -> Result<(), WriteFault>
    ensures { Writes (E.state err.old) (E.state err.new) (error_line text.now at code.now words.now) result }
{
    write_code(err, code)?;
    write_place(err, text, at)?;
    write_words(err, words)?;
    write_pieces(err, &[b"\n"])
}
