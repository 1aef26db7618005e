//! The lines of errors that have a path.

ghost use Rattle.std.specs.Prelude.{◌≡◌, ◌++◌, [], None, Some, flat_map, codes};
ghost use Rattle.td_core.specs.Paths.{indexed};
ghost use Rattle.td_io.specs.States.{Writes};
ghost use Rattle.td_report.specs.ErrorLine.{error_line, after_space};

use crate::error_line::{write_code, write_words};
use crate::pieces::write_pieces;
use itoa::Buffer;
use td_io::{Sink, WriteFault};

fn write_path<E: Sink>(err: &mut E, name: &[u8], index: Option<usize>) -> Result<(), WriteFault>
    ensures { Writes (E.state err.old) (E.state err.new) (after_space (indexed name.now index)) result }
{
    let Some(index) = index else {
        return write_words(err, name);
    };
    let mut buffer = Buffer::new();
    let index = buffer.format(index).as_bytes();
    write_pieces(err, &[b" ", name, b"[", index, b"]"])
}

// Writes the name that stands within what the path goes on from.
fn write_inner<E: Sink>(err: &mut E, name: &[u8], index: Option<usize>) -> Result<(), WriteFault>
    ensures { Writes (E.state err.old) (E.state err.new) (codes "." ++ indexed name.now index) result }
{
    let Some(index) = index else {
        return write_pieces(err, &[b".", name]);
    };
    let mut buffer = Buffer::new();
    let index = buffer.format(index).as_bytes();
    write_pieces(err, &[b".", name, b"[", index, b"]"])
}

/// Writes the line of an error that has a path in place of a place: `error`, its code, and a name, after which stands in
/// brackets the place in a list, from 0, where there is one. Takes no memory.
///
/// `WriteFault`: a write failed. What went out is a prefix of the line.
#[tactic(auto, unfolding(crate::specs::ErrorLine::error_line))]
pub fn path_line<E: Sink>(
    code: &[u8],
    name: &[u8],
    index: Option<usize>,
    err: &mut E,
) -> Result<(), WriteFault>
    ensures { Writes (E.state err.old) (E.state err.new) (error_line [] None code.now (indexed name.now index)) result }
{
    write_code(err, code)?;
    write_path(err, name, index)?;
    write_pieces(err, &[b"\n"])
}

/// Writes the line of an error whose path goes on from an element of a list: `error`, its code, the list's name with the
/// element's place, from 0, in brackets, a dot, and the name within, after which stands in brackets the place in a list,
/// where there is one. Takes no memory.
///
/// `WriteFault`: a write failed. What went out is a prefix of the line.
#[tactic(auto, unfolding(crate::specs::ErrorLine::error_line))]
pub fn inner_path_line<E: Sink>(
    code: &[u8],
    list: &[u8],
    place: usize,
    name: &[u8],
    index: Option<usize>,
    err: &mut E,
) -> Result<(), WriteFault>
    ensures { Writes (E.state err.old) (E.state err.new) (error_line [] None code.now (indexed list.now (Some place) ++ codes "." ++ indexed name.now index)) result }
{
    write_code(err, code)?;
    write_path(err, list, Some(place))?;
    write_inner(err, name, index)?;
    write_pieces(err, &[b"\n"])
}

// Writes a name after a space, which stands there whatever the name.
fn write_name<E: Sink>(err: &mut E, name: &[u8]) -> Result<(), WriteFault>
    ensures { Writes (E.state err.old) (E.state err.new) (codes " " ++ name.now) result }
{
    write_pieces(err, &[b" ", name])
}

// Writes a place in a list, in brackets.
fn write_place<E: Sink>(err: &mut E, place: usize) -> Result<(), WriteFault>
    ensures { Writes (E.state err.old) (E.state err.new) (indexed [] (Some place)) result }
{
    let mut buffer = Buffer::new();
    let place = buffer.format(place).as_bytes();
    write_pieces(err, &[b"[", place, b"]"])
}

// Writes places one after the other, each in brackets.
fn write_places<E: Sink>(err: &mut E, places: &[usize]) -> Result<(), WriteFault>
    ensures { Writes (E.state err.old) (E.state err.new) (flat_map (λ place. indexed [] (Some place)) places.now) result }
{
    for place in places {
        write_place(err, *place)?;
    }
    Ok(())
}

/// Writes the line of an error whose path goes into a value: `error`, its code, a name, after which stands in brackets each
/// place on the way, from 0, and words. Takes no memory.
///
/// `WriteFault`: a write failed. What went out is a prefix of the line.
pub fn value_line<E: Sink>(
    code: &[u8],
    name: &[u8],
    places: &[usize],
    words: &[u8],
    err: &mut E,
) -> Result<(), WriteFault>
    ensures { Writes (E.state err.old) (E.state err.new) (error_line [] None code.now ((name.now ++ flat_map (λ place. indexed [] (Some place)) places.now) ++ codes " " ++ words.now)) result }
{
    write_code(err, code)?;
    write_name(err, name)?;
    write_places(err, places)?;
    write_pieces(err, &[b" ", words, b"\n"])
}
