//! Names that share the names of the parts of a text.

ghost use Rattle.std.specs.Prelude.{◌≡◌, ◌≢◌, ◌<◌, ◌≤◌, ◌+◌, ◌-◌, ◌++◌, ℕ, List, ◌↔◌, IsTrue, IfOk, OnErr, MatchOption, length, min, take, drop};
ghost use Rattle.std.specs.Arc.{arc_value};
ghost use Rattle.td_core.specs.FullNames.{name_in};

use std::alloc::{AllocError, Global};
use std::marker::Model;
use std::sync::Arc;
use td_num::text::Text;

/// A name: alone, or in a part of the text, where the part's name and a dot stand before it. A contract sees the list of
/// its bytes. Names in one part share the part's name, so each takes little more memory than its own bytes.
#[derive(Drop)]
pub struct FullName {
    part: Option<Arc<Text, Global>>,
    own: Text,
}

impl Model for FullName {
    ghost use Rattle.std.specs.Prelude.{List, ℕ, option_map};
    ghost use Rattle.std.specs.Arc.{arc_value};
    ghost use Rattle.td_core.specs.FullNames.{full_name};

    ghost Value = { List ℕ };

    ghost view = { λ n. full_name (option_map arc_value n.part) n.own };
}

/// The bytes of a name: these three, one behind the other.
#[derive(Clone, Copy)]
pub struct NamePieces<'a> {
    /// The part's name; none where the name stands alone.
    pub part: &'a [u8],
    /// The dot behind the part's name; none where the name stands alone.
    pub dot: &'a [u8],
    /// The name in the part, or all of a name alone.
    pub own: &'a [u8],
}

impl FullName {
    /// A name alone. Takes no memory.
    pub fn alone(own: Text) -> FullName
        ensures { result ≡ own }
    {
        FullName { part: None, own }
    }

    /// A name in a part: the part's name, a dot and the name there. Takes no memory.
    pub fn joined(part: Arc<Text, Global>, own: Text) -> FullName
        ensures { result ≡ name_in (arc_value part) own }
    {
        FullName {
            part: Some(part),
            own,
        }
    }

    /// An equal name, which shares the part's name. `AllocError`: there was no memory for it, or 2^63 names share the
    /// part's name; never for the name of no bytes.
    pub fn copy(&self, alloc: Global) -> Result<FullName, AllocError>
        ensures ok { IfOk result (λ copied. copied ≡ self.now) }
        ensures memory { OnErr result (0 < length self.now) }
    {
        let own = Text::copy_of(alloc, self.own.as_slice())?;
        match &self.part {
            None => Ok(FullName::alone(own)),
            Some(part) => Ok(FullName::joined(Arc::try_clone(part)?, own)),
        }
    }

    /// The bytes in pieces, for who writes them. Takes no memory.
    pub fn pieces(&self) -> NamePieces<'_>
        ensures { self.now ≡ result.part.now ++ result.dot.now ++ result.own.now }
    {
        match &self.part {
            None => NamePieces {
                part: b"",
                dot: b"",
                own: self.own.as_slice(),
            },
            Some(part) => NamePieces {
                part: part.as_slice(),
                dot: b".",
                own: self.own.as_slice(),
            },
        }
    }

    /// How many bytes the name has.
    pub fn len(&self) -> usize
        ensures { result ≡ length self.now }
    {
        match &self.part {
            None => self.own.as_slice().len(),
            Some(part) => part.as_slice().len() + 1 + self.own.as_slice().len(),
        }
    }

    /// Writes as many of the bytes as there is room for, from the front, and says how many. Takes no memory.
    pub fn write_front(&self, room: &mut [u8]) -> usize
        ensures count { result ≡ min (length self.now) (length room.old) }
        ensures front { take result room.new ≡ take result self.now }
        ensures behind { drop result room.new ≡ drop result room.old }
    {
        let pieces = self.pieces();
        let count = put(room, 0, pieces.part);
        let count = put(room, count, pieces.dot);
        put(room, count, pieces.own)
    }

    /// Whether the name has these bytes. Takes no memory.
    pub fn is(&self, bytes: &[u8]) -> bool
        ensures { IsTrue result ↔ (self.now ≡ bytes.now) }
    {
        match &self.part {
            None => self.own.is(bytes),
            Some(part) => is_joined(part.as_slice(), self.own.as_slice(), bytes),
        }
    }

    /// Whether two names have the same bytes, whichever part they are in. Takes no memory.
    pub fn is_same(&self, other: &FullName) -> bool
        ensures { IsTrue result ↔ (self.now ≡ other.now) }
    {
        let Some(part) = &self.part else {
            return other.is(self.own.as_slice());
        };
        let Some(other_part) = &other.part else {
            return self.is(other.own.as_slice());
        };
        if self.own.as_slice().len() <= other.own.as_slice().len() {
            are_same(
                part.as_slice(),
                self.own.as_slice(),
                other_part.as_slice(),
                other.own.as_slice(),
            )
        } else {
            are_same(
                other_part.as_slice(),
                other.own.as_slice(),
                part.as_slice(),
                self.own.as_slice(),
            )
        }
    }
}

// Copies as many bytes as there is room for, and says how many.
fn copy_front(room: &mut [u8], bytes: &[u8]) -> usize
    ensures count { result ≡ min (length room.old) (length bytes.now) }
    ensures room { room.new ≡ take result bytes.now ++ drop result room.old }
{
    let count = room.len().min(bytes.len());
    let (front, _) = room.split_at_mut(count);
    front.copy_from_slice(&bytes[..count]);
    count
}

// Puts as much of a piece behind the first bytes of a room as fits, and says where it ends.
fn put(room: &mut [u8], at: usize, piece: &[u8]) -> usize
    requires { at ≤ length room.old }
    ensures end { result ≡ min (at + length piece.now) (length room.old) }
    ensures front { take result room.new ≡ take at room.old ++ take (length room.old - at) piece.now }
    ensures behind { drop result room.new ≡ drop result room.old }
{
    let (_, rest) = room.split_at_mut(at);
    at + copy_front(rest, piece)
}

fn is_equal(one: &[u8], other: &[u8]) -> bool
    ensures { IsTrue result ↔ (one.now ≡ other.now) }
{
    one == other
}

// What stands before these last bytes. None: the bytes don't end so.
fn before<'a>(bytes: &'a [u8], last: &[u8]) -> Option<&'a [u8]>
    ensures { MatchOption result ((front : List ℕ) → bytes.now ≢ front ++ last.now) (λ front. bytes.now ≡ front.now ++ last.now) }
{
    if bytes.len() < last.len() {
        return None;
    }
    let (front, behind) = bytes.split_at(bytes.len() - last.len());
    if is_equal(behind, last) {
        Some(front)
    } else {
        None
    }
}

// Whether a part's name, a dot and a name in it are these bytes. Names in one part differ behind its name, so the end is
// looked at first.
fn is_joined(part: &[u8], own: &[u8], bytes: &[u8]) -> bool
    ensures { IsTrue result ↔ (name_in part.now own.now ≡ bytes.now) }
{
    let Some(front) = before(bytes, own) else {
        return false;
    };
    let Some(front) = before(front, b".") else {
        return false;
    };
    is_equal(front, part)
}

// Whether names in two parts have the same bytes, the first one at most as long in its part as the second.
fn are_same(part: &[u8], own: &[u8], other_part: &[u8], other: &[u8]) -> bool
    requires { length own.now ≤ length other.now }
    ensures { IsTrue result ↔ (name_in part.now own.now ≡ name_in other_part.now other.now) }
{
    let Some(front) = before(other, own) else {
        return false;
    };
    if front.is_empty() {
        return is_equal(part, other_part);
    }
    match before(front, b".") {
        Some(front) => is_joined(other_part, front, part),
        None => false,
    }
}
