//! What can be wrong with a job, and where.

ghost use Rattle.std.specs.Prelude.{◌≡◌};
ghost use Rattle.td_core.specs.Paths.{indexed};
ghost use Rattle.td_job.specs.Errors.{rule_code, write_code, key_name, within_bytes, path_bytes, code_of, path_of};
ghost use Rattle.td_job.specs.Parts.{parts_bytes};

use std::alloc::AllocError;
use std::fmt;
use td_num::items::Items;
use td_num::text::Text;
use td_write_values::error::WriteRule;
use thiserror::Error;

/// The name of a field of a run job, of a host job, or of a guest or a ring in one, or of a total over a host job.
#[derive(Clone, Copy)]
pub enum Key {
    /// The name of the entry point.
    Entry,
    /// The values of its parameters.
    Args,
    /// The values that its cells begin with.
    Cells,
    /// The bytes of memory, as hexadecimal digits.
    Bytes,
    /// How many bytes the message has.
    Length,
    /// The stretches of the bytes that are the message.
    Stretches,
    /// The value that is written, whose bytes are the message.
    Value,
    /// What others store to the words, and when; and the total of the stores of all guests.
    Stores,
    /// The bytes that the guests' messages lie in, as hexadecimal digits.
    Buffer,
    /// How many workers validate messages.
    Workers,
    /// The guests.
    Guests,
    /// What a guest does, step by step.
    Script,
    /// The rings in the buffer.
    Rings,
    /// The word at which a ring begins.
    Base,
    /// How many entries it has.
    Entries,
    /// How many bytes a message of it has at most.
    Most,
    /// How often it is looked at.
    Takes,
    /// The module texts that replace one another while messages are validated.
    Swaps,
    /// The total of the posts of all guests.
    Posts,
    /// The total of the words of all messages.
    Words,
    /// The total of the bytes of all copy buffers.
    Copies,
}

impl Key {
    /// The name as a job has it.
    pub fn name(self) -> &'static str
        ensures { result.now ≡ key_name self }
    {
        match self {
            Key::Entry => "entry",
            Key::Args => "args",
            Key::Cells => "cells",
            Key::Bytes => "bytes",
            Key::Length => "length",
            Key::Stretches => "stretches",
            Key::Value => "value",
            Key::Stores => "stores",
            Key::Buffer => "buffer",
            Key::Workers => "workers",
            Key::Guests => "guests",
            Key::Script => "script",
            Key::Rings => "rings",
            Key::Base => "base",
            Key::Entries => "entries",
            Key::Most => "most",
            Key::Takes => "takes",
            Key::Swaps => "swaps",
            Key::Posts => "posts",
            Key::Words => "words",
            Key::Copies => "copies",
        }
    }
}

/// The rule that a job breaks.
#[derive(Clone, Copy, PartialEq, Eq, Debug)]
pub enum JobRule {
    /// The bytes are not JSON.
    NotJson,
    /// A needed field is missing or has another form, a field has an unknown name, or one stands beside a `value`.
    Form,
    /// No entry point has the name.
    NoEntry,
    /// A list is not as long as the entry point asks, or a value doesn't fit its type.
    Values,
    /// A text is not an even number of hexadecimal digits, or a store's is not 16.
    Digits,
    /// A store's word is none of the job's, or of the buffer's.
    NoWord,
    /// The message is longer than the bytes given, a stretch passes their end, the stretches are not as long as the message, or a
    /// post's message or a ring passes the end of the buffer.
    PastBytes,
    /// A limit is passed.
    Limit,
    /// A module text that is to replace another is refused, or lacks the entry point as it is.
    Swap,
    /// The value isn't written.
    Written,
}

impl JobRule {
    /// The code of the rule in error lines.
    pub fn code(self) -> &'static str
        ensures { result.now ≡ rule_code self }
    {
        match self {
            JobRule::NotJson => "J1",
            JobRule::Form => "J2",
            JobRule::NoEntry => "J3",
            JobRule::Values => "J4",
            JobRule::Digits => "J5",
            JobRule::NoWord => "J6",
            JobRule::PastBytes => "J7",
            JobRule::Limit => "J8",
            JobRule::Swap => "J9",
            JobRule::Written => "J10",
        }
    }

    /// The fault of a job that breaks the rule here.
    pub fn at(self, path: Path) -> JobError
        ensures { result ≡ JobError.Fault self path }
    {
        JobError::Fault { rule: self, path }
    }

    /// The fault of a job that breaks the rule at an element of a field's list.
    pub fn at_element(self, key: Key, index: usize) -> JobError
        ensures { result ≡ JobError.Fault self (Path.Element key index) }
    {
        self.at(Path::Element { key, index })
    }
}

/// The code of what is wrong with a value that isn't written, in error lines.
pub fn write_code(rule: WriteRule) -> &'static str
    ensures { result.now ≡ write_code rule }
{
    match rule {
        WriteRule::Shape => "E1",
        WriteRule::Range => "E2",
        WriteRule::Broken(_) => "E3",
        WriteRule::Size => "E4",
        WriteRule::Long => "E5",
    }
}

/// A value inside the value that a job gives, and what is wrong with it.
#[derive(Drop)]
pub struct ValueFault {
    /// The places on the way to it, each from 0, the outermost first.
    pub places: Items<usize>,
    pub rule: WriteRule,
}

impl fmt::Display for ValueFault {
    fn fmt<W: fmt::Write>(&self, f: &mut fmt::Formatter<W>) -> fmt::Result {
        write!(f, "{}", Key::Value.name())?;
        for place in self.places.as_slice() {
            write!(f, "[{place}]")?;
        }
        write!(f, " {}", write_code(self.rule))
    }
}

/// Where a job is at fault.
#[derive(Drop)]
pub enum Path {
    /// The job as a whole.
    Job,
    /// A field.
    Whole(Key),
    /// An element of a field's list, counted from 0.
    Element { key: Key, index: usize },
    /// A field that no job has, by the bytes of its name.
    Unknown(Text),
    /// The script of a guest, by the guest's place in the list of guests, counted from 0.
    Script { guest: usize },
    /// A step of a guest's script, counted from 0.
    Step { guest: usize, index: usize },
    /// A field of a guest that no guest has, by the bytes of its name.
    UnknownOf { guest: usize, name: Text },
    /// A field of a ring, by the ring's place in the list of rings, counted from 0.
    RingField { ring: usize, key: Key },
    /// A field of a ring that no ring has, by the bytes of its name.
    UnknownOfRing { ring: usize, name: Text },
    /// A value inside the field `value`, and what is wrong with it.
    Written(ValueFault),
}

/// An element of a list: the list's name, and the place in it, from 0.
#[derive(Clone, Copy)]
pub struct ListElement<'a> {
    pub list: &'a [u8],
    pub place: usize,
}

/// The path of an error line, in the parts that it is written of.
#[derive(Clone, Copy)]
pub enum PathParts<'a> {
    /// A name, and the place in a list, from 0, which stands after it in brackets, where there is one.
    Name {
        name: &'a [u8],
        index: Option<usize>,
    },
    /// The same, after the element that it goes on from, and a dot.
    Within {
        element: ListElement<'a>,
        name: &'a [u8],
        index: Option<usize>,
    },
    /// A name, places in brackets, and after a blank the code of what is wrong there.
    Inside {
        name: &'a [u8],
        places: &'a [usize],
        code: &'a [u8],
    },
}

impl<'a> PathParts<'a> {
    fn of(name: &'a [u8], index: Option<usize>) -> PathParts<'a>
        ensures { parts_bytes result ≡ indexed name.now index }
    {
        PathParts::Name { name, index }
    }

    fn within(list: Key, place: usize, name: &'a [u8], index: Option<usize>) -> PathParts<'a>
        ensures { parts_bytes result ≡ within_bytes list place (indexed name.now index) }
    {
        let element = ListElement {
            list: list.name().as_bytes(),
            place,
        };
        PathParts::Within {
            element,
            name,
            index,
        }
    }
}

impl Path {
    /// The parts that it is written of. Takes no memory.
    pub fn parts(&self) -> PathParts<'_>
        ensures { parts_bytes result ≡ path_bytes self.now }
    {
        let script = Key::Script.name().as_bytes();
        let guests = Key::Guests;
        let rings = Key::Rings;
        match self {
            Path::Job => PathParts::of(b"job", None),
            Path::Whole(key) => PathParts::of(key.name().as_bytes(), None),
            Path::Element { key, index } => PathParts::of(key.name().as_bytes(), Some(*index)),
            Path::Unknown(name) => PathParts::of(name.as_slice(), None),
            Path::Script { guest } => PathParts::within(guests, *guest, script, None),
            Path::Step { guest, index } => PathParts::within(guests, *guest, script, Some(*index)),
            Path::UnknownOf { guest, name } => PathParts::within(
                guests,
                *guest,
                name.as_slice(),
                None,
            ),
            Path::RingField { ring, key } => PathParts::within(
                rings,
                *ring,
                key.name().as_bytes(),
                None,
            ),
            Path::UnknownOfRing { ring, name } => PathParts::within(
                rings,
                *ring,
                name.as_slice(),
                None,
            ),
            Path::Written(fault) => PathParts::Inside {
                name: Key::Value.name().as_bytes(),
                places: fault.places.as_slice(),
                code: write_code(fault.rule).as_bytes(),
            },
        }
    }
}

/// A name of a field that no job has. A name in JSON is UTF-8, so the mark that stands for any other isn't met.
fn shown(name: &Text) -> &str {
    match str::from_utf8(name.as_slice()) {
        Ok(name) => name,
        Err(_) => "?",
    }
}

impl fmt::Display for Path {
    fn fmt<W: fmt::Write>(&self, f: &mut fmt::Formatter<W>) -> fmt::Result {
        match self {
            Path::Job => write!(f, "job"),
            Path::Whole(key) => write!(f, "{}", key.name()),
            Path::Element { key, index } => write!(f, "{}[{index}]", key.name()),
            Path::Unknown(name) => write!(f, "{}", shown(name)),
            Path::Script { guest } => write!(f, "guests[{guest}].script"),
            Path::Step { guest, index } => write!(f, "guests[{guest}].script[{index}]"),
            Path::UnknownOf { guest, name } => write!(f, "guests[{guest}].{}", shown(name)),
            Path::RingField { ring, key } => write!(f, "rings[{ring}].{}", key.name()),
            Path::UnknownOfRing { ring, name } => write!(f, "rings[{ring}].{}", shown(name)),
            Path::Written(fault) => write!(f, "{fault}"),
        }
    }
}

/// Why there is no job. It prints as its error line does: a code and a path.
#[derive(Drop, Error)]
pub enum JobError {
    /// The text breaks a rule at a place.
    #[error("{} {path}", rule.code())]
    Fault { rule: JobRule, path: Path },
    /// There was no memory to read the job.
    #[error("out of memory")]
    NoMemory,
}

impl fmt::Debug for JobError {
    fn fmt<W: fmt::Write>(&self, f: &mut fmt::Formatter<W>) -> fmt::Result {
        write!(f, "{self}")
    }
}

impl From<AllocError> for JobError {
    ghost use Rattle.td_job.specs.declared.error.JobError.TheVariants.{NoMemory};
    ghost use Rattle.std.specs.Prelude.{◌≡◌};

    ghost from_gives = { λ _ e. e ≡ NoMemory };

    fn from(_refused: AllocError) -> JobError {
        JobError::NoMemory
    }
}

impl JobError {
    /// The code of its error line, such as `J2`. Out of memory has no code, and none is given.
    pub fn code(&self) -> &'static [u8]
        ensures { result.now ≡ code_of self.now }
    {
        match self {
            JobError::Fault { rule, .. } => rule.code().as_bytes(),
            JobError::NoMemory => b"",
        }
    }

    /// The path of its error line, such as `args[3]`, in parts. Takes no memory. Out of memory has no path, and none is
    /// given.
    pub fn path(&self) -> PathParts<'_>
        ensures { parts_bytes result ≡ path_of self.now }
    {
        match self {
            JobError::Fault { path, .. } => path.parts(),
            JobError::NoMemory => PathParts::of(b"", None),
        }
    }
}
