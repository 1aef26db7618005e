//! What a module and its text, a message, a job and an input hold at most: the one home of these numbers (own rule). Each of the
//! first ten but the room of a copy buffer is refused by td_limits, as X1 at the name of the definition in which it is passed:
//! the first six by count, before names and types are looked at, the last three of them by size. The verifier refuses code past two
//! of the ten; the format of images has numbers of its own.

/// Definitions of a text: X1 `limit definitions`.
pub const MOST_DEFINITIONS: u64 = 4_000;
/// Fields of a struct, of a case or of `default`, and slots of an output record: X1 `limit fields`.
pub const MOST_FIELDS: u64 = 256;
/// Cases of a casetype, where `default` is none: X1 `limit cases`.
pub const MOST_CASES: u64 = 256;
/// Parameters of a struct or casetype: X1 `limit parameters`.
pub const MOST_PARAMETERS: u64 = 16;
/// Nodes of a text up to a definition's end, which are definitions, parameters, fields, cases, items of enums, statements, and
/// nodes of expressions: X1 `limit nodes`.
pub const MOST_NODES: u64 = 60_000;
/// Nodes of one action, which are its statements and the nodes of their expressions: X1 `limit action`. Passes along an action
/// take stack for each statement.
pub const MOST_ACTION_NODES: u64 = 20_000;
/// Cells of a definition: X1 `limit cells`.
pub const MOST_CELLS: u64 = 64;
/// The room of a copy buffer, in bytes.
pub const MOST_ROOM: u64 = 65_536;
/// Definitions within one another: X1 `limit depth`. Routines within one another: rule V3.
pub const MOST_DEPTH: u64 = 32;
/// The weight of a definition, which bounds how many instructions its code has: X1 `limit weight`. Of a routine: rule V6.
pub const MOST_WEIGHT: u64 = 1 << 40;
/// Bytes of a message: of a job's, of a ring's, and of what is written of a value.
pub const MOST_MESSAGE: u64 = 1_048_576;
/// Stores of a run job, and of all guests of a host job: J8.
pub const MOST_STORES: usize = 65_536;
/// Bytes of the input of a command, and of a text that a program for C packs: 4 MiB, else Z1.
pub const MOST_INPUT: usize = 4_194_304;
