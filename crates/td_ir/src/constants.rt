//! Operators, byte orders and reasons of a failure, which instructions have by their numbers (docs/language/code.md).

/// The sum of two registers, modulo 2^64. The operators of `Op` begin here.
pub const ADD: u8 = 0;
/// The difference, modulo 2^64.
pub const SUB: u8 = 1;
/// The product, modulo 2^64.
pub const MUL: u8 = 2;
/// The quotient, 0 for a zero divisor.
pub const DIV: u8 = 3;
/// The remainder, 0 for a zero divisor.
pub const REM: u8 = 4;
/// Bit by bit.
pub const AND: u8 = 5;
/// Bit by bit.
pub const OR: u8 = 6;
/// Bit by bit.
pub const XOR: u8 = 7;
/// To the left, 0 for amounts of 64 or more.
pub const SHL: u8 = 8;
/// To the right, 0 for amounts of 64 or more.
pub const SHR: u8 = 9;
/// Equal: 1 or 0, as the three that follow.
pub const EQ: u8 = 10;
/// Not equal.
pub const NE: u8 = 11;
/// Less.
pub const LT: u8 = 12;
/// Less or equal.
pub const LE: u8 = 13;
/// The greatest number of an operator.
pub const LAST_OPERATOR: u8 = LE;

/// The byte of least weight first. The orders of `Fetch` begin here.
pub const LITTLE_ENDIAN: u8 = 0;
/// The byte of greatest weight first.
pub const BIG_ENDIAN: u8 = 1;
/// The greatest number of an order.
pub const LAST_ORDER: u8 = BIG_ENDIAN;

/// Fewer bytes are left than asked for. The reasons of `Fail` begin here.
pub const NOT_ENOUGH: u8 = 0;
/// No case of a casetype is the one that is wanted.
pub const IMPOSSIBLE: u8 = 1;
/// A size that its elements don't fill.
pub const LIST_SIZE: u8 = 2;
/// An action that returned false.
pub const ACTION: u8 = 3;
/// A value that isn't one of those allowed.
pub const CONSTRAINT: u8 = 4;
/// A byte that isn't zero where all are to be.
pub const PADDING: u8 = 5;
/// The greatest number of a reason.
pub const LAST_REASON: u8 = PADDING;
