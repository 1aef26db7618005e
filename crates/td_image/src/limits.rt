//! The numbers of the format of images: those of version 4 and, where they differ, of the versions before it (own rule).
//! docs/language/images.md has the whole format. They are the versions' own: an image of a version keeps them whatever the
//! limits of a module become, which stand in td_core.

/// The first four bytes as a number, the byte of least weight first: `54 44 33 49`, in ASCII `TD3I`.
pub const MAGIC: u32 = 1_228_096_596;
/// The newest version, in which code is written that has an instruction of its kinds.
pub const VERSION: u16 = 4;
/// The version before it, in which other code is written.
pub const THIRD_VERSION: u16 = 3;
/// The second version, which is read too.
pub const SECOND_VERSION: u16 = 2;
/// The first version, which is read too.
pub const FIRST_VERSION: u16 = 1;
/// Rows at most of each table but that of instructions.
pub const MOST_ROWS: usize = 1_048_576;
/// The same in version 1.
pub const FIRST_ROWS: usize = 65_536;
/// Instructions at most.
pub const MOST_INSTRUCTIONS: u32 = 4_194_304;
/// The same in version 1.
pub const FIRST_INSTRUCTIONS: u32 = 1_048_576;
/// Cells at most of a routine.
pub const MOST_CELLS: u16 = 64;
/// Copy buffers at most of a routine.
pub const MOST_BUFFERS: u16 = 16;
/// Bytes at most that a copy buffer has room for.
pub const MOST_ROOM: u32 = 65_536;
/// Numbers at most in a cell map: of cells and of buffers.
pub const MOST_MAPPED: usize = 80;
/// The same before version 3: of cells alone.
pub const SECOND_MAPPED: usize = 64;
/// Numbers at most in all sets together.
pub const MOST_NUMBERS: usize = 1_048_576;
/// The same in version 1.
pub const FIRST_NUMBERS: usize = 65_536;
/// Parameters at most of a routine.
pub const MOST_PARAMETERS: u16 = 16;
/// Registers at most of a routine.
pub const MOST_REGISTERS: u16 = 65_535;
/// What stands in place of a field's name where a cell isn't one of a record.
pub const NO_FIELD: u32 = 4_294_967_295;
/// The greatest number of a kind of instruction.
pub const LAST_KIND: u8 = 27;
/// The same in version 3.
pub const THIRD_KIND: u8 = 26;
/// The same before version 3.
pub const SECOND_KIND: u8 = 25;
