//! The table of instructions: of each kind, by its number, its name and its operands.

ghost use Rattle.std.specs.Prelude.{◌≡◌, map};
ghost use Rattle.td_ir.specs.Opcodes.{row_in, row_of, view, is_same};
ghost use Rattle.td_ir.specs.Opcodes as opcodes;

/// An operand of an instruction, by what it says.
#[derive(Clone, Copy)]
pub enum Operand {
    // Registers.
    /// The register that is written.
    Into,
    /// The register of the first argument of a routine that is called.
    First,
    /// The register that is read.
    Source,
    /// The register on an operator's left side.
    Left,
    /// The register on its right side.
    Right,
    /// The register by which a jump is made or not.
    Test,
    /// The register of a count of bytes.
    Size,
    /// The register of the most bytes up to a zero element.
    Bound,

    // Numbers that stand in the instruction itself, and in no register.
    /// The number of an operator ([`crate::constants`]).
    Operator,
    /// The bit of least weight that is taken.
    Low,
    /// How many bits are taken.
    Count,
    /// The number of a byte order ([`crate::constants`]).
    Order,
    /// How many bytes a number has.
    Width,
    /// The number of a failure's reason.
    Reason,
    /// A number that a register becomes.
    Value,
    /// A constant count of bytes.
    Bytes,
    /// What a size is a multiple of.
    Step,

    // Places in tables and in the code.
    /// A cell of the routine.
    Cell,
    /// A copy buffer of the routine.
    Buffer,
    /// A set, by its number.
    Set,
    /// A routine, by its number.
    Routine,
    /// A cell map, by its number.
    Map,
    /// An instruction, by its place in the whole code.
    Target,
    /// The site that a failure's frame names.
    Site,
}

/// The field of an image in which an operand stands ([`crate::fields::Fields`]).
#[derive(Clone, Copy, PartialEq, Eq)]
pub enum OperandField {
    /// One byte.
    X,
    /// Two bytes.
    A,
    /// Two bytes, behind `A`.
    B,
    /// Two bytes, behind `B`.
    C,
    /// Four bytes.
    T,
    /// Four bytes, behind `T`.
    Site,
    /// Eight bytes.
    K,
}

/// A kind of instruction.
#[derive(Clone, Copy)]
pub struct Opcode {
    /// Its name in a listing.
    pub name: &'static str,
    /// Its operands in the order of the listing.
    pub operands: &'static [Operand],
}

// Rows of the table, each a name and the operands behind it.
macro_rules! rows {
    ($($name:literal $($operand:ident)*;)*) => {
        [$(Opcode { name: $name, operands: &[$(Operand::$operand),*] }),*]
    };
}

/// The kinds of instruction by their numbers, from 0 on.
pub const OPCODES: [Opcode; 28] = rows! {
    "Const" Into Value;
    "Member" Into Source Set;
    "Op" Into Operator Left Right;
    "Bits" Into Source Low Count;
    "Pos" Into;
    "Jump" Target;
    "JumpIf" Test Target;
    "JumpUnless" Test Target;
    "Call" First Routine Map Site;
    "Return";
    "Fetch" Into Order Width Site;
    "SkipK" Bytes Site;
    "Skip" Size Site;
    "Rest";
    "Zeros" Site;
    "Zeroterm" Bound Width Site;
    "NarrowK" Bytes Site;
    "Narrow" Size Site;
    "Divides" Size Step Site;
    "While" Target;
    "Again" Target;
    "Widen" Site;
    "Fail" Reason Site;
    "Get" Into Cell;
    "Set" Source Cell;
    "Mark";
    "Copy" Size Buffer Site;
    "Left" Into;
};

/// What a number that no kind has stands for.
const NONE: Opcode = Opcode {
    name: "",
    operands: &[],
};

// A row of a table, by its number.
fn row_at(rows: &[Opcode], number: u8) -> Opcode
    ensures name { result.name.now ≡ (row_in (map view rows.now) number).name }
    ensures operands { result.operands.now ≡ (row_in (map view rows.now) number).operands }
{
    if (number as usize) < rows.len() {
        rows[number as usize]
    } else {
        NONE
    }
}

/// The kind of a number; of a number that there isn't, one without name and operands.
pub fn opcode_of(number: u8) -> Opcode
    ensures name { result.name.now ≡ (row_of number).name }
    ensures operands { result.operands.now ≡ (row_of number).operands }
{
    row_at(&OPCODES, number)
}

/// The field of an image in which an operand stands.
pub fn field_of(operand: Operand) -> OperandField
    ensures { result ≡ opcodes.field_of operand }
{
    match operand {
        Operand::Operator | Operand::Low | Operand::Order | Operand::Reason => OperandField::X,
        Operand::Into | Operand::First => OperandField::A,
        Operand::Source | Operand::Left | Operand::Test | Operand::Size | Operand::Bound =>
            OperandField::B,
        Operand::Right | Operand::Count | Operand::Width | Operand::Cell | Operand::Buffer =>
            OperandField::C,
        Operand::Set | Operand::Target | Operand::Routine => OperandField::T,
        Operand::Site => OperandField::Site,
        Operand::Value | Operand::Map | Operand::Bytes | Operand::Step => OperandField::K,
    }
}

// Whether an operand stands in a field.
fn stands_in(operand: Operand, field: OperandField) -> bool
    ensures { result ≡ is_same (opcodes.field_of operand) field }
{
    field_of(operand) == field
}

/// Whether the kind of a number has an operand in a field of an image.
pub fn has(number: u8, field: OperandField) -> bool
    ensures { result ≡ opcodes.has number field }
{
    for operand in opcode_of(number).operands {
        if stands_in(*operand, field) {
            return true;
        }
    }
    false
}
