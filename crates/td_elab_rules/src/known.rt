//! What names stand for where they are written.

use td_core::expressions::Scalar;
use td_core::kind::Kind;
use td_core::module::{CellKind, TypeDef};
use td_names::names::Names;
use td_names::table::Table;
use td_num::items::Items;
use td_num::number::NumberType;
use td_num::text::Text;

/// What a `mutable` parameter points to.
#[derive(Clone, Copy, PartialEq, Eq)]
pub enum CellType {
    /// A cell with a number of this type.
    Number(NumberType),
    /// A cell with a pointer.
    Pointer,
    /// A cell for each slot of this output record, by its place among the records of the text.
    Record(u32),
}

/// A slot of an output record: its name, and the type of the number in it, or none for a pointer.
#[derive(Drop)]
pub struct Slot {
    pub name: Text,
    pub number: Option<NumberType>,
}

/// What a parameter takes: a number that is no wider than this type, cells, or a copy buffer of this room in bytes.
#[derive(Clone, Copy, PartialEq, Eq)]
pub enum Parameter {
    Value(Scalar),
    Cells(CellType),
    Buffer(u32),
}

/// What the name of a definition, a constant or a member of an enum stands for.
#[derive(Clone, Copy, PartialEq, Eq)]
pub enum Meaning {
    /// The value of a `#define`.
    Constant(u64),
    /// The value of a member of an enum.
    Member(u64),
    /// A number type.
    Number(NumberType),
    /// An enum: its base, and the place of its values in the module.
    Enum(NumberType, u32),
    /// A struct or casetype by its place in the module.
    Type(u32),
    /// An output record by its place among the records of the text.
    Record(u32),
}

/// What a parameter, a field or a `var` stands for in its definition.
#[derive(Clone, Copy, PartialEq, Eq)]
pub enum Local {
    /// A number by its level (its place among the values in scope, from 0), its type, and the greatest that it can be.
    Value {
        level: u32,
        scalar: Scalar,
        most: u64,
    },
    /// A field that is no number, enum or bit field.
    Unreadable,
    /// One cell of the definition, by its place, and what is in it.
    Cell(u32, CellType),
    /// Cells for the slots of an output record: the place of the first, and the record.
    Row(u32, u32),
    /// A copy buffer of the definition, by its place among those.
    Buffer(u32),
}

/// What a name stands for. A local hides a definition.
#[derive(Clone, Copy, PartialEq, Eq)]
pub enum Found {
    Nothing,
    Local(Local),
    Global(Meaning),
}

/// What is known before a definition.
#[derive(Drop)]
pub struct Known {
    /// How many definitions there were, of all sorts.
    pub count: u32,
    /// The names of definitions, constants and members.
    pub globals: Table<Meaning>,
    /// The names that parameters, fields, `var`s and slots had.
    pub used: Names,
    /// The slots of each output record.
    pub records: Items<Items<Slot>>,
    /// The parameters of each struct and casetype.
    pub signatures: Items<Items<Parameter>>,
    /// The kind of each struct and casetype.
    pub kinds: Items<Kind>,
    /// The structs and casetypes.
    pub definitions: Items<TypeDef>,
    /// The values of each enum.
    pub listed: Items<Items<u64>>,
    /// The entry points: the places of their definitions.
    pub entries: Items<u32>,
}

/// What is known inside a definition, where an expression stands.
#[derive(Drop)]
pub struct Scope {
    /// The names of parameters, fields and `var`s.
    pub locals: Table<Local>,
    /// How many values are in scope.
    pub levels: u32,
    /// What each cell of the definition holds.
    pub cells: Items<CellKind>,
    /// The room of each copy buffer of the definition, in bytes.
    pub buffers: Items<u32>,
    /// The level of the field's position, inside an action.
    pub start: Option<u32>,
    /// The size of the leading fields, inside a struct.
    pub this: Option<u64>,
}

/// The names that a definition has given so far.
#[derive(Drop)]
pub struct Taken {
    /// Those of parameters and `var`s.
    pub outer: Names,
    /// Those of the fields of the struct, or of the case.
    pub fields: Names,
    /// All of them, those of the fields of other cases too.
    pub all: Names,
}
