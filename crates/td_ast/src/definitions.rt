//! Definitions and modules. Each tree has a field for each part of its production that isn't a fixed token, in the
//! production's order, and spans, so that a layer above can name a place.

use crate::expressions::Expr;
use crate::fields::FieldTree;
use crate::names::{ConstTree, Literal, Name, NumberTree, PlainTree};
use crate::parameters::HeadTree;
use crate::token::Span;
use td_num::items::Items;

/// `"#define" NAME NUM`, a constant.
#[derive(Drop)]
pub struct DefineTree {
    pub name: Name,
    pub value: Literal,
}

/// `NAME ["=" const]`, an item of an enum.
#[derive(Drop)]
pub struct ItemTree {
    pub name: Name,
    pub value: Option<ConstTree>,
}

/// `INT "enum" NAME "{" item { "," item } [","] "}" [";"]`, an enum.
#[derive(Drop)]
pub struct EnumTree {
    pub base: NumberTree,
    pub name: Name,
    pub items: Items<ItemTree>,
}

/// `"typedef" plain NAME ";"`, another name of a type.
#[derive(Drop)]
pub struct AliasTree {
    pub target: PlainTree,
    pub name: Name,
}

/// `["entrypoint"] "typedef" "struct" NAME head "{" field { field } "}" NAME ";"`, a struct.
#[derive(Drop)]
pub struct StructTree {
    /// Whether `entrypoint` stands before it.
    pub entry: bool,
    /// The name after `struct`, which is never looked up.
    pub tag: Name,
    pub head: HeadTree,
    pub fields: Items<FieldTree>,
    /// The name of the definition.
    pub name: Name,
}

/// `"case" const ":" field { field }`, a case of a casetype.
#[derive(Drop)]
pub struct CaseTree {
    pub constant: ConstTree,
    pub fields: Items<FieldTree>,
}

/// `["entrypoint"] "casetype" NAME head "{" "switch" "(" expr ")" "{" case { case } ["default" ":" field { field }] "}"
/// "}" NAME ";"`, a casetype.
#[derive(Drop)]
pub struct CasetypeTree {
    /// Whether `entrypoint` stands before it.
    pub entry: bool,
    /// The name after `casetype`, which is never looked up.
    pub tag: Name,
    pub head: HeadTree,
    /// The expression after `switch`.
    pub subject: Expr,
    pub cases: Items<CaseTree>,
    /// The fields of `default`.
    pub default: Option<Items<FieldTree>>,
    /// The name of the definition.
    pub name: Name,
}

/// What a slot of an output record holds.
#[derive(Drop)]
pub enum SlotKind {
    Number(NumberTree),
    /// `PUINT8`, by its span.
    Pointer(Span),
}

/// `(INT | "PUINT8") NAME ";"`, a slot of an output record.
#[derive(Drop)]
pub struct SlotTree {
    pub kind: SlotKind,
    pub name: Name,
}

/// `"output" "typedef" "struct" NAME "{" slot { slot } "}" NAME ";"`, an output record.
#[derive(Drop)]
pub struct OutputTree {
    /// The name after `struct`, which is never looked up.
    pub tag: Name,
    pub slots: Items<SlotTree>,
    /// The name of the definition.
    pub name: Name,
}

/// A definition.
#[derive(Drop)]
pub enum Def {
    Define(DefineTree),
    Enum(EnumTree),
    Alias(AliasTree),
    Struct(StructTree),
    Casetype(CasetypeTree),
    Output(OutputTree),
}

/// A module: its definitions, in the order of the text.
#[derive(Drop)]
pub struct ModuleTree {
    pub definitions: Items<Def>,
}
