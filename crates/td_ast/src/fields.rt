//! Fields of structs and cases.

use crate::actions::ActionTree;
use crate::expressions::Expr;
use crate::names::{Literal, Name};
use crate::token::Span;
use td_num::items::Items;
use td_num::number::NumberType;
use td_num::text::Text;

/// What a field has for a type.
#[derive(Drop)]
pub enum TypeKind {
    /// One of the eight number types.
    Number(NumberType),
    /// `unit`
    Unit,
    /// `all_bytes`
    AllBytes,
    /// `all_zeros`
    AllZeros,
    /// `qualified ["(" expr { "," expr } ")"]`, a name and its arguments. Where there are no parentheses, none.
    Named(Text, Items<Expr>),
}

/// A type, and the span of its word or of its name, a dot and a part's name included.
#[derive(Drop)]
pub struct TypeTree {
    pub span: Span,
    pub kind: TypeKind,
}

/// What stands after a field's name: an array's size, a bit width, or what gives a field without bytes its value.
#[derive(Drop)]
pub enum ExtentTree {
    /// `[ e ]`
    Bytes(Expr),
    /// `[:byte-size e ]`
    ByteSize(Expr),
    /// `[:byte-size-single-element-array e ]`
    SingleElement(Expr),
    /// `[:zeroterm-byte-size-at-most e ]`
    Zeroterm(Expr),
    /// `: NUM`
    Bits(Literal),
    /// `= e`: the field takes no bytes, and its value is that of the expression. If `e` is the name `bytes_left` alone, its value is
    /// the number of bytes that are left.
    Given(Expr),
    /// `= * NAME`: the field takes no bytes, and its value is what the cell of this name holds. The span is that of the star.
    OfCell(Span, Name),
}

/// `type NAME [extent] ["{" expr "}"] [action] ";"`, a field.
#[derive(Drop)]
pub struct FieldTree {
    pub type_tree: TypeTree,
    pub name: Name,
    pub extent: Option<ExtentTree>,
    /// The expression in braces.
    pub refinement: Option<Expr>,
    pub action: Option<ActionTree>,
}
