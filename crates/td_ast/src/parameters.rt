//! What stands between the first name of a struct or casetype and its body: parameters and the `where` condition.

use crate::expressions::Expr;
use crate::names::{ConstTree, Name, NumberTree, PlainTree};
use crate::token::Span;
use td_num::items::Items;

/// `INT | "PUINT8" | qualified`, what a `mutable` parameter points to.
#[derive(Drop)]
pub enum TargetTree {
    Number(NumberTree),
    /// `PUINT8`, by its span.
    Pointer(Span),
    Named(Name),
}

/// A parameter.
#[derive(Drop)]
pub enum ParamTree {
    /// `plain NAME`, a value.
    Value(PlainTree, Name),
    /// `"mutable" target "*" NAME`, a place that actions store to.
    Mutable(TargetTree, Name),
    /// `"mutable" "UINT8" "*" NAME "[" const "]"`, a copy buffer with its room.
    Bytes { name: Name, room: ConstTree },
}

/// `["(" param { "," param } ")"] ["where" expr]`, a head. Where there are no parentheses, `params` is empty.
#[derive(Drop)]
pub struct HeadTree {
    pub params: Items<ParamTree>,
    /// The expression after `where`.
    pub condition: Option<Expr>,
}
