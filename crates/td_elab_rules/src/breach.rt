//! Breaches of the rules of names, types, constants and actions.

ghost use Rattle.std.specs.Prelude.{◌≡◌};
ghost use Rattle.td_elab_rules.specs.Breach.{rule_words};

use td_ast::token::Span;

/// The rules, in the order in which they are named at one place.
#[derive(Clone, Copy, PartialEq, Eq, Debug)]
pub enum Rule {
    /// N1: a name that isn't defined earlier or in scope.
    Unknown,
    /// N2: a name that is given twice, or the value of an enum or a case that is.
    Twice,
    /// N3: a field that is no number, enum or bit field is named as a value, or refined.
    NotReadable,
    /// N4: another number of arguments, or a `mutable` parameter, a copy buffer, a record or a field of one that isn't there.
    WrongArgs,
    /// Y1: something of another sort than its place takes.
    Mismatch,
    /// Y2: a value that is wider than its place, or a room that no copy buffer has.
    Narrowing,
    /// Y3: what is no constant, or no width of bits.
    NotConstant,
    /// Y4: an action that returns on other paths than its word says, `field_pos` outside one, or a copy of what is no
    /// byte-sized array of `UINT8`.
    BadAction,
}

/// A rule, and where it is broken.
#[derive(Clone, Copy, PartialEq, Eq, Debug)]
pub struct Breach {
    pub rule: Rule,
    pub span: Span,
}

/// The words for what breaks a rule, as its error line has them.
pub fn rule_words(rule: Rule) -> &'static str
    ensures { result.now ≡ rule_words rule }
{
    match rule {
        Rule::Unknown => "unknown name",
        Rule::Twice => "name twice",
        Rule::NotReadable => "not readable",
        Rule::WrongArgs => "wrong arguments",
        Rule::Mismatch => "type mismatch",
        Rule::Narrowing => "does not fit",
        Rule::NotConstant => "not constant",
        Rule::BadAction => "bad action",
    }
}
