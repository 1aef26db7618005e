//! The parts of an error line: the codes and words of all refusals of module texts.

ghost use Rattle.std.specs.Prelude.{◌≡◌, ◌↔◌, IfSome, IsNone};
ghost use Rattle.td_front.specs.Lines.{place_of, code_of, words_of, rule_code, limit_words, unsafe_words};

use crate::error::FrontError;
use td_core::expressions::Binary;
use td_elab_rules::breach::{Rule, rule_words};
use td_limits::Limit;

/// What an error line says: the byte of the text at which it stands, a code and words.
#[derive(Clone, Copy)]
pub struct ErrorLine {
    /// A place in the text, in bytes, from 0. It is the text's length at an early end.
    pub at: u32,
    pub code: &'static str,
    pub words: &'static str,
}

fn rule_code(rule: Rule) -> &'static str
    ensures { result.now ≡ rule_code rule }
{
    match rule {
        Rule::Unknown => "N1",
        Rule::Twice => "N2",
        Rule::NotReadable => "N3",
        Rule::WrongArgs => "N4",
        Rule::Mismatch => "Y1",
        Rule::Narrowing => "Y2",
        Rule::NotConstant => "Y3",
        Rule::BadAction => "Y4",
    }
}

/// The words of a limit.
pub(crate) fn limit_words(limit: Limit) -> &'static str
    ensures { result.now ≡ limit_words limit }
{
    match limit {
        Limit::Definitions => "limit definitions",
        Limit::Fields => "limit fields",
        Limit::Cases => "limit cases",
        Limit::Parameters => "limit parameters",
        Limit::Nodes => "limit nodes",
        Limit::Action => "limit action",
        Limit::Cells => "limit cells",
        Limit::Depth => "limit depth",
        Limit::Weight => "limit weight",
    }
}

/// The words of an operator that isn't safe.
pub(crate) fn unsafe_words(op: Binary) -> &'static str
    ensures { result.now ≡ unsafe_words op }
{
    match op {
        Binary::Add => "unsafe +",
        Binary::Subtract => "unsafe -",
        Binary::Multiply => "unsafe *",
        Binary::Divide => "unsafe /",
        Binary::Remainder => "unsafe %",
        Binary::BitAnd => "unsafe &",
        Binary::BitOr => "unsafe |",
        Binary::BitXor => "unsafe ^",
        Binary::ShiftLeft => "unsafe <<",
        Binary::ShiftRight => "unsafe >>",
    }
}

/// What the line of a refusal says. That there was no memory has no line of a place.
pub fn line_of(error: &FrontError) -> Option<ErrorLine>
    ensures none { IsNone result ↔ (error.now ≡ FrontError.NoMemory) }
    ensures place { IfSome result (λ line. line.at ≡ place_of error.now) }
    ensures code { IfSome result (λ line. line.code.now ≡ code_of error.now) }
    ensures words { IfSome result (λ line. line.words.now ≡ words_of error.now) }
{
    let (at, code, words) = match error {
        FrontError::BadByte { at } => (*at, "L1", "bad byte"),
        FrontError::OpenComment { at } => (*at, "L2", "open comment"),
        FrontError::BigNumber { at } => (*at, "L3", "number too large"),
        FrontError::Unexpected { at, .. } => (*at, "P1", "unexpected token"),
        FrontError::Deep { at, .. } => (*at, "P2", "too deep"),
        FrontError::Limit { limit, span } => (span.from, "X1", limit_words(*limit)),
        FrontError::Broken { rule, span } => (span.from, rule_code(*rule), rule_words(*rule)),
        FrontError::Cycle { span } => (span.from, "N5", "module cycle"),
        FrontError::ZeroElement { span } => (span.from, "K1", "element may be empty"),
        FrontError::RestNotLast { span } => (span.from, "K2", "rest not last"),
        FrontError::Unsafe { span, op } => (span.from, "A1", unsafe_words(*op)),
        FrontError::Room { span } => (span.from, "A2", "room"),
        FrontError::Value { span } => (span.from, "A1", "unsafe ="),
        FrontError::NoMemory => return None,
    };
    Some(ErrorLine { at, code, words })
}
