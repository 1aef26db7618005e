//! Why a text is no module text.

use crate::line::{limit_words, unsafe_words};
use td_arith::error::ArithError;
use td_ast::token::Span;
use td_core::expressions::Binary;
use td_elab::elaborate::ElabError;
use td_elab_rules::breach::{Rule, rule_words};
use td_front_flat::error::FlatError;
use td_kinds::error::KindError;
use td_lexer::LexError;
use td_limits::{Excess, Limit};
use thiserror::Error;

/// Why a text is no module text. Places are in bytes, from 0. It prints the words of its error line.
#[derive(Clone, Copy, PartialEq, Eq, Debug, Drop, Error)]
pub enum FrontError {
    /// L1: no white space, comment or token begins with this byte, or it is a letter, a digit or `_` directly after a
    /// number.
    #[error("bad byte")]
    BadByte { at: u32 },
    /// L2: a comment that begins here has no end.
    #[error("open comment")]
    OpenComment { at: u32 },
    /// L3: the number that begins here is 2^64 or more.
    #[error("number too large")]
    BigNumber { at: u32 },
    /// P1: the first token, counted from 0, up to and with which no module begins so, and where it begins; at an early
    /// end the count of the tokens and the length of the text.
    #[error("unexpected token")]
    Unexpected { token: u32, at: u32 },
    /// P2: the 257th operator or opening parenthesis of its whole expression, or the 17th open brace of an action: its
    /// number among the tokens, and where it begins.
    #[error("too deep")]
    Deep { token: u32, at: u32 },
    /// X1: a limit is passed in the definition with this name.
    #[error("{}", limit_words(*limit))]
    Limit { limit: Limit, span: Span },
    /// N1 to N4, Y1 to Y4: a rule is broken there. N2 comes of a part too that has the name of an earlier one.
    #[error("{}", rule_words(*rule))]
    Broken { rule: Rule, span: Span },
    /// N5: a part is named here that uses, by itself or by other parts, the part in which it is named.
    #[error("module cycle")]
    Cycle { span: Span },
    /// K1: an element of the byte-sized array of this field may be empty.
    #[error("element may be empty")]
    ZeroElement { span: Span },
    /// K2: this field takes all bytes up to the end and isn't the last, or elements of its byte-sized array take them.
    #[error("rest not last")]
    RestNotLast { span: Span },
    /// A1: what this operator computes may lie outside its type's range.
    #[error("{}", unsafe_words(*op))]
    Unsafe { span: Span, op: Binary },
    /// A2: what is copied here may pass the room of its buffer.
    #[error("room")]
    Room { span: Span },
    /// A1: the value of this expression may not fit the field that it is given to.
    #[error("unsafe =")]
    Value { span: Span },
    /// There was no memory.
    #[error("out of memory")]
    NoMemory,
}

impl From<LexError> for FrontError {
    ghost use Rattle.std.specs.Prelude.{◌≡◌};
    ghost use Rattle.td_front.specs.Errors.{of_lexing};

    ghost from_gives = { λ lexing e. e ≡ of_lexing lexing };

    fn from(error: LexError) -> FrontError {
        match error {
            LexError::BadByte { at } => FrontError::BadByte { at },
            LexError::OpenComment { at } => FrontError::OpenComment { at },
            LexError::BigNumber { at } => FrontError::BigNumber { at },
            LexError::NoMemory => FrontError::NoMemory,
        }
    }
}

impl From<Excess> for FrontError {
    ghost use Rattle.std.specs.Prelude.{◌≡◌};
    ghost use Rattle.td_front.specs.Errors.{of_excess};

    ghost from_gives = { λ excess e. e ≡ of_excess excess };

    fn from(excess: Excess) -> FrontError {
        FrontError::Limit {
            limit: excess.limit,
            span: excess.span,
        }
    }
}

impl From<FlatError> for FrontError {
    ghost use Rattle.std.specs.Prelude.{◌≡◌};
    ghost use Rattle.td_front.specs.Errors.{of_flattening};

    ghost from_gives = { λ flattening e. e ≡ of_flattening flattening };

    fn from(error: FlatError) -> FrontError {
        match error {
            FlatError::Twice { span } => FrontError::Broken {
                rule: Rule::Twice,
                span,
            },
            FlatError::Cycle { span } => FrontError::Cycle { span },
            FlatError::NoMemory => FrontError::NoMemory,
        }
    }
}

impl From<ElabError> for FrontError {
    ghost use Rattle.std.specs.Prelude.{◌≡◌};
    ghost use Rattle.td_front.specs.Errors.{of_elaboration};

    ghost from_gives = { λ elaboration e. e ≡ of_elaboration elaboration };

    fn from(error: ElabError) -> FrontError {
        match error {
            ElabError::Broken { rule, span } => FrontError::Broken { rule, span },
            ElabError::NoMemory => FrontError::NoMemory,
        }
    }
}

impl From<KindError> for FrontError {
    ghost use Rattle.std.specs.Prelude.{◌≡◌};
    ghost use Rattle.td_front.specs.Errors.{of_kinds};

    ghost from_gives = { λ kinds e. e ≡ of_kinds kinds };

    fn from(error: KindError) -> FrontError {
        match error {
            KindError::ZeroElement { span } => FrontError::ZeroElement { span },
            KindError::RestNotLast { span } => FrontError::RestNotLast { span },
            KindError::NoMemory => FrontError::NoMemory,
        }
    }
}

impl From<ArithError> for FrontError {
    ghost use Rattle.std.specs.Prelude.{◌≡◌};
    ghost use Rattle.td_front.specs.Errors.{of_arith};

    ghost from_gives = { λ arith e. e ≡ of_arith arith };

    fn from(error: ArithError) -> FrontError {
        match error {
            ArithError::Unsafe { span, op } => FrontError::Unsafe { span, op },
            ArithError::Room { span } => FrontError::Room { span },
            ArithError::Value { span } => FrontError::Value { span },
            ArithError::NoMemory => FrontError::NoMemory,
        }
    }
}
