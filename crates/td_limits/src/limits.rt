//! What is limited, and an excess over a limit. The numbers stand in td_core.

ghost use Rattle.std.specs.Prelude.{◌≡◌};
ghost use Rattle.td_limits.specs.Excesses.{above, first_excess};

use td_ast::token::Span;

/// What is limited, in the order in which passed limits are named at one place.
#[derive(Clone, Copy, PartialEq, Eq, Debug)]
pub enum Limit {
    Definitions,
    Fields,
    Cases,
    Parameters,
    Nodes,
    Action,
    Cells,
    Depth,
    Weight,
}

/// A limit that is passed, and the name of the definition in which it is.
#[derive(Clone, Copy, PartialEq, Eq, Debug)]
pub struct Excess {
    pub limit: Limit,
    pub span: Span,
}

/// The excess of a count over the most that it may be.
pub(crate) fn excess_over(most: u64, count: u64, limit: Limit, span: Span) -> Option<Excess>
    ensures { result ≡ first_excess (above most count limit span) }
{
    if count > most {
        Some(Excess { limit, span })
    } else {
        None
    }
}
