//! The paths through the statements of an action.

ghost use Rattle.std.specs.Prelude.{◌≡◌};
ghost use Rattle.td_ast.specs.Statements.{block_of};
ghost use Rattle.td_elab_rules.specs.Actions.{open_way, and_then, forked, ways_of, block_ways, is_shaped};

use td_ast::actions::{ActionKind, Stmt, StmtKind};
use td_elab_rules::actions::Ways;

/// Before the first statement.
const OPEN: Ways = Ways {
    falls: true,
    returns: false,
    after: false,
    closed: false,
};

/// The paths through what came before, and then through a statement.
fn and_then(before: Ways, next: Ways) -> Ways
    ensures { result ≡ and_then before next }
{
    Ways {
        falls: before.falls && next.falls,
        returns: before.returns || (before.falls && next.returns),
        after: before.after || next.after || before.closed,
        closed: before.closed || next.closed,
    }
}

/// Either the one or the other.
fn forked(one: Ways, other: Ways) -> Ways
    ensures { result ≡ forked one other }
{
    Ways {
        falls: one.falls || other.falls,
        returns: one.returns || other.returns,
        after: one.after || other.after,
        closed: false,
    }
}

/// The paths through a statement.
#[cycle(ways)]
fn statement_ways(statement: &Stmt) -> Ways
    ensures { result ≡ ways_of statement.now }
{
    match &statement.kind {
        StmtKind::Store(_, _) | StmtKind::StoreField(_, _, _) | StmtKind::Var(_, _, _) => OPEN,
        StmtKind::If(_, one) => forked(block_ways(one.as_slice()), OPEN),
        StmtKind::IfElse(_, one, other) => {
            forked(block_ways(one.as_slice()), block_ways(other.as_slice()))
        }
        StmtKind::Return(_) => Ways {
            falls: false,
            returns: true,
            after: false,
            closed: true,
        },
        StmtKind::Abort => Ways {
            falls: false,
            returns: false,
            after: false,
            closed: true,
        },
    }
}

/// The paths through statements.
#[cycle(ways)]
pub(crate) fn block_ways(statements: &[Stmt]) -> Ways
    ensures { result ≡ block_ways open_way (block_of statements.now) }
{
    let mut ways = OPEN;
    for statement in statements {
        ways = and_then(ways, statement_ways(statement));
    }
    ways
}

/// Whether an action whose word is this one may have these paths.
pub(crate) fn is_shaped(kind: ActionKind, ways: Ways) -> bool
    ensures { result ≡ is_shaped kind ways }
{
    match kind {
        ActionKind::Act => !ways.returns,
        ActionKind::Check => !ways.falls,
        ActionKind::OnSuccess => !(ways.returns && ways.falls),
    }
}
