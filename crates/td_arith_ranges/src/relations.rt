//! Comparisons turned and seen from the other side.

ghost use Rattle.std.specs.Prelude.{◌≡◌};
ghost use Rattle.td_expr.specs.Facts.{turned, mirrored};

use td_core::expressions::Relation;

/// The comparison that is true where this one isn't.
pub fn turned(relation: Relation) -> Relation
    ensures { result ≡ turned relation }
{
    match relation {
        Relation::Equal => Relation::NotEqual,
        Relation::NotEqual => Relation::Equal,
        Relation::Less => Relation::GreaterEqual,
        Relation::LessEqual => Relation::Greater,
        Relation::Greater => Relation::LessEqual,
        Relation::GreaterEqual => Relation::Less,
    }
}

/// The same comparison from the other side.
pub fn mirrored(relation: Relation) -> Relation
    ensures { result ≡ mirrored relation }
{
    match relation {
        Relation::Equal => Relation::Equal,
        Relation::NotEqual => Relation::NotEqual,
        Relation::Less => Relation::Greater,
        Relation::LessEqual => Relation::GreaterEqual,
        Relation::Greater => Relation::Less,
        Relation::GreaterEqual => Relation::LessEqual,
    }
}
