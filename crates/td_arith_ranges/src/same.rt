//! When two expressions are the same.

ghost use Rattle.std.specs.Prelude.{◌≡◌, ◌&&◌, ◌⊎◌, true, false, Some, None};
ghost use Rattle.std.specs.Option.{ForSome};
ghost use Rattle.td_core.specs.declared.expressions.Binary.TheVariants.{Subtract};
ghost use Rattle.td_core.specs.Term.{compute};
ghost use Rattle.td_core.specs.Types.{type_of};
ghost use Rattle.td_expr.specs.Facts.{no_span};
ghost use Rattle.td_expr.specs.Same.{constant_of, alike, same, settled, type_eq, binary_eq, relation_eq};

use td_core::expressions::{Binary, CoreExpr, Node, Relation};
use td_expr::constant::constant_of;
use td_expr::types::{greatest_of, type_of, wider_of};

/// Two expressions, and what one walk along both tells: whether they are the same, where the first one has no value. None: the
/// first one is of literals alone, as far as the two were compared, so that its value decides, if it has one.
#[derive(Drop)]
struct Pair<'a> {
    left: &'a CoreExpr,
    right: &'a CoreExpr,
    told: Option<bool>,
    ghost free: { ForSome told (λ t. constant_of left.now ≡ None) },
    ghost both: { ForSome told (λ t. t ≡ true → constant_of right.now ≡ None) },
    ghost matches: { ForSome told (λ t. t ≡ same left.now right.now) },
}

/// Whether two expressions are the same: the same tree after each constant part was replaced by its value, with the same
/// type of each part. It goes along both once, and once more along each part of literals alone.
pub fn is_same(a: &CoreExpr, b: &CoreExpr) -> bool
    ensures { result ≡ same a.now b.now }
{
    is_same_pair(&paired(a, b))
}

fn is_same_pair(pair: &Pair) -> bool
    ensures { result ≡ same pair.now.left.now pair.now.right.now }
{
    match pair.told {
        Some(told) => told,
        None => is_same_value(pair.left, pair.right),
    }
}

/// Two expressions, with what one walk along both tells.
#[cycle(compared)]
fn paired<'a>(left: &'a CoreExpr, right: &'a CoreExpr) -> Pair<'a>
    ensures left { result.left.now ≡ left.now }
    ensures right { result.right.now ≡ right.now }
{
    Pair {
        left,
        right,
        told: compared(left, right),
    }
}

/// What one walk along two expressions tells, as `Pair` has it.
#[cycle(compared)]
#[tactic(auto, using(crate::proofs::Comparing::one_free, crate::proofs::Comparing::two_free, crate::proofs::Comparing::three_free))]
fn compared(a: &CoreExpr, b: &CoreExpr) -> Option<bool>
    ensures free { ForSome result (λ t. constant_of a.now ≡ None) }
    ensures both { ForSome result (λ t. t ≡ true → constant_of b.now ≡ None) }
    ensures matches { ForSome result (λ t. t ≡ same a.now b.now) }
{
    match (&a.node, &b.node) {
        (
            Node::Name {
                level: i,
                scalar: v,
                most: m,
            },
            Node::Name {
                level: j,
                scalar: w,
                most: n,
            },
        ) => Some(*i == *j && *v == *w && *m == *n),
        (Node::Complement(x), Node::Complement(y)) | (Node::Not(x), Node::Not(y)) => {
            let parts = compared(x, y)?;
            Some(settle(a, b, parts))
        }
        (Node::Compute(o, _, x, z), Node::Compute(p, _, y, w)) => {
            let fits = is_same_operator(*o, *p);
            let parts = told_of_two(fits, &paired(x, y), &paired(z, w))?;
            Some(settle(a, b, parts))
        }
        (Node::Compare(o, x, z), Node::Compare(p, y, w)) => {
            let fits = is_same_relation(*o, *p);
            let parts = told_of_two(fits, &paired(x, y), &paired(z, w))?;
            Some(settle(a, b, parts))
        }
        (Node::Both(x, z), Node::Both(y, w)) | (Node::Either(x, z), Node::Either(y, w)) => {
            let parts = told_of_two(true, &paired(x, y), &paired(z, w))?;
            Some(settle(a, b, parts))
        }
        (Node::Choice(x, z, s), Node::Choice(y, w, t))
        | (Node::RangeOkay(x, z, s), Node::RangeOkay(y, w, t)) => {
            let parts = told_of_three(&paired(x, y), &paired(z, w), &paired(s, t))?;
            Some(settle(a, b, parts))
        }
        _ => match constant_of(a) {
            Some(_) => None,
            None => Some(settle(a, b, false)),
        },
    }
}

/// What two pairs of parts tell, where the rest of the two wholes does or doesn't fit.
fn told_of_two(fits: bool, first: &Pair, second: &Pair) -> Option<bool>
    ensures free { ForSome result (λ t. (constant_of first.now.left.now ≡ None) ⊎ (constant_of second.now.left.now ≡ None)) }
    ensures both { ForSome result (λ t. t ≡ true → (constant_of first.now.right.now ≡ None) ⊎ (constant_of second.now.right.now ≡ None)) }
    ensures matches { ForSome result (λ t. t ≡ (fits && (same first.now.left.now first.now.right.now && same second.now.left.now second.now.right.now))) }
{
    match (first.told, second.told) {
        (None, None) => None,
        (Some(told), _) => Some(fits && (told && is_same_pair(second))),
        (None, Some(told)) => Some(fits && (is_same_pair(first) && told)),
    }
}

/// What three pairs of parts tell.
fn told_of_three(first: &Pair, second: &Pair, third: &Pair) -> Option<bool>
    ensures free { ForSome result (λ t. (constant_of first.now.left.now ≡ None) ⊎ ((constant_of second.now.left.now ≡ None) ⊎ (constant_of third.now.left.now ≡ None))) }
    ensures both { ForSome result (λ t. t ≡ true → (constant_of first.now.right.now ≡ None) ⊎ ((constant_of second.now.right.now ≡ None) ⊎ (constant_of third.now.right.now ≡ None))) }
    ensures matches { ForSome result (λ t. t ≡ (same first.now.left.now first.now.right.now && (same second.now.left.now second.now.right.now && same third.now.left.now third.now.right.now))) }
{
    match (first.told, second.told, third.told) {
        (None, None, None) => None,
        (Some(told), _, _) => Some(told && (is_same_pair(second) && is_same_pair(third))),
        (None, Some(told), _) => Some(is_same_pair(first) && (told && is_same_pair(third))),
        (None, None, Some(told)) => Some(is_same_pair(first) && (is_same_pair(second) && told)),
    }
}

/// Whether two expressions are the same of which the first one has no value, where their parts are or aren't the same.
#[tactic(auto, using(crate::proofs::Comparing::settled_free))]
fn settle(a: &CoreExpr, b: &CoreExpr, parts: bool) -> bool
    requires free { constant_of a.now ≡ None }
    requires both { parts ≡ true → constant_of b.now ≡ None }
    ensures matches { result ≡ alike a.now b.now parts }
    ensures both { result ≡ true → constant_of b.now ≡ None }
{
    parts
}

/// Whether two expressions are the same, by the first one's value if it has one.
fn is_same_value(a: &CoreExpr, b: &CoreExpr) -> bool
    ensures { result ≡ same a.now b.now }
{
    match constant_of(a) {
        Some(value) => has_value(value, a, b),
        None => is_same_by_parts(a, b),
    }
}

/// Whether the second of two expressions has this value and the first one's type.
fn has_value(value: u64, a: &CoreExpr, b: &CoreExpr) -> bool
    ensures { result ≡ settled (Some value) (constant_of b.now) (type_eq (type_of a.now) (type_of b.now)) false }
{
    match constant_of(b) {
        Some(n) => value == n && type_of(a) == type_of(b),
        None => false,
    }
}

/// Whether two expressions are the same, looking for constants at each of their parts: for those of literals alone that have no
/// value, as one of them is too large for its type.
fn is_same_by_parts(a: &CoreExpr, b: &CoreExpr) -> bool
    ensures { result ≡ same a.now b.now }
{
    match (&a.node, &b.node) {
        (
            Node::Name {
                level: i,
                scalar: v,
                most: m,
            },
            Node::Name {
                level: j,
                scalar: w,
                most: n,
            },
        ) => *i == *j && *v == *w && *m == *n,
        (Node::Complement(x), Node::Complement(y)) | (Node::Not(x), Node::Not(y)) => agree(
            a,
            b,
            is_same_by_parts(x, y),
        ),
        (Node::Compute(o, _, x, z), Node::Compute(p, _, y, w)) => agree(
            a,
            b,
            all_hold(
                is_same_operator(*o, *p),
                is_same_by_parts(x, y),
                is_same_by_parts(z, w),
            ),
        ),
        (Node::Compare(o, x, z), Node::Compare(p, y, w)) => agree(
            a,
            b,
            all_hold(
                is_same_relation(*o, *p),
                is_same_by_parts(x, y),
                is_same_by_parts(z, w),
            ),
        ),
        (Node::Both(x, z), Node::Both(y, w)) | (Node::Either(x, z), Node::Either(y, w)) => agree(
            a,
            b,
            both_hold(is_same_by_parts(x, y), is_same_by_parts(z, w)),
        ),
        (Node::Choice(x, z, s), Node::Choice(y, w, t))
        | (Node::RangeOkay(x, z, s), Node::RangeOkay(y, w, t)) => agree(
            a,
            b,
            all_hold(
                is_same_by_parts(x, y),
                is_same_by_parts(z, w),
                is_same_by_parts(s, t),
            ),
        ),
        _ => agree(a, b, false),
    }
}

/// The value of the difference of two expressions, where it is constant.
pub fn constant_difference(a: &CoreExpr, b: &CoreExpr) -> Option<u64>
    ensures { result ≡ constant_of (compute Subtract no_span a.now b.now) }
{
    match (constant_of(a), constant_of(b)) {
        (Some(x), Some(y)) => if y <= x && x - y <= greatest_of(wider_of(type_of(a), type_of(b))) {
            Some(x - y)
        } else {
            None
        },
        _ => None,
    }
}

/// Whether the difference of two expressions is the same as a third.
pub fn is_same_difference(a: &CoreExpr, b: &CoreExpr, e: &CoreExpr) -> bool
    ensures { result ≡ same (compute Subtract no_span a.now b.now) e.now }
{
    match &e.node {
        Node::Compute(op, _, c, d) => agree_difference(
            a,
            b,
            e,
            all_hold(
                is_same_operator(Binary::Subtract, *op),
                is_same(a, c),
                is_same(b, d),
            ),
        ),
        _ => agree_difference(a, b, e, false),
    }
}

/// Constant parts have one value and one type; where none of the two is constant their parts decide. The second one is
/// looked into only where the first is constant or the parts are the same.
#[tactic(auto, using(crate::proofs::Comparing::settled_apart))]
fn agree(a: &CoreExpr, b: &CoreExpr, parts: bool) -> bool
    ensures { result ≡ alike a.now b.now parts }
{
    match constant_of(a) {
        Some(m) => match constant_of(b) {
            Some(n) => m == n && type_of(a) == type_of(b),
            None => false,
        },
        None => if parts {
            match constant_of(b) {
                Some(_) => false,
                None => true,
            }
        } else {
            false
        },
    }
}

fn is_same_operator(a: Binary, b: Binary) -> bool
    ensures { result ≡ binary_eq a b }
{
    a == b
}

fn is_same_relation(a: Relation, b: Relation) -> bool
    ensures { result ≡ relation_eq a b }
{
    a == b
}

fn both_hold(a: bool, b: bool) -> bool
    ensures { result ≡ (a && b) }
{
    a && b
}

fn all_hold(a: bool, b: bool, c: bool) -> bool
    ensures { result ≡ (a && (b && c)) }
{
    a && (b && c)
}

/// Whether a difference and an expression are the same, where their parts are or aren't.
#[tactic(auto, using(crate::proofs::Comparing::settled_apart))]
fn agree_difference(a: &CoreExpr, b: &CoreExpr, e: &CoreExpr, parts: bool) -> bool
    ensures { result ≡ alike (compute Subtract no_span a.now b.now) e.now parts }
{
    match constant_difference(a, b) {
        Some(m) => match constant_of(e) {
            Some(n) => m == n && wider_of(type_of(a), type_of(b)) == type_of(e),
            None => false,
        },
        None => if parts {
            match constant_of(e) {
                Some(_) => false,
                None => true,
            }
        } else {
            false
        },
    }
}
