//! Sorts and types of expressions, from those of their operands.

ghost use Rattle.std.specs.Prelude.{◌≡◌, nat_lt};
ghost use Rattle.td_core.specs.Types.{limit, wider};
ghost use Rattle.td_elab_rules.specs.Sorts.{operation, narrowest, literal_type, type_alone, type_beside, typed_by, computed_sort, operation_sort, unary_sort, choice_sort, size_sort, found_sort, start_sort};
ghost use Rattle.td_elab_rules.specs.ExprRules.{is_truth, is_number, is_wrong_operand, are_wrong_operands, is_wrong_choice, is_wider};

use td_ast::expressions::{BinaryOperator, UnaryOperator};
use td_core::expressions::{Binary, Relation, Scalar};
use td_elab_rules::expressions::{Operation, Sort};
use td_elab_rules::known::{Found, Local, Meaning};
use td_expr::types::{bits_of, computed_type_of, wider_of};

/// Whether a type holds a number.
pub fn fits(n: u64, w: Scalar) -> bool
    ensures { result ≡ nat_lt n (limit w) }
{
    match w {
        Scalar::Truth => n < 2,
        Scalar::Eight => n < 256,
        Scalar::Sixteen => n < 65_536,
        Scalar::ThirtyTwo => n < 4_294_967_296,
        Scalar::SixtyFour => true,
    }
}

/// The narrowest type that holds a number.
pub(crate) fn narrowest(n: u64) -> Scalar
    ensures { result ≡ narrowest n }
{
    if fits(n, Scalar::Eight) {
        Scalar::Eight
    } else if fits(n, Scalar::Sixteen) {
        Scalar::Sixteen
    } else if fits(n, Scalar::ThirtyTwo) {
        Scalar::ThirtyTwo
    } else {
        Scalar::SixtyFour
    }
}

/// The type of a literal beside another operand.
pub(crate) fn literal_type(n: u64, other: Sort) -> Scalar
    ensures { result ≡ literal_type n other }
{
    match other {
        Sort::Typed(w) => if fits(n, w) { w } else { narrowest(n) },
        Sort::Literal(m) => wider_of(narrowest(n), narrowest(m)),
        Sort::Broken | Sort::Untyped | Sort::Truth => narrowest(n),
    }
}

/// The type of a number that stands alone.
pub fn type_alone(a: Sort) -> Option<Scalar>
    ensures { result ≡ type_alone a }
{
    match a {
        Sort::Literal(n) => Some(narrowest(n)),
        Sort::Typed(w) => Some(w),
        Sort::Broken | Sort::Untyped | Sort::Truth => None,
    }
}

/// The type of a number beside another operand.
fn type_beside(a: Sort, other: Sort) -> Option<Scalar>
    ensures { result ≡ type_beside a other }
{
    match a {
        Sort::Literal(n) => Some(literal_type(n, other)),
        Sort::Typed(w) => Some(w),
        Sort::Broken | Sort::Untyped | Sort::Truth => None,
    }
}

/// The sort of what an operator computes of operands of two sorts.
fn computed_sort(op: Binary, a: Sort, b: Sort) -> Sort
    ensures { result ≡ computed_sort op a b }
{
    match (type_beside(a, b), type_beside(b, a)) {
        (Some(v), Some(w)) => Sort::Typed(computed_type_of(op, v, w)),
        (Some(_), None) | (None, _) => Sort::Untyped,
    }
}

/// What an operator of two operands does.
pub(crate) fn operation(operator: BinaryOperator) -> Operation
    ensures { result ≡ operation operator }
{
    match operator {
        BinaryOperator::Multiply => Operation::Computes(Binary::Multiply),
        BinaryOperator::Divide => Operation::Computes(Binary::Divide),
        BinaryOperator::Remainder => Operation::Computes(Binary::Remainder),
        BinaryOperator::Add => Operation::Computes(Binary::Add),
        BinaryOperator::Subtract => Operation::Computes(Binary::Subtract),
        BinaryOperator::ShiftLeft => Operation::Computes(Binary::ShiftLeft),
        BinaryOperator::ShiftRight => Operation::Computes(Binary::ShiftRight),
        BinaryOperator::Less => Operation::Compares(Relation::Less),
        BinaryOperator::LessEqual => Operation::Compares(Relation::LessEqual),
        BinaryOperator::Greater => Operation::Compares(Relation::Greater),
        BinaryOperator::GreaterEqual => Operation::Compares(Relation::GreaterEqual),
        BinaryOperator::Equal => Operation::Compares(Relation::Equal),
        BinaryOperator::NotEqual => Operation::Compares(Relation::NotEqual),
        BinaryOperator::BitAnd => Operation::Computes(Binary::BitAnd),
        BinaryOperator::BitXor => Operation::Computes(Binary::BitXor),
        BinaryOperator::BitOr => Operation::Computes(Binary::BitOr),
        BinaryOperator::And => Operation::Both,
        BinaryOperator::Or => Operation::Either,
    }
}

/// The sort of an operator's result.
pub(crate) fn operation_sort(operation: Operation, a: Sort, b: Sort) -> Sort
    ensures { result ≡ operation_sort operation a b }
{
    match operation {
        Operation::Computes(op) => computed_sort(op, a, b),
        Operation::Compares(_) | Operation::Both | Operation::Either => Sort::Truth,
    }
}

/// The sort of the result of `!` or `~`.
pub(crate) fn unary_sort(operator: UnaryOperator, a: Sort) -> Sort
    ensures { result ≡ unary_sort operator a }
{
    match operator {
        UnaryOperator::Not => Sort::Truth,
        UnaryOperator::Complement => match type_alone(a) {
            Some(w) => Sort::Typed(w),
            None => Sort::Untyped,
        },
    }
}

/// The sort of two numbers, of which the narrower is widened.
fn wider_sort(a: Sort, b: Sort) -> Sort
    ensures { result ≡ typed_by wider (type_beside a b) (type_beside b a) }
{
    match (type_beside(a, b), type_beside(b, a)) {
        (Some(v), Some(w)) => Sort::Typed(wider_of(v, w)),
        (Some(_), None) | (None, _) => Sort::Untyped,
    }
}

/// The sort of a choice between two branches.
pub(crate) fn choice_sort(a: Sort, b: Sort) -> Sort
    ensures { result ≡ choice_sort a b }
{
    match a {
        Sort::Truth => match b {
            Sort::Truth | Sort::Broken => Sort::Truth,
            Sort::Untyped | Sort::Literal(_) | Sort::Typed(_) => Sort::Broken,
        },
        Sort::Broken => match b {
            Sort::Truth | Sort::Broken => b,
            Sort::Untyped | Sort::Literal(_) | Sort::Typed(_) => Sort::Untyped,
        },
        Sort::Untyped => match b {
            Sort::Truth => Sort::Broken,
            Sort::Broken | Sort::Untyped | Sort::Literal(_) | Sort::Typed(_) => Sort::Untyped,
        },
        Sort::Literal(_) | Sort::Typed(_) => match b {
            Sort::Truth => Sort::Broken,
            Sort::Broken | Sort::Untyped | Sort::Literal(_) | Sort::Typed(_) => wider_sort(a, b),
        },
    }
}

/// The sort of a size, where there is one.
pub(crate) fn size_sort(size: Option<u64>) -> Sort
    ensures { result ≡ size_sort size }
{
    match size {
        Some(n) => Sort::Literal(n),
        None => Sort::Untyped,
    }
}

/// The sort of a name's value.
pub(crate) fn found_sort(found: Found) -> Sort
    ensures { result ≡ found_sort found }
{
    match found {
        Found::Local(Local::Value { scalar, .. }) => Sort::Typed(scalar),
        Found::Global(Meaning::Constant(n) | Meaning::Member(n)) => Sort::Literal(n),
        _ => Sort::Broken,
    }
}

/// The sort of `field_pos`.
pub(crate) fn start_sort(start: Option<u32>) -> Sort
    ensures { result ≡ start_sort start }
{
    match start {
        Some(_) => Sort::Typed(Scalar::ThirtyTwo),
        None => Sort::Untyped,
    }
}

/// Whether it is a truth value.
pub fn is_truth(s: Sort) -> bool
    ensures { result ≡ is_truth s }
{
    match s {
        Sort::Truth => true,
        Sort::Broken | Sort::Untyped | Sort::Literal(_) | Sort::Typed(_) => false,
    }
}

/// Whether it is a number.
pub fn is_number(s: Sort) -> bool
    ensures { result ≡ is_number s }
{
    match s {
        Sort::Truth | Sort::Broken => false,
        Sort::Untyped | Sort::Literal(_) | Sort::Typed(_) => true,
    }
}

/// Whether the operand of `!` or `~` is of the wrong sort.
pub(crate) fn is_wrong_operand(operator: UnaryOperator, a: Sort) -> bool
    ensures { result ≡ is_wrong_operand operator a }
{
    match operator {
        UnaryOperator::Not => is_number(a),
        UnaryOperator::Complement => is_truth(a),
    }
}

/// Whether an operand of an operator is of the wrong sort.
pub(crate) fn are_wrong_operands(operation: Operation, a: Sort, b: Sort) -> bool
    ensures { result ≡ are_wrong_operands operation a b }
{
    match operation {
        Operation::Computes(_) | Operation::Compares(_) => is_truth(a) || is_truth(b),
        Operation::Both | Operation::Either => is_number(a) || is_number(b),
    }
}

/// Whether a condition is a number, or the branches are of two sorts.
pub(crate) fn is_wrong_choice(c: Sort, a: Sort, b: Sort) -> bool
    ensures { result ≡ is_wrong_choice c a b }
{
    is_number(c) || (is_truth(a) && is_number(b)) || (is_number(a) && is_truth(b))
}

/// Whether a number is wider than a type.
pub(crate) fn is_wider(v: Option<Scalar>, w: Scalar) -> bool
    ensures { result ≡ is_wider v w }
{
    match v {
        Some(v) => bits_of(w) < bits_of(v),
        None => false,
    }
}
