//! The types of expressions.

ghost use Rattle.std.specs.Prelude.{◌≡◌, ◌≤◌, ◌-◌};
ghost use Rattle.td_core.specs.Types.{bits, limit, wider, computed_type, type_of};

use td_core::expressions::{Binary, CoreExpr, Node, Scalar};

/// How many bits a type has: 1 for truth values, else 8, 16, 32 or 64.
pub fn bits_of(scalar: Scalar) -> u32
    ensures value { result ≡ bits scalar }
    ensures small { result ≤ 64 }
{
    match scalar {
        Scalar::Truth => 1,
        Scalar::Eight => 8,
        Scalar::Sixteen => 16,
        Scalar::ThirtyTwo => 32,
        Scalar::SixtyFour => 64,
    }
}

/// The greatest value of a type.
pub fn greatest_of(scalar: Scalar) -> u64
    ensures { result ≡ limit scalar - 1 }
{
    match scalar {
        Scalar::Truth => 1,
        Scalar::Eight => 0xff,
        Scalar::Sixteen => 0xffff,
        Scalar::ThirtyTwo => 0xffff_ffff,
        Scalar::SixtyFour => u64::MAX,
    }
}

/// The wider of two types.
pub fn wider_of(left: Scalar, right: Scalar) -> Scalar
    ensures { result ≡ wider left right }
{
    if bits_of(left) <= bits_of(right) {
        right
    } else {
        left
    }
}

/// The type of what an operator computes of operands of two types.
pub fn computed_type_of(op: Binary, left: Scalar, right: Scalar) -> Scalar
    ensures { result ≡ computed_type op left right }
{
    match op {
        Binary::ShiftLeft | Binary::ShiftRight => left,
        _ => wider_of(left, right),
    }
}

/// The type of an expression.
pub fn type_of(e: &CoreExpr) -> Scalar
    ensures { result ≡ type_of e.now }
{
    match &e.node {
        Node::Number { scalar, .. } | Node::Name { scalar, .. } => *scalar,
        Node::Complement(a) => type_of(a),
        Node::Compute(op, _, a, b) => computed_type_of(*op, type_of(a), type_of(b)),
        Node::Choice(_, a, b) => wider_of(type_of(a), type_of(b)),
        _ => Scalar::Truth,
    }
}
