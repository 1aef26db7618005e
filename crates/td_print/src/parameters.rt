//! What stands between the first name of a struct or casetype and its body.
#![tactic(auto, using(crate::proofs::Texts::texts))]

ghost use Rattle.std.specs.Prelude.{◌≡◌, ◌++◌, OnOk, flat_map};
ghost use Rattle.td_print_layout.specs.Pieces.{text_of};
ghost use Rattle.td_print_layout.specs.Parameters.{condition_pieces, head_pieces, parameter_pieces, room_pieces, target_pieces};
ghost use Rattle.td_print_layout.specs.Sequences.{comma, in_parentheses, optional};

use crate::expressions::write_expression;
use crate::printer::Printer;
use crate::words::{number_word, write_between, write_constant, write_plain, write_qualified};
use std::alloc::AllocError;
use td_ast::expressions::Expr;
use td_ast::names::ConstTree;
use td_ast::parameters::{HeadTree, ParamTree, TargetTree};

fn write_target(out: &mut Printer, target: &TargetTree) -> Result<(), AllocError>
    ensures { OnOk result (out.new ≡ out.old ++ text_of (target_pieces target.now)) }
{
    match target {
        TargetTree::Number(tree) => out.write(number_word(tree.number)),
        TargetTree::Pointer(_) => out.write(b"PUINT8"),
        TargetTree::Named(name) => write_qualified(out, &name.text),
    }
}

// `[8]`
fn write_room(out: &mut Printer, room: &ConstTree) -> Result<(), AllocError>
    ensures { OnOk result (out.new ≡ out.old ++ text_of (room_pieces room.now)) }
{
    out.write(b"[")?;
    write_constant(out, room)?;
    out.write(b"]")
}

// `T a`, `mutable T *a` or `mutable UINT8 *a[8]`
fn write_parameter(out: &mut Printer, parameter: &ParamTree) -> Result<(), AllocError>
    ensures { OnOk result (out.new ≡ out.old ++ text_of (parameter_pieces parameter.now)) }
{
    match parameter {
        ParamTree::Value(plain, name) => {
            write_plain(out, plain)?;
            write_between(out, b" ", name, b"")
        }
        ParamTree::Mutable(target, name) => {
            out.write(b"mutable ")?;
            write_target(out, target)?;
            write_between(out, b" *", name, b"")
        }
        ParamTree::Bytes { name, room } => {
            write_between(out, b"mutable UINT8 *", name, b"")?;
            write_room(out, room)?;
            Ok(())
        }
    }
}

// Parameters, each after a comma.
fn write_others(out: &mut Printer, others: &[ParamTree]) -> Result<(), AllocError>
    ensures { OnOk result (out.new ≡ out.old ++ text_of (flat_map (λ parameter. comma ++ parameter_pieces parameter) others.now)) }
{
    for parameter in others {
        out.write(b", ")?;
        write_parameter(out, parameter)?;
    }
    Ok(())
}

// `(T a, T b)`, and nothing where there are none.
fn write_parameters(out: &mut Printer, parameters: &[ParamTree]) -> Result<(), AllocError>
    ensures { OnOk result (out.new ≡ out.old ++ text_of (in_parentheses parameter_pieces parameters.now)) }
{
    match parameters {
        [] => Ok(()),
        [first, others @ ..] => {
            out.write(b"(")?;
            write_parameter(out, first)?;
            write_others(out, others)?;
            out.write(b")")?;
            Ok(())
        }
    }
}

// ` where e`
fn write_condition(out: &mut Printer, condition: &Option<Expr>) -> Result<(), AllocError>
    ensures { OnOk result (out.new ≡ out.old ++ text_of (optional condition_pieces condition.now)) }
{
    match condition {
        None => Ok(()),
        Some(condition) => {
            out.write(b" where ")?;
            write_expression(out, condition)
        }
    }
}

/// Writes a head: the parameters, then the condition.
pub(crate) fn write_head(out: &mut Printer, head: &HeadTree) -> Result<(), AllocError>
    ensures { OnOk result (out.new ≡ out.old ++ text_of (head_pieces head.now)) }
{
    write_parameters(out, head.params.as_slice())?;
    write_condition(out, &head.condition)
}
