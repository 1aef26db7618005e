//! Inputs: the definitions of a module, or parts with an empty line between two.
#![tactic(auto, using(crate::proofs::Texts::texts))]

ghost use Rattle.std.specs.Prelude.{◌≡◌, ◌<◌, [], ◌∷◌, ◌++◌, length, OnErr, OnOk, flat_map};
ghost use Rattle.td_print_layout.specs.Pieces.{LineEnd, text_of};
ghost use Rattle.td_print_layout.specs.Definitions.{layout, part_lines};
ghost use Rattle.td_print_layout.specs.Sequences.{parted_by};
ghost use Rattle.td_print.specs.Writing.{HasLines};

use crate::definitions::write_definitions;
use crate::printer::Printer;
use crate::words::write_name;
use std::alloc::AllocError;
use td_ast::parts::{InputTree, PartTree};

// `module M`, an empty line, and its definitions.
fn write_part(out: &mut Printer, part: &PartTree) -> Result<(), AllocError>
    ensures { OnOk result (out.new ≡ out.old ++ text_of (part_lines part.now)) }
{
    out.write(b"module ")?;
    write_name(out, &part.name)?;
    out.write(b"\n\n")?;
    write_definitions(out, part.definitions.as_slice())
}

// Parts, each after an empty line.
fn write_others(out: &mut Printer, others: &[PartTree]) -> Result<(), AllocError>
    ensures { OnOk result (out.new ≡ out.old ++ text_of (flat_map (λ part. (LineEnd ∷ []) ++ part_lines part) others.now)) }
{
    for part in others {
        out.write(b"\n")?;
        write_part(out, part)?;
    }
    Ok(())
}

fn write_parts(out: &mut Printer, parts: &[PartTree]) -> Result<(), AllocError>
    ensures memory { OnErr result (0 < length parts.now) }
    ensures text { OnOk result (out.new ≡ out.old ++ text_of (parted_by (LineEnd ∷ []) part_lines parts.now)) }
{
    match parts {
        [] => Ok(()),
        [first, others @ ..] => {
            write_part(out, first)?;
            write_others(out, others)?;
            Ok(())
        }
    }
}

/// Writes an input.
pub(crate) fn write_input(out: &mut Printer, input: &InputTree) -> Result<(), AllocError>
    ensures memory { OnErr result (HasLines input.now) }
    ensures text { OnOk result (out.new ≡ out.old ++ text_of (layout input.now)) }
{
    match input {
        InputTree::Module(tree) => write_definitions(out, tree.definitions.as_slice()),
        InputTree::Parts(parts) => write_parts(out, parts.as_slice()),
    }
}
