//! The canonical text of an input.
#![tactic(auto, using(crate::proofs::Texts::texts))]

ghost use Rattle.std.specs.Prelude.{◌≡◌, IfOk, OnErr};
ghost use Rattle.td_print_layout.specs.Definitions.{canonical_text};
ghost use Rattle.td_print.specs.Writing.{HasLines};

use crate::parts::write_input;
use crate::printer::Printer;
use std::alloc::{AllocError, Global};
use td_ast::parts::InputTree;
use td_num::text::Text;

/// The canonical text of a module, or of parts: one form for all texts that spell the same tree, its places aside. In time
/// linear in the tree. `AllocError`: there is a definition or a part, and out of memory.
pub fn print(alloc: Global, input: &InputTree) -> Result<Text, AllocError>
    ensures text { IfOk result (λ text. text ≡ canonical_text input.now) }
    ensures memory { OnErr result (HasLines input.now) }
{
    let mut out = Printer::new(alloc);
    write_input(&mut out, input)?;
    Ok(out.into_text())
}
