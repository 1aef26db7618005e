//! The routines of a module's definitions, and their instructions.

ghost use Rattle.std.specs.Prelude.{◌≡◌, ◌<◌, ◌^◌, ◌++◌, ◌∷◌, [], ℕ, length, OnOk, IfOk, Some, slice_get};
ghost use Rattle.td_lower.specs.Imports.{TypeDef};
ghost use Rattle.td_lower_blocks.specs.Block.{size};
ghost use Rattle.td_lower_blocks.specs.Constructs.{body};
ghost use Rattle.td_lower_blocks.specs.Lowered.{definition_body, first_site};
ghost use Rattle.td_lower_blocks.specs.Tops.{definition_levels};
ghost use Rattle.td_lower_emit.specs.Emission.{Finishes};
ghost use Rattle.td_lower_blocks.specs.Laid.{rooms};
ghost use Rattle.td_lower.specs.Code.{unit_in, code_to, routine_for, routines_to, HasRoomFor};

use std::alloc::{AllocError, Global};
use td_core::module::{Buffer, TypeDef};
use td_ir::tables::Routine;
use td_lower_emit::counts::count_sites;
use td_lower_emit::definitions::write_definition;
use td_lower_emit::levels::definition_levels;
use td_lower_emit::tops::definition_top;
use td_lower_emit::writer::Writer;
use td_num::items::Items;

// The rooms of buffers.
fn push_rooms(all: &mut Items<u32>, buffers: &[Buffer]) -> Result<(), AllocError>
    ensures { OnOk result (all.new ≡ all.old ++ rooms buffers.now) }
{
    let Some((buffer, rest)) = buffers.split_first() else {
        return Ok(());
    };
    all.push(buffer.room)?;
    push_rooms(all, rest)?;
    Ok(())
}

fn rooms(alloc: Global, buffers: &[Buffer]) -> Result<Items<u32>, AllocError>
    ensures { IfOk result (λ all. all ≡ rooms buffers.now) }
{
    let mut all = Items::new(alloc);
    push_rooms(&mut all, buffers)?;
    Ok(all)
}

// Writes the code of a definition, whose sites begin at `first`, and its routine.
fn write_routine(
    alloc: Global,
    code: &mut Writer,
    routines: &mut Items<Routine>,
    first: u32,
    d: &TypeDef,
) -> Result<(), AllocError>
    requires { HasRoomFor first d.now }
    ensures code { OnOk result (Finishes 0 code.old code.new (body (definition_body first (definition_levels d.now) d.now))) }
    ensures routine { OnOk result (routines.new ≡ routines.old
        ++ routine_for (size (body (definition_body first (definition_levels d.now) d.now))) (Some d.now) ∷ []) }
{
    let unit = definition_levels(d);
    let registers = definition_top(unit, d);
    let begin = code.place();
    write_definition(alloc, code, first, unit as u16, d)?;
    let buffers = rooms(alloc, d.buffers.as_slice())?;
    routines.push(Routine {
        name: d.name,
        params: d.params.len() as u16,
        cells: d.cells.len() as u16,
        registers: registers as u16,
        buffers,
        length: code.place() - begin,
    })?;
    Ok(())
}

/// Writes the code of definitions, one behind the other, and the table of their routines. `AllocError`: there was no memory
/// for it.
pub(crate) fn write_routines(
    alloc: Global,
    code: &mut Writer,
    routines: &mut Items<Routine>,
    definitions: &[TypeDef],
) -> Result<(), AllocError>
    requires empty { code.old ≡ [] }
    requires none { routines.old ≡ [] }
    requires room { (n : ℕ) (d : TypeDef) → slice_get definitions.now n ≡ Some d → HasRoomFor (first_site definitions.now n) d }
    requires sites { first_site definitions.now (length definitions.now) < 2 ^ 32 }
    ensures code { OnOk result (code.new ≡ code_to (λ n. unit_in (slice_get definitions.now n)) definitions.now (length definitions.now)) }
    ensures routines { OnOk result (routines.new ≡ routines_to (λ n. unit_in (slice_get definitions.now n)) definitions.now (length definitions.now)) }
{
    let mut first = 0;
    for n in 0..definitions.len() {
        let d = &definitions[n];
        write_routine(alloc, code, routines, first, d)?;
        first += count_sites(d);
    }
    Ok(())
}
