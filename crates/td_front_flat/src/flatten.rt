//! The tree of parts.

ghost use Rattle.std.specs.Prelude.{◌≡◌, ◌<◌, ◌^◌, ◌++◌, [], None, Some, IfOk, IfErr, OnOk, MatchOption, flat_map, length, slice_get};
ghost use Rattle.td_ast.specs.declared.parts.InputTree.TheVariants as InputTree;
ghost use Rattle.td_front_order.specs.Order.{IsWithin};
ghost use Rattle.td_front_flat.specs.Order.{order, names_of, graph_of, first_twice};
ghost use Rattle.td_front_flat.specs.Firsts.{IsFirstPlace, IsCycleFault};
ghost use Rattle.td_front_flat.specs.Flat.{flat, flat_in, IsLinked, IsFault};

use crate::cycle::first_cyclic;
use crate::error::FlatError;
use crate::graph::{all_uses, graph_of, names_of};
use crate::own::Own;
use crate::parts::add_part;
use std::alloc::{AllocError, Global};
use td_ast::definitions::{Def, ModuleTree};
use td_ast::names::Name;
use td_ast::parts::PartTree;
use td_front_order::order::order;
use td_names::names::Names;
use td_num::items::Items;

fn part_at(parts: &[PartTree], number: u32) -> Option<&PartTree>
    ensures { MatchOption result (slice_get parts.now number ≡ None) (λ part. slice_get parts.now number ≡ Some part.now) }
{
    parts.get(number as usize)
}

#[tactic(auto, using(crate::proofs::Among::found_in))]
fn add_at(
    alloc: Global,
    whole: &mut Items<Def>,
    own: &mut Own,
    parts: &[PartTree],
    number: u32,
) -> Result<(), AllocError>
    ensures whole { OnOk result (whole.new ≡ whole.old ++ flat_in own.old.parts parts.now number) }
    ensures parts { OnOk result (own.new.parts ≡ own.old.parts) }
{
    match part_at(parts, number) {
        None => Ok(()),
        Some(part) => {
            add_part(alloc, whole, own, number, part)?;
            Ok(())
        }
    }
}

// The definitions of parts of these names, in this order.
fn definitions(
    alloc: Global,
    names: Names,
    parts: &[PartTree],
    numbers: &[u32],
) -> Result<Items<Def>, AllocError>
    ensures { IfOk result (λ whole. whole ≡ flat_map (flat_in names parts.now) numbers.now) }
{
    let mut own = Own {
        number: 0,
        parts: names,
        literals: Names::new(alloc),
    };
    let mut whole = Items::new(alloc);
    for number in numbers {
        add_at(alloc, &mut whole, &mut own, parts, *number)?;
    }
    Ok(whole)
}

// The order of parts by a graph of uses, where `all` has for each part what it uses, or the first use in a cycle.
fn order_in(
    alloc: Global,
    graph: &[Items<u32>],
    names: &Names,
    all: &[Items<Name>],
) -> Result<Items<u32>, FlatError>
    requires within { IsWithin graph.now }
    requires count { length graph.now ≡ length names.now }
    requires graph { length graph.now < 2 ^ 32 }
    requires small { length all.now < 2 ^ 32 }
    ensures ok { IfOk result (λ numbers. IsFirstPlace names.now graph.now all.now None × (numbers ≡ order graph.now)) }
    ensures err { IfErr result (IsCycleFault names.now graph.now all.now) }
{
    if let Some(span) = first_cyclic(alloc, graph, names, all)? {
        return Err(FlatError::Cycle { span });
    }
    Ok(order(alloc, graph)?)
}

// The order of parts of these names, each part after those that it uses, or the first use in a cycle.
fn order_of(alloc: Global, names: &Names, parts: &[PartTree]) -> Result<Items<u32>, FlatError>
    requires names { names.now ≡ names_of parts.now }
    requires distinct { first_twice [] parts.now ≡ None }
    requires small { length parts.now < 2 ^ 32 }
    ensures ok { IfOk result (λ numbers. IsLinked (InputTree.Parts parts.now) × (numbers ≡ order (graph_of parts.now))) }
    ensures err { IfErr result (IsFault (InputTree.Parts parts.now)) }
{
    let all = all_uses(alloc, parts)?;
    let graph = graph_of(alloc, names, all.as_slice())?;
    order_in(alloc, graph.as_slice(), names, all.as_slice())
}

/// The tree of parts, which stay as they are: their definitions, each part after those that it uses, with the names that they have in
/// the whole text; places stay. `FlatError::Twice` names the first part that has the name of an earlier one (N2), `FlatError::Cycle` the
/// first use of a part that reaches, by uses, the part in which it is used (N5), where no name is twice. `FlatError::NoMemory`: out of
/// memory.
pub fn flat_parts(alloc: Global, parts: &[PartTree]) -> Result<ModuleTree, FlatError>
    requires { length parts.now < 2 ^ 32 }
    ensures ok { IfOk result (λ tree. IsLinked (InputTree.Parts parts.now) × (tree ≡ flat (InputTree.Parts parts.now))) }
    ensures err { IfErr result (IsFault (InputTree.Parts parts.now)) }
{
    let names = names_of(alloc, parts)?;
    let numbers = order_of(alloc, &names, parts)?;
    let definitions = definitions(alloc, names, parts, numbers.as_slice())?;
    Ok(ModuleTree { definitions })
}
