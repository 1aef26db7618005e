//! Output records.

ghost use Rattle.std.specs.Prelude.{◌≡◌, ◌<◌, [], OnErr, OnOk, IfOk, length, map};
ghost use Rattle.td_elab_rules.specs.Breach.{first_of};
ghost use Rattle.td_elab_rules.specs.Records.{slot_number, slot_of, slots_breaches, with_slots, record_breaches, after_record};

use crate::constants::{check_global, declare};
use crate::numbers::next_place;
use std::alloc::{AllocError, Global};
use td_ast::definitions::{OutputTree, SlotKind, SlotTree};
use td_elab_exprs::findings::Findings;
use td_elab_exprs::look_up::is_literal_name;
use td_elab_rules::breach::Rule;
use td_elab_rules::known::{Known, Meaning, Slot};
use td_names::names::Names;
use td_num::items::Items;
use td_num::number::NumberType;
use td_num::text::Text;

/// The type of the number in a slot; none for a pointer.
pub(crate) fn slot_number(kind: &SlotKind) -> Option<NumberType>
    ensures { result ≡ slot_number kind.now }
{
    match kind {
        SlotKind::Number(number) => Some(number.number),
        SlotKind::Pointer(_) => None,
    }
}

/// A slot. `AllocError`: out of memory.
fn slot(alloc: Global, tree: &SlotTree) -> Result<Slot, AllocError>
    ensures { IfOk result (λ s. s ≡ slot_of tree.now) }
{
    Ok(Slot {
        name: Text::copy_of(alloc, tree.name.text.as_slice())?,
        number: slot_number(&tree.kind),
    })
}

/// The slots of a record. `AllocError`: out of memory.
fn slots(alloc: Global, trees: &[SlotTree]) -> Result<Items<Slot>, AllocError>
    ensures { IfOk result (λ s. s ≡ map slot_of trees.now) }
{
    let mut slots = Items::new(alloc);
    for tree in trees {
        slots.push(slot(alloc, tree)?)?;
    }
    Ok(slots)
}

/// Notes the names of slots that were given before. `AllocError`: out of memory.
fn check_slots(
    alloc: Global,
    known: &Known,
    trees: &[SlotTree],
    findings: &mut Findings,
) -> Result<(), AllocError>
    ensures { OnOk result (findings.new.first ≡ first_of findings.old.first (slots_breaches known.now [] trees.now)) }
{
    let mut taken = Names::new(alloc);
    for tree in trees {
        let text = tree.name.text.as_slice();
        let is_given = taken.contains(text) || is_literal_name(known, text);
        findings.note_if(is_given, Rule::Twice, tree.name.span);
        taken.see(alloc, text)?;
    }
    Ok(())
}

/// The names of slots, beside others. `AllocError`: there is a slot, and out of memory.
pub(crate) fn see_slots(
    alloc: Global,
    trees: &[SlotTree],
    names: &mut Names,
) -> Result<(), AllocError>
    ensures names { OnOk result (names.new ≡ with_slots names.old trees.now) }
    ensures memory { OnErr result (0 < length trees.now) }
{
    for tree in trees {
        names.see(alloc, tree.name.text.as_slice())?;
    }
    Ok(())
}

/// What is known after an output record. `AllocError`: out of memory.
#[tactic(auto, using(td_elab_exprs::proofs::Steps::first_append))]
pub fn record(
    alloc: Global,
    known: &mut Known,
    tree: &OutputTree,
    findings: &mut Findings,
) -> Result<(), AllocError>
    ensures known { OnOk result (known.new ≡ after_record known.old tree.now) }
    ensures first { OnOk result (findings.new.first ≡ first_of findings.old.first (record_breaches known.old tree.now)) }
{
    let count = next_place(known.count as usize + 1)?;
    let place = next_place(known.records.len())?;
    let trees = tree.slots.as_slice();
    check_slots(alloc, known, trees, findings)?;
    check_global(known, &tree.name, findings);
    declare(
        alloc,
        known,
        tree.name.text.as_slice(),
        Meaning::Record(place),
    )?;
    see_slots(alloc, trees, &mut known.used)?;
    known.records.push(slots(alloc, trees)?)?;
    known.count = count;
    Ok(())
}
