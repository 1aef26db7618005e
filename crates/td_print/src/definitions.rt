//! Definitions, with an empty line between two.
#![tactic(auto, using(crate::proofs::Texts::texts))]

ghost use Rattle.std.specs.Prelude.{◌≡◌, ◌<◌, [], ◌∷◌, ◌++◌, length, OnErr, OnOk, flat_map};
ghost use Rattle.td_ast.specs.declared.token.TokenKind.TheVariants as kinds;
ghost use Rattle.td_print_layout.specs.Pieces.{Blank, LineEnd, Word, text_of};
ghost use Rattle.td_print_layout.specs.Definitions as layouts;
ghost use Rattle.td_print_layout.specs.Parameters.{head_pieces};
ghost use Rattle.td_print_layout.specs.Sequences.{name_piece, optional};
ghost use Rattle.td_print.specs.Writing.{after_comma, piece_text};

use crate::expressions::write_enclosed;
use crate::fields::{write_case_fields, write_struct_fields};
use crate::parameters::write_head;
use crate::printer::Printer;
use crate::words::{number_word, write_between, write_constant, write_name, write_plain};
use std::alloc::AllocError;
use td_ast::definitions::{
    AliasTree, CaseTree, CasetypeTree, Def, DefineTree, EnumTree, ItemTree, OutputTree, SlotKind,
    SlotTree, StructTree,
};
use td_ast::expressions::Expr;
use td_ast::fields::FieldTree;
use td_ast::names::{ConstTree, Name};
use td_ast::parameters::HeadTree;
use td_num::items::Items;

// `#define K 1`
fn write_define(out: &mut Printer, define: &DefineTree) -> Result<(), AllocError>
    ensures { OnOk result (out.new ≡ out.old ++ text_of (layouts.define_pieces define.now)) }
{
    write_between(out, b"#define ", &define.name, b" ")?;
    out.write_number(define.value.value, define.value.base)?;
    out.write(b"\n")
}

// ` = 1`
fn write_value(out: &mut Printer, value: &Option<ConstTree>) -> Result<(), AllocError>
    ensures { OnOk result (out.new ≡ out.old ++ text_of (optional layouts.value_pieces value.now)) }
{
    match value {
        None => Ok(()),
        Some(value) => {
            out.write(b" = ")?;
            write_constant(out, value)
        }
    }
}

// `A = 1`
fn write_item(out: &mut Printer, item: &ItemTree) -> Result<(), AllocError>
    ensures { OnOk result (out.new ≡ out.old ++ text_of (layouts.item_pieces item.now)) }
{
    write_name(out, &item.name)?;
    write_value(out, &item.value)
}

// Items, each on a line of its own after a comma.
fn write_other_items(out: &mut Printer, others: &[ItemTree]) -> Result<(), AllocError>
    ensures { OnOk result (out.new ≡ out.old ++ text_of (flat_map after_comma others.now)) }
{
    for item in others {
        out.write(b",\n    ")?;
        write_item(out, item)?;
    }
    Ok(())
}

// Items, a line each, all but the last with a comma.
fn write_items(out: &mut Printer, items: &[ItemTree]) -> Result<(), AllocError>
    ensures { OnOk result (out.new ≡ out.old ++ text_of (layouts.item_lines items.now)) }
{
    match items {
        [] => Ok(()),
        [first, others @ ..] => {
            out.write(b"    ")?;
            write_item(out, first)?;
            write_other_items(out, others)?;
            out.write(b"\n")?;
            Ok(())
        }
    }
}

// `T enum N {`, the items, `}`
fn write_enum(out: &mut Printer, tree: &EnumTree) -> Result<(), AllocError>
    ensures { OnOk result (out.new ≡ out.old ++ text_of (layouts.enum_pieces tree.now)) }
{
    out.write(number_word(tree.base.number))?;
    write_between(out, b" enum ", &tree.name, b" {\n")?;
    write_items(out, tree.items.as_slice())?;
    out.write(b"}\n")
}

// `typedef T U;`
fn write_alias(out: &mut Printer, alias: &AliasTree) -> Result<(), AllocError>
    ensures { OnOk result (out.new ≡ out.old ++ text_of (layouts.alias_pieces alias.now)) }
{
    out.write(b"typedef ")?;
    write_plain(out, &alias.target)?;
    write_between(out, b" ", &alias.name, b";\n")
}

fn write_entry(out: &mut Printer, entry: bool) -> Result<(), AllocError>
    ensures { OnOk result (out.new ≡ out.old ++ text_of (layouts.entry_pieces entry)) }
{
    if entry {
        out.write(b"entrypoint ")?;
    }
    Ok(())
}

// `} N;`
fn write_closing(out: &mut Printer, name: &Name) -> Result<(), AllocError>
    ensures { OnOk result (out.new ≡ out.old ++ text_of (layouts.closing_pieces name.now)) }
{
    write_between(out, b"} ", name, b";\n")
}

// `_N(..) where e {`: the first name of a definition, its head, and the brace.
fn write_opening(out: &mut Printer, tag: &Name, head: &HeadTree) -> Result<(), AllocError>
    ensures { OnOk result (out.new ≡ out.old ++ text_of (name_piece tag.now ∷ (head_pieces head.now ++ Blank ∷ Word kinds.OpenBrace ∷ LineEnd ∷ []))) }
{
    write_name(out, tag)?;
    write_head(out, head)?;
    out.write(b" {\n")
}

fn write_struct(out: &mut Printer, tree: &StructTree) -> Result<(), AllocError>
    ensures { OnOk result (out.new ≡ out.old ++ text_of (layouts.struct_pieces tree.now)) }
{
    write_entry(out, tree.entry)?;
    out.write(b"typedef struct ")?;
    write_opening(out, &tree.tag, &tree.head)?;
    write_struct_fields(out, tree.fields.as_slice())?;
    write_closing(out, &tree.name)?;
    Ok(())
}

// `switch (e) {`
fn write_subject(out: &mut Printer, subject: &Expr) -> Result<(), AllocError>
    ensures { OnOk result (out.new ≡ out.old ++ text_of (layouts.subject_pieces subject.now)) }
{
    write_enclosed(out, b"    switch (", subject, b") {\n")
}

// `case K:` and its fields
fn write_case(out: &mut Printer, case_tree: &CaseTree) -> Result<(), AllocError>
    ensures { OnOk result (out.new ≡ out.old ++ text_of (layouts.case_lines case_tree.now)) }
{
    out.write(b"        case ")?;
    write_constant(out, &case_tree.constant)?;
    out.write(b":\n")?;
    write_case_fields(out, case_tree.fields.as_slice())?;
    Ok(())
}

fn write_cases(out: &mut Printer, cases: &[CaseTree]) -> Result<(), AllocError>
    ensures { OnOk result (out.new ≡ out.old ++ text_of (flat_map layouts.case_lines cases.now)) }
{
    for case_tree in cases {
        write_case(out, case_tree)?;
    }
    Ok(())
}

// `default:` and its fields
fn write_default(out: &mut Printer, default: &Option<Items<FieldTree>>) -> Result<(), AllocError>
    ensures { OnOk result (out.new ≡ out.old ++ text_of (optional layouts.default_lines default.now)) }
{
    match default {
        None => Ok(()),
        Some(fields) => {
            out.write(b"        default:\n")?;
            write_case_fields(out, fields.as_slice())?;
            Ok(())
        }
    }
}

// `switch (e) {`, the cases, `}`
fn write_switch(out: &mut Printer, tree: &CasetypeTree) -> Result<(), AllocError>
    ensures { OnOk result (out.new ≡ out.old ++ text_of (layouts.cases_lines tree.now)) }
{
    write_subject(out, &tree.subject)?;
    write_cases(out, tree.cases.as_slice())?;
    write_default(out, &tree.default)?;
    out.write(b"    }\n")?;
    Ok(())
}

fn write_casetype(out: &mut Printer, tree: &CasetypeTree) -> Result<(), AllocError>
    ensures { OnOk result (out.new ≡ out.old ++ text_of (layouts.casetype_pieces tree.now)) }
{
    write_entry(out, tree.entry)?;
    out.write(b"casetype ")?;
    write_opening(out, &tree.tag, &tree.head)?;
    write_switch(out, tree)?;
    write_closing(out, &tree.name)?;
    Ok(())
}

fn write_slot_kind(out: &mut Printer, kind: &SlotKind) -> Result<(), AllocError>
    ensures { OnOk result (out.new ≡ out.old ++ piece_text (layouts.slot_piece kind.now)) }
{
    match kind {
        SlotKind::Number(tree) => out.write(number_word(tree.number)),
        SlotKind::Pointer(_) => out.write(b"PUINT8"),
    }
}

// `T a;` on a line
fn write_slot(out: &mut Printer, slot: &SlotTree) -> Result<(), AllocError>
    ensures { OnOk result (out.new ≡ out.old ++ text_of (layouts.slot_line slot.now)) }
{
    out.write(b"    ")?;
    write_slot_kind(out, &slot.kind)?;
    write_between(out, b" ", &slot.name, b";\n")
}

fn write_slots(out: &mut Printer, slots: &[SlotTree]) -> Result<(), AllocError>
    ensures { OnOk result (out.new ≡ out.old ++ text_of (flat_map layouts.slot_line slots.now)) }
{
    for slot in slots {
        write_slot(out, slot)?;
    }
    Ok(())
}

fn write_output(out: &mut Printer, tree: &OutputTree) -> Result<(), AllocError>
    ensures { OnOk result (out.new ≡ out.old ++ text_of (layouts.output_pieces tree.now)) }
{
    write_between(out, b"output typedef struct ", &tree.tag, b" {\n")?;
    write_slots(out, tree.slots.as_slice())?;
    write_closing(out, &tree.name)?;
    Ok(())
}

fn write_definition(out: &mut Printer, definition: &Def) -> Result<(), AllocError>
    ensures { OnOk result (out.new ≡ out.old ++ text_of (layouts.definition_pieces definition.now)) }
{
    match definition {
        Def::Define(tree) => write_define(out, tree),
        Def::Enum(tree) => write_enum(out, tree),
        Def::Alias(tree) => write_alias(out, tree),
        Def::Struct(tree) => write_struct(out, tree),
        Def::Casetype(tree) => write_casetype(out, tree),
        Def::Output(tree) => write_output(out, tree),
    }
}

// Definitions, each after an empty line.
fn write_others(out: &mut Printer, others: &[Def]) -> Result<(), AllocError>
    ensures { OnOk result (out.new ≡ out.old ++ text_of (flat_map (λ definition. (LineEnd ∷ []) ++ layouts.definition_pieces definition) others.now)) }
{
    for definition in others {
        out.write(b"\n")?;
        write_definition(out, definition)?;
    }
    Ok(())
}

/// Writes the definitions of a module or of a part.
pub(crate) fn write_definitions(out: &mut Printer, definitions: &[Def]) -> Result<(), AllocError>
    ensures memory { OnErr result (0 < length definitions.now) }
    ensures text { OnOk result (out.new ≡ out.old ++ text_of (layouts.definition_lines definitions.now)) }
{
    match definitions {
        [] => Ok(()),
        [first, others @ ..] => {
            write_definition(out, first)?;
            write_others(out, others)?;
            Ok(())
        }
    }
}
