//! The two files of C.

ghost use Rattle.std.specs.Prelude.{◌≡◌, ◌<◌, IfOk, flat_map, length};
ghost use Rattle.td_ir.specs.Tables.{entry_of};
ghost use Rattle.td_ir.specs.WellFormed.{IsCode};
ghost use Rattle.td_prog_emit.specs.Written.{Wrote};
ghost use Rattle.td_prog_text.specs.Entries as texts;
ghost use Rattle.td_prog_text.specs.Files.{c_file, c_pieces, header, header_pieces};
ghost use Rattle.td_prog_text.specs.Parts.{parts_file, parts_pieces};
ghost use Rattle.td_prog_text.specs.PartsEntries as parts_texts;
ghost use Rattle.td_verify.specs.Safe.{IsSafe};
ghost use Rattle.td_verify.specs.Verify.{IsSound};

use crate::fixed::{push_front, push_header_end, push_header_front};
use crate::functions::{parts_of, push_functions, push_routines};
use crate::parts_entry::{push_parts_declaration, push_parts_function};
use crate::parts_fixed::push_parts_front;
use crate::parts_prelude::push_parts_prelude;
use crate::wrapper::{push_declaration, push_entry_function};
use std::alloc::{AllocError, Global};
use td_ir::tables::{EntryPoint, Parts};
use td_verify::Verified;

fn entry_at(parts: &Parts, k: usize) -> &EntryPoint
    requires { k < length parts.now.entries }
    ensures { result.now ≡ entry_of parts.now k }
{
    &parts.entries.as_slice()[k]
}

// The function of entry point `k`.
fn push_function_at(
    alloc: Global,
    out: &mut Vec<u8>,
    parts: &Parts,
    prefix: &[u8],
    k: usize,
) -> Result<(), AllocError>
    requires code { IsCode parts.now }
    requires there { k < length parts.now.entries }
    ensures { Wrote result out.old.items out.new.items (texts.function parts.now prefix.now (entry_of parts.now k)) }
{
    push_entry_function(alloc, out, parts, prefix, entry_at(parts, k))
}

// The declaration of entry point `k`.
fn push_declaration_at(
    alloc: Global,
    out: &mut Vec<u8>,
    parts: &Parts,
    prefix: &[u8],
    k: usize,
) -> Result<(), AllocError>
    requires code { IsCode parts.now }
    requires there { k < length parts.now.entries }
    ensures { Wrote result out.old.items out.new.items (texts.declaration parts.now prefix.now (entry_of parts.now k)) }
{
    push_declaration(alloc, out, parts, prefix, entry_at(parts, k))
}

fn push_entry_functions(
    alloc: Global,
    out: &mut Vec<u8>,
    parts: &Parts,
    prefix: &[u8],
) -> Result<(), AllocError>
    requires code { IsCode parts.now }
    ensures { Wrote result out.old.items out.new.items (flat_map (texts.function parts.now prefix.now) parts.now.entries) }
{
    for k in 0..parts.entries.len() {
        push_function_at(alloc, out, parts, prefix, k)?;
    }
    Ok(())
}

fn push_declarations(
    alloc: Global,
    out: &mut Vec<u8>,
    parts: &Parts,
    prefix: &[u8],
) -> Result<(), AllocError>
    requires code { IsCode parts.now }
    ensures { Wrote result out.old.items out.new.items (flat_map (texts.declaration parts.now prefix.now) parts.now.entries) }
{
    for k in 0..parts.entries.len() {
        push_declaration_at(alloc, out, parts, prefix, k)?;
    }
    Ok(())
}

fn push_source(
    alloc: Global,
    out: &mut Vec<u8>,
    parts: &Parts,
    prefix: &[u8],
) -> Result<(), AllocError>
    requires code { IsCode parts.now }
    requires sound { IsSound parts.now }
    requires safe { IsSafe parts.now }
    ensures { Wrote result out.old.items out.new.items (c_pieces prefix.now parts.now) }
{
    push_front(out, prefix)?;
    push_functions(alloc, out, parts)?;
    push_entry_functions(alloc, out, parts, prefix)
}

// The function of entry point `k`, for messages in pieces.
fn push_parts_function_at(
    alloc: Global,
    out: &mut Vec<u8>,
    parts: &Parts,
    prefix: &[u8],
    k: usize,
) -> Result<(), AllocError>
    requires code { IsCode parts.now }
    requires there { k < length parts.now.entries }
    ensures { Wrote result out.old.items out.new.items (parts_texts.parts_function parts.now prefix.now (entry_of parts.now k)) }
{
    push_parts_function(alloc, out, parts, prefix, entry_at(parts, k))
}

fn push_parts_functions(
    alloc: Global,
    out: &mut Vec<u8>,
    parts: &Parts,
    prefix: &[u8],
) -> Result<(), AllocError>
    requires code { IsCode parts.now }
    ensures { Wrote result out.old.items out.new.items (flat_map (parts_texts.parts_function parts.now prefix.now) parts.now.entries) }
{
    for k in 0..parts.entries.len() {
        push_parts_function_at(alloc, out, parts, prefix, k)?;
    }
    Ok(())
}

// The declaration of entry point `k`, for messages in pieces.
fn push_parts_declaration_at(
    alloc: Global,
    out: &mut Vec<u8>,
    parts: &Parts,
    prefix: &[u8],
    k: usize,
) -> Result<(), AllocError>
    requires code { IsCode parts.now }
    requires there { k < length parts.now.entries }
    ensures { Wrote result out.old.items out.new.items (parts_texts.parts_declaration parts.now prefix.now (entry_of parts.now k)) }
{
    push_parts_declaration(alloc, out, parts, prefix, entry_at(parts, k))
}

fn push_parts_declarations(
    alloc: Global,
    out: &mut Vec<u8>,
    parts: &Parts,
    prefix: &[u8],
) -> Result<(), AllocError>
    requires code { IsCode parts.now }
    ensures { Wrote result out.old.items out.new.items (flat_map (parts_texts.parts_declaration parts.now prefix.now) parts.now.entries) }
{
    for k in 0..parts.entries.len() {
        push_parts_declaration_at(alloc, out, parts, prefix, k)?;
    }
    Ok(())
}

fn push_parts_source(
    alloc: Global,
    out: &mut Vec<u8>,
    parts: &Parts,
    prefix: &[u8],
) -> Result<(), AllocError>
    requires code { IsCode parts.now }
    requires sound { IsSound parts.now }
    requires safe { IsSafe parts.now }
    ensures { Wrote result out.old.items out.new.items (parts_pieces prefix.now parts.now) }
{
    push_parts_front(out, prefix)?;
    push_parts_prelude(out)?;
    push_routines(alloc, out, parts)?;
    push_parts_functions(alloc, out, parts, prefix)
}

fn push_header(
    alloc: Global,
    out: &mut Vec<u8>,
    parts: &Parts,
    prefix: &[u8],
) -> Result<(), AllocError>
    requires code { IsCode parts.now }
    ensures { Wrote result out.old.items out.new.items (header_pieces prefix.now parts.now) }
{
    push_header_front(out, prefix)?;
    push_declarations(alloc, out, parts, prefix)?;
    push_parts_declarations(alloc, out, parts, prefix)?;
    push_header_end(out)
}

/// The file of C of a code's program: fixed text, its functions, and a function for each entry point. The prefix begins
/// the names of these, and of the header. Beside the text it takes a byte for each instruction of one routine, and the
/// names of one entry point's parameters. `AllocError`: there was no memory.
pub fn c_source(alloc: Global, code: &Verified, prefix: &[u8]) -> Result<Vec<u8>, AllocError>
    ensures { IfOk result (λ written. written.items ≡ c_file prefix.now code.now) }
{
    let mut out = Vec::new(alloc);
    push_source(alloc, &mut out, parts_of(code), prefix)?;
    Ok(out)
}

/// The header of the file of C: the types of an outcome, and for each entry point its structs and the declaration of its
/// function. `AllocError`: there was no memory.
pub fn c_header(alloc: Global, code: &Verified, prefix: &[u8]) -> Result<Vec<u8>, AllocError>
    ensures { IfOk result (λ written. written.items ≡ header prefix.now code.now) }
{
    let mut out = Vec::new(alloc);
    push_header(alloc, &mut out, parts_of(code), prefix)?;
    Ok(out)
}

/// The file of C for messages in pieces of a code's program: the same routines, with helpers that ask the caller's table.
/// The rest as of `c_source`.
pub fn parts_source(alloc: Global, code: &Verified, prefix: &[u8]) -> Result<Vec<u8>, AllocError>
    ensures { IfOk result (λ written. written.items ≡ parts_file prefix.now code.now) }
{
    let mut out = Vec::new(alloc);
    push_parts_source(alloc, &mut out, parts_of(code), prefix)?;
    Ok(out)
}
