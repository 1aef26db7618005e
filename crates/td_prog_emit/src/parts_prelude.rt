//! The text of the helpers that stand in front of all routines in the file for messages in pieces.

ghost use Rattle.std.specs.Prelude.{◌*◌, ◌≤◌, [], ◌∷◌, codes, drop, flat_map};
ghost use Rattle.td_ir.specs.declared.tables.Parts as tables;
ghost use Rattle.td_prog_code.specs.PartsPrelude.{copy_in_parts, little_in_parts, parts_prelude};
ghost use Rattle.td_prog_emit.specs.Written.{Wrote, parts_helper_pieces};
ghost use Rattle.td_prog_text.specs.Expressions.{numeral};

use crate::heads::push_pointers;
use crate::pieces::{push, push_decimal_in, push_numeral_in};
use crate::prelude::push_big;
use std::alloc::AllocError;

// A byte above those that were taken.
fn push_more(out: &mut Vec<u8>, k: u64) -> Result<(), AllocError>
    requires { k ≤ 7 }
    ensures { Wrote result out.old.items out.new.items (codes "    more = td_byte(run, pos + " ∷ numeral k ∷ codes ");\n    number = number + (more << " ∷ numeral (8 * k) ∷ codes ");\n" ∷ []) }
{
    push_numeral_in(out, b"    more = td_byte(run, pos + ", k, b");\n")?;
    push_numeral_in(out, b"    number = number + (more << ", 8 * k, b");\n")
}

// A function that takes a number, and its first byte.
fn push_begin(out: &mut Vec<u8>, name: &[u8]) -> Result<(), AllocError>
    ensures { Wrote result out.old.items out.new.items (codes "TD_FUNCTION uint64_t " ∷ name.now ∷ codes "(struct td_run *run, uint64_t pos)\n{\n    uint64_t number = 0;\n    uint64_t more = 0;\n    number = td_byte(run, pos);\n" ∷ []) }
{
    push(out, b"TD_FUNCTION uint64_t ")?;
    push(out, name)?;
    push(
        out,
        b"(struct td_run *run, uint64_t pos)\n{\n    uint64_t number = 0;\n    uint64_t more = 0;\n    number = td_byte(run, pos);\n",
    )
}

fn push_little_1(out: &mut Vec<u8>) -> Result<(), AllocError>
    ensures { (parts : tables.Parts) → Wrote result out.old.items out.new.items (parts_helper_pieces parts (little_in_parts (codes "td_little_1") 1)) }
{
    push_begin(out, b"td_little_1")?;
    push(out, b"    return number;\n}\n\n")
}

fn push_little_2(out: &mut Vec<u8>) -> Result<(), AllocError>
    ensures { (parts : tables.Parts) → Wrote result out.old.items out.new.items (parts_helper_pieces parts (little_in_parts (codes "td_little_2") 2)) }
{
    push_begin(out, b"td_little_2")?;
    push_more(out, 1)?;
    push(out, b"    return number;\n}\n\n")
}

fn push_little_4(out: &mut Vec<u8>) -> Result<(), AllocError>
    ensures { (parts : tables.Parts) → Wrote result out.old.items out.new.items (parts_helper_pieces parts (little_in_parts (codes "td_little_4") 4)) }
{
    push_begin(out, b"td_little_4")?;
    push_more(out, 1)?;
    push_more(out, 2)?;
    push_more(out, 3)?;
    push(out, b"    return number;\n}\n\n")
}

fn push_little_8(out: &mut Vec<u8>) -> Result<(), AllocError>
    ensures { (parts : tables.Parts) → Wrote result out.old.items out.new.items (parts_helper_pieces parts (little_in_parts (codes "td_little_8") 8)) }
{
    push_begin(out, b"td_little_8")?;
    push_more(out, 1)?;
    push_more(out, 2)?;
    push_more(out, 3)?;
    push_more(out, 4)?;
    push_more(out, 5)?;
    push_more(out, 6)?;
    push_more(out, 7)?;
    push(out, b"    return number;\n}\n\n")
}

fn push_copy_in_parts(out: &mut Vec<u8>) -> Result<(), AllocError>
    ensures { (parts : tables.Parts) → Wrote result out.old.items out.new.items (parts_helper_pieces parts copy_in_parts) }
{
    push(
        out,
        b"TD_FUNCTION uint64_t td_copy(struct td_run *run, uint64_t pos, uint64_t room",
    )?;
    push_pointers(out, b"uint8_t *b", 1)?;
    push(
        out,
        b")\n{\n    uint64_t number = 0;\n    uint64_t count = 0;\n    while (count < room) {\n        number = td_byte(run, pos);\n",
    )?;
    push_decimal_in(out, b"        b", 0, b"[count] = (uint8_t)(number);\n")?;
    push_numeral_in(out, b"        pos = pos + ", 1, b";\n")?;
    push_numeral_in(out, b"        count = count + ", 1, b";\n")?;
    push(out, b"    }\n    return count;\n}\n\n")
}

/// The helpers, but for td_byte.
pub fn push_parts_prelude(out: &mut Vec<u8>) -> Result<(), AllocError>
    ensures { (parts : tables.Parts) → Wrote result out.old.items out.new.items (flat_map (parts_helper_pieces parts) (drop 1 parts_prelude)) }
{
    push_little_1(out)?;
    push_little_2(out)?;
    push_little_4(out)?;
    push_little_8(out)?;
    push_big(out, b"td_big_2", 2)?;
    push_big(out, b"td_big_4", 4)?;
    push_big(out, b"td_big_8", 8)?;
    push_copy_in_parts(out)
}
