//! The text of the helpers that stand in front of all routines.

ghost use Rattle.std.specs.Prelude.{◌*◌, ◌≤◌, [], ◌∷◌, codes, decimal, flat_map};
ghost use Rattle.td_ir.specs.declared.tables.Parts as tables;
ghost use Rattle.td_prog_code.specs.Prelude.{big, little, prelude, td_copy, td_word};
ghost use Rattle.td_prog_emit.specs.Written.{Wrote, helper_pieces, single_pieces, whole_pieces};
ghost use Rattle.td_prog_text.specs.Expressions.{numeral};

use crate::heads::push_pointers;
use crate::names::push_helper;
use crate::pieces::{push, push_decimal_in, push_mask, push_numeral_in};
use std::alloc::AllocError;

fn push_word(out: &mut Vec<u8>) -> Result<(), AllocError>
    ensures { (parts : tables.Parts) → Wrote result out.old.items out.new.items (helper_pieces parts td_word) }
{
    push(
        out,
        b"TD_FUNCTION uint64_t td_word(struct td_run *run, uint64_t word)\n{\n    if (run->next <= word) {\n        run->held = TD_LOAD(&run->words[word]);\n        run->next = word + 1;\n    }\n    return run->held;\n}\n\n",
    )
}

// `low = (pos % 8) * 8; number = td_word(run, pos / 8);`
fn push_found(out: &mut Vec<u8>, blanks: &[u8]) -> Result<(), AllocError>
    ensures { Wrote result out.old.items out.new.items (blanks.now ∷ codes "low = (pos % " ∷ numeral 8 ∷ codes ") * " ∷ numeral 8 ∷ codes ";\n" ∷ blanks.now ∷ codes "number = td_word(run, pos / " ∷ numeral 8 ∷ codes ");\n" ∷ []) }
{
    push(out, blanks)?;
    push_numeral_in(out, b"low = (pos % ", 8, b") * ")?;
    push_numeral_in(out, b"", 8, b";\n")?;
    push(out, blanks)?;
    push_numeral_in(out, b"number = td_word(run, pos / ", 8, b");\n")
}

fn push_little(out: &mut Vec<u8>, name: &[u8], width: u16) -> Result<(), AllocError>
    requires { width ≤ 8 }
    ensures { (parts : tables.Parts) → Wrote result out.old.items out.new.items (helper_pieces parts (little name.now width)) }
{
    push(out, b"TD_FUNCTION uint64_t ")?;
    push(out, name)?;
    push(
        out,
        b"(struct td_run *run, uint64_t pos)\n{\n    uint64_t low = 0;\n    uint64_t number = 0;\n    uint64_t more = 0;\n",
    )?;
    push_found(out, b"    ")?;
    push(out, b"    number = number >> low;\n")?;
    push_numeral_in(out, b"    if (", 64 - 8 * width as u64, b" < low) {\n")?;
    push_numeral_in(out, b"        more = td_word(run, (pos / ", 8, b") + ")?;
    push_numeral_in(out, b"", 1, b");\n")?;
    push_numeral_in(
        out,
        b"        number = number + (more << (",
        64,
        b" - low));\n    }\n",
    )?;
    push(out, b"    return number & ")?;
    push_mask(out, 8 * width)?;
    push(out, b";\n}\n\n")
}

/// A number whose highest byte stands first.
pub fn push_big(out: &mut Vec<u8>, name: &[u8], width: u16) -> Result<(), AllocError>
    requires { width ≤ 8 }
    ensures { (parts : tables.Parts) → Wrote result out.old.items out.new.items (helper_pieces parts (big name.now width)) }
{
    push(out, b"TD_FUNCTION uint64_t ")?;
    push(out, name)?;
    push(
        out,
        b"(struct td_run *run, uint64_t pos)\n{\n    uint64_t number = 0;\n    number = ",
    )?;
    push_helper(out, 0, width)?;
    push(out, b"(run, pos);\n")?;
    push_numeral_in(
        out,
        b"    return TD_SWAP(number) >> ",
        64 - 8 * width as u64,
        b";\n}\n\n",
    )
}

// `b0[count + 1] = (uint8_t)(number >> 8);`
fn push_byte(out: &mut Vec<u8>, k: u64) -> Result<(), AllocError>
    requires { k ≤ 7 }
    ensures { Wrote result out.old.items out.new.items (codes "            b" ∷ decimal 0 ∷ codes "[count + " ∷ numeral k ∷ codes "] = (uint8_t)(number >> " ∷ numeral (8 * k) ∷ codes ");\n" ∷ []) }
{
    push_decimal_in(out, b"            b", 0, b"[count + ")?;
    push_numeral_in(out, b"", k, b"] = (uint8_t)(number >> ")?;
    push_numeral_in(out, b"", 8 * k, b");\n")
}

// Whole words, of each its eight bytes at once.
fn push_whole(out: &mut Vec<u8>) -> Result<(), AllocError>
    ensures { Wrote result out.old.items out.new.items whole_pieces }
{
    push_numeral_in(
        out,
        b"        while (",
        7,
        b" < more) {\n            number = td_word(run, pos / ",
    )?;
    push_numeral_in(out, b"", 8, b");\n")?;
    push_byte(out, 0)?;
    push_byte(out, 1)?;
    push_byte(out, 2)?;
    push_byte(out, 3)?;
    push_byte(out, 4)?;
    push_byte(out, 5)?;
    push_byte(out, 6)?;
    push_byte(out, 7)?;
    push_numeral_in(out, b"            pos = pos + ", 8, b";\n")?;
    push_numeral_in(out, b"            count = count + ", 8, b";\n")?;
    push_numeral_in(out, b"            more = more - ", 8, b";\n        }\n")
}

// One byte.
fn push_single(out: &mut Vec<u8>) -> Result<(), AllocError>
    ensures { Wrote result out.old.items out.new.items single_pieces }
{
    push_numeral_in(
        out,
        b"        if (count < room) {\n            number = td_word(run, pos / ",
        8,
        b");\n",
    )?;
    push_decimal_in(
        out,
        b"            b",
        0,
        b"[count] = (uint8_t)(number >> low);\n",
    )?;
    push_numeral_in(out, b"            pos = pos + ", 1, b";\n")?;
    push_numeral_in(out, b"            count = count + ", 1, b";\n        }\n")
}

fn push_copy_helper(out: &mut Vec<u8>) -> Result<(), AllocError>
    ensures { (parts : tables.Parts) → Wrote result out.old.items out.new.items (helper_pieces parts td_copy) }
{
    push(
        out,
        b"TD_FUNCTION uint64_t td_copy(struct td_run *run, uint64_t pos, uint64_t room",
    )?;
    push_pointers(out, b"uint8_t *b", 1)?;
    push(
        out,
        b")\n{\n    uint64_t low = 0;\n    uint64_t number = 0;\n    uint64_t more = 0;\n    uint64_t count = 0;\n    while (count < room) {\n",
    )?;
    push_numeral_in(out, b"        low = (pos % ", 8, b") * ")?;
    push_numeral_in(
        out,
        b"",
        8,
        b";\n        more = room - count;\n        if (low) {\n",
    )?;
    push_numeral_in(out, b"            more = ", 0, b";\n        }\n")?;
    push_whole(out)?;
    push_single(out)?;
    push(out, b"    }\n    return count;\n}\n\n")
}

/// The helpers.
pub fn push_prelude(out: &mut Vec<u8>) -> Result<(), AllocError>
    ensures { (parts : tables.Parts) → Wrote result out.old.items out.new.items (flat_map (helper_pieces parts) prelude) }
{
    push_word(out)?;
    push_little(out, b"td_little_1", 1)?;
    push_little(out, b"td_little_2", 2)?;
    push_little(out, b"td_little_4", 4)?;
    push_little(out, b"td_little_8", 8)?;
    push_big(out, b"td_big_2", 2)?;
    push_big(out, b"td_big_4", 4)?;
    push_big(out, b"td_big_8", 8)?;
    push_copy_helper(out)
}
