//! Fixed text of the file for messages in pieces.

ghost use Rattle.std.specs.Prelude.{[], ◌∷◌, codes};
ghost use Rattle.td_prog_emit.specs.Written.{Wrote};
ghost use Rattle.td_prog_text.specs.Files as texts;
ghost use Rattle.td_prog_text.specs.Parts as parts_texts;

use crate::fixed::{push_machines, push_primitives, push_warnings};
use crate::pieces::push;
use std::alloc::AllocError;

// How a validation fails.
fn push_failing(out: &mut Vec<u8>) -> Result<(), AllocError>
    ensures { Wrote result out.old.items out.new.items (texts.failing ∷ []) }
{
    push(
        out,
        b"/* What a function gives that fails: no position. */\n#define TD_FAILED UINT64_MAX\n\n__attribute__((cold, noinline)) static uint64_t td_frame(struct td_outcome *outcome, const char *type, const char *field, uint64_t start)\n{\n    if (outcome->count < 32) {\n        outcome->frame[outcome->count].type = type;\n        outcome->frame[outcome->count].field = field;\n        outcome->frame[outcome->count].start = (uint32_t)start;\n        outcome->count++;\n    }\n    return TD_FAILED;\n}\n\n__attribute__((cold, noinline)) static uint64_t td_fail(struct td_outcome *outcome, td_reason reason, uint64_t position, const char *type, const char *field, uint64_t start)\n{\n    outcome->reason = reason;\n    outcome->position = (uint32_t)position;\n    outcome->count = 0;\n    return td_frame(outcome, type, field, start);\n}\n\n",
    )
}

// A validation that runs, and what the caller's table says.
fn push_table(out: &mut Vec<u8>) -> Result<(), AllocError>
    ensures { Wrote result out.old.items out.new.items (parts_texts.table_text ∷ []) }
{
    push(
        out,
        b"/* A validation that runs: the message's pieces, the message word behind the one that was loaded last, and what that load gave. A message word\n * is a piece with a word that holds a byte of it; they are numbered by piece, and then by word. */\nstruct td_run {\n    const struct td_piece *pieces;\n    uint64_t next;\n    uint64_t held;\n    struct td_outcome *outcome;\n};\n\n/* How many bytes pieces have. */\nstatic inline uint64_t td_length_in(const struct td_piece *pieces, uint32_t count)\n{\n    uint64_t length = 0;\n    uint32_t k;\n\n    for (k = 0; k < count; k++) {\n        length += pieces[k].size;\n    }\n    return length;\n}\n\n/* How many words hold a byte of a piece. */\nstatic inline uint64_t td_words_in(const struct td_piece *piece)\n{\n    if (piece->size == 0) {\n        return 0;\n    }\n    return ((uint64_t)piece->place + piece->size - 1) / 8 - piece->place / 8 + 1;\n}\n\n/* The number of the message word of a byte of the message. */\nstatic inline uint64_t td_word_at(const struct td_run *run, uint64_t pos)\n{\n    const struct td_piece *piece = run->pieces;\n    uint64_t first = 0;\n\n    while (piece->size <= pos) {\n        first += td_words_in(piece);\n        pos -= piece->size;\n        piece++;\n    }\n    return first + (piece->place + pos) / 8 - piece->place / 8;\n}\n\n/* Which byte of that word it is. */\nstatic inline uint64_t td_offset_at(const struct td_run *run, uint64_t pos)\n{\n    const struct td_piece *piece = run->pieces;\n\n    while (piece->size <= pos) {\n        pos -= piece->size;\n        piece++;\n    }\n    return (piece->place + pos) % 8;\n}\n\n/* Where a message word lies. */\nstatic inline const uint64_t *td_place(const struct td_run *run, uint64_t word)\n{\n    const struct td_piece *piece = run->pieces;\n\n    while (td_words_in(piece) <= word) {\n        word -= td_words_in(piece);\n        piece++;\n    }\n    return &piece->words[piece->place / 8 + word];\n}\n\n",
    )
}

fn push_byte_helper(out: &mut Vec<u8>) -> Result<(), AllocError>
    ensures { Wrote result out.old.items out.new.items (parts_texts.byte_text ∷ []) }
{
    push(
        out,
        b"TD_FUNCTION uint64_t td_byte(struct td_run *run, uint64_t pos)\n{\n    uint64_t word = 0;\n    uint64_t low = 0;\n    word = td_word_at(run, pos);\n    low = td_offset_at(run, pos);\n    if (run->next <= word) {\n        run->held = TD_LOAD(td_place(run, word));\n        run->next = word + 1;\n    }\n    return (run->held >> (low * 8)) & 255;\n}\n\n",
    )
}

/// What stands before the functions of the file.
pub fn push_parts_front(out: &mut Vec<u8>, prefix: &[u8]) -> Result<(), AllocError>
    ensures { Wrote result out.old.items out.new.items (codes "#include \"" ∷ prefix.now ∷ codes ".h\"\n\n" ∷ texts.machines ∷ texts.primitives ∷ texts.warnings ∷ texts.failing ∷ parts_texts.table_text ∷ parts_texts.byte_text ∷ []) }
{
    push(out, b"#include \"")?;
    push(out, prefix)?;
    push(out, b".h\"\n\n")?;
    push_machines(out)?;
    push_primitives(out)?;
    push_warnings(out)?;
    push_failing(out)?;
    push_table(out)?;
    push_byte_helper(out)
}
