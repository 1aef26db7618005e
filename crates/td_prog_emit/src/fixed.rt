//! Fixed text of the two files.

ghost use Rattle.std.specs.Prelude.{[], ◌∷◌, codes};
ghost use Rattle.td_prog_emit.specs.Written.{Wrote};
ghost use Rattle.td_prog_text.specs.Files as texts;

use crate::pieces::push;
use std::alloc::AllocError;

// The types of C that are used.
fn push_types_text(out: &mut Vec<u8>) -> Result<(), AllocError>
    ensures { Wrote result out.old.items out.new.items (texts.types_text ∷ []) }
{
    push(
        out,
        b"#ifdef __KERNEL__\n#include <linux/types.h>\n#ifndef UINT64_C\n#define UINT64_C(n) n##ULL\n#endif\n#ifndef UINT64_MAX\n#define UINT64_MAX 18446744073709551615ULL\n#endif\n#else\n#include <stdbool.h>\n#include <stdint.h>\n#endif\n\n",
    )
}

// Why a message is rejected.
fn push_reasons_text(out: &mut Vec<u8>) -> Result<(), AllocError>
    ensures { Wrote result out.old.items out.new.items (texts.reasons_text ∷ []) }
{
    push(
        out,
        b"#ifndef TD_REASONS\n#define TD_REASONS\ntypedef enum {\n  TD_NOT_ENOUGH = 0, TD_IMPOSSIBLE = 1, TD_LIST_SIZE = 2, TD_ACTION = 3, TD_CONSTRAINT = 4, TD_PADDING = 5, TD_NO_REASON = 6\n} td_reason;\n#endif\n\n",
    )
}

// How a validation ended.
fn push_outcome_text(out: &mut Vec<u8>) -> Result<(), AllocError>
    ensures { Wrote result out.old.items out.new.items (texts.outcome_text ∷ []) }
{
    push(
        out,
        b"#ifndef TD_OUTCOME\n#define TD_OUTCOME\n#define TD_LOOK_AT_ANSWER __attribute__((warn_unused_result))\n\n/* A type in which a validation failed, the field at which it stood, and the place at which that began. */\nstruct td_outcome_frame {\n    const char *type;\n    const char *field; /* or \"where\" or \"switch\" */\n    uint32_t start;\n};\n\n/* How a validation ended. Accepted: the reason is TD_NO_REASON, `position` is where the message's last part ends, and there are no\n * frames. Rejected: why, the place where the message fails, and the first `count` of the frames lead there, the innermost first.\n * All places count bytes from the message's start. */\nstruct td_outcome {\n    td_reason reason;\n    uint32_t position;\n    uint32_t count;\n    struct td_outcome_frame frame[32];\n};\n#endif\n\n",
    )
}

// A piece of a message.
fn push_piece_text(out: &mut Vec<u8>) -> Result<(), AllocError>
    ensures { Wrote result out.old.items out.new.items (texts.piece_text ∷ []) }
{
    push(
        out,
        b"#ifndef TD_PIECE\n#define TD_PIECE\n/* A piece of a message: `size` bytes, of which the first is byte `place` of these words. */\nstruct td_piece {\n    const uint64_t *words;\n    uint32_t place;\n    uint32_t size;\n};\n#endif\n\n",
    )
}

/// Which machines there are.
pub fn push_machines(out: &mut Vec<u8>) -> Result<(), AllocError>
    ensures { Wrote result out.old.items out.new.items (texts.machines ∷ []) }
{
    push(
        out,
        b"#if __BYTE_ORDER__ != __ORDER_LITTLE_ENDIAN__\n#error \"the bytes of a word are taken in little-endian order\"\n#endif\n#if __SIZEOF_POINTER__ != 8\n#error \"a load of 64 bits has to be one instruction\"\n#endif\n\n",
    )
}

/// How a word is loaded, and its bytes swapped.
pub fn push_primitives(out: &mut Vec<u8>) -> Result<(), AllocError>
    ensures { Wrote result out.old.items out.new.items (texts.primitives ∷ []) }
{
    push(
        out,
        b"/* How a word is loaded: one load of 64 bits, before all later ones. Another compiler may have its own. */\n#ifndef TD_LOAD\n#ifdef __KERNEL__\n#include <asm/barrier.h>\n#define TD_LOAD(word) smp_load_acquire(word)\n#else\n#define TD_LOAD(word) __atomic_load_n((word), __ATOMIC_ACQUIRE)\n#endif\n#endif\n/* A number's eight bytes the other way round. */\n#ifndef TD_SWAP\n#define TD_SWAP(number) __builtin_bswap64(number)\n#endif\n/* How functions are declared. For a small format `static inline __attribute__((always_inline))` may be faster. */\n#ifndef TD_FUNCTION\n#define TD_FUNCTION static inline\n#endif\n\n",
    )
}

/// What compilers shall not warn of.
pub fn push_warnings(out: &mut Vec<u8>) -> Result<(), AllocError>
    ensures { Wrote result out.old.items out.new.items (texts.warnings ∷ []) }
{
    push(
        out,
        b"/* What the code leaves unused, or compares with itself, is left so. */\n#pragma GCC diagnostic ignored \"-Wunused-function\"\n#pragma GCC diagnostic ignored \"-Wunused-parameter\"\n#pragma GCC diagnostic ignored \"-Wunused-but-set-variable\"\n#pragma GCC diagnostic ignored \"-Wunused-but-set-parameter\"\n#pragma GCC diagnostic ignored \"-Wunused-variable\"\n#pragma GCC diagnostic ignored \"-Wtautological-compare\"\n#ifdef __clang__\n#pragma clang diagnostic ignored \"-Wself-assign\"\n#endif\n\n",
    )
}

// A validation that runs, and how it fails.
fn push_failures(out: &mut Vec<u8>) -> Result<(), AllocError>
    ensures { Wrote result out.old.items out.new.items (texts.failures ∷ []) }
{
    push(
        out,
        b"/* A validation that runs: the message's words, the word behind the one that was loaded last, and what that load gave. */\nstruct td_run {\n    const uint64_t *words;\n    uint64_t next;\n    uint64_t held;\n    struct td_outcome *outcome;\n};\n\n/* What a function gives that fails: no position. */\n#define TD_FAILED UINT64_MAX\n\n__attribute__((cold, noinline)) static uint64_t td_frame(struct td_outcome *outcome, const char *type, const char *field, uint64_t start)\n{\n    if (outcome->count < 32) {\n        outcome->frame[outcome->count].type = type;\n        outcome->frame[outcome->count].field = field;\n        outcome->frame[outcome->count].start = (uint32_t)start;\n        outcome->count++;\n    }\n    return TD_FAILED;\n}\n\n__attribute__((cold, noinline)) static uint64_t td_fail(struct td_outcome *outcome, td_reason reason, uint64_t position, const char *type, const char *field, uint64_t start)\n{\n    outcome->reason = reason;\n    outcome->position = (uint32_t)position;\n    outcome->count = 0;\n    return td_frame(outcome, type, field, start);\n}\n\n",
    )
}

/// What stands before the functions of the file of C.
pub fn push_front(out: &mut Vec<u8>, prefix: &[u8]) -> Result<(), AllocError>
    ensures { Wrote result out.old.items out.new.items (codes "#include \"" ∷ prefix.now ∷ codes ".h\"\n\n" ∷ texts.machines ∷ texts.primitives ∷ texts.warnings ∷ texts.failures ∷ []) }
{
    push(out, b"#include \"")?;
    push(out, prefix)?;
    push(out, b".h\"\n\n")?;
    push_machines(out)?;
    push_primitives(out)?;
    push_warnings(out)?;
    push_failures(out)
}

/// What stands before the declarations of the header.
pub fn push_header_front(out: &mut Vec<u8>, prefix: &[u8]) -> Result<(), AllocError>
    ensures { Wrote result out.old.items out.new.items (codes "#ifndef TD_" ∷ prefix.now ∷ codes "_H\n#define TD_" ∷ prefix.now ∷ codes "_H\n\n" ∷ texts.types_text ∷ codes "#ifdef __cplusplus\nextern \"C\" {\n#endif\n\n" ∷ texts.reasons_text ∷ texts.outcome_text ∷ texts.piece_text ∷ []) }
{
    push(out, b"#ifndef TD_")?;
    push(out, prefix)?;
    push(out, b"_H\n#define TD_")?;
    push(out, prefix)?;
    push(out, b"_H\n\n")?;
    push_types_text(out)?;
    push(out, b"#ifdef __cplusplus\nextern \"C\" {\n#endif\n\n")?;
    push_reasons_text(out)?;
    push_outcome_text(out)?;
    push_piece_text(out)
}

/// What stands behind them.
pub fn push_header_end(out: &mut Vec<u8>) -> Result<(), AllocError>
    ensures { Wrote result out.old.items out.new.items (codes "#ifdef __cplusplus\n}\n#endif\n\n#endif\n" ∷ []) }
{
    push(out, b"#ifdef __cplusplus\n}\n#endif\n\n#endif\n")
}
