//! The first lines of the file of functions.

ghost use Rattle.std.specs.Prelude.{◌≡◌, ◌++◌, IfOk, OnOk, decimal};
ghost use Rattle.td_c_text.specs.Texts.{head_of};

use itoa::Buffer;
use std::alloc::{AllocError, Global};

// Bytes behind those that are there.
fn extend(out: &mut Vec<u8>, bytes: &[u8]) -> Result<(), AllocError>
    ensures { OnOk result (out.new.items ≡ out.old.items ++ bytes.now) }
{
    out.extend_from_slice(bytes)
}

// A number's decimal digits behind the bytes that are there.
fn extend_decimal(out: &mut Vec<u8>, value: u64) -> Result<(), AllocError>
    ensures { OnOk result (out.new.items ≡ out.old.items ++ decimal value) }
{
    let mut buffer = Buffer::new();
    out.extend_from_slice(buffer.format(value).as_bytes())
}

/// The lines that say how deep functions call each other, and how many variables they have. `AllocError`: there was no
/// memory for them.
pub fn head(alloc: Global, functions: u64, variables: u64) -> Result<Vec<u8>, AllocError>
    ensures { IfOk result (λ written. written.items ≡ head_of functions variables) }
{
    let mut out = Vec::new(alloc);
    extend(
        &mut out,
        b"/* The stack: below an entry point's function at most ",
    )?;
    extend_decimal(&mut out, functions)?;
    extend(&mut out, b" functions call each other,\n * with at most ")?;
    extend_decimal(&mut out, variables)?;
    extend(&mut out, b" variables of 64 bits in all. */\n\n")?;
    Ok(out)
}

/// Lines with a file behind them. `AllocError`: there was no memory for it.
pub fn joined(mut lines: Vec<u8>, file: &[u8]) -> Result<Vec<u8>, AllocError>
    ensures { IfOk result (λ written. written.items ≡ lines.items ++ file.now) }
{
    extend(&mut lines, file)?;
    Ok(lines)
}
