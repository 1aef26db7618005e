//! Code: parts that fit together.

ghost use Rattle.std.specs.Prelude.{◌≡◌, IfOk, IfErr};
ghost use Rattle.td_ir.specs.WellFormed.{IsCode, IsRefused};

use crate::fitting::fit_together;
use crate::tables::Parts;
use std::marker::Model;
use thiserror::Error;

/// A table has what it may not have: an index that isn't in its table (the routine of a site too), a routine of no
/// instructions, with fewer registers than parameters or with 2^16 buffers or more, lengths of routines that aren't the count of
/// instructions together, an entry point with another number of parameters, cells or buffers than its routine, or a set that
/// doesn't strictly rise.
#[derive(Clone, Copy, PartialEq, Eq, Debug, Drop, Error)]
#[error("bad table")]
pub struct BadTable;

/// Instructions and tables that fit together. A contract sees the parts.
#[derive(Drop)]
pub struct Code {
    parts: Parts,
}

impl Model for Code {
    ghost use Rattle.td_ir.specs.declared.tables.Parts.{Parts};
    ghost use Rattle.td_ir.specs.WellFormed.{IsCode};

    ghost Value = { Parts };

    ghost view = { λ c. c.parts };

    ghost invariant = { λ c. IsCode c.parts };
}

impl Code {
    /// The code of these parts. Takes no memory. `BadTable`: they don't fit together; they are handed back.
    pub fn new(parts: Parts) -> Result<Code, (Parts, BadTable)>
        ensures same { IfOk result (λ code. code ≡ parts) }
        ensures fits { IfOk result (λ code. IsCode code) }
        ensures refused { IfErr result (λ refusal. IsRefused parts refusal) }
    {
        if fit_together(&parts) {
            Ok(Code { parts })
        } else {
            Err((parts, BadTable))
        }
    }

    /// The parts.
    pub fn parts(&self) -> &Parts
        ensures same { result.now ≡ self.now }
        ensures fits { IsCode self.now }
    {
        &self.parts
    }
}
