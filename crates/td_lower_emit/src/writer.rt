//! Code that is written one instruction after the other.

ghost use Rattle.std.specs.Prelude.{◌≡◌, ◌<◌, ◌≤◌, ◌++◌, ◌∷◌, [], length, OnOk, slice_set, take};

use std::alloc::{AllocError, Global};
use std::marker::Model;
use td_ir::instructions::Instr;
use td_num::items::Items;

/// Instructions in order, at most as many as a 32-bit number counts. A contract sees the list of them.
#[derive(Drop)]
pub struct Writer {
    instructions: Vec<Instr>,
}

impl Model for Writer {
    ghost use Rattle.std.specs.Prelude.{List, length, ◌<◌, ◌^◌};
    ghost use Rattle.td_ir.specs.declared.instructions.Instr.{Instr};

    ghost Value = { List Instr };

    ghost view = { λ w. w.instructions.items };

    ghost invariant = { λ w. length w.instructions.items < 2 ^ 32 };
}

impl Writer {
    /// No instructions. Takes no memory.
    pub fn new(alloc: Global) -> Writer
        ensures { result ≡ [] }
    {
        Writer {
            instructions: Vec::new(alloc),
        }
    }

    /// How many instructions were written: the place of the next.
    pub fn place(&self) -> u32
        ensures { result ≡ length self.now }
    {
        self.instructions.len() as u32
    }

    /// Writes one more instruction. `AllocError`: there was no memory for it (and there is none for more instructions
    /// than a 32-bit number counts).
    pub fn write(&mut self, instruction: Instr) -> Result<(), AllocError>
        ensures { OnOk result (self.new ≡ self.old ++ instruction ∷ []) }
    {
        if self.instructions.len() >= u32::MAX as usize {
            return Err(AllocError);
        }
        self.instructions.push(instruction)?;
        Ok(())
    }

    /// Writes an instruction in the place of one that was written.
    pub fn set(&mut self, place: u32, instruction: Instr)
        requires { place < length self.old }
        ensures { self.new ≡ slice_set self.old place instruction }
    {
        self.instructions[place as usize] = instruction;
    }

    /// Takes back what was written from a place on.
    pub(crate) fn shorten(&mut self, place: u32)
        requires { place ≤ length self.old }
        ensures { self.new ≡ take place self.old }
    {
        self.instructions.truncate(place as usize);
    }

    /// The instructions.
    pub fn finish(self) -> Items<Instr>
        ensures { result ≡ self }
    {
        Items::of(self.instructions)
    }
}
