//! What the machine hands on with a stretch of code.

use td_vm_step::activation::{CodeView, Level};

/// A routine of code, and the arguments with which it is run from outside.
#[derive(Clone, Copy)]
pub struct Call<'c, 'a> {
    pub code: CodeView<'c>,
    pub n: usize,
    pub args: &'a [u64],
}

/// From an instruction of a running routine on, up to another.
#[derive(Clone, Copy)]
pub struct CodeStretch<'l, 'c, 'p> {
    pub level: &'l Level<'c, 'p>,
    pub first: usize,
    pub to: usize,
}

/// The call at a place: its routine, the register of its first argument, and its cell map.
#[derive(Clone, Copy)]
pub struct Callee {
    pub at: usize,
    pub routine: usize,
    pub first: usize,
    pub map: usize,
}

/// What is free for further calls.
#[derive(Drop)]
pub struct Spare<'p, 'r> {
    pub places: &'p mut [usize],
    pub registers: &'r mut [u64],
}
