//! Where a thread can be held.

pub use td_posts::name::PostName;

/// Is called between the steps of a run, so that a test can hold a thread there or store meanwhile. No clause rests on it: a
/// gate may do whatever another thread may.
pub trait Gate {
    /// Before load k of a message, counted from 0.
    fn before_load(&mut self, name: PostName, k: u32);

    /// After the reply to a message was kept.
    fn after_reply(&mut self, name: PostName);

    /// Before a step of a guest's script; guests and steps are counted from 1.
    fn before_step(&mut self, guest: u32, step: u32);
}

/// Holds nobody.
#[derive(Drop)]
pub struct OpenGate;

impl Gate for OpenGate {
    fn before_load(&mut self, _name: PostName, _k: u32) {}

    fn after_reply(&mut self, _name: PostName) {}

    fn before_step(&mut self, _guest: u32, _step: u32) {}
}
