//! Gates that hold a thread until a message was answered.

ghost use Rattle.std.specs.Prelude.{◌≡◌, ◌*◌, IfOk, length};

use std::alloc::{AllocError, Global};
use std::sync::Wait;
use std::sync::atomic::{AtomicBool, AtomicUsize, Ordering};
use std::thread;
use td_cli_host::gates::GATES_OF_EACH;
use td_live::gate::Gate;
use td_posts::name::PostName;

/// How often a gate that holds looks for the answer before it gives up.
const MOST_TURNS: u32 = 1_000_000;

/// Where a gate holds.
#[derive(Clone, Copy)]
pub enum Place {
    /// Before load k of a message, from 0.
    Load(PostName, u32),
    /// Before a step of a guest's script, both from 1.
    Step { guest: u32, step: u32 },
}

/// What the gates of a run note.
#[derive(Drop)]
pub struct Notes {
    /// The messages that were answered.
    pub answered: boxcar::Vec<PostName>,
    /// How often a gate held.
    pub holds: AtomicUsize,
    /// Whether a hold ended at its limit.
    pub gave_up: AtomicBool,
    /// Whether an answer found no room in the list.
    pub unnoted: AtomicBool,
}

impl Notes {
    /// Nothing is noted, and there is room for so many answers.
    pub fn with_room(alloc: Global, count: usize) -> Result<Notes, AllocError> {
        Ok(Notes {
            answered: boxcar::Vec::with_capacity(alloc, count)?,
            holds: AtomicUsize::new(0),
            gave_up: AtomicBool::new(false),
            unnoted: AtomicBool::new(false),
        })
    }

    fn is_answered(&self, name: PostName) -> bool {
        for place in 0..self.answered.count() {
            if self.answered.get(place) == Some(&name) {
                return true;
            }
        }
        false
    }

    // Waits for an answer, so many turns at most.
    fn hold(&self, until: PostName) {
        self.holds.fetch_add(1, Ordering::SeqCst);
        for _ in 0..MOST_TURNS {
            if self.is_answered(until) {
                return;
            }
            thread::yield_now();
        }
        self.gave_up.store(true, Ordering::SeqCst);
    }
}

/// A gate that holds at each of its places until a message was answered, and notes each answer.
#[derive(Drop)]
pub struct Holding<'a, R: Wait> {
    pub rt: &'a R,
    pub notes: &'a Notes,
    pub places: &'a [Place],
    pub until: PostName,
}

impl<'a, R: Wait> Gate for Holding<'a, R> {
    fn before_load(&mut self, name: PostName, k: u32) {
        for place in self.places {
            if let Place::Load(held, at) = place {
                if *held == name && *at == k {
                    self.notes.hold(self.until);
                }
            }
        }
    }

    fn after_reply(&mut self, name: PostName) {
        if self.notes.answered.push(self.rt, name).is_err() {
            self.notes.unnoted.store(true, Ordering::SeqCst);
        }
    }

    fn before_step(&mut self, guest: u32, step: u32) {
        for place in self.places {
            if let Place::Step {
                guest: held,
                step: at,
            } = place
            {
                if *held == guest && *at == step {
                    self.notes.hold(self.until);
                }
            }
        }
    }
}

/// Such gates for sixteen workers and sixteen guests.
pub fn gates_at<'a, R: Wait>(
    alloc: Global,
    rt: &'a R,
    notes: &'a Notes,
    places: &'a [Place],
    until: PostName,
) -> Result<Vec<Holding<'a, R>>, AllocError>
    ensures { IfOk result (λ gates. length gates.items ≡ 2 * GATES_OF_EACH) }
{
    let mut gates = Vec::new(alloc);
    for _ in 0..2 * GATES_OF_EACH {
        gates.push(Holding {
            rt,
            notes,
            places,
            until,
        })?;
    }
    Ok(gates)
}
