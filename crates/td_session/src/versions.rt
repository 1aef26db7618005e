//! Codes of which one is published after the other: what the one who publishes holds, and what each thread holds that asks which one
//! is published.

ghost use Rattle.std.specs.Prelude.{◌≡◌, ◌+◌, ◌<◌, ◌≤◌, ◌↔◌, Some, IfOk, OnOk, OnErr, IfSome, IsSome, IsNone, length, slice_get};
ghost use Rattle.std.specs.Arc.{arc_value};
ghost use Rattle.td_swap.specs.declared.version.TheConstants.{MOST_VERSIONS};
ghost use Rattle.td_swap.specs.Views.{new_view, AreVersions};
ghost use Rattle.td_swap.specs.Seats.{IsPublishers, IsOwn, swap_state, then_published, then_loaded, then_split};
ghost use Rattle.td_session.specs.Room.{IsFresh};

use crate::session::Session;
use std::alloc::{AllocError, Global};
use std::sync::Arc;
use td_swap::codes::Codes;
use td_swap::seats::{PublishSeat, SwapSeat};
use td_verify::verify::Verified;

/// The codes, the seat that publishes them, and one that makes the seats of others.
#[derive(Drop)]
pub struct Publisher {
    pub codes: Arc<Codes, Global>,
    pub seat: PublishSeat,
    pub maker: SwapSeat,
    pub ghost own: { IsPublishers (arc_value codes) seat },
    pub ghost made: { IsOwn (arc_value codes) maker },
}

impl Publisher {
    /// Versions of these codes, the first of them published. `AllocError`: there was no memory for them.
    pub fn open(alloc: Global, codes: Vec<Verified>) -> Result<Publisher, AllocError>
        requires some { 0 < length codes.items }
        requires few { length codes.items ≤ MOST_VERSIONS }
        ensures codes { IfOk result (λ p. (arc_value p.codes).codes ≡ codes.items) }
        ensures first { IfOk result (λ p. p.seat.view.number ≡ 0) }
        // The seat that makes others loaded nothing yet, and never does.
        ensures maker { IfOk result (λ p. p.maker ≡ swap_state (arc_value p.codes).table (new_view (length codes.items))) }
    {
        let (codes, seat, maker) = Codes::open(alloc, codes)?;
        let codes = Arc::new(alloc, codes)?;
        Ok(Publisher { codes, seat, maker })
    }

    /// Publishes the next version, and answers its number. None: the last one is published.
    pub fn publish(&mut self) -> Option<u32>
        ensures codes { arc_value self.new.codes ≡ arc_value self.old.codes }
        ensures left { IsSome result ↔ (self.old.seat.view.number + 1 < length (arc_value self.old.codes).codes) }
        ensures number { IfSome result (λ n. n ≡ self.old.seat.view.number + 1) }
        ensures seat { IsSome result → self.new.seat ≡ then_published self.old.seat }
        ensures kept { IsNone result → self.new.seat ≡ self.old.seat }
        ensures unloaded { self.new.maker ≡ self.old.maker }
    {
        if (self.seat.number() as usize).saturating_add(1) >= self.codes.versions().len() {
            return None;
        }
        Some(self.codes.publish(&mut self.seat))
    }

    /// A seat for another thread, which loaded nothing yet; the seat that makes others made one more. `AllocError`: the codes are
    /// shared too often, and no seat was made.
    pub fn split(&mut self) -> Result<Reader, AllocError>
        ensures codes { arc_value self.new.codes ≡ arc_value self.old.codes }
        ensures seat { self.new.seat ≡ self.old.seat }
        ensures made { OnOk result (self.new.maker ≡ then_split self.old.maker) }
        ensures unmade { OnErr result (self.new ≡ self.old) }
        ensures shared { IfOk result (λ r. arc_value r.codes ≡ arc_value self.old.codes) }
        ensures fresh { IfOk result (λ r. r.seat ≡ swap_state (arc_value self.old.codes).table (new_view (length (arc_value self.old.codes).codes))) }
    {
        let codes = Arc::try_clone(&self.codes)?;
        let seat = self.codes.split(&mut self.maker);
        Ok(Reader { codes, seat })
    }
}

/// The codes, and a seat that loads which one is published.
#[derive(Drop)]
pub struct Reader {
    pub codes: Arc<Codes, Global>,
    pub seat: SwapSeat,
    pub ghost own: { IsOwn (arc_value codes) seat },
}

impl Reader {
    /// How many versions there are. This loads nothing.
    pub fn count(&self) -> usize
        ensures { result ≡ length (arc_value self.now.codes).codes }
    {
        self.codes.versions().len()
    }

    /// Loads which version is published, in one load: its number. The seat has just that number more, and its numbers never fall.
    pub fn current(&mut self) -> u32
        ensures codes { arc_value self.new.codes ≡ arc_value self.old.codes }
        ensures seat { self.new.seat ≡ then_loaded self.old.seat result }
        ensures versions { AreVersions self.new.seat.view }
        ensures below { result < length (arc_value self.old.codes).codes }
    {
        self.codes.current(&mut self.seat).number
    }

    /// A session by the version of this number, with room of its own. `AllocError`: there was no memory for it.
    pub fn session(&self, alloc: Global, number: u32) -> Result<Session, AllocError>
        requires { number < length (arc_value self.now.codes).codes }
        ensures code { IfOk result (λ s. slice_get (arc_value self.now.codes).codes number ≡ Some (arc_value s.code)) }
        ensures fresh { IfOk result (λ s. IsFresh (arc_value s.code) s.frame) }
    {
        let codes = Arc::try_clone(&self.codes)?;
        Session::listed(alloc, codes, number)
    }
}
