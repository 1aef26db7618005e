//! A session as C holds it.

ghost use Rattle.std.specs.Prelude.{◌≡◌, true, false, Some};
ghost use Rattle.td_c.specs.Handle.{handle_owns, slot_coded};
ghost use Rattle.td_c.specs.Kept.{IsClosed, IsForSession, IsForVersions, IsForSeat};
ghost use Rattle.td_c.specs.declared.handle.Slot.{Slot as kept};

use crate::answers::{Answer, Refusal};
use crate::room::PieceRoom;
use std::marker::Model;
use std::{mem, ptr};
use td_session::session::Session;
use td_session::versions::{Publisher, Reader};
use td_stream::made::Made;
use td_verify::verify::Verified;

/// Where a session stands, or none, with what the last validation found: its answer, and the loads that it made; or what a handle has
/// of codes of which one is published after the other. Its place is never freed, and is used again.
#[derive(Drop)]
pub struct Slot {
    pub session: Option<Session>,
    pub answer: Answer,
    // A list that has no bytes.
    pub made: Made,
    /// Versions of which none is published yet.
    pub waiting: Option<Vec<Verified>>,
    pub publisher: Option<Publisher>,
    pub reader: Option<Reader>,
    pub room: PieceRoom,
}

impl Slot {
    /// Nothing.
    pub fn empty() -> Slot
        ensures { IsClosed result }
    {
        Slot {
            session: None,
            answer: Err(Refusal::Unfit),
            made: Made::new(),
            waiting: None,
            publisher: None,
            reader: None,
            room: PieceRoom::none(),
        }
    }

    /// A session alone.
    pub fn of_session(session: Session) -> Slot
        ensures session { result.session ≡ Some session }
        ensures alone { IsForSession result }
    {
        let mut slot = Slot::empty();
        slot.session = Some(session);
        slot
    }

    /// Versions of which none is published yet.
    pub fn of_versions(versions: Vec<Verified>) -> Slot
        ensures versions { result.waiting ≡ Some versions }
        ensures alone { IsForVersions result }
    {
        let mut slot = Slot::empty();
        slot.waiting = Some(versions);
        slot
    }

    /// A seat that loads which version is published.
    pub fn of_reader(reader: Reader) -> Slot
        ensures seat { result.reader ≡ Some reader }
        ensures alone { IsForSeat result }
    {
        let mut slot = Slot::empty();
        slot.reader = Some(reader);
        slot
    }
}

/// A slot, or none. C sets all of it to zero before the first call, and never looks in.
#[repr(C)]
#[derive(Drop)]
pub struct TdSession {
    at: *mut u8,
    full: bool,
    // What the slot holds, where there is one.
    pub ghost value: { kept } by { slot_coded },
}

impl Model for TdSession {
    ghost also_owns = { λ h. handle_owns h.at h.full h.value };
}

impl TdSession {
    fn none() -> TdSession
        ensures { result.full ≡ false }
    {
        TdSession {
            at: ptr::null_mut(),
            full: false,
        }
    }

    fn some(slot: &'static mut Slot) -> TdSession
        ensures { (result.full ≡ true) × (result.value ≡ slot.old) }
    {
        TdSession {
            at: slot as *mut Slot as *mut u8,
            full: true,
        }
    }

    unsafe fn reach(self) -> &'static mut Slot
        requires { self.full ≡ true }
        ensures { result.now ≡ self.value }
    {
        let TdSession { at, full: _ } = self;
        &mut *(at as *mut Slot)
    }

    /// Puts a slot there, where none is.
    pub(crate) fn put(&mut self, slot: &'static mut Slot)
        ensures { (self.new.full ≡ true) × (self.new.value ≡ slot.old) }
    {
        *self = TdSession::some(slot);
    }

    /// Takes the slot that is there.
    pub(crate) fn take(&mut self) -> &'static mut Slot
        requires { self.old.full ≡ true }
        ensures { result.now ≡ self.old.value }
    {
        unsafe { mem::replace(self, TdSession::none()).reach() }
    }
}
