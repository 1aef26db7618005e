//! Validations of messages in a shared buffer, by the code of a module text.

ghost use Rattle.std.specs.Prelude.{◌≡◌};
ghost use Rattle.td_stream.specs.Layouts.{AreWithin};

use std::alloc::Global;
use td_code::code_of;
use td_core::module::{Entry, Module};
use td_core::outcome::Outcome;
use td_front::check_module;
use td_ir::entries::fits;
use td_live::gate::Gate;
use td_live::message::LiveMessage;
use td_live::slot::validate_slot;
use td_stream::loads::Loads;
use td_verify::verify::Verified;
use td_vm::laws::fitting_cells_have_room;
use td_vm::validate::Frame;
use td_words::seats::ReadSeat;

/// The entry point of each module here, which takes no argument.
pub(crate) const ENTRY: Entry = Entry { number: 0 };

/// A module, and its code.
#[derive(Drop)]
pub(crate) struct Compiled {
    pub(crate) checked: Module,
    pub(crate) code: Verified,
}

/// The module of a text, and its code. None: the text is longer than those here or none of a module, or there was no memory.
pub(crate) fn compile(alloc: Global, text: &[u8]) -> Option<Compiled> {
    if text.len() > 4000 {
        return None;
    }
    let Ok(checked) = check_module(alloc, text) else {
        return None;
    };
    let Ok(code) = code_of(alloc, &checked) else {
        return None;
    };
    Some(Compiled { checked, code })
}

/// How a validation ended, and the loads that it made.
#[derive(Drop)]
pub(crate) struct Ran {
    pub(crate) outcome: Outcome,
    pub(crate) loads: Loads,
}

/// Validates a message once, from these cells. None: the entry point doesn't take them, or there was no memory.
pub(crate) fn validated<G: Gate>(
    alloc: Global,
    code: &Verified,
    message: &LiveMessage<'_>,
    seat: &mut ReadSeat,
    cells: &[u64],
    gate: &mut G,
) -> Option<Ran>
    requires own { seat.old.table ≡ message.now.shared.now.table }
    requires inside { AreWithin message.now.shared.now.count message.now.layout.now }
    ensures own { seat.new.table ≡ message.now.shared.now.table }
{
    if !fits(code.code(), ENTRY, &[], cells) {
        return None;
    }
    fitting_cells_have_room();
    let Ok(mut loads) = Loads::with_room(alloc, message.layout.count()) else {
        return None;
    };
    let Ok(mut frame) = Frame::arm(alloc, code) else {
        return None;
    };
    frame.set_cells(cells);
    let verdict = validate_slot(
        code,
        ENTRY,
        &[],
        message,
        seat,
        &mut frame,
        &mut loads,
        gate,
    );
    Some(Ran {
        outcome: frame.into_outcome(code, ENTRY, verdict),
        loads,
    })
}
