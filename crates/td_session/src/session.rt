//! A verified code with room for its validations.

ghost use Rattle.std.specs.Prelude.{◌≡◌, ℕ, ◌<◌, ◌^◌, ◌≤◌, ◌↔◌, [], IfOk, IfErr, IfSome, IsSome, IsNone, MatchOption, Some, length as size_of, slice_get, take};
ghost use Rattle.std.specs.Arc.{arc_value};
ghost use Rattle.td_image.specs.Answer.{IsImage, IsRefused, MayRunOut, RanOut};
ghost use Rattle.td_stream.specs.Layouts.{count_in};
ghost use Rattle.td_ir.specs.Entries.{Fits, IsEntryNamed, IsFirstNamed, buffers_of};
ghost use Rattle.td_stream.specs.Copies.{held_by};
ghost use Rattle.td_ir.specs.WellFormed.{IsCode};
ghost use Rattle.td_vm.specs.Frames.{IsArmed, IsRestEmpty};
ghost use Rattle.td_session.specs.Room.{IsFresh};
ghost use Rattle.td_session.specs.Validated.{IsValidated};

use crate::kept::Kept;
use std::alloc::{AllocError, Global};
use std::sync::Arc;
use td_core::module::Entry;
use td_core::outcome::{TraceFrame, Verdict};
use td_image::{ImageError, read_image};
use td_ir::entries::{entry_in, fits};
use td_ir::tables::Parts;
use td_run::validation::validate_with_steps;
use td_stream::copies::Buffer;
use td_stream::layout::Layout;
use td_stream::words::Words;
use td_swap::codes::Codes;
use td_vm::laws::fitting_cells_have_room;
use td_vm::validate::Frame;

/// A code, which sessions share, and a frame that was armed for it, which is this session's own.
#[derive(Drop)]
pub struct Session {
    pub code: Arc<Kept, Global>,
    pub frame: Frame,
    pub ghost armed: { IsArmed (arc_value code) frame },
}

impl Session {
    // A session by this code. `AllocError`: there was no memory for its room.
    fn over(alloc: Global, code: Kept) -> Result<Session, AllocError>
        ensures code { IfOk result (λ s. arc_value s.code ≡ code) }
        ensures fresh { IfOk result (λ s. IsFresh (arc_value s.code) s.frame) }
    {
        Session::by(alloc, Arc::new(alloc, code)?)
    }

    // The same, of a code that may be shared already.
    fn by(alloc: Global, code: Arc<Kept, Global>) -> Result<Session, AllocError>
        ensures code { IfOk result (λ s. arc_value s.code ≡ arc_value code) }
        ensures fresh { IfOk result (λ s. IsFresh (arc_value s.code) s.frame) }
    {
        let frame = Frame::arm(alloc, code.verified())?;
        Ok(Session { code, frame })
    }

    /// The code of which the bytes are the image, with room for validations. The errors are those of `read_image`; `NoMemory`
    /// comes also where there was none for the room: so only where a first row of a table was read, or the bytes are an image.
    pub fn read(alloc: Global, image: &[u8]) -> Result<Session, ImageError>
        ensures found { IfOk result (λ s. IsImage (arc_value s.code) image.now) }
        ensures fresh { IfOk result (λ s. IsFresh (arc_value s.code) s.frame) }
        ensures refused { IfErr result (λ e. IsRefused image.now e) }
        ensures memory { IfErr result (λ e. RanOut e → MayRunOut image.now) }
    {
        let code = read_image(alloc, image)?;
        match Session::over(alloc, Kept::own(code)) {
            Ok(session) => Ok(session),
            Err(_) => Err(ImageError::NoMemory),
        }
    }

    /// A session by the version of this number. `AllocError`: there was no memory for it.
    pub fn listed(
        alloc: Global,
        codes: Arc<Codes, Global>,
        number: u32,
    ) -> Result<Session, AllocError>
        requires { number < size_of (arc_value codes).codes }
        ensures code { IfOk result (λ s. slice_get (arc_value codes).codes number ≡ Some (arc_value s.code)) }
        ensures fresh { IfOk result (λ s. IsFresh (arc_value s.code) s.frame) }
    {
        Session::over(alloc, Kept::listed(codes, number as usize))
    }

    /// Another session by the same code, with room of its own. `AllocError`: there was no memory for it.
    pub fn again(&self, alloc: Global) -> Result<Session, AllocError>
        ensures code { IfOk result (λ s. arc_value s.code ≡ arc_value self.now.code) }
        ensures fresh { IfOk result (λ s. IsFresh (arc_value s.code) s.frame) }
    {
        let code = Arc::try_clone(&self.code)?;
        Session::by(alloc, code)
    }

    /// The tables of the code.
    pub fn parts(&self) -> &Parts
        ensures same { result.now ≡ arc_value self.now.code }
        ensures fits { IsCode (arc_value self.now.code) }
    {
        self.code.verified().code().parts()
    }

    /// The first entry point of this name. Takes no memory. None: none of the first 2^32 has it.
    pub fn entry(&self, name: &[u8]) -> Option<Entry>
        ensures { MatchOption result ((n : ℕ) → n < 2 ^ 32 → IsEntryNamed (arc_value self.now.code) name.now n → ⊥)
            (λ entry. IsFirstNamed (arc_value self.now.code) name.now entry) }
    {
        entry_in(self.code.verified().code(), name)
    }

    /// The frames of the last failure, the innermost first; none where the last validation accepted.
    pub fn trace(&self) -> &[TraceFrame]
        ensures { result.now ≡ self.now.frame.trace }
    {
        self.frame.trace()
    }

    /// What was copied to the buffers of the code: those of the last validation's entry point are the first ones, as many as it has.
    pub fn copies(&self) -> &[Buffer]
        ensures { result.now ≡ self.now.frame.copies }
    {
        self.frame.copies()
    }

    /// Validates a message that lies so in the words, of which none was loaded yet. None: arguments and cells don't fit the entry point;
    /// nothing was loaded, and the session is as before. The cells begin as they are, and are left as the validation left them. Beside
    /// the verdict it tells how many steps the code's run took (docs/language/code.md), 2^64 - 1 where they are more. Takes no memory and
    /// waits for nobody.
    pub fn validate<W: Words>(
        &mut self,
        entry: Entry,
        args: &[u64],
        cells: &mut [u64],
        layout: &Layout,
        words: &mut W,
    ) -> Option<(Verdict, u64)>
        requires message { count_in layout.now ≤ W.size words.old }
        requires fresh { W.loads words.old ≡ [] }
        // The code stays, and the session is armed for it.
        ensures code { arc_value self.new.code ≡ arc_value self.old.code }
        // It validates exactly where arguments and cells fit the entry point.
        ensures fits { IsSome result ↔ Fits (arc_value self.old.code) entry args.now cells.old }
        // Then the verdict, with the session's trace, the cells as they are left and what the entry point's buffers hold, is the outcome, of so
        // many steps.
        ensures validated { IfSome result (λ v. IsValidated (arc_value self.old.code) entry args.now cells.old layout.now (W.loads words.new)
            (record { verdict = v.0; trace = self.new.frame.trace; cells = cells.new; copies = held_by (take (buffers_of (arc_value self.old.code) entry) self.new.frame.copies) }) v.1) }
        // The buffers behind the entry point's are empty.
        ensures rest { IfSome result (λ v. IsRestEmpty (arc_value self.old.code) (buffers_of (arc_value self.old.code) entry) self.new.frame) }
        ensures reaches { W.reaches words.old words.new }
        // Else nothing was loaded, and the cells and the session's room are as they were.
        ensures unloaded { IsNone result → W.loads words.new ≡ [] }
        ensures unchanged { IsNone result → cells.new ≡ cells.old }
        ensures kept { IsNone result → self.new.frame ≡ self.old.frame }
        ensures cells { size_of cells.new ≡ size_of cells.old }
    {
        if !fits(self.code.verified().code(), entry, args, cells) {
            words_stay(words);
            return None;
        }
        fitting_cells_have_room();
        self.frame.set_cells(cells);
        let found = validate_with_steps(
            self.code.verified(),
            entry,
            args,
            layout,
            &mut self.frame,
            words,
        );
        cells.copy_from_slice(self.frame.cells());
        Some(found)
    }
}

// Words reach themselves.
fn words_stay<W: Words>(words: &W)
    ensures { W.reaches words.now words.now }
{
    words.count();
}
