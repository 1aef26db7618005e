//! Writing all of a text.

ghost use Rattle.td_io.specs.States.{Writes};

use crate::slices::rest_at;
use crate::traits::{Failed, Sink};
use thiserror::Error;

/// A write failed before all was written: the sink's next fault, after which nothing was written.
#[derive(Clone, Copy, PartialEq, Eq, Debug, Error)]
#[error("a write failed")]
pub struct WriteFault;

impl From<Failed> for WriteFault {
    fn from(_failed: Failed) -> WriteFault {
        WriteFault
    }
}

/// Writes all of a text, by as many writes as it takes: for an empty text by none, so nothing fails and the sink's state is
/// as before. Takes no memory.
///
/// `WriteFault`: a write failed. What went out is a prefix of the text, and not all of it, and nothing was written after the
/// write that failed.
pub fn write_all<O: Sink>(out: &mut O, text: &[u8]) -> Result<(), WriteFault>
    ensures { Writes (O.state out.old) (O.state out.new) text.now result }
{
    let mut done = 0usize;
    while done < text.len() {
        done += out.write(rest_at(text, done))?;
    }
    Ok(())
}
