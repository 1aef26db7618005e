//! Handing on what waits in a page.

ghost use Rattle.std.specs.Prelude.{◌≡◌, [], OnOk};
ghost use Rattle.td_io.specs.States.{Writes};

use td_io::{Page, Sink, WriteFault, write_all};

/// Writes a page to a sink, and empties it.
pub fn hand_on<O: Sink>(out: &mut O, page: &mut Page) -> Result<(), WriteFault>
    ensures handed { Writes (O.state out.old) (O.state out.new) page.old.written result }
    ensures empty { OnOk result (page.new.written ≡ []) }
{
    write_all(out, page.written())?;
    page.cut(0);
    Ok(())
}
