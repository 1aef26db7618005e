//! Fields without bytes.

ghost use Rattle.std.specs.Prelude.{◌≡◌};
ghost use Rattle.td_meaning.specs.Words64.{given_value};

use crate::actions::cell_at;
use crate::expressions::value_of;
use crate::parameters::place_at;
use td_core::module::Source;

/// The number of a field without bytes that begins at `start`, for the values in scope, and what the cells hold there.
pub fn given_value(
    source: &Source,
    env: &[u64],
    places: &[usize],
    end: u32,
    start: u32,
    cells: &[u64],
) -> u64
    ensures { result ≡ given_value source.now env.now places.now end start cells.now }
{
    match source {
        Source::Expression { value, .. } => value_of(value, env),
        Source::Cell(cell) => cell_at(cells, place_at(places, *cell)),
        Source::Left => u64::from(end.saturating_sub(start)),
    }
}
