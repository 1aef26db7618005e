//! Laws of jobs that are served. They do nothing when they are called.

ghost use Rattle.td_host.specs.Laws.{ServedWithoutRings};

use td_takes::laws::jobs_without_rings_have_no_take;

/// A job without rings has no take, and no seat but those of its workers and guests ended, whatever module descriptors are said to have.
pub fn jobs_without_rings_are_served_by_workers_and_guests()
    ensures { ServedWithoutRings }
{
    jobs_without_rings_have_no_take();
}
