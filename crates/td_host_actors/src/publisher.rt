//! The publisher, which replaces the version by which messages are validated.

ghost use Rattle.std.specs.Prelude.{◌≡◌, ◌<◌, length};
ghost use Rattle.td_swap.specs.Seats.{IsPublishers};
ghost use Rattle.td_host_actors.specs.Acting.{RanPublisher};

use td_swap::codes::Codes;
use td_swap::seats::PublishSeat;

/// Publishes all versions after the first, in order.
pub fn publish_all(codes: &Codes, seat: &mut PublishSeat)
    requires own { IsPublishers codes.now seat.old }
    requires first { seat.old.view.number ≡ 0 }
    requires some { 0 < length codes.now.codes }
    ensures { RanPublisher seat.old seat.new }
{
    let count = codes.versions().len();
    for _number in 1..count {
        codes.publish(seat);
    }
}
