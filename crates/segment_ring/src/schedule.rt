ghost use Rattle.std.specs.Prelude.{◌≡◌, ◌+◌};
ghost use Rattle.segment_ring.specs.Schedule.{Rises, StandsAt, fate_at};

use crate::wire::Fate;
use ec_fields::Rows;

/// The fate of a frame by a schedule whose numbers rise, where `next` stands behind the rows of all frames before it, and goes on to the next
/// frame.
pub(crate) fn fate_of(lose: &Rows<(u32, u32)>, next: &mut usize, number: u32) -> Fate
    requires rises { Rises lose.now }
    requires stands { StandsAt lose.now next.old number }
    ensures fate { result ≡ fate_at lose.now number }
    ensures stands { StandsAt lose.now next.new (number + 1) }
{
    let _rows = lose.len();
    let Some(&(lost, after)) = lose.get(*next) else {
        return Fate::Pass;
    };
    if lost != number {
        return Fate::Pass;
    }
    *next += 1;
    Fate::Lost { after }
}
