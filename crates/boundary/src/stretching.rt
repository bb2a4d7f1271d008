// All stretches of a frame.
ghost use Rattle.std.specs.Prelude.{◌≡◌};
ghost use Rattle.boundary.specs.Lists.{ListIs, stretches_on};

use super::{arrivals, counting, states};

// Where each delivery of the frame stands in the frame, and its length, one after the other: both 0 where it has no stretch of its
// own. The count is how many deliveries there are.
pub fn lingbarrow_stretches(
    state: &[u8],
    frame: &[u8],
    places: &mut [usize],
    counts: &mut [usize],
) -> u8
    ensures { ListIs result places.new counts.new (stretches_on state.now frame.now places.old counts.old) }
{
    if counts.len() < counting::COUNTS {
        return arrivals::opened(state, frame, counts.len(), counting::COUNTS);
    }
    match layout::read_state(state) {
        Ok(s) => {
            let p = engine::stretch_places(s, frame, places);
            counting::put_count(counts, p.count);
            p.answer.number()
        }
        Err(error) => {
            counting::put_count(counts, 0);
            states::unread(error)
        }
    }
}
