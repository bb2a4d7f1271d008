// What became of each structure of a frame's map.
ghost use Rattle.std.specs.Prelude.{◌≡◌};
ghost use Rattle.boundary.specs.Lists.{ListIs, why_dark_on};

use super::{arrivals, counting, states};

// The name of every structure of the frame's map, by its number. The count is how many structures there are.
pub fn lingbarrow_why_dark(state: &[u8], frame: &[u8], names: &mut [u8], counts: &mut [usize]) -> u8
    ensures { ListIs result names.new counts.new (why_dark_on state.now frame.now names.old counts.old) }
{
    if counts.len() < counting::COUNTS {
        return arrivals::opened(state, frame, counts.len(), counting::COUNTS);
    }
    match layout::read_state(state) {
        Ok(s) => {
            let p = engine::why_dark(s, frame, names);
            counting::put_count(counts, p.count);
            p.answer.number()
        }
        Err(error) => {
            counting::put_count(counts, 0);
            states::unread(error)
        }
    }
}
