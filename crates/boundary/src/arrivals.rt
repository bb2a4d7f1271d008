// The frame call, and an unfragmented SDU as a stretch of the frame.
ghost use Rattle.std.specs.Prelude.{◌≡◌, [], ◌∷◌, ◌≤◌, leb, length};
ghost use Rattle.xgem.specs.Writes.{put};
ghost use Rattle.answers.specs.Answers.{answer_number};
ghost use Rattle.frame.specs.Given.{arriving, lending};
ghost use Rattle.layout.specs.Layout.{decoded};
ghost use Rattle.boundary.specs.Frames.{BuffersAre, PlaceIs, count_numbers, place_numbers, answer_by_lem, opened_by, counted, frame_on, place_on};

use super::states;
use downstream::Opening;
use frame::Counts;

const DONE: u8 = answers::DONE;

const COUNTS: usize = 3;

const PLACE: usize = 2;

fn put_counts(counts: &mut [usize], c: Counts)
    requires { count_numbers ≤ length counts.old }
    ensures { counts.new ≡ counted counts.old c }
{
    counts[0] = c.records;
    counts[1] = c.replies;
    counts[2] = c.bytes;
}

fn put_place(place: &mut [usize], at: usize, bytes: usize)
    requires { place_numbers ≤ length place.old }
    ensures { place.new ≡ put place.old (at ∷ (bytes ∷ [])) }
{
    place[0] = at;
    place[1] = bytes;
}

fn answer_by(o: Opening) -> u8
    ensures { result ≡ answer_number (answer_by_lem o) }
{
    match o {
        Opening::Refused(answer) | Opening::Unread(answer) => answer.number(),
        Opening::Opened(_) => DONE,
    }
}

// The answer to a frame where what comes back has room for so many numbers and needs so many. A call that has too few asks for it;
// that the room is tested here again leaves the way of all others as it is without that question (docs/PERFORMANCE.md).
pub(crate) fn opened(state: &[u8], frame: &[u8], have: usize, need: usize) -> u8
    ensures { result ≡ opened_by (decoded state.now) frame.now (leb need have) }
{
    match layout::read_state(state) {
        Ok(s) => { answer_by(downstream::open(engine::in_range(s), frame, need <= have)) }
        Err(error) => states::unread(error),
    }
}

// A frame has arrived. The counts are those of records in the plan, of replies, and of bytes in the deliveries.
pub fn lingbarrow_frame(
    state: &mut [u8],
    memory: &mut [u8],
    frame: &[u8],
    random_delay: u32,
    plan: &mut [u16],
    replies: &mut [u8],
    deliveries: &mut [u8],
    counts: &mut [usize],
) -> u8
    ensures { BuffersAre result state.new counts.new (lending memory.new plan.new replies.new deliveries.new) (frame_on state.old (arriving frame.now random_delay) counts.old (lending memory.old plan.old replies.old deliveries.old)) }
{
    if counts.len() < COUNTS {
        return opened(state, frame, counts.len(), COUNTS);
    }
    match layout::read_state(state) {
        Ok(s) => {
            let r = engine::frame(s, memory, frame, random_delay, plan, replies, deliveries);
            put_counts(counts, r.counts);
            states::put_back(r.answer, r.station, state)
        }
        Err(error) => {
            put_counts(counts, Counts::none());
            states::unread(error)
        }
    }
}

// Where delivery k of the frame stands in the frame, and its length: both 0 where it has no stretch of its own.
pub fn lingbarrow_stretch(state: &[u8], frame: &[u8], k: usize, place: &mut [usize]) -> u8
    ensures { PlaceIs result place.new (place_on state.now frame.now k place.old) }
{
    if place.len() < PLACE {
        return opened(state, frame, place.len(), PLACE);
    }
    match layout::read_state(state) {
        Ok(s) => {
            let p = engine::stretch_place(s, frame, k);
            put_place(place, p.at, p.bytes);
            p.answer.number()
        }
        Err(error) => {
            put_place(place, 0, 0);
            states::unread(error)
        }
    }
}
