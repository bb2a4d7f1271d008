// A frame time that is lost.
ghost use Rattle.std.specs.Prelude.{◌≡◌};
ghost use Rattle.engine.specs.Lods.{LostLeaves, lost_left};

use answers::Answer;
use station::{Outcome, Station};

// A frame time in which the synchroniser reports LODS. Answers 0, or 1 with the state as it was.
pub fn lost(s: Station) -> Outcome
    ensures { LostLeaves s result }
{
    if !validity::in_range(s) {
        return Outcome {
            answer: Answer::StateOutOfRange,
            station: s,
        };
    }
    Outcome {
        answer: Answer::Done,
        station: timing::lost_time(s),
    }
}
