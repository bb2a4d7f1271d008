// Answer 2: the length of a frame.
ghost use Rattle.std.specs.Prelude.{◌≡◌};
ghost use Rattle.downstream.specs.Lengths.{length_fits_lem};

const LEAST_FRAME: usize = 4;

pub const MOST_FRAME: usize = 135432;

const OCTETS_A_WORD: usize = 4;

#[tactic(auto, unfolding(crate::specs::Lengths::length_fits_lem))]
pub fn length_fits(frame: usize) -> bool
    ensures { result ≡ length_fits_lem frame }
{
    LEAST_FRAME <= frame && frame <= MOST_FRAME && frame % OCTETS_A_WORD == 0
}
