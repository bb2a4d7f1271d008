// The receive engine of an XG-PON terminal: one call for each frame time and each wish of the host. Every call answers for
// every state, every frame and every lent buffer; what is unfit gets a number of the paper's table, and what is left after
// each number is fixed.
#![tactic(auto)]

mod lods;
mod naming;
mod stretching;

// The station's state, by value; `Station::power_on` gives O1 with nothing held or carried, and has no refusal.
pub use station::Station;
// What every call but the stretch and the writers comes back with: its answer, and the state that it leaves.
pub use station::Outcome;
// Whether a state is in range: what every call asks first, and answers 1 where it is not.
pub use validity::in_range;
// A frame has arrived: the plan of upstream bursts, the replies, the SDUs and the next state. Answers 0 to 6.
pub use frame::{Counts, FrameOutcome, frame};
// No frame has arrived: the synchroniser reports LODS. Answers 0 or 1.
pub use lods::lost;
// Where in the caller's frame an unfragmented SDU stands. Answers 0, 1, 2, 4, 5 or 6.
pub use stretching::{StretchPlace, stretch_place};
// That part of the frame itself, exactly as long as the SDU, or the empty one.
pub use stretching::stretch;
// Where all of them stand, into a lent list. Answers 0 to 6.
pub use stretching::{BYTES_A_NUMBER, StretchPlaces, stretch_places};
// What became of each structure of the frame's map, into a lent list of names. Answers 0 to 5.
pub use naming::{MOST_STRUCTURES, Named, why_dark};
// The host adds a port, in the lowest empty slot. Answers 0, 1, 7, 8 or 9.
pub use host::add_port;
// The host removes a port. Answers 0, 1, 7 or 8.
pub use host::remove_port;
// The host gives the key, which counts from the next call on. Answers 0, 1 or 10.
pub use host::give_key;
// HLend into a lent target. Answers 0 or 11.
pub use xgtc::hlend::write_hlend;
// An allocation structure into a lent target. Answers 0 or 11.
pub use xgtc::allocation::write_allocation;
// An XGEM header, and an XGEM frame with its SDU and padding, into a lent target. Answer 0 or 11.
pub use xgem::{write_xgem, write_xgem_frame};
