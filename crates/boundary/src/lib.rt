// The engine for C and Rust: each call over plain slices and numbers, the state as octets of a buffer that the caller lends. The
// answers come in the order of their numbers. A state's buffer that is too short is answered 3 before all else, since there is no
// state to test; the boundary's other buffers (counts, place, key) are answered 3 where 1, and for a frame 2, is not the answer.
#![tactic(auto)]

mod arrivals;
mod counting;
mod naming;
mod states;
mod stretching;
mod writers;

pub use arrivals::{lingbarrow_frame, lingbarrow_stretch};
pub use naming::lingbarrow_why_dark;
pub use states::{
    lingbarrow_add_port, lingbarrow_give_key, lingbarrow_in_range, lingbarrow_lost,
    lingbarrow_power_on, lingbarrow_remove_port,
};
pub use stretching::lingbarrow_stretches;
pub use writers::{
    lingbarrow_write_allocation, lingbarrow_write_hlend, lingbarrow_write_xgem_frame,
};
