// The payload of a downstream frame (clauses 9.1 to 9.3): XGEM frames are walked, fragments put together, SDUs delivered.
#![tactic(auto)]

mod frames;
mod memory;
mod walk;

pub use frames::{Next, XGEM_HEADER_BYTES, next_frame};
pub use walk::{Delineation, MEMORY_BYTES, Received, receive};
