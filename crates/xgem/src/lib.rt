// Protected words as octets, and the XGEM frame of G.987.3 (clause 9.1). Fields are read from a true word alone, and every
// structure can be written.
#![tactic(auto)]

mod frame;
pub mod words;

pub use frame::{XgemHeader, payload_size, read_xgem, write_xgem, write_xgem_frame};
pub use words::word_ahead;

// Why a structure was not read: more than two bits of its word are wrong, or the slice ends before it does.
#[derive(Clone, Copy)]
pub enum ReadError {
    Unreadable,
    Short,
}
