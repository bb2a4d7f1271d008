// What a station says on the PLOAM channel (G.987.3, clause 11.3.4): laid out, signed, written, and read again as the
// other end of the fibre does.
#![tactic(auto)]

pub mod reading;
pub mod writing;

use ids::OnuId;
use ploam::{Completion, SerialNumber};

// What a station says: Serial_Number_ONU with its random delay; Registration and Acknowledgement with the sender's
// ONU-ID and the SeqNo of the request, or 0. The Registration ID, an array, goes beside it.
#[derive(Clone, Copy)]
pub enum UpstreamMessage {
    SerialNumberOnu(SerialNumber, u32),
    Registration(OnuId, u8),
    Acknowledgement(OnuId, u8, Completion),
}

// Why no upstream message was read: its type or its completion code is none of these, or the slice is shorter than a message.
#[derive(Clone, Copy)]
pub enum Unheard {
    Other,
    Short,
}
