// What a call answers: the paper's table "What comes back", and the number of each answer in it.
#![tactic(auto)]

ghost use Rattle.std.specs.Prelude.{◌≡◌};
ghost use Rattle.answers.specs.Answers.{answer_number};

// The numbers of the table.
pub const DONE: u8 = 0;

pub const STATE_OUT_OF_RANGE: u8 = 1;

pub const FRAME_LENGTH_UNFIT: u8 = 2;

pub const BUFFER_TOO_SHORT: u8 = 3;

pub const HLEND_UNREADABLE: u8 = 4;

pub const HEADER_TOO_LONG: u8 = 5;

pub const DELINEATION_LOST: u8 = 6;

pub const PORT_OUT_OF_RANGE: u8 = 7;

pub const PORT_HELD_OR_NOT_HELD: u8 = 8;

pub const SLOTS_TAKEN: u8 = 9;

pub const KEY_REFUSED: u8 = 10;

pub const NOT_WRITTEN: u8 = 11;

#[derive(Clone, Copy)]
pub enum Answer {
    Done,
    StateOutOfRange,
    FrameLengthUnfit,
    BufferTooShort,
    HlendUnreadable,
    HeaderTooLong,
    DelineationLost,
    PortOutOfRange,
    PortHeldOrNotHeld,
    SlotsTaken,
    KeyRefused,
    NotWritten,
}

impl Answer {
    pub fn number(self) -> u8
        ensures { result ≡ answer_number self }
    {
        match self {
            Answer::Done => DONE,
            Answer::StateOutOfRange => STATE_OUT_OF_RANGE,
            Answer::FrameLengthUnfit => FRAME_LENGTH_UNFIT,
            Answer::BufferTooShort => BUFFER_TOO_SHORT,
            Answer::HlendUnreadable => HLEND_UNREADABLE,
            Answer::HeaderTooLong => HEADER_TOO_LONG,
            Answer::DelineationLost => DELINEATION_LOST,
            Answer::PortOutOfRange => PORT_OUT_OF_RANGE,
            Answer::PortHeldOrNotHeld => PORT_HELD_OR_NOT_HELD,
            Answer::SlotsTaken => SLOTS_TAKEN,
            Answer::KeyRefused => KEY_REFUSED,
            Answer::NotWritten => NOT_WRITTEN,
        }
    }
}
