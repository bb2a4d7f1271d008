// What became of a structure, what a refusal means, and numbers and marks with what they are.
ghost use Rattle.std.specs.Prelude.{◌≡◌};
ghost use Rattle.text.specs.Texts.{added};
ghost use Rattle.why_dark.specs.Words.{name_of, meaning, labelled, marked};

use answers::Answer;
use entries::{
    AFTER_THE_LAST, CONTINUING_NOTHING, DBRU_WITHOUT_ROOM, FOREIGN, OVERLAPPING, PLANNED,
    SEVENTEENTH, SILENT, START_TIME_UNFIT, TOO_LONG, UNREADABLE,
};

pub(crate) fn put_name(name: u8, text: &mut [u8], at: usize) -> usize
    ensures { record { text = text.new; place = result } ≡ added text.old at (name_of name) }
{
    match name {
        PLANNED => text::put_word(b"planned", text, at),
        UNREADABLE => text::put_word(b"unreadable", text, at),
        START_TIME_UNFIT => text::put_word(b"StartTime unfit", text, at),
        DBRU_WITHOUT_ROOM => text::put_word(b"DBRu without room", text, at),
        FOREIGN => text::put_word(b"foreign", text, at),
        CONTINUING_NOTHING => text::put_word(b"continuing nothing", text, at),
        SEVENTEENTH => text::put_word(b"seventeenth", text, at),
        TOO_LONG => text::put_word(b"too long", text, at),
        OVERLAPPING => text::put_word(b"overlapping", text, at),
        AFTER_THE_LAST => text::put_word(b"after the fourth", text, at),
        SILENT => text::put_word(b"a state that sends nothing", text, at),
        _ => at,
    }
}

pub(crate) fn put_meaning(answer: Answer, text: &mut [u8], at: usize) -> usize
    ensures { record { text = text.new; place = result } ≡ added text.old at (meaning answer) }
{
    match answer {
        Answer::Done => at,
        Answer::StateOutOfRange => text::put_word(b"state out of range", text, at),
        Answer::FrameLengthUnfit => text::put_word(b"frame length unfit", text, at),
        Answer::BufferTooShort => text::put_word(b"a buffer too short", text, at),
        Answer::HlendUnreadable => text::put_word(b"HLend unreadable", text, at),
        Answer::HeaderTooLong => text::put_word(b"header longer than frame", text, at),
        Answer::DelineationLost => at,
        Answer::PortOutOfRange => at,
        Answer::PortHeldOrNotHeld => at,
        Answer::SlotsTaken => at,
        Answer::KeyRefused => at,
        Answer::NotWritten => at,
    }
}

// A mark's name, where it is set.
pub(crate) fn put_mark(set: bool, name: &[u8], text: &mut [u8], at: usize) -> usize
    ensures { record { text = text.new; place = result } ≡ added text.old at (marked set name.now) }
{
    if set {
        return text::put_word(name, text, at);
    }
    at
}

// A number behind what it is.
pub(crate) fn put_labelled(label: &[u8], n: u64, text: &mut [u8], at: usize) -> usize
    ensures { record { text = text.new; place = result } ≡ added text.old at (labelled label.now n) }
{
    let b = text::put_word(label, text, at);
    text::put_decimal(n, text, b)
}
