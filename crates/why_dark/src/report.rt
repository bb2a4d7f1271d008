// What is printed of an input: a state's octets, and behind them a frame.
ghost use Rattle.std.specs.Prelude.{◌≡◌, ◌≤◌, length, take};
ghost use Rattle.text.specs.Texts.{added};
ghost use Rattle.why_dark.specs.Report.{refusal, frame_report, unread_report, report, most_text};

use super::{structures, words};
use answers::Answer;
use downstream::lengths::MOST_FRAME;
use engine::{MOST_STRUCTURES, Station};
use layout::STATE_BYTES;
use text::NEWLINE;
use xgem::ReadError;

// The longest input that is a state and a frame.
pub(crate) const MOST_INPUT: usize = STATE_BYTES + MOST_FRAME;

fn put_refusal(answer: Answer, text: &mut [u8], at: usize) -> usize
    ensures { record { text = text.new; place = result } ≡ added text.old at (refusal answer) }
{
    let b = words::put_labelled(b"refused ", u64::from(answer.number()), text, at);
    let c = text::put_word(b": ", text, b);
    let d = words::put_meaning(answer, text, c);
    text::put_octet(NEWLINE, text, d)
}

fn put_frame(s: Station, frame: &[u8], text: &mut [u8], at: usize) -> usize
    ensures { record { text = text.new; place = result } ≡ added text.old at (frame_report s frame.now) }
{
    let mut names = [0u8; MOST_STRUCTURES];
    let named = engine::why_dark(s, frame, &mut names);
    if named.answer.number() != answers::DONE {
        return put_refusal(named.answer, text, at);
    }
    structures::put_structures(frame, &names[..named.count], text, at)
}

fn put_unread(error: ReadError, text: &mut [u8], at: usize) -> usize
    ensures { record { text = text.new; place = result } ≡ added text.old at (unread_report error) }
{
    match error {
        ReadError::Unreadable => put_refusal(Answer::StateOutOfRange, text, at),
        ReadError::Short => text::put_word(b"input too short: no state of 208 bytes\n", text, at),
    }
}

fn put_report(input: &[u8], text: &mut [u8], at: usize) -> usize
    ensures { record { text = text.new; place = result } ≡ added text.old at (report input.now) }
{
    if MOST_INPUT < input.len() {
        return text::put_word(
            b"input too long: more than a state of 208 bytes and a frame of 135432\n",
            text,
            at,
        );
    }
    match layout::read_state(input) {
        Ok(s) => put_frame(s, &input[STATE_BYTES..], text, at),
        Err(error) => put_unread(error, text, at),
    }
}

// The whole report at the front of the text; answers how long it is.
pub(crate) fn report(input: &[u8], text: &mut [u8]) -> usize
    requires { most_text ≤ length text.old }
    ensures { (take result text.new ≡ report input.now) × (result ≤ length text.new) }
{
    put_report(input, text, 0)
}
