// The lines of the bench run, as text.
ghost use Rattle.std.specs.Prelude.{◌≡◌, ◌+◌, ◌≤◌, [], ◌∷◌, length};
ghost use Rattle.payload.specs.Memory.{put};
ghost use Rattle.trace.specs.Lines.{most_line, spaced, bad_line};

use text::{NEWLINE, SPACE};

// A line of six numbers.
pub(crate) fn put_line(
    number: u64,
    answer: u64,
    state: u64,
    records: u64,
    replies: u64,
    bytes: u64,
    text: &mut [u8],
    at: usize,
) -> usize
    requires { at + most_line ≤ length text.old }
    ensures { (text.new ≡ put text.old at (spaced (number ∷ answer ∷ state ∷ records ∷ replies ∷ bytes ∷ []))) × (result ≡ at + length (spaced (number ∷ answer ∷ state ∷ records ∷ replies ∷ bytes ∷ []))) × (result ≤ at + most_line) }
{
    let b = text::put_field(number, SPACE, text, at);
    let c = text::put_field(answer, SPACE, text, b);
    let d = text::put_field(state, SPACE, text, c);
    let e = text::put_field(records, SPACE, text, d);
    let f = text::put_field(replies, SPACE, text, e);
    text::put_field(bytes, NEWLINE, text, f)
}

// The line of a record that is bad.
pub(crate) fn put_bad(number: u64, text: &mut [u8], at: usize) -> usize
    requires { at + most_line ≤ length text.old }
    ensures { (text.new ≡ put text.old at (bad_line number)) × (result ≡ at + length (bad_line number)) × (result ≤ at + most_line) }
{
    let b = text::put_field(number, SPACE, text, at);
    text::put_word(b"bad\n", text, b)
}
