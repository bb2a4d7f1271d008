// Numbers and words as text, in ASCII, put into a lent buffer from a place on. What the buffer has no room for is cut off, so
// that whoever puts a line together asks for its room once, and not for each part.
#![tactic(auto)]

ghost use Rattle.std.specs.Prelude.{◌≡◌, ◌∷◌, [], ◌+◌, ◌<◌};
ghost use Rattle.text.specs.Texts.{added};
ghost use Rattle.text.specs.Decimals.{zero_digit, last_two, decimal, field};

pub const SPACE: u8 = 32;

pub const NEWLINE: u8 = 10;

// One octet at a place of the text; answers the place behind it.
pub fn put_octet(x: u8, text: &mut [u8], at: usize) -> usize
    ensures { record { text = text.new; place = result } ≡ added text.old at (x ∷ []) }
{
    if at < text.len() {
        text[at] = x;
        return at + 1;
    }
    at
}

pub fn put_word(word: &[u8], text: &mut [u8], at: usize) -> usize
    ensures { record { text = text.new; place = result } ≡ added text.old at word.now }
{
    let mut place = at;
    for octet in word {
        place = put_octet(*octet, text, place);
    }
    place
}

fn put_digit(d: u64, text: &mut [u8], at: usize) -> usize
    requires { d < 10 }
    ensures { record { text = text.new; place = result } ≡ added text.old at ((zero_digit + d) ∷ []) }
{
    put_octet(48 + d as u8, text, at)
}

fn put_last_two(n: u64, text: &mut [u8], at: usize) -> usize
    ensures { record { text = text.new; place = result } ≡ added text.old at (last_two n) }
{
    let b = put_digit(n / 10 % 10, text, at);
    put_digit(n % 10, text, b)
}

// A number in decimal, two digits at a time.
pub fn put_decimal(n: u64, text: &mut [u8], at: usize) -> usize
    ensures { record { text = text.new; place = result } ≡ added text.old at (decimal n) }
{
    if n < 10 {
        return put_digit(n, text, at);
    }
    if n < 100 {
        return put_last_two(n, text, at);
    }
    let b = put_decimal(n / 100, text, at);
    put_last_two(n, text, b)
}

// A number and what ends it. Most have one digit.
pub fn put_field(n: u64, end: u8, text: &mut [u8], at: usize) -> usize
    ensures { record { text = text.new; place = result } ≡ added text.old at (field n end) }
{
    if n < 10 {
        let b = put_digit(n, text, at);
        return put_octet(end, text, b);
    }
    let b = put_decimal(n, text, at);
    put_octet(end, text, b)
}
