// Verdicts are found for up to eight messages at a time, side by side under one key, and kept until each message is
// considered. No key changes between the messages of a frame but by being forgotten, so a verdict stays true
// (`found-apart`).
ghost use Rattle.std.specs.Prelude.{true, cond, ◌≡◌, ℕ, ◌+◌, ◌/◌, ◌≤◌, ◌<◌, length};
ghost use Rattle.aes.specs.Cipher.{at};
ghost use Rattle.ploam.specs.Layout.{message_octets, message_at};
ghost use Rattle.messages.specs.Checking.{verdict_at, by_usual_lem, Known, Within, Askable, Told, Gathered, entered};

use crate::inert;
use cmac::Prepared;
use ids::OnuId;
use integrity::{Direction, NOT_ASKED};
use ploam::MESSAGE_OCTETS;

// Messages of a window. Its marks are 0 of a message that is not checked yet, and else what `integrity::rights` says.
const WINDOW: usize = 64;

// Messages that are checked at a time.
const SIDE_BY_SIDE: usize = 8;

fn by_usual(m: &[u8]) -> bool
    requires { message_octets ≤ length m.now }
    ensures { result ≡ by_usual_lem m.now }
{
    integrity::by_default(
        Direction::Downstream,
        ploam::reading::address(m[0], m[1]),
        m[2],
    )
}

// Whether such a message acts in any state: to check one that is ignored anyway is in vain.
fn may_act(broadcast: bool, kind: u8, octet5: u8) -> bool {
    match kind {
        ploam::PROFILE | ploam::KEY_CONTROL | ploam::SLEEP_ALLOW => false,
        ploam::ASSIGN_ONU_ID | ploam::DISABLE_SERIAL_NUMBER => broadcast,
        ploam::RANGING_TIME => !broadcast || octet5 % 2 == 0,
        ploam::DEACTIVATE_ONU_ID => true,
        _ => !broadcast,
    }
}

// Whether a message is worth a place in a group of those that the default key, or the installed one, checks.
fn joins(onu: OnuId, full: bool, usual: bool, m: &[u8]) -> bool
    requires { message_octets ≤ length m.now }
    ensures { result ≡ true → by_usual_lem m.now ≡ usual }
{
    let to = ploam::reading::address(m[0], m[1]);
    !inert::is_inert(onu, full, m)
        && may_act(to == OnuId::broadcast(), m[2], m[4])
        && by_usual(m) == usual
}

// Where the window, or what there is of it, ends.
fn end_of(base: usize, n: usize) -> usize
    requires { base ≤ n }
    ensures { (result ≤ n) × (result ≤ base + 64) }
{
    if n - base < WINDOW { n } else { base + WINDOW }
}

// Message i, and further ones that the same key checks: their places, and how many. Which of them are taken is a matter of
// speed alone.
fn gather(
    onu: OnuId,
    full: bool,
    usual: bool,
    messages: &[u8],
    marks: &[u8; 64],
    base: usize,
    i: usize,
    places: &mut [usize; 8],
) -> usize
    requires { (Within base i) × (i < length messages.now / message_octets) × (by_usual_lem (message_at messages.now i) ≡ usual) }
    ensures { Gathered usual messages.now base i places.new result }
{
    let end = end_of(base, messages.len() / MESSAGE_OCTETS);
    *places = [i; 8];
    let mut count = 1;
    for p in i + 1..end {
        if SIDE_BY_SIDE <= count {
            return count;
        }
        let at = MESSAGE_OCTETS * p;
        if marks[p - base] == NOT_ASKED
            && joins(onu, full, usual, &messages[at..at + MESSAGE_OCTETS])
        {
            places[count] = p;
            count += 1;
        }
    }
    count
}

fn enter(places: &[usize; 8], count: usize, found: &[u8; 8], base: usize, marks: &mut [u8; 64])
    requires { (count ≤ 8) × ((j : ℕ) → j < 8 → Within base (at places.now j)) }
    ensures { marks.new ≡ entered base places.now found.now 0 count marks.old }
{
    for j in 0..count {
        marks[places[j] - base] = found[j];
    }
}

fn chosen(by_usual: bool, usual: Prepared, installed: Prepared) -> Prepared
    ensures { result ≡ cond by_usual usual installed }
{
    if by_usual { usual } else { installed }
}

// Message i, of the window, is checked with others of its key.
fn check(
    usual: Prepared,
    installed: Prepared,
    onu: OnuId,
    full: bool,
    messages: &[u8],
    i: usize,
    base: usize,
    marks: &mut [u8; 64],
)
    requires { (Askable (verdict_at usual installed messages.now) (length messages.now / message_octets) base i marks.old) × (i < base + 64) }
    ensures { Told (verdict_at usual installed messages.now) base i marks.new }
{
    let at = MESSAGE_OCTETS * i;
    let is_usual = by_usual(&messages[at..at + MESSAGE_OCTETS]);
    let mut places = [0usize; 8];
    let count = gather(onu, full, is_usual, messages, marks, base, i, &mut places);
    let key = chosen(is_usual, usual, installed);
    let found = integrity::rights(key, messages, places, count);
    enter(&places, count, &found, base, marks);
}

// Where message i is past the window, a new one begins with it.
fn window(i: usize, base: usize, marks: &mut [u8; 64]) -> usize
    requires { base ≤ i }
    ensures { (Within result i) × ((verdict : ℕ → ℕ) → Known verdict base marks.old → Known verdict result marks.new) }
{
    if i - base < WINDOW {
        base
    } else {
        *marks = [NOT_ASKED; 64];
        i
    }
}

// The verdict of message i becomes known, if it isn't. Answers where the window of marks begins.
pub(crate) fn know(
    usual: Prepared,
    installed: Prepared,
    onu: OnuId,
    full: bool,
    messages: &[u8],
    i: usize,
    base: usize,
    marks: &mut [u8; 64],
) -> usize
    requires { Askable (verdict_at usual installed messages.now) (length messages.now / message_octets) base i marks.old }
    ensures { Told (verdict_at usual installed messages.now) result i marks.new }
{
    let start = window(i, base, marks);
    if marks[i - start] == NOT_ASKED {
        check(usual, installed, onu, full, messages, i, start, marks);
    }
    start
}
