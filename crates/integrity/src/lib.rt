// The integrity check of a PLOAM message (G.987.3, clause 15.6), and which key it is made with.
#![tactic(auto)]

ghost use Rattle.std.specs.Prelude.{◌≡◌, ◌∷◌, ◌+◌, ◌*◌, ◌/◌, ◌<◌, ◌≤◌, length, take, MatchOption};
ghost use Rattle.std.proofs.Math.Seq.{paste};
ghost use Rattle.aes.specs.Words.{words_of};
ghost use Rattle.aes.specs.Blocks.{most_blocks};
ghost use Rattle.cmac.specs.Tags.{prepared_by, mac64_by};
ghost use Rattle.ploam.specs.Layout.{message_octets, covered_octets, message_at, mic_field};
ghost use Rattle.integrity.specs.Integrity.{direction_code_lem, covered, same, default_key_lem, downstream_by_default_lem, upstream_by_default_lem, by_default_lem, mic_right_by, genuine_by};
ghost use Rattle.integrity.specs.Rights.{mark_of_lem, rights_by};
ghost use Rattle.integrity.specs.Rows.{row_octets, covered_in, Rows, has_field};

use aes::Words;
use cmac::Prepared;
use ids::OnuId;
use ploam::{
    DEACTIVATE_ONU_ID, MESSAGE_OCTETS, REGISTRATION, REQUEST_REGISTRATION, SERIAL_NUMBER_ONU,
};

// The part of a message that the integrity field covers.
pub const COVERED_OCTETS: usize = 40;

// What is said of a message among several.
pub const NOT_ASKED: u8 = 0;

pub const RIGHT: u8 = 1;

pub const NOT_RIGHT: u8 = 2;

// And the direction code before it.
const ROW_OCTETS: usize = 41;

// Which way a message goes: it is a part of what the integrity field covers.
#[derive(Clone, Copy)]
pub enum Direction {
    Downstream,
    Upstream,
}

fn direction_code(direction: Direction) -> u8
    ensures { result ≡ direction_code_lem direction }
{
    match direction {
        Direction::Downstream => 1,
        Direction::Upstream => 2,
    }
}

// What is authenticated of a message, laid out from octet `at` on.
fn cover(code: u8, m: &[u8], rows: &mut [u8], at: usize)
    requires { (covered_octets ≤ length m.now) × (at + row_octets ≤ length rows.old) }
    ensures { rows.new ≡ paste rows.old at (code ∷ take covered_octets m.now) row_octets }
{
    rows[at] = code;
    rows[at + 1..at + 1 + COVERED_OCTETS].copy_from_slice(&m[..COVERED_OCTETS]);
}

fn with_code(code: u8, m: &[u8]) -> [u8; 41]
    requires { covered_octets ≤ length m.now }
    ensures { result ≡ code ∷ take covered_octets m.now }
{
    let mut b = [0u8; 41];
    cover(code, m, &mut b, 0);
    b
}

fn mic(key: Prepared, direction: Direction, m: &[u8]) -> [u8; 8]
    requires { covered_octets ≤ length m.now }
    ensures { result ≡ mac64_by key (covered direction m.now) }
{
    let b = with_code(direction_code(direction), m);
    cmac::mac64(key, &b)
}

// The integrity field for octets 1 to 40 of a message that is to be sent.
pub fn sign(key: Prepared, direction: Direction, octets: &[u8; 40]) -> [u8; 8]
    ensures { result ≡ mac64_by key (covered direction octets.now) }
{
    mic(key, direction, octets)
}

fn has_mic(m: &[u8], mic: [u8; 8]) -> bool
    requires { message_octets ≤ length m.now }
    ensures { result ≡ same (mic_field m.now) mic }
{
    &m[COVERED_OCTETS..COVERED_OCTETS + mic.len()] == mic.as_slice()
}

pub fn mic_right(key: Prepared, direction: Direction, m: &[u8]) -> bool
    ensures { result ≡ mic_right_by key direction m.now }
{
    if m.len() < MESSAGE_OCTETS {
        return false;
    }
    has_mic(m, mic(key, direction, m))
}

// The message at a place; past the last whole message there is none.
fn message(messages: &[u8], place: usize) -> Option<&[u8]>
    ensures { MatchOption result (length messages.now / message_octets ≤ place)
        (λ m. (place < length messages.now / message_octets) × (m.now ≡ message_at messages.now place)) }
{
    if messages.len() / MESSAGE_OCTETS <= place {
        return None;
    }
    let from = MESSAGE_OCTETS * place;
    Some(&messages[from..from + MESSAGE_OCTETS])
}

fn cover_at(messages: &[u8], place: usize, rows: &mut [u8], at: usize)
    requires { at + row_octets ≤ length rows.old }
    ensures { rows.new ≡ covered_in messages.now place rows.old at }
{
    if let Some(m) = message(messages, place) {
        cover(direction_code(Direction::Downstream), m, rows, at);
    }
}

fn cover_each(messages: &[u8], places: [usize; 8], n: usize, rows: &mut [u8])
    requires { (n ≤ most_blocks) × (n * row_octets ≤ length rows.old) }
    ensures { (Rows messages.now places n rows.new) × (length rows.new ≡ length rows.old) }
{
    for j in 0..n {
        cover_at(messages, places[j], rows, j * ROW_OCTETS);
    }
}

// Whether the message at a place has this integrity field; past the last whole message there is none.
fn right_at(messages: &[u8], place: usize, mic: [u8; 8]) -> bool
    ensures { result ≡ has_field mic (message_at messages.now place) }
{
    match message(messages, place) {
        Some(m) => has_mic(m, mic),
        None => false,
    }
}

fn mark_of(right: bool) -> u8
    ensures { result ≡ mark_of_lem right }
{
    if right { RIGHT } else { NOT_RIGHT }
}

// The downstream messages at the first `count` places, all under one key: a mark for each.
pub fn rights(key: Prepared, messages: &[u8], places: [usize; 8], count: usize) -> [u8; 8]
    ensures { result ≡ rights_by key messages.now places count }
{
    let mut marks = [NOT_ASKED; 8];
    let n = aes::at_most(count);
    if n == 0 {
        return marks;
    }
    let mut rows = [0u8; 328];
    cover_each(messages, places, n, &mut rows);
    let end = n * ROW_OCTETS;
    let tags = cmac::tags(key, &rows[..end], n);
    for j in 0..n {
        let mic = cmac::first_octets(aes::block(&tags, j));
        marks[j] = mark_of(right_at(messages, places[j], mic));
    }
    marks
}

fn downstream_by_default(address: OnuId, kind: u8) -> bool
    ensures { result ≡ downstream_by_default_lem address kind }
{
    address == OnuId::broadcast() || kind == DEACTIVATE_ONU_ID || kind == REQUEST_REGISTRATION
}

fn upstream_by_default(kind: u8) -> bool
    ensures { result ≡ upstream_by_default_lem kind }
{
    kind == SERIAL_NUMBER_ONU || kind == REGISTRATION
}

pub fn by_default(direction: Direction, address: OnuId, kind: u8) -> bool
    ensures { result ≡ by_default_lem direction address kind }
{
    match direction {
        Direction::Downstream => downstream_by_default(address, kind),
        Direction::Upstream => upstream_by_default(kind),
    }
}

// Whether a downstream message's integrity field is right under its own key: the default key (`usual`, prepared) or the
// installed one. Where none is installed, the caller gives the default for both.
pub fn genuine(usual: Prepared, installed: Prepared, m: &[u8]) -> bool
    ensures { result ≡ genuine_by usual installed m.now }
{
    if m.len() < MESSAGE_OCTETS {
        return false;
    }
    let address = ploam::reading::address(m[0], m[1]);
    let key = if by_default(Direction::Downstream, address, m[2]) {
        usual
    } else {
        installed
    };
    mic_right(key, Direction::Downstream, m)
}

// The default key of 15.8.1, sixteen octets 0x55, prepared. That these are its subkeys is proved, not trusted.
pub fn default_key() -> Prepared
    ensures { result ≡ prepared_by (words_of default_key_lem) }
{
    Prepared {
        key: Words {
            a: 0x55555555,
            b: 0x55555555,
            c: 0x55555555,
            d: 0x55555555,
        },
        whole: Words {
            a: 0x90919c63,
            b: 0xdc66fb31,
            c: 0xfaf60611,
            d: 0x37958b7a,
        },
        padded: Words {
            a: 0x212338c7,
            b: 0xb8cdf663,
            c: 0xf5ec0c22,
            d: 0x6f2b1673,
        },
    }
}
