// An unfragmented SDU as its own stretch of the caller's frame.
ghost use Rattle.std.specs.Prelude.{◌≡◌, true, ◌/◌, ◌≤◌, length};
ghost use Rattle.engine.specs.Stretch.{empty, answer_if_lem, place_in, PlaceIs, StretchIs, bytes_a_number, places_in_lem, PlacesAre};

use answers::Answer;
use downstream::{Opening, partitions};
use station::Station;
use stretches::Extent;
use xgtc::hlend::Hlend;

// A list of places has a number for each so many bytes of the frame: a delivery takes 16 of them, a header of 8 and 8 at least, and
// two numbers.
pub const BYTES_A_NUMBER: usize = 8;

// Where in the frame the stretch stands, and its length; the frame call's answer, without 3.
#[derive(Clone, Copy)]
pub struct StretchPlace {
    pub answer: Answer,
    pub at: usize,
    pub bytes: usize,
}

// How many deliveries the frame has, each with its place and length in the lent list; the frame call's answer, where 3 is about
// the list.
#[derive(Clone, Copy)]
pub struct StretchPlaces {
    pub answer: Answer,
    pub count: usize,
}

fn empty(answer: Answer) -> StretchPlace
    ensures { result ≡ empty answer }
{
    StretchPlace {
        answer,
        at: 0,
        bytes: 0,
    }
}

fn answer_if(lost: bool) -> Answer
    ensures { result ≡ answer_if_lem lost }
{
    if lost {
        return Answer::DelineationLost;
    }
    Answer::Done
}

fn place_in(s: Station, h: Hlend, frame: &[u8], k: usize) -> StretchPlace
    ensures { result ≡ place_in s h frame.now k }
{
    if !s.activation.is_operating() {
        return empty(Answer::Done);
    }
    let end = partitions::header_end(h);
    let p = stretches::stretch_place(s.ports, s.link.onu.management_port(), frame, end, k);
    StretchPlace {
        answer: answer_if(p.lost),
        at: p.stretch.at,
        bytes: p.stretch.bytes,
    }
}

// The place of delivery k, counted from 0, in the frame. The state is the one in which the frame arrives.
pub fn stretch_place(s: Station, frame: &[u8], k: usize) -> StretchPlace
    ensures { PlaceIs s frame.now k result }
{
    let valid = validity::in_range(s);
    match downstream::open(valid, frame, true) {
        Opening::Refused(answer) | Opening::Unread(answer) => empty(answer),
        Opening::Opened(h) => place_in(s, h, frame, k),
    }
}

// The stretch itself: exactly that part of the frame.
pub fn stretch(s: Station, frame: &[u8], k: usize) -> &[u8]
    ensures { StretchIs s frame.now k result.now }
{
    let p = stretch_place(s, frame, k);
    stretches::stretch(
        frame,
        Extent {
            at: p.at,
            bytes: p.bytes,
        },
    )
}

fn nothing(answer: Answer) -> StretchPlaces
    ensures { result ≡ record { answer = answer; count = 0 } }
{
    StretchPlaces { answer, count: 0 }
}

fn places_in(s: Station, h: Hlend, frame: &[u8], places: &mut [usize]) -> StretchPlaces
    requires { length frame.now / bytes_a_number ≤ length places.old }
    ensures { record { found = result; places = places.new } ≡ places_in_lem s h frame.now places.old }
{
    if !s.activation.is_operating() {
        return nothing(Answer::Done);
    }
    let end = partitions::header_end(h);
    let p = stretches::stretch_places(s.ports, s.link.onu.management_port(), frame, end, 0, places);
    StretchPlaces {
        answer: answer_if(p.lost),
        count: p.count,
    }
}

// The places of all deliveries in the frame, offset and length of each, one after the other: what `stretch_place` gives for each.
pub fn stretch_places(s: Station, frame: &[u8], places: &mut [usize]) -> StretchPlaces
    ensures { PlacesAre s frame.now places.old result places.new }
{
    let valid = validity::in_range(s);
    let room = frame.len() / BYTES_A_NUMBER <= places.len();
    match downstream::open(valid, frame, room) {
        Opening::Refused(answer) | Opening::Unread(answer) => nothing(answer),
        Opening::Opened(h) => places_in(s, h, frame, places),
    }
}
