// What became of each structure of a frame's map.
ghost use Rattle.std.specs.Prelude.{◌≡◌, ◌≤◌, length};
ghost use Rattle.downstream.specs.Partitions.{header_end_lem};
ghost use Rattle.engine.specs.Naming.{most_structures, named_in, NamesAre};

use answers::Answer;
use downstream::{Opening, partitions};
use station::Station;
use xgtc::hlend::Hlend;

// As many structures as HLend can count: a list of names has room for all of them.
pub const MOST_STRUCTURES: usize = 2047;

// How many structures have their name in the lent list; the frame call's answer, without 6, where 3 is about the list.
#[derive(Clone, Copy)]
pub struct Named {
    pub answer: Answer,
    pub count: usize,
}

fn unnamed(answer: Answer) -> Named
    ensures { result ≡ record { answer = answer; count = 0 } }
{
    Named { answer, count: 0 }
}

fn named_in(s: Station, h: Hlend, frame: &[u8], names: &mut [u8]) -> Named
    requires { (header_end_lem h ≤ length frame.now) × (h.bwmap ≤ most_structures) × (most_structures ≤ length names.old) }
    ensures { record { found = result; names = names.new } ≡ named_in s h frame.now names.old }
{
    let end = partitions::map_end(h);
    let map = &frame[partitions::HLEND_OCTETS..end];
    match bwmap::name_map(map, frame::own_of(s), s.carried, names) {
        Some(n) => Named {
            answer: Answer::Done,
            count: n,
        },
        None => unnamed(Answer::BufferTooShort),
    }
}

// The name of every structure of the frame's map, by its number, into the lent list. The state is the one in which the frame arrives.
pub fn why_dark(s: Station, frame: &[u8], names: &mut [u8]) -> Named
    ensures { NamesAre s frame.now names.old result names.new }
{
    let valid = validity::in_range(s);
    let room = MOST_STRUCTURES <= names.len();
    match downstream::open(valid, frame, room) {
        Opening::Refused(answer) | Opening::Unread(answer) => unnamed(answer),
        Opening::Opened(h) => named_in(s, h, frame, names),
    }
}
