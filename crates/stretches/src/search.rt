// The search for stretches, from delivery to delivery. Up to the last that is wanted each frame is decided of as in the walk; behind it
// nothing matters but whether delineation is lost.
ghost use Rattle.std.specs.Prelude.{◌≡◌, [], ◌∷◌, ◌+◌, ◌*◌, ◌≤◌, length};
ghost use Rattle.ports.specs.Ports.{ports_of};
ghost use Rattle.fragments.specs.Fragments.{reassembly_in_lem, ports_after};
ghost use Rattle.payload.specs.Memory.{put};
ghost use Rattle.stretches.specs.Stretch.{alone, alone_at, numbers, list_of};
ghost use Rattle.stretches.specs.Search.{brought, NextDelivery, noted};

use super::{Extent, Placed, headers};
use fragments::Reassembly;
use ids::PortId;
use payload::{Next, XGEM_HEADER_BYTES};
use ports::{ADDED_PORTS, Ports, SLOTS};

#[derive(Clone, Copy)]
pub enum Delivery {
    Done,
    Lost,
    // its stretch, and where its frame ends
    Met(Extent, usize),
}

// So many deliveries are to be passed over, and so many stretches are listed.
#[derive(Clone, Copy)]
pub struct Search {
    pub ahead: usize,
    pub count: usize,
}

fn alone(have: usize, at: usize, n: usize) -> Extent
    ensures { result ≡ alone have at n }
{
    if have == 0 {
        Extent { at, bytes: n }
    } else {
        Extent { at: 0, bytes: 0 }
    }
}

// A fragment of n bytes from a place on: what it does to its port, and what it brings.
fn take(
    ids: [PortId; ADDED_PORTS],
    own: PortId,
    lengths: &mut [u16; SLOTS],
    waiting: &mut [bool; SLOTS],
    port: PortId,
    last: bool,
    n: u16,
    at: usize,
) -> Option<Extent>
    ensures { (ports_of ids lengths.new waiting.new ≡ ports_after (ports_of ids lengths.old waiting.old) (reassembly_in_lem ids lengths.old waiting.old own port last n) n)
        × (result ≡ brought (alone_at (reassembly_in_lem ids lengths.old waiting.old own port last n) at n)) }
{
    match fragments::reassembly_in(ids, lengths, waiting, own, port, last, n) {
        Reassembly::Ignored => None,
        Reassembly::Dropped(slot, waits) => {
            ports::drop_in(lengths, waiting, slot, waits);
            None
        }
        Reassembly::Delivered(slot, have) => {
            ports::deliver_in(lengths, slot);
            Some(alone(have, at, usize::from(n)))
        }
        Reassembly::Appended(slot, have) => {
            ports::append_in(lengths, slot, (have + n as usize) as u16);
            None
        }
    }
}

fn next_delivery(
    ids: [PortId; ADDED_PORTS],
    own: PortId,
    lengths: &mut [u16; SLOTS],
    waiting: &mut [bool; SLOTS],
    frame: &[u8],
    from: usize,
) -> Delivery
    requires { from ≤ length frame.now }
    ensures { NextDelivery own (ports_of ids lengths.old waiting.old) from frame.now (ports_of ids lengths.new waiting.new) result }
{
    let mut at = from;
    loop {
        match payload::next_frame(&frame[at..]) {
            Next::Done => {
                return Delivery::Done;
            }
            Next::Lost => {
                return Delivery::Lost;
            }
            Next::Frame(x) => {
                let body = at + XGEM_HEADER_BYTES;
                let brought = take(ids, own, lengths, waiting, x.port, x.last, x.pli, body);
                at = body + xgem::payload_size(x.pli);
                match brought {
                    None => {}
                    Some(t) => return Delivery::Met(t, at),
                }
            }
        }
    }
}

fn list(places: &mut [usize], i: usize, t: Extent)
    requires { i + 2 ≤ length places.old }
    ensures { places.new ≡ put places.old i (numbers (t ∷ [])) }
{
    places[i] = t.at;
    places[i + 1] = t.bytes;
}

#[tactic(auto, unfolding(crate::specs::Search::noted))]
fn note(search: Search, places: &mut [usize], t: Extent) -> Search
    requires { 2 * search.count + 2 ≤ length places.old }
    ensures { record { search = result; places = places.new } ≡ noted search.ahead search.count places.old t }
{
    if search.ahead == 0 {
        list(places, 2 * search.count, t);
        Search {
            ahead: 0,
            count: search.count + 1,
        }
    } else {
        Search {
            ahead: search.ahead - 1,
            count: search.count,
        }
    }
}

pub(crate) fn list_from(
    ports: Ports,
    own: PortId,
    frame: &[u8],
    begins: usize,
    first: usize,
    places: &mut [usize],
) -> Placed
    requires { begins ≤ length frame.now }
    ensures { record { placed = result; places = places.new } ≡ list_of own ports begins frame.now first places.old }
{
    let ids = ports.ids;
    let mut lengths = ports.lengths;
    let mut waiting = ports.waiting;
    let room = places.len() / 2;
    let mut search = Search {
        ahead: first,
        count: 0,
    };
    let mut at = begins;
    while search.count < room {
        match next_delivery(ids, own, &mut lengths, &mut waiting, frame, at) {
            Delivery::Done => {
                return Placed {
                    count: search.count,
                    lost: false,
                };
            }
            Delivery::Lost => {
                return Placed {
                    count: search.count,
                    lost: true,
                };
            }
            Delivery::Met(t, behind) => {
                search = note(search, places, t);
                at = behind;
            }
        }
    }
    Placed {
        count: search.count,
        lost: headers::is_lost(frame, at),
    }
}
