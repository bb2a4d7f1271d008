// Unfragmented SDUs as stretches of a downstream frame (clauses 9.1 to 9.3). The search decides as the walk does, and touches no
// memory.
#![tactic(auto)]

ghost use Rattle.std.specs.Prelude.{◌≡◌};
ghost use Rattle.stretches.specs.Stretch.{stretch_of, list_of, cut_out};

mod headers;
mod search;

use ids::PortId;
use ports::Ports;

// So many bytes from a place of the frame.
#[derive(Clone, Copy)]
pub struct Extent {
    pub at: usize,
    pub bytes: usize,
}

#[derive(Clone, Copy)]
pub struct StretchPlace {
    pub stretch: Extent,
    // answer 6, wherever delineation is lost, also behind the delivery
    pub lost: bool,
}

// How many stretches were listed.
#[derive(Clone, Copy)]
pub struct Placed {
    pub count: usize,
    pub lost: bool,
}

// The stretches of a frame's deliveries from number `first` on, as many as the list has room for: place and length of each, one
// after the other, both 0 where the SDU came in several fragments. The payload begins so many octets into the frame.
pub fn stretch_places(
    ports: Ports,
    own: PortId,
    frame: &[u8],
    begins: usize,
    first: usize,
    places: &mut [usize],
) -> Placed
    ensures { record { placed = result; places = places.new } ≡ list_of own ports begins frame.now first places.old }
{
    if frame.len() < begins {
        return Placed {
            count: 0,
            lost: false,
        };
    }
    search::list_from(ports, own, frame, begins, first, places)
}

// The stretch of delivery k, counted from 0: the empty one where the SDU came in several fragments or there is no such delivery.
pub fn stretch_place(
    ports: Ports,
    own: PortId,
    frame: &[u8],
    begins: usize,
    k: usize,
) -> StretchPlace
    ensures { result ≡ stretch_of own ports begins frame.now k }
{
    let mut place = [0usize; 2];
    let p = stretch_places(ports, own, frame, begins, k, &mut place);
    StretchPlace {
        stretch: Extent {
            at: place[0],
            bytes: place[1],
        },
        lost: p.lost,
    }
}

// The stretch itself: exactly that part of the caller's slice, or the empty one where it does not lie within.
pub fn stretch(s: &[u8], t: Extent) -> &[u8]
    ensures { result.now ≡ cut_out s.now t }
{
    let Extent { at, bytes } = t;
    if at <= s.len() && bytes <= s.len() - at {
        &s[at..at + bytes]
    } else {
        &s[..0]
    }
}
