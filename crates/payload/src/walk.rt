// The walk over a payload.
ghost use Rattle.std.specs.Prelude.{◌≡◌, length};
ghost use Rattle.ports.specs.Ports.{drop_all_lem};
ghost use Rattle.payload.specs.Memory.{receiver_of};
ghost use Rattle.payload.specs.Bounds.{Ready};
ghost use Rattle.payload.specs.Walk.{walk_of, all_within_lem, receive_of};

use super::frames::Next;
use super::{frames, memory};
use ids::PortId;
use ports::{Ports, SLOT_BYTES, SLOTS};

// The memory of all slots.
pub const MEMORY_BYTES: usize = SLOTS * SLOT_BYTES;

#[derive(Clone, Copy)]
pub enum Delineation {
    Kept,
    // answer 6
    Lost,
    // a partial over its slot, or a buffer too short: nothing changed
    Unfit,
}

#[derive(Clone, Copy)]
pub struct Received {
    pub ports: Ports,
    pub bytes: usize,
    pub delineation: Delineation,
}

fn all_within(lengths: [u16; SLOTS]) -> bool
    ensures { result ≡ all_within_lem lengths }
{
    lengths.iter().all(|n| usize::from(*n) <= SLOT_BYTES)
}

fn unfit(ports: Ports) -> Received
    ensures { result ≡ record { ports = ports; bytes = 0; delineation = Delineation.Unfit } }
{
    Received {
        ports,
        bytes: 0,
        delineation: Delineation::Unfit,
    }
}

fn lost(ports: Ports, bytes: usize) -> Received
    ensures { result ≡ record { ports = drop_all_lem ports; bytes = bytes; delineation = Delineation.Lost } }
{
    Received {
        ports: ports.drop_all(),
        bytes,
        delineation: Delineation::Lost,
    }
}

fn kept(ports: Ports, bytes: usize) -> Received
    ensures { result ≡ record { ports = ports; bytes = bytes; delineation = Delineation.Kept } }
{
    Received {
        ports,
        bytes,
        delineation: Delineation::Kept,
    }
}

fn walk_frames(
    ports: Ports,
    own: PortId,
    memory: &mut [u8],
    deliveries: &mut [u8],
    place: usize,
    payload: &[u8],
) -> Received
    requires { Ready (receiver_of ports 0 memory.old deliveries.old) (length payload.now) }
    ensures { record { receiver = receiver_of result.ports result.bytes memory.new deliveries.new; delineation = result.delineation } ≡ walk_of own (receiver_of ports 0 memory.old deliveries.old) place payload.now }
{
    let ids = ports.ids;
    let mut lengths = ports.lengths;
    let mut waiting = ports.waiting;
    let mut bytes: usize = 0;
    let mut at: usize = 0;
    loop {
        let next = frames::next_frame(&payload[at..]);
        match next {
            Next::Done => {
                return kept(Ports::of(ids, lengths, waiting), bytes);
            }
            Next::Lost => {
                return lost(Ports::of(ids, lengths, waiting), bytes);
            }
            Next::Frame(x) => {
                let body = at + frames::XGEM_HEADER_BYTES;
                let size = xgem::payload_size(x.pli);
                let end = body + x.pli as usize;
                let port = x.port;
                bytes = memory::take_frame(
                    ids,
                    own,
                    &mut lengths,
                    &mut waiting,
                    bytes,
                    memory,
                    deliveries,
                    port,
                    x.last,
                    &payload[body..end],
                );
                at = body + size;
            }
        }
    }
}

// The payload of a frame in O5, where `own` is the management port and `place` is where the payload begins in the frame.
pub fn receive(
    ports: Ports,
    own: PortId,
    memory: &mut [u8],
    deliveries: &mut [u8],
    place: usize,
    payload: &[u8],
) -> Received
    ensures { record { receiver = receiver_of result.ports result.bytes memory.new deliveries.new; delineation = result.delineation } ≡ receive_of ports own memory.old deliveries.old place payload.now }
{
    let lengths = ports.lengths;
    if !all_within(lengths) {
        return unfit(ports);
    }
    if memory.len() < MEMORY_BYTES {
        return unfit(ports);
    }
    if deliveries.len() < MEMORY_BYTES {
        return unfit(ports);
    }
    if deliveries.len() - MEMORY_BYTES < payload.len() {
        return unfit(ports);
    }
    walk_frames(ports, own, memory, deliveries, place, payload)
}
