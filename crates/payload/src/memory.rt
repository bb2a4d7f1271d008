// One XGEM frame at work: on the ports, the port memory and the deliveries.
ghost use Rattle.std.specs.Prelude.{◌≡◌, ◌++◌, ◌+◌, ◌≤◌, ◌<◌, ◌^◌, length};
ghost use Rattle.ports.specs.Limits.{slots, sdu_bytes, slot_bytes};
ghost use Rattle.ports.specs.Ports.{ports_of};
ghost use Rattle.payload.specs.Memory.{receiver_of, put, delivery, partial, extended, taken};
ghost use Rattle.payload.specs.Walk.{memory_bytes};
ghost use Rattle.payload.specs.Bounds.{Ready};

use fragments::Reassembly;
use ids::PortId;
use octets::Number;
use ports::{ADDED_PORTS, SLOT_BYTES, SLOTS};

// All of a slice into a place of another.
#[tactic(auto, unfolding(crate::specs::Memory::put))]
fn lay_at(target: &mut [u8], at: usize, s: &[u8])
    requires { at + length s.now ≤ length target.old }
    ensures { target.new ≡ put target.old at s.now }
{
    target[at..at + s.len()].copy_from_slice(s);
}

// Eight octets are held before they are written: whether the two slices overlap, which a plain copy asks first, is then no
// question.
fn lay_short(target: &mut [u8], at: usize, s: &[u8])
    requires { at + length s.now ≤ length target.old }
    ensures { target.new ≡ put target.old at s.now }
{
    let (eights, rest) = s.as_chunks::<8>();
    let mut to = at;
    for eight in eights {
        let octets = *eight;
        lay_at(target, to, &octets);
        to += 8;
    }
    lay_at(target, to, rest);
}

fn lay_body(target: &mut [u8], at: usize, s: &[u8])
    requires { at + length s.now ≤ length target.old }
    ensures { target.new ≡ put target.old at s.now }
{
    if s.len() < 32 {
        lay_short(target, at, s);
    } else {
        lay_at(target, at, s);
    }
}

// The bytes of a slot's unfinished SDU into a place of the deliveries.
#[tactic(auto, unfolding(crate::specs::Memory::partial))]
fn lay_partial(target: &mut [u8], at: usize, memory: &[u8], slot: usize, have: usize)
    requires { (slot < slots) × (have ≤ slot_bytes) × (memory_bytes ≤ length memory.now) × (at + have ≤ length target.old) }
    ensures { target.new ≡ put target.old at (partial memory.now slot have) }
{
    let from = slot * SLOT_BYTES;
    let to = from + have;
    lay_at(target, at, &memory[from..to]);
}

// More bytes behind those of a slot's unfinished SDU: the slot's unused end, and nothing behind it, is lent for them.
#[tactic(auto, unfolding(crate::specs::Memory::extended))]
fn extend(memory: &mut [u8], slot: usize, have: usize, body: &[u8])
    requires { (slot < slots) × (have + length body.now ≤ slot_bytes) × (memory_bytes ≤ length memory.old) }
    ensures { memory.new ≡ extended memory.old slot have body.now }
{
    let from = slot * SLOT_BYTES + have;
    let to = slot * SLOT_BYTES + SLOT_BYTES;
    lay_at(&mut memory[from..to], 0, body);
}

// A delivery at a place: Port-ID, length, the bytes of the partial and those of the last fragment.
fn deliver(
    target: &mut [u8],
    at: usize,
    port: PortId,
    memory: &[u8],
    slot: usize,
    have: usize,
    body: &[u8],
)
    requires slot_lt_slots { (slot < slots) × (memory_bytes ≤ length memory.now) × (have + length body.now ≤ sdu_bytes) }
    requires body_in_bounds { at + (4 + (have + length body.now)) ≤ length target.old }
    ensures { target.new ≡ put target.old at (delivery port (partial memory.now slot have ++ body.now)) }
{
    let n = have + body.len();
    let mut head = [0u8; 4];
    port.0.put(&mut head);
    (n as u16).put(&mut head[2..]);
    lay_at(target, at, &head);
    let b = at + 4;
    lay_partial(target, b, memory, slot, have);
    let c = b + have;
    lay_body(target, c, body);
}

// The ports come by their parts, of which single elements change; what is returned is how many bytes of deliveries there
// are.
pub(crate) fn take_frame(
    ids: [PortId; ADDED_PORTS],
    own: PortId,
    lengths: &mut [u16; SLOTS],
    waiting: &mut [bool; SLOTS],
    bytes: usize,
    memory: &mut [u8],
    deliveries: &mut [u8],
    port: PortId,
    last: bool,
    body: &[u8],
) -> usize
    requires ready { Ready (receiver_of (ports_of ids lengths.old waiting.old) bytes memory.old deliveries.old) (4 + length body.now) }
    requires body_len_bound { length body.now < 2 ^ 14 }
    ensures { receiver_of (ports_of ids lengths.new waiting.new) result memory.new deliveries.new ≡ taken own (receiver_of (ports_of ids lengths.old waiting.old) bytes memory.old deliveries.old) port last body.now }
{
    let n = body.len();
    let what = fragments::reassembly_in(ids, lengths, waiting, own, port, last, n as u16);
    match what {
        Reassembly::Ignored => bytes,
        Reassembly::Dropped(slot, waits) => {
            ports::drop_in(lengths, waiting, slot, waits);
            bytes
        }
        Reassembly::Delivered(slot, have) => {
            ports::deliver_in(lengths, slot);
            deliver(deliveries, bytes, port, memory, slot, have, body);
            bytes + (4 + (have + n))
        }
        Reassembly::Appended(slot, have) => {
            ports::append_in(lengths, slot, (have + n) as u16);
            extend(memory, slot, have, body);
            bytes
        }
    }
}
