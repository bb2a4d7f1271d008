// What a fragment does to the port that it is for. The decision is apart from what then happens: it needs the ports alone.
#![tactic(auto)]

ghost use Rattle.std.specs.Prelude.{◌≡◌, cond, ◌+◌, ◌≤◌, ◌<◌};
ghost use Rattle.ids.specs.Ids.{same_port};
ghost use Rattle.ports.specs.Limits.{slots, added_ports};
ghost use Rattle.ids.specs.Places.{Below, place_from};
ghost use Rattle.fragments.specs.Fragments.{behind, slot_in_lem, at_slot_lem, at_place_lem, reassembly_in_lem};
ghost use Rattle.fragments.specs.Marks.{marks};

use ids::PortId;
use ports::{ADDED_PORTS, SDU_BYTES, SLOTS};

#[derive(Clone, Copy)]
pub enum Reassembly {
    Ignored,
    // the slot's partial is dropped, and its port waits or not
    Dropped(usize, bool),
    // the slot's partial of so many bytes and the fragment are delivered
    Delivered(usize, usize),
    // the fragment is added to the slot's partial of so many bytes
    Appended(usize, usize),
}

// The mark of a place in a sum: 256, and the place.
fn mark(hit: bool, place: u16) -> u16
    requires { place < added_ports }
    ensures { (result ≡ cond hit (256 + place) 0) × (result ≤ 271) }
{
    if hit { 256 + place } else { 0 }
}

// All sixteen ports are compared, without a branch: which port comes next is nothing to be guessed.
fn marks_of(ids: [PortId; ADDED_PORTS], id: PortId) -> u16
    ensures { result ≡ marks (same_port id) 0 ids }
{
    let mut sum = 0;
    for (place, other) in ids.iter().enumerate() {
        sum += mark(id == *other, place as u16);
    }
    sum
}

// The ports that a station holds differ, so that a sum of two marks is met in no frame.
#[inline(always)]
fn place_in(ids: [PortId; ADDED_PORTS], id: PortId) -> Option<usize>
    ensures { result ≡ place_from (same_port id) 0 ids }
{
    let sum = marks_of(ids, id);
    if sum < 256 {
        return None;
    }
    if sum < 512 {
        return Some((sum - 256) as usize);
    }
    ids::place_of(&ids, id)
}

fn behind(place: Option<usize>) -> Option<usize>
    requires { Below place added_ports }
    ensures { (result ≡ behind place) × (Below result slots) }
{
    match place {
        Some(i) => Some(i + 1),
        None => None,
    }
}

fn management(own: PortId, port: PortId) -> Option<usize>
    ensures { (result ≡ cond (same_port port own) (Some 0) None) × (Below result slots) }
{
    if port == own { Some(0) } else { None }
}

#[inline(always)]
fn slot_in(ids: [PortId; ADDED_PORTS], own: PortId, port: PortId) -> Option<usize>
    ensures { (result ≡ slot_in_lem ids own port) × (Below result slots) }
{
    if port.is_assignable() {
        behind(place_in(ids, port))
    } else {
        management(own, port)
    }
}

fn at_slot(slot: usize, waits: bool, have: usize, last: bool, n: usize) -> Reassembly
    requires { (have ≤ 65535) × (n ≤ 65535) }
    ensures { result ≡ at_slot_lem slot waits have last n }
{
    if waits {
        return Reassembly::Dropped(slot, !last);
    }
    if SDU_BYTES < have + n {
        let then_waits = !last;
        return Reassembly::Dropped(slot, then_waits);
    }
    if last {
        return Reassembly::Delivered(slot, have);
    }
    Reassembly::Appended(slot, have)
}

fn at_place(
    lengths: &[u16; SLOTS],
    waiting: &[bool; SLOTS],
    slot: Option<usize>,
    last: bool,
    n: u16,
) -> Reassembly
    requires { Below slot slots }
    ensures { result ≡ at_place_lem lengths.now waiting.now last n slot }
{
    match slot {
        Some(i) => at_slot(i, waiting[i], usize::from(lengths[i]), last, usize::from(n)),
        None => Reassembly::Ignored,
    }
}

// The ports by their parts, which the walk keeps apart: what is changed by single elements is never copied whole. The walk and the
// search for a stretch both ask this of every frame: it is merged into the loop of each.
#[inline(always)]
pub fn reassembly_in(
    ids: [PortId; ADDED_PORTS],
    lengths: &[u16; SLOTS],
    waiting: &[bool; SLOTS],
    own: PortId,
    port: PortId,
    last: bool,
    n: u16,
) -> Reassembly
    ensures { result ≡ reassembly_in_lem ids lengths.now waiting.now own port last n }
{
    if n == 0 {
        return Reassembly::Ignored;
    }
    let slot = slot_in(ids, own, port);
    at_place(lengths, waiting, slot, last, n)
}
