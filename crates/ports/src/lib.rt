// The ports and their slots of port memory: slot 0 is the management port's, slots 1 to 16 are those of added ports.
#![tactic(auto)]

ghost use Rattle.std.specs.Prelude.{◌≡◌, List, Bool, ◌<◌, ◌≤◌, length, take};
ghost use Rattle.ids.specs.declared.PortId.{PortId};
ghost use Rattle.ids.specs.Ids.{same_port};
ghost use Rattle.ids.specs.Places.{place_from, Below};
ghost use Rattle.ports.specs.Limits.{added_ports};
ghost use Rattle.ports.specs.Ports.{no_port, ports_of, no_ports, drop_one_lem, drop_all_lem, appended, delivered, if_slot, clear_management_lem, port_place, vacancy, put_port_lem, add_port_lem, remove_port_lem};

use ids::PortId;

pub const ADDED_PORTS: usize = 16;

pub const SLOTS: usize = 1 + ADDED_PORTS;

// No SDU that comes in fragments is longer.
pub const SDU_BYTES: usize = 2048;

// A slot has room for the longest.
pub const SLOT_BYTES: usize = SDU_BYTES;

// `ids[i]` has slot i + 1, and is 0 where that slot is empty. An unfinished SDU has `lengths[i]` bytes in slot i; where
// the slot's port waits, what comes is discarded up to and with the next last fragment.
#[derive(Clone, Copy)]
pub struct Ports {
    pub ids: [PortId; ADDED_PORTS],
    pub lengths: [u16; SLOTS],
    pub waiting: [bool; SLOTS],
}

// What happens to a slot's unfinished SDU, for a walk that keeps the ports by their parts: single elements change, and nothing
// is copied. A slot of 17 or more changes nothing.

pub fn drop_in(lengths: &mut [u16; SLOTS], waiting: &mut [bool; SLOTS], slot: usize, waits: bool)
    ensures { (ids : List PortId) → ports_of ids lengths.new waiting.new ≡ if_slot slot (λ p. drop_one_lem p slot waits) (ports_of ids lengths.old waiting.old) }
{
    if slot < SLOTS {
        lengths[slot] = 0;
        waiting[slot] = waits;
    }
}

pub fn append_in(lengths: &mut [u16; SLOTS], slot: usize, bytes: u16)
    ensures { (ids : List PortId) (waiting : List Bool) → ports_of ids lengths.new waiting ≡ if_slot slot (λ p. appended p slot bytes) (ports_of ids lengths.old waiting) }
{
    if slot < SLOTS {
        lengths[slot] = bytes;
    }
}

pub fn deliver_in(lengths: &mut [u16; SLOTS], slot: usize)
    ensures { (ids : List PortId) (waiting : List Bool) → ports_of ids lengths.new waiting ≡ if_slot slot (λ p. delivered p slot) (ports_of ids lengths.old waiting) }
{
    if slot < SLOTS {
        lengths[slot] = 0;
    }
}

// What stands in the i-th slot of added ports changes: it has no unfinished SDU, and waits.
fn put_port(p: Ports, i: usize, id: PortId) -> Ports
    requires { i < added_ports }
    ensures { result ≡ put_port_lem p id (Some i) }
{
    let mut next = p;
    next.ids[i] = id;
    next.drop_one(i + 1, true)
}

impl Ports {
    pub fn none() -> Ports
        ensures { result ≡ no_ports }
    {
        Ports {
            ids: [PortId(0); ADDED_PORTS],
            lengths: [0u16; SLOTS],
            waiting: [true; SLOTS],
        }
    }

    // The parts together again.
    pub fn of(ids: [PortId; ADDED_PORTS], lengths: [u16; SLOTS], waiting: [bool; SLOTS]) -> Ports
        ensures { result ≡ ports_of ids lengths waiting }
    {
        Ports {
            ids,
            lengths,
            waiting,
        }
    }

    // The slot's unfinished SDU is dropped, and its port waits or not.
    pub fn drop_one(mut self, slot: usize, waits: bool) -> Ports
        ensures { result ≡ drop_one_lem self slot waits }
    {
        if SLOTS <= slot {
            return self;
        }
        self.lengths[slot] = 0;
        self.waiting[slot] = waits;
        self
    }

    // Every unfinished SDU is dropped, and every port waits.
    pub fn drop_all(mut self) -> Ports
        ensures { result ≡ drop_all_lem self }
    {
        self.lengths = [0u16; SLOTS];
        self.waiting = [true; SLOTS];
        self
    }

    // A fragment is added to the slot's unfinished SDU, which then has so many bytes.
    pub fn append(mut self, slot: usize, bytes: u16) -> Ports
        ensures { result ≡ appended self slot bytes }
    {
        append_in(&mut self.lengths, slot, bytes);
        self
    }

    // The slot's unfinished SDU is delivered.
    pub fn deliver(mut self, slot: usize) -> Ports
        ensures { result ≡ delivered self slot }
    {
        deliver_in(&mut self.lengths, slot);
        self
    }

    // O4 to O5: the management port starts clear.
    pub fn clear_management(mut self) -> Ports
        ensures { result ≡ clear_management_lem self }
    {
        self.waiting[0] = false;
        self
    }

    pub fn place(self, id: PortId) -> Option<usize>
        ensures { result ≡ port_place self id }
    {
        ids::place_of(&self.ids, id)
    }

    // The lowest empty slot.
    pub fn vacancy(self) -> Option<usize>
        ensures { result ≡ vacancy self }
    {
        ids::place_of(&self.ids, PortId(0))
    }

    pub fn add(self, id: PortId) -> Ports
        ensures { result ≡ add_port_lem self id }
    {
        match ids::place_of(&self.ids, PortId(0)) {
            Some(i) => put_port(self, i, id),
            None => self,
        }
    }

    pub fn remove(self, id: PortId) -> Ports
        ensures { result ≡ remove_port_lem self id }
    {
        match ids::place_of(&self.ids, id) {
            Some(i) => put_port(self, i, PortId(0)),
            None => self,
        }
    }
}
