// The identifiers of G.987.3, clause 6.4. ONU-ID, Alloc-ID and Port-ID often carry one and the same number, so each
// kind has a type of its own, and the only ways from one to another are the two that the clause allows.
#![tactic(auto)]

ghost use Rattle.std.specs.Prelude.{◌≡◌, length};
ghost use Rattle.ids.specs.Ids.{default_alloc_lem, management_port_lem};
ghost use Rattle.ids.specs.Ids.{broadcast_onu, broadcast_alloc, idle_port};
ghost use Rattle.ids.specs.Ids.{within, assignable_onu, assignable_alloc, assignable_port};
ghost use Rattle.ids.specs.Places.{place_from, Below};

// Names a station on the branch: 10 bits.
#[derive(Clone, Copy, PartialEq, Eq)]
pub struct OnuId(pub u16);

// Names a recipient of upstream grants: 14 bits.
#[derive(Clone, Copy, PartialEq, Eq)]
pub struct AllocId(pub u16);

// Names an XGEM port: 16 bits.
#[derive(Clone, Copy, PartialEq, Eq)]
pub struct PortId(pub u16);

// Table 6-1: the last ONU-ID that a station can have, and the one above it, the broadcast address and that of a
// station that has none.
const LAST_ONU: u16 = 1022;

const BROADCAST_ONU: u16 = 1023;

// Table 6-2: the Alloc-ID of a serial number grant, and those that Assign_Alloc-ID gives.
const BROADCAST_ALLOC: u16 = 1023;

const FIRST_ALLOC: u16 = 1024;

const LAST_ALLOC: u16 = 16383;

// Table 6-3: the Port-IDs that the management channel gives, and that of idle XGEM frames.
const FIRST_PORT: u16 = 1023;

const LAST_PORT: u16 = 65534;

const IDLE_PORT: u16 = 65535;

// The place of the first x of a list, if it has one.
#[inline]
pub fn place_of<T: Copy + PartialEq>(list: &[T], x: T) -> Option<usize>
    ensures { (result ≡ place_from (T.eq x) 0 list.now) × (Below result (length list.now)) }
{
    for (place, other) in list.iter().enumerate() {
        if x == *other {
            return Some(place);
        }
    }
    None
}

fn within(first: u16, last: u16, id: u16) -> bool
    ensures { result ≡ within first last id }
{
    first <= id && id <= last
}

impl OnuId {
    pub fn broadcast() -> OnuId
        ensures { result ≡ broadcast_onu }
    {
        OnuId(BROADCAST_ONU)
    }

    pub fn is_assignable(self) -> bool
        ensures { result ≡ assignable_onu self }
    {
        self.0 <= LAST_ONU
    }

    pub fn default_alloc(self) -> AllocId
        ensures { result ≡ default_alloc_lem self }
    {
        AllocId(self.0)
    }

    pub fn management_port(self) -> PortId
        ensures { result ≡ management_port_lem self }
    {
        PortId(self.0)
    }
}

impl AllocId {
    pub fn broadcast() -> AllocId
        ensures { result ≡ broadcast_alloc }
    {
        AllocId(BROADCAST_ALLOC)
    }

    pub fn is_assignable(self) -> bool
        ensures { result ≡ assignable_alloc self }
    {
        within(FIRST_ALLOC, LAST_ALLOC, self.0)
    }
}

impl PortId {
    pub fn idle() -> PortId
        ensures { result ≡ idle_port }
    {
        PortId(IDLE_PORT)
    }

    pub fn is_assignable(self) -> bool
        ensures { result ≡ assignable_port self }
    {
        within(FIRST_PORT, LAST_PORT, self.0)
    }
}
