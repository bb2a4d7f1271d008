// The entries of the bandwidth map (clause 8.1.2), each by itself: read, usable or not, and whose it is.
#![tactic(auto)]

pub mod reading;

ghost use Rattle.std.specs.Prelude.{◌≡◌, take};
ghost use Rattle.xgem.specs.Reads.{found_in};
ghost use Rattle.xgtc.specs.Reads.{read_allocation_lem};
ghost use Rattle.ids.specs.Places.{some};
ghost use Rattle.ids.specs.Ids.{same_alloc};
ghost use Rattle.entries.specs.Names.{name_number};
ghost use Rattle.entries.specs.Standings.{is_planned_lem, start_unfit_lem, no_room_lem, continues, held, discovery, ranging, ours, sorted, standing};

use ids::{AllocId, OnuId};
use link::Allocs;
use station::Activation;
use station::limits::LAST_WORD;
use xgem::ReadError;
use xgtc::allocation::Allocation;

// Octets of an allocation structure.
pub const STRUCTURE_OCTETS: usize = 8;

// The StartTime that stands for none: such an entry continues the burst.
const CONTINUING: u16 = 65535;

// What decides which grants are a station's, as its frame arrives.
#[derive(Clone, Copy)]
pub struct Own {
    pub activation: Activation,
    pub onu: OnuId,
    pub allocs: Allocs,
}

// What becomes of an entry of the map.
#[derive(Clone, Copy)]
pub enum Verdict {
    Planned,
    Unreadable,
    StartTimeUnfit,
    DbruWithoutRoom,
    Foreign,
    ContinuingNothing,
    Seventeenth,
    TooLong,
    Overlapping,
    AfterTheLast,
    Silent,
}

// The numbers of the names that the verdicts have where they are told.
pub const PLANNED: u8 = 0;

pub const UNREADABLE: u8 = 1;

pub const START_TIME_UNFIT: u8 = 2;

pub const DBRU_WITHOUT_ROOM: u8 = 3;

pub const FOREIGN: u8 = 4;

pub const CONTINUING_NOTHING: u8 = 5;

pub const SEVENTEENTH: u8 = 6;

pub const TOO_LONG: u8 = 7;

pub const OVERLAPPING: u8 = 8;

pub const AFTER_THE_LAST: u8 = 9;

pub const SILENT: u8 = 10;

// An entry by itself: apart from every series, for a reason; or of ours, a head or one that continues.
#[derive(Clone, Copy)]
pub enum Standing {
    Apart(Verdict),
    Head(Allocation),
    More(Allocation),
}

impl Verdict {
    pub fn is_planned(self) -> bool
        ensures { result ≡ is_planned_lem self }
    {
        matches!(self, Verdict::Planned)
    }

    pub fn number(self) -> u8
        ensures { result ≡ name_number self }
    {
        match self {
            Verdict::Planned => PLANNED,
            Verdict::Unreadable => UNREADABLE,
            Verdict::StartTimeUnfit => START_TIME_UNFIT,
            Verdict::DbruWithoutRoom => DBRU_WITHOUT_ROOM,
            Verdict::Foreign => FOREIGN,
            Verdict::ContinuingNothing => CONTINUING_NOTHING,
            Verdict::Seventeenth => SEVENTEENTH,
            Verdict::TooLong => TOO_LONG,
            Verdict::Overlapping => OVERLAPPING,
            Verdict::AfterTheLast => AFTER_THE_LAST,
            Verdict::Silent => SILENT,
        }
    }
}

#[tactic(auto, unfolding(crate::specs::Standings::start_unfit_lem))]
fn start_unfit(a: Allocation) -> bool
    ensures { result ≡ start_unfit_lem a }
{
    LAST_WORD < a.start && a.start < CONTINUING
}

#[tactic(auto, unfolding(crate::specs::Standings::no_room_lem))]
fn no_room(a: Allocation) -> bool
    ensures { result ≡ no_room_lem a }
{
    a.dbru && a.grant == 0
}

#[tactic(auto, unfolding(crate::specs::Standings::continues))]
fn continues(a: Allocation) -> bool
    ensures { result ≡ continues a }
{
    a.start == CONTINUING
}

// Whether the Alloc-ID is among the first n. All places are compared, which is faster than to stop early.
fn among(ids: [AllocId; 16], n: usize, id: AllocId) -> bool
    ensures { result ≡ some (same_alloc id) (take n ids) }
{
    let mut hit = false;
    for (i, other) in ids.iter().enumerate() {
        hit |= (i < n) & (id == *other);
    }
    hit
}

#[tactic(auto, unfolding(crate::specs::Standings::held))]
fn held(onu: OnuId, allocs: Allocs, id: AllocId) -> bool
    ensures { result ≡ held onu allocs id }
{
    id == onu.default_alloc() || among(allocs.ids, allocs.count, id)
}

#[tactic(auto, unfolding(crate::specs::Standings::discovery))]
fn discovery(a: Allocation) -> bool
    ensures { result ≡ discovery a }
{
    a.start <= LAST_WORD && a.alloc == AllocId::broadcast() && a.ploamu && a.grant == 0
}

#[tactic(auto, unfolding(crate::specs::Standings::ranging))]
fn ranging(onu: OnuId, a: Allocation) -> bool
    ensures { result ≡ ranging onu a }
{
    a.alloc == onu.default_alloc() && (continues(a) || a.ploamu)
}

impl Own {
    pub fn owns(self, a: Allocation) -> bool
        ensures { result ≡ ours self a }
    {
        match self.activation {
            Activation::SerialNumber => discovery(a),
            Activation::Ranging(_) => ranging(self.onu, a),
            Activation::Operation => held(self.onu, self.allocs, a.alloc),
            Activation::Initial | Activation::Intermittent(_) | Activation::EmergencyStop => false,
        }
    }

    #[tactic(auto, unfolding(crate::specs::Standings::sorted))]
    fn sort(self, a: Allocation) -> Standing
        ensures { result ≡ sorted self a }
    {
        if start_unfit(a) {
            Standing::Apart(Verdict::StartTimeUnfit)
        } else if no_room(a) {
            Standing::Apart(Verdict::DbruWithoutRoom)
        } else if !self.owns(a) {
            Standing::Apart(Verdict::Foreign)
        } else if continues(a) {
            Standing::More(a)
        } else {
            Standing::Head(a)
        }
    }

    #[tactic(auto, unfolding(crate::specs::Standings::standing))]
    pub fn standing(self, read: Result<Allocation, ReadError>) -> Standing
        ensures { result ≡ standing self (found_in read) }
    {
        if self.activation.is_silent() {
            return Standing::Apart(Verdict::Silent);
        }
        match read {
            Ok(a) => self.sort(a),
            Err(_) => Standing::Apart(Verdict::Unreadable),
        }
    }

    // The entry at the start of a slice. The walks of plan and names are each a loop over entries: it is merged into both.
    #[inline(always)]
    pub fn standing_ahead(self, s: &[u8]) -> Standing
        ensures { result ≡ standing self (read_allocation_lem s.now) }
    {
        self.standing(reading::read_entry(s))
    }
}
