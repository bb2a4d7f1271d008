// A record of the plan, for one entry that is planned: what is written of it, and the flags that the laser reads.
#![tactic(auto)]

ghost use Rattle.std.specs.Prelude.{◌≤◌, ◌≡◌};
ghost use Rattle.plan.specs.Records.{burst_flags_lem, head_flags_lem, more_flags_lem, placed};

use xgtc::allocation::Allocation;

// Numbers of a record.
pub const NUMBERS_A_RECORD: usize = 4;

// Numbers that a plan must have room for.
pub const PLAN_NUMBERS: usize = series::BURSTS_A_FRAME * series::ENTRIES_A_BURST * NUMBERS_A_RECORD;

// The weights of a record's flags: that it is a head's, the head's PLOAMu, DBRu, FWI, and that of the profile.
const HEAD: u16 = 1;

const PLOAMU: u16 = 2;

const DBRU: u16 = 4;

const FWI: u16 = 8;

const PROFILE: u16 = 16;

#[tactic(auto, unfolding(crate::specs::Records::burst_flags_lem))]
fn burst_flags(h: Allocation) -> u16
    ensures { (result ≡ burst_flags_lem h) × (result ≤ 4096) }
{
    u16::from(h.fwi) * FWI + u16::from(h.profile) * PROFILE
}

#[tactic(auto, unfolding(crate::specs::Records::head_flags_lem))]
pub fn head_flags(h: Allocation) -> u16
    ensures { result ≡ head_flags_lem h }
{
    HEAD + u16::from(h.ploamu) * PLOAMU + u16::from(h.dbru) * DBRU + burst_flags(h)
}

// Those of an entry that continues the burst of the head h.
#[tactic(auto, unfolding(crate::specs::Records::more_flags_lem))]
pub fn more_flags(h: Allocation, a: Allocation) -> u16
    ensures { result ≡ more_flags_lem h a }
{
    u16::from(a.dbru) * DBRU + burst_flags(h)
}

// The record of an entry from a place of the plan on; a plan without room for it is left as it is.
#[tactic(auto, unfolding(crate::specs::Records::placed))]
pub fn write_record(plan: &mut [u16], at: usize, a: Allocation, flags: u16, start: u16)
    ensures { plan.new ≡ placed plan.old at a flags start }
{
    if plan.len() < NUMBERS_A_RECORD || plan.len() - NUMBERS_A_RECORD < at {
        return;
    }
    plan[at] = a.alloc.0;
    plan[at + 1] = flags;
    plan[at + 2] = start;
    plan[at + 3] = a.grant;
}
