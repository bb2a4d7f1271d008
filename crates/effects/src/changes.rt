// What an effect does to the station.
ghost use Rattle.std.specs.Prelude.{◌≡◌};
ghost use Rattle.effects.specs.Changes.{identify, range, set_delay_lem, apply_change_lem, apply_debt_lem, applied};

use crate::{Change, Effect};
use ids::OnuId;
use link::Owed;
use station::limits::TO1;
use station::{Activation, Station};

// O2-3 to O4, with TO1 started.
#[tactic(auto, unfolding(crate::specs::Changes::identify))]
fn identify(s: Station, onu: OnuId) -> Station
    ensures { result ≡ identify s onu }
{
    s.with_link(s.link.with_onu(onu))
        .with_activation(Activation::Ranging(TO1))
}

// O4 to O5: the management port starts clear.
#[tactic(auto, unfolding(crate::specs::Changes::range))]
fn range(s: Station, delay: u32) -> Station
    ensures { result ≡ range s delay }
{
    s.with_link(s.link.with_delay(delay))
        .with_ports(s.ports.clear_management())
        .with_activation(Activation::Operation)
}

#[tactic(auto, unfolding(crate::specs::Changes::set_delay_lem))]
fn set_delay(s: Station, delay: u32) -> Station
    ensures { result ≡ set_delay_lem s delay }
{
    s.with_link(s.link.with_delay(delay))
}

fn apply_change(s: Station, change: Change) -> Station
    ensures { result ≡ apply_change_lem s change }
{
    match change {
        Change::Keep => s,
        Change::Identify(onu) => identify(s, onu),
        Change::Range(delay) => range(s, delay),
        Change::Delay(delay) => set_delay(s, delay),
        Change::AddAlloc(id) => s.with_link(s.link.with_allocs(s.link.allocs.add(id))),
        Change::RemoveAlloc(id) => s.with_link(s.link.with_allocs(s.link.allocs.remove(id))),
        Change::Enter(a) => s.enter(a),
    }
}

fn apply_debt(s: Station, debt: Option<Owed>) -> Station
    ensures { result ≡ apply_debt_lem s debt }
{
    match debt {
        None => s,
        Some(answer) => s.with_link(s.link.with_owed(s.link.owed.owe(answer))),
    }
}

#[tactic(auto, unfolding(crate::specs::Changes::applied))]
pub(crate) fn apply(s: Station, e: Effect) -> Station
    ensures { result ≡ applied s e }
{
    apply_debt(apply_change(s, e.change), e.debt)
}
