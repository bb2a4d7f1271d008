// What a downstream message does to the station if it is genuine: the bullets of the paper's "Messages", one function
// each.
#![tactic(auto)]

ghost use Rattle.std.specs.Prelude.{◌≡◌, Bool};
ghost use Rattle.station.specs.States.{state_number};
ghost use Rattle.decisions.specs.Decisions.{assign_onu_id_lem, alloc_change_lem, assign_alloc_id_lem};
ghost use Rattle.decisions.specs.Decisions.{request_registration_lem, deactivate, switch_off_lem, switch_on_lem, switched, disable};
ghost use Rattle.decisions.specs.Decisions.{unknown_type_lem, by_content_lem, fitting};
ghost use Rattle.decisions.specs.Acts.{Decides};

pub mod ranging;

use effects::{Change, Effect, answers, does, ignored, owes};
use ids::{AllocId, OnuId};
use link::{Allocs, Queue, Response};
use ploam::reading::serial_number;
use ploam::{AllocChange, Completion, Content, Message, Switch};
use station::{Activation, Station};

#[tactic(auto, unfolding(crate::specs::Decisions::assign_onu_id_lem))]
fn assign_onu_id(a: Activation, broadcast: bool, own: bool, onu: OnuId) -> Effect
    ensures { result ≡ assign_onu_id_lem (state_number a) broadcast own onu }
{
    if broadcast && matches!(a, Activation::SerialNumber) && own && onu.is_assignable() {
        return does(Change::Identify(onu));
    }
    ignored()
}

fn alloc_change(allocs: Allocs, seq: u8, id: AllocId, change: AllocChange) -> Effect
    ensures { result ≡ alloc_change_lem allocs seq id change }
{
    let held = allocs.place(id).is_some();
    match change {
        AllocChange::Assign => {
            if held {
                return answers(Change::Keep, Completion::Ok, seq);
            }
            if link::ADDED_ALLOCS <= allocs.count {
                return answers(Change::Keep, Completion::ProcessingError, seq);
            }
            answers(Change::AddAlloc(id), Completion::Ok, seq)
        }
        AllocChange::Deallocate => {
            if held {
                return answers(Change::RemoveAlloc(id), Completion::Ok, seq);
            }
            answers(Change::Keep, Completion::ParameterError, seq)
        }
        AllocChange::OtherChange => answers(Change::Keep, Completion::ParameterError, seq),
    }
}

#[tactic(auto, unfolding(crate::specs::Decisions::assign_alloc_id_lem))]
fn assign_alloc_id(
    a: Activation,
    broadcast: bool,
    allocs: Allocs,
    seq: u8,
    id: AllocId,
    change: AllocChange,
) -> Effect
    ensures { result ≡ assign_alloc_id_lem (state_number a) broadcast allocs seq id change }
{
    if broadcast || !a.is_operating() {
        return ignored();
    }
    if id.is_assignable() {
        return alloc_change(allocs, seq, id, change);
    }
    answers(Change::Keep, Completion::ParameterError, seq)
}

#[tactic(auto, unfolding(crate::specs::Decisions::request_registration_lem))]
fn request_registration(a: Activation, broadcast: bool, seq: u8) -> Effect
    ensures { result ≡ request_registration_lem (state_number a) broadcast seq }
{
    if broadcast || !a.is_operating() {
        return ignored();
    }
    owes(Change::Keep, Response::Registration, seq)
}

#[tactic(auto, unfolding(crate::specs::Decisions::deactivate))]
fn deactivate(a: Activation) -> Effect
    ensures { result ≡ deactivate a }
{
    if a.holds_identity() {
        return does(Change::Enter(Activation::Initial));
    }
    ignored()
}

#[tactic(auto, unfolding(crate::specs::Decisions::switch_off_lem))]
fn switch_off(a: Activation) -> Effect
    ensures { result ≡ switch_off_lem a }
{
    if a.holds_identity() || matches!(a, Activation::SerialNumber) {
        return does(Change::Enter(Activation::EmergencyStop));
    }
    ignored()
}

#[tactic(auto, unfolding(crate::specs::Decisions::switch_on_lem))]
fn switch_on(a: Activation) -> Effect
    ensures { result ≡ switch_on_lem a }
{
    if matches!(a, Activation::EmergencyStop) {
        return does(Change::Enter(Activation::Initial));
    }
    ignored()
}

fn switched(a: Activation, own: bool, switch: Switch) -> Effect
    ensures { result ≡ switched a own switch }
{
    match switch {
        Switch::DisableOwn => {
            if own {
                return switch_off(a);
            }
            ignored()
        }
        Switch::EnableOwn => {
            if own {
                return switch_on(a);
            }
            ignored()
        }
        Switch::DisableAll => switch_off(a),
        Switch::EnableAll => switch_on(a),
        Switch::OtherSwitch => ignored(),
    }
}

#[tactic(auto, unfolding(crate::specs::Decisions::unknown_type_lem))]
fn unknown_type(a: Activation, broadcast: bool, seq: u8) -> Effect
    ensures { result ≡ unknown_type_lem (state_number a) broadcast seq }
{
    if broadcast || !a.is_operating() {
        return ignored();
    }
    answers(Change::Keep, Completion::UnknownMessageType, seq)
}

#[tactic(auto, unfolding(crate::specs::Decisions::disable))]
fn disable(a: Activation, broadcast: bool, own: bool, switch: Switch) -> Effect
    ensures { result ≡ disable a broadcast own switch }
{
    if broadcast {
        return switched(a, own, switch);
    }
    ignored()
}

fn by_content(s: Station, broadcast: bool, seq: u8, content: Content) -> Effect
    ensures { result ≡ by_content_lem s broadcast seq content }
{
    let a = s.activation;
    let own = serial_number(s.serial);
    match content {
        Content::Profile | Content::KeyControl | Content::SleepAllow => ignored(),
        Content::AssignOnuId(onu, serial) => { assign_onu_id(a, broadcast, own == serial, onu) }
        Content::RangingTime(way, amount) => {
            ranging::ranging_time(a.number(), broadcast, s.link.delay, seq, way, amount)
        }
        Content::DeactivateOnuId => deactivate(a),
        Content::DisableSerialNumber(switch, serial) => {
            disable(a, broadcast, own == serial, switch)
        }
        Content::RequestRegistration => request_registration(a, broadcast, seq),
        Content::AssignAllocId(id, change) => {
            assign_alloc_id(a, broadcast, s.link.allocs, seq, id, change)
        }
        Content::Unknown(_) => unknown_type(a, broadcast, seq),
    }
}

// An answer is needed and 8 are owed: the message is ignored whole.
fn fitting(owed: Queue, e: Effect) -> Effect
    ensures { result ≡ fitting owed e }
{
    if e.debt.is_some() && link::MOST_OWED <= owed.count {
        return ignored();
    }
    e
}

// What the message does to the station if it is genuine.
#[tactic(auto, unfolding(crate::specs::Decisions::decision, crate::specs::Decisions::is_ours, crate::specs::Decisions::is_broadcast, crate::specs::Decisions::effect_of))]
pub fn decide(s: Station, m: Message) -> Effect
    ensures { Decides s m result }
{
    let broadcast = m.address == OnuId::broadcast();
    if broadcast || m.address == s.link.onu {
        return fitting(s.link.owed, by_content(s, broadcast, m.seq, m.content));
    }
    ignored()
}
