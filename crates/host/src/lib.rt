// The host's calls: a port added, a port removed, the key given. A refusal leaves the station as it was.
#![tactic(auto)]

ghost use Rattle.std.specs.Prelude.{◌≡◌};
ghost use Rattle.host.specs.Host.{done, outcome, answer_to_add_lem, answer_to_remove_lem, answer_to_key_lem};
ghost use Rattle.host.specs.Host.{AddLeaves, RemoveLeaves, KeyLeaves, after_add, after_remove, after_key};

use answers::Answer;
use ids::PortId;
use link::Key;
use station::{Outcome, Station};

fn is_done(answer: Answer) -> bool
    ensures { result ≡ done answer }
{
    matches!(answer, Answer::Done)
}

// Refused, the call leaves the station as it was.
fn settle(answer: Answer, was: Station, next: Station) -> Outcome
    ensures { result ≡ outcome answer was next }
{
    Outcome {
        answer,
        station: if is_done(answer) { next } else { was },
    }
}

#[tactic(auto, unfolding(crate::specs::Host::answer_to_add_lem))]
fn answer_to_add(s: Station, port: PortId) -> Answer
    ensures { result ≡ answer_to_add_lem s port }
{
    if !validity::in_range(s) {
        return Answer::StateOutOfRange;
    }
    if !port.is_assignable() {
        return Answer::PortOutOfRange;
    }
    if s.ports.place(port).is_some() {
        return Answer::PortHeldOrNotHeld;
    }
    if s.ports.vacancy().is_some() {
        return Answer::Done;
    }
    Answer::SlotsTaken
}

#[tactic(auto, unfolding(crate::specs::Host::answer_to_remove_lem))]
fn answer_to_remove(s: Station, port: PortId) -> Answer
    ensures { result ≡ answer_to_remove_lem s port }
{
    if !validity::in_range(s) {
        return Answer::StateOutOfRange;
    }
    if !port.is_assignable() {
        return Answer::PortOutOfRange;
    }
    if s.ports.place(port).is_some() {
        return Answer::Done;
    }
    Answer::PortHeldOrNotHeld
}

#[tactic(auto, unfolding(crate::specs::Host::answer_to_key_lem))]
fn answer_to_key(s: Station) -> Answer
    ensures { result ≡ answer_to_key_lem s }
{
    if !validity::in_range(s) {
        return Answer::StateOutOfRange;
    }
    if s.activation.holds_identity() {
        return Answer::Done;
    }
    Answer::KeyRefused
}

// The port is added in the lowest empty slot, and waits.
#[tactic(auto, unfolding(crate::specs::Host::after_add))]
pub fn add_port(s: Station, port: PortId) -> Outcome
    ensures { AddLeaves s port result }
{
    settle(answer_to_add(s, port), s, s.with_ports(s.ports.add(port)))
}

#[tactic(auto, unfolding(crate::specs::Host::after_remove))]
pub fn remove_port(s: Station, port: PortId) -> Outcome
    ensures { RemoveLeaves s port result }
{
    settle(
        answer_to_remove(s, port),
        s,
        s.with_ports(s.ports.remove(port)),
    )
}

// The key replaces one held, and counts from the next call on.
#[tactic(auto, unfolding(crate::specs::Host::after_key))]
pub fn give_key(s: Station, octets: [u8; 16]) -> Outcome
    ensures { KeyLeaves s octets result }
{
    settle(
        answer_to_key(s),
        s,
        s.with_link(s.link.with_key(Key::installed(octets))),
    )
}
