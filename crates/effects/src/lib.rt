// What a downstream message can do to the station. The decision is apart from what it does: an effect is told by the message and
// the state, in crate `decisions`, and applied once the message has been found genuine.
#![tactic(auto)]

ghost use Rattle.std.specs.Prelude.{◌≡◌};
ghost use Rattle.effects.specs.Effects.{ignored, does, owes, answers, is_ignored_lem};
ghost use Rattle.effects.specs.Changes.{Applies};

use ids::{AllocId, OnuId};
use link::{Owed, Response};
use ploam::Completion;
use station::{Activation, Station};

mod changes;

// What becomes of the state.
#[derive(Clone, Copy)]
pub enum Change {
    Keep,
    Identify(OnuId),
    Range(u32),
    Delay(u32),
    AddAlloc(AllocId),
    RemoveAlloc(AllocId),
    Enter(Activation),
}

#[derive(Clone, Copy)]
pub struct Effect {
    pub change: Change,
    // What the station then owes.
    pub debt: Option<Owed>,
}

impl Effect {
    pub fn is_ignored(self) -> bool
        ensures { result ≡ is_ignored_lem self }
    {
        matches!(self.change, Change::Keep) && self.debt.is_none()
    }
}

pub fn ignored() -> Effect
    ensures { result ≡ ignored }
{
    Effect {
        change: Change::Keep,
        debt: None,
    }
}

pub fn does(change: Change) -> Effect
    ensures { result ≡ does change }
{
    Effect { change, debt: None }
}

pub fn owes(change: Change, response: Response, seq: u8) -> Effect
    ensures { result ≡ owes change response seq }
{
    Effect {
        change,
        debt: Some(Owed {
            response,
            seq_no: seq,
        }),
    }
}

pub fn answers(change: Change, code: Completion, seq: u8) -> Effect
    ensures { result ≡ answers change code seq }
{
    owes(change, Response::Acknowledgement(code), seq)
}

pub fn apply(s: Station, e: Effect) -> Station
    ensures { Applies s e result }
{
    changes::apply(s, e)
}
