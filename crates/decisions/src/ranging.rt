// Ranging_Time: where the equalization delay moves, and what is said of it.
ghost use Rattle.std.specs.Prelude.{◌≡◌, Bool};
ghost use Rattle.effects.specs.Effects.{does, answers, ignored};
ghost use Rattle.decisions.specs.Ranging.{absolute, moved, answered, unanswered, ranging_time_lem};

use effects::{Change, Effect, answers, does, ignored};
use ploam::{Adjustment, Completion};
use station::{O4, O5};

fn is_absolute(way: Adjustment) -> bool
    ensures { result ≡ absolute way }
{
    matches!(way, Adjustment::Absolute)
}

// Where a delay goes, if a number of 32 bits can say it.
fn moved(way: Adjustment, delay: u32, amount: u32) -> Option<u32>
    ensures { result ≡ moved way delay amount }
{
    match way {
        Adjustment::Absolute => Some(amount),
        Adjustment::Add => delay.checked_add(amount),
        Adjustment::Subtract => delay.checked_sub(amount),
    }
}

fn answered(to: Option<u32>, seq: u8) -> Effect
    ensures { result ≡ answered to seq }
{
    match to {
        Some(delay) => answers(Change::Delay(delay), Completion::Ok, seq),
        None => answers(Change::Keep, Completion::ParameterError, seq),
    }
}

fn unanswered(to: Option<u32>) -> Effect
    ensures { result ≡ unanswered to }
{
    match to {
        Some(delay) => does(Change::Delay(delay)),
        None => ignored(),
    }
}

// What may not change: `ranging_time` is public, and its clause says the state by its number.
#[tactic(auto, unfolding(crate::specs::Ranging::ranging_time_lem))]
pub fn ranging_time(
    state: u8,
    broadcast: bool,
    delay: u32,
    seq: u8,
    way: Adjustment,
    amount: u32,
) -> Effect
    ensures { result ≡ ranging_time_lem state broadcast delay seq way amount }
{
    if broadcast {
        if state != O5 || is_absolute(way) {
            return ignored();
        }
        return unanswered(moved(way, delay, amount));
    }
    if state == O5 {
        return answered(moved(way, delay, amount), seq);
    }
    if state == O4 && is_absolute(way) {
        return answers(Change::Range(amount), Completion::Ok, seq);
    }
    ignored()
}
