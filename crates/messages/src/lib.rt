// The messages of a frame act one after another, each on the state left by the last.
#![tactic(auto)]

ghost use Rattle.std.specs.Prelude.{Bool, ◌≡◌, ◌-◌, ◌/◌, ◌≤◌, length};
ghost use Rattle.cmac.specs.Tags.{Ready};
ghost use Rattle.link.specs.Limits.{key_octets};
ghost use Rattle.effects.specs.Changes.{applied};
ghost use Rattle.messages.specs.Asking.{asked_of};
ghost use Rattle.ploam.specs.Layout.{message_octets, message_at};
ghost use Rattle.messages.specs.Receiving.{messages_from, received_by, received_each_by, Installed, AllReceived};
ghost use Rattle.messages.specs.Checking.{verdict_at, Known, Askable};

mod checking;
mod inert;

use cmac::Prepared;
use effects::{Change, Effect};
use link::Key;
use ploam::MESSAGE_OCTETS;
use station::Station;

// What a message does, and where the window of verdicts then begins.
#[derive(Clone, Copy)]
pub struct Consideration {
    pub effect: Effect,
    pub base: usize,
}

// Message i. The integrity check is made last: it costs most, and a failed test of any kind ignores the message.
fn considered(
    usual: Prepared,
    installed: Prepared,
    s: Station,
    messages: &[u8],
    i: usize,
    base: usize,
    marks: &mut [u8; 64],
) -> Consideration
    requires { Askable (verdict_at usual installed messages.now) (length messages.now / message_octets) base i marks.old }
    ensures { (applied s result.effect ≡ received_by usual installed s (message_at messages.now i)) × (result.base ≤ i) × (Known (verdict_at usual installed messages.now) result.base marks.new) }
{
    let at = MESSAGE_OCTETS * i;
    match ploam::reading::read(&messages[at..at + MESSAGE_OCTETS]) {
        Some(message) => {
            let effect = decisions::decide(s, message);
            if effect.is_ignored() {
                return Consideration { effect, base };
            }
            let base = checking::know(
                usual,
                installed,
                s.link.onu,
                inert::is_full(s.link.owed),
                messages,
                i,
                base,
                marks,
            );
            if marks[i - base] == integrity::RIGHT {
                return Consideration { effect, base };
            }
            Consideration {
                effect: effects::ignored(),
                base,
            }
        }
        None => Consideration {
            effect: effects::ignored(),
            base,
        },
    }
}

// What an effect asks of the state. A message that changes nothing, or the delay alone, leaves all else where it is: a frame
// may have 255 of them, and copies of the state show beside their checks.
#[derive(Clone, Copy)]
pub enum Asked {
    Nothing,
    Delay(u32),
    More,
}

fn asked_by(e: Effect) -> Asked
    ensures { result ≡ asked_of e.change e.debt }
{
    match (e.debt, e.change) {
        (None, Change::Keep) => Asked::Nothing,
        (None, Change::Delay(delay)) => Asked::Delay(delay),
        _ => Asked::More,
    }
}

// From the message `first` on.
fn receive_each(
    usual: Prepared,
    installed: Prepared,
    s: Station,
    messages: &[u8],
    first: usize,
) -> Station
    ensures { result ≡ received_each_by usual installed s (messages_from messages.now first (length messages.now / message_octets - first)) }
{
    let n = messages.len() / MESSAGE_OCTETS;
    let mut next = s;
    let mut i = first;
    let mut base = first;
    let mut marks = [integrity::NOT_ASKED; 64];
    while i < n {
        let c = considered(usual, installed, next, messages, i, base, &mut marks);
        base = c.base;
        match asked_by(c.effect) {
            Asked::Nothing => {}
            Asked::Delay(delay) => {
                next.link.delay = delay;
            }
            Asked::More => {
                next = effects::apply(next, c.effect);
            }
        }
        i = inert::past_inert(
            next.link.onu,
            inert::is_full(next.link.owed),
            messages,
            i + 1,
        );
    }
    next
}

fn prepared(octets: [u8; 16]) -> Prepared
    ensures { (Ready octets result) × (length octets ≡ key_octets) }
{
    cmac::prepare(octets)
}

// The key held, or the default where none is.
pub fn installed_key(usual: Prepared, key: Key) -> Prepared
    ensures { Installed usual key result }
{
    if key.held {
        prepared(key.octets)
    } else {
        usual
    }
}

// What follows the last whole message is not looked at. No key is prepared where no message may act.
pub fn receive_all(s: Station, messages: &[u8]) -> Station
    ensures { AllReceived s messages.now result }
{
    let first = inert::past_inert(s.link.onu, inert::is_full(s.link.owed), messages, 0);
    if messages.len() / MESSAGE_OCTETS <= first {
        return s;
    }
    let usual = integrity::default_key();
    let installed = installed_key(usual, s.link.key);
    receive_each(usual, installed, s, messages, first)
}
