// The octets that can be no state's: another version, an unknown number of a state or an answer, a mark other than 0 and 1, and a time in
// a state that carries none. Every other octet belongs to a field that has all its numbers.
ghost use Rattle.std.specs.Prelude.{Bool, ℕ, ◌*◌, ◌≡◌, ◌<◌, ◌≤◌, length, take};
ghost use Rattle.integrity.specs.Integrity.{same};
ghost use Rattle.layout.specs.Offsets.{activation_width, state_bytes};
ghost use Rattle.layout.specs.Layout.{encoded, shown};
ghost use Rattle.layout.specs.KnownOctets.{activation_known_lem, mark_known_lem, answer_known_lem, each_known};

use super::{field, offsets, reading, writing};

// In the whole state.
const HELD_AT: usize = offsets::LINK_AT + offsets::KEY_AT + offsets::HELD_AT;

const ANSWERS_AT: usize = offsets::LINK_AT + offsets::QUEUE_AT + offsets::ANSWERS_AT;

const WAITING_AT: usize = offsets::PORTS_AT + offsets::WAITING_AT;

fn activation_known(c: &[u8]) -> bool
    requires { length c.now ≡ activation_width }
    ensures { result ≡ activation_known_lem c.now }
{
    let number = field::field_at(c, offsets::NUMBER_AT);
    let left = field::field_at(c, offsets::TIME_AT);
    let a = reading::activation_by(number, left);
    if a.number() != number {
        return false;
    }
    writing::time_left(a) == left
}

fn mark_known(number: u8) -> bool
    ensures { result ≡ mark_known_lem number }
{
    number <= 1
}

// Completion code 2, busy (11.3.4.4), is never owed: the paper does not send it.
fn answer_known(number: u8) -> bool
    ensures { result ≡ answer_known_lem number }
{
    (number <= 6) & (number != 3)
}

// The first octet of each of N fields, W octets wide. Each is asked: the answers are joined without a branch.
fn each_known<const W: usize, const N: usize, F: Fn(u8) -> bool>(c: &[u8], known: F) -> bool
    requires fields { length c.now ≡ W * N }
    requires wide { 0 < W }
    requires callable { F.IsAlwaysCallable known }
    ensures { (f : ℕ → Bool) → ((x : ℕ) (r : Bool) → F.post known x r → r ≡ f x) → result ≡ each_known f W N c.now }
{
    let mut all = true;
    for i in 0..N {
        all &= known(c[W * i]);
    }
    all
}

// Whether the octets are those of the state that they show.
pub(crate) fn octets_known(b: &[u8]) -> bool
    requires { state_bytes ≤ length b.now }
    ensures { result ≡ same (encoded (shown b.now)) (take state_bytes b.now) }
{
    let version = b[offsets::VERSION_AT];
    if version != offsets::STATE_VERSION {
        return false;
    }
    if !activation_known(&b[offsets::ACTIVATION_AT..offsets::SERIAL_AT]) {
        return false;
    }
    let held = b[HELD_AT];
    if !mark_known(held) {
        return false;
    }
    let answers = &b[ANSWERS_AT..offsets::PORTS_AT];
    if !each_known::<{ offsets::ANSWER_WIDTH }, { link::MOST_OWED }, _>(answers, answer_known) {
        return false;
    }
    let marks = &b[WAITING_AT..offsets::CARRIED_AT];
    each_known::<{ offsets::MARK_WIDTH }, { ports::SLOTS }, _>(marks, mark_known)
}
