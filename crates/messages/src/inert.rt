// What of a frame's messages can do nothing, told by address and type alone. Most of a branch's messages are for other
// stations: they cost this look, and neither the state nor a key is touched for them.
ghost use Rattle.std.specs.Prelude.{◌≡◌, ◌-◌, ◌/◌, ◌≤◌, length};
ghost use Rattle.ploam.specs.Layout.{message_octets};
ghost use Rattle.messages.specs.Inert.{full_of, inert, past_inert_lem};

use ids::OnuId;
use link::Queue;
use ploam::{DEACTIVATE_ONU_ID, MESSAGE_OCTETS};

#[tactic(auto, unfolding(crate::specs::Inert::inert))]
pub(crate) fn is_inert(onu: OnuId, full: bool, m: &[u8]) -> bool
    requires { message_octets ≤ length m.now }
    ensures { result ≡ inert onu full m.now }
{
    let to = ploam::reading::address(m[0], m[1]);
    // of those to the station itself one type can act and owes no answer
    to != OnuId::broadcast() && (to != onu || (full && m[2] != DEACTIVATE_ONU_ID))
}

// No further answer can be owed.
pub(crate) fn is_full(owed: Queue) -> bool
    ensures { result ≡ full_of owed }
{
    link::MOST_OWED <= owed.count
}

// The first message from `from` on that may act, or where they end.
pub(crate) fn past_inert(onu: OnuId, full: bool, messages: &[u8], from: usize) -> usize
    ensures { result ≡ past_inert_lem onu full messages.now from (length messages.now / message_octets - from) }
{
    let n = messages.len() / MESSAGE_OCTETS;
    for i in from..n {
        let at = MESSAGE_OCTETS * i;
        if !is_inert(onu, full, &messages[at..at + MESSAGE_OCTETS]) {
            return i;
        }
    }
    from.max(n)
}
