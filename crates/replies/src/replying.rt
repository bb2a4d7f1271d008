// What a planned PLOAMu burst sends, and what is then no longer owed.
ghost use Rattle.std.specs.Prelude.{◌≡◌};
ghost use Rattle.replies.specs.Replying.{answering, in_operation_lem, reply_of_lem, after_reply_lem, Replies, Leaves};

use ids::OnuId;
use link::{Owed, Queue, Response};
use ploam::Completion;
use ploamu::UpstreamMessage;
use station::{Activation, Station};

fn answering(onu: OnuId, owed: Owed) -> UpstreamMessage
    ensures { result ≡ answering onu owed }
{
    match owed.response {
        Response::Registration => UpstreamMessage::Registration(onu, owed.seq_no),
        Response::Acknowledgement(code) => UpstreamMessage::Acknowledgement(onu, owed.seq_no, code),
    }
}

fn in_operation(onu: OnuId, owed: Queue) -> UpstreamMessage
    ensures { result ≡ in_operation_lem onu owed }
{
    if owed.count == 0 {
        UpstreamMessage::Acknowledgement(onu, 0, Completion::NoMessage)
    } else {
        answering(onu, owed.oldest())
    }
}

// O1, O6 and O7 send nothing.
#[tactic(auto, unfolding(crate::specs::Replying::reply_of_lem))]
pub fn reply_of(s: Station, delay: u32) -> Option<UpstreamMessage>
    ensures { Replies s delay result }
{
    match s.activation {
        Activation::SerialNumber => Some(UpstreamMessage::SerialNumberOnu(
            ploam::reading::serial_number(s.serial),
            delay,
        )),
        Activation::Ranging(_) => Some(UpstreamMessage::Registration(s.link.onu, 0)),
        Activation::Operation => Some(in_operation(s.link.onu, s.link.owed)),
        Activation::Initial | Activation::Intermittent(_) | Activation::EmergencyStop => { None }
    }
}

// The answer that was sent is no longer owed.
#[tactic(auto, unfolding(crate::specs::Replying::after_reply_lem))]
pub fn after_reply(s: Station) -> Station
    ensures { Leaves s result }
{
    match s.activation {
        Activation::Operation => s.with_link(s.link.with_owed(s.link.owed.paid())),
        _ => s,
    }
}
