// The frame call: a downstream frame has arrived in its frame time.
#![tactic(auto)]

ghost use Rattle.std.specs.Prelude.{◌≡◌, true, ◌+◌, ◌≤◌, length};
ghost use Rattle.validity.specs.Ranges.{in_range};
ghost use Rattle.plan.specs.Limits.{plan_numbers};
ghost use Rattle.plan.specs.Plan.{written};
ghost use Rattle.bwmap.specs.Plan.{counted};
ghost use Rattle.series.specs.Series.{planned_of};
ghost use Rattle.payload.specs.Walk.{memory_bytes};
ghost use Rattle.downstream.specs.Partitions.{header_end_lem};
ghost use Rattle.frame.specs.Given.{arriving, lending, buffers_fit};
ghost use Rattle.frame.specs.Frame.{leaving, no_counts, without, answer_to_lem, plan_of, own_of, walked_from, handled, FrameLeaves};

pub mod given;

use answers::Answer;
use bwmap::Plan;
use downstream::{Opening, partitions};
use entries::Own;
use payload::{Delineation, Received};
use station::Station;
use xgtc::hlend::Hlend;

// How much a frame call has written: records of four numbers in the plan, messages of 48 octets in the replies, bytes in the
// deliveries.
#[derive(Clone, Copy)]
pub struct Counts {
    pub records: usize,
    pub replies: usize,
    pub bytes: usize,
}

impl Counts {
    // Nothing is written.
    pub fn none() -> Counts
        ensures { result ≡ no_counts }
    {
        Counts {
            records: 0,
            replies: 0,
            bytes: 0,
        }
    }
}

// What a frame call returns: an outcome, and how much it has written.
#[derive(Clone, Copy)]
pub struct FrameOutcome {
    pub answer: Answer,
    pub station: Station,
    pub counts: Counts,
}

fn without(answer: Answer, s: Station) -> FrameOutcome
    ensures { result ≡ without answer s }
{
    FrameOutcome {
        answer,
        station: s,
        counts: Counts::none(),
    }
}

fn answer_to(delineation: Delineation) -> Answer
    ensures { result ≡ answer_to_lem delineation }
{
    match delineation {
        Delineation::Kept => Answer::Done,
        Delineation::Lost => Answer::DelineationLost,
        Delineation::Unfit => Answer::BufferTooShort,
    }
}

fn plan_of(answer: Option<Plan>) -> Plan
    ensures { result ≡ plan_of answer }
{
    match answer {
        Some(p) => p,
        None => Plan {
            records: 0,
            bursts: 0,
            messages: 0,
            end: 0,
            carried: 0,
        },
    }
}

// What of a station says which structures of a map are its own.
pub fn own_of(s: Station) -> Own
    ensures { result ≡ own_of s }
{
    Own {
        activation: s.activation,
        onu: s.link.onu,
        allocs: s.link.allocs,
    }
}

// The plan follows the state in which the frame arrived.
fn plan_bursts(s: Station, map: &[u8], plan: &mut [u16]) -> Plan
    requires { plan_numbers ≤ length plan.old }
    ensures { (result ≡ counted s.carried (planned_of (own_of s) map.now s.carried))
        × (plan.new ≡ written (planned_of (own_of s) map.now s.carried) plan.old) }
{
    plan_of(bwmap::plan_map(map, own_of(s), s.carried, plan))
}

// Only a frame that arrives in O5 has its payload walked.
fn receive_payload(
    s: Station,
    place: usize,
    payload: &[u8],
    memory: &mut [u8],
    deliveries: &mut [u8],
) -> Received
    requires { (in_range s ≡ true) × (memory_bytes ≤ length memory.old) × (length payload.now + memory_bytes ≤ length deliveries.old) }
    ensures { record { receiver = record { ports = result.ports; bytes = result.bytes; memory = memory.new; deliveries = deliveries.new }; delineation = result.delineation } ≡ walked_from s place payload.now memory.old deliveries.old }
{
    if !s.activation.is_operating() {
        return Received {
            ports: s.ports,
            bytes: 0,
            delineation: Delineation::Kept,
        };
    }
    payload::receive(
        s.ports,
        s.link.onu.management_port(),
        memory,
        deliveries,
        place,
        payload,
    )
}

// The frame is open: (a) plan, replies and deliveries, (b) the messages, (c) the frame's end.
fn handle(
    s: Station,
    h: Hlend,
    memory: &mut [u8],
    frame: &[u8],
    random_delay: u32,
    plan: &mut [u16],
    replies: &mut [u8],
    deliveries: &mut [u8],
) -> FrameOutcome
    requires { (in_range s ≡ true) × (header_end_lem h ≤ length frame.now) × (buffers_fit (arriving frame.now random_delay) (lending memory.old plan.old replies.old deliveries.old) ≡ true) }
    ensures { leaving result (lending memory.new plan.new replies.new deliveries.new) ≡ handled s h (arriving frame.now random_delay) (lending memory.old plan.old replies.old deliveries.old) }
{
    let map = partitions::map_end(h);
    let end = partitions::header_end(h);
    let p = plan_bursts(s, &frame[partitions::HLEND_OCTETS..map], plan);
    let sent = replies::reply_all(s, p.messages, random_delay, replies);
    let r = receive_payload(s, end, &frame[end..], memory, deliveries);
    let found = sent.with_ports(r.ports).with_carried(p.carried);
    let acted = messages::receive_all(found, &frame[map..end]);
    FrameOutcome {
        answer: answer_to(r.delineation),
        station: timing::frame_end(acted, s.activation.is_ranging()),
        counts: Counts {
            records: p.records,
            replies: p.messages,
            bytes: r.bytes,
        },
    }
}

// The frame of this frame time, with the random delay of Serial_Number_ONU in bit times. Answers 0 to 6, tested in that
// order; the counts are 0 after 1 to 5.
pub fn frame(
    s: Station,
    memory: &mut [u8],
    frame: &[u8],
    random_delay: u32,
    plan: &mut [u16],
    replies: &mut [u8],
    deliveries: &mut [u8],
) -> FrameOutcome
    ensures { FrameLeaves s (arriving frame.now random_delay) (lending memory.old plan.old replies.old deliveries.old) result (lending memory.new plan.new replies.new deliveries.new) }
{
    let valid = validity::in_range(s);
    let room = given::enough(
        frame.len(),
        memory.len(),
        plan.len(),
        replies.len(),
        deliveries.len(),
    );
    match downstream::open(valid, frame, room) {
        Opening::Refused(answer) => without(answer, s),
        Opening::Unread(answer) => without(answer, timing::unread_time(s)),
        Opening::Opened(h) => handle(s, h, memory, frame, random_delay, plan, replies, deliveries),
    }
}
