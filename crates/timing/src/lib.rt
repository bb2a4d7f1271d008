// What a frame time does to the station by itself: the step at a frame's end, a frame time that is lost, and one whose
// header could not be used.
#![tactic(auto)]

ghost use Rattle.std.specs.Prelude.{◌≡◌};
ghost use Rattle.timing.specs.Timing.{count_to1_lem, count_to2_lem, silence, frame_end_lem, lost_state_lem, lost_time_lem, unread_state_lem, unread_time_lem};

use station::limits::TO2;
use station::{Activation, Station};

// TO1 counts down, and at 0 goes to O2-3.
#[tactic(auto, unfolding(crate::specs::Timing::count_to1_lem))]
fn count_to1(s: Station, left: u32) -> Station
    ensures { result ≡ count_to1_lem s left }
{
    if left <= 1 {
        return s.enter(Activation::SerialNumber);
    }
    s.with_activation(Activation::Ranging(left - 1))
}

// TO2 counts down, and at 0 goes to O1.
#[tactic(auto, unfolding(crate::specs::Timing::count_to2_lem))]
fn count_to2(s: Station, left: u32) -> Station
    ensures { result ≡ count_to2_lem s left }
{
    if left <= 1 {
        return s.enter(Activation::Initial);
    }
    s.with_activation(Activation::Intermittent(left - 1))
}

// Nothing was received and nothing sent.
#[tactic(auto, unfolding(crate::specs::Timing::silence))]
fn silence(s: Station) -> Station
    ensures { result ≡ silence s }
{
    s.with_ports(s.ports.drop_all()).with_carried(0)
}

// The one step after a frame's messages. TO1 counts if the frame arrived in O4.
#[tactic(auto, unfolding(crate::specs::Timing::frame_end_lem))]
pub fn frame_end(s: Station, arrived_ranging: bool) -> Station
    ensures { result ≡ frame_end_lem s arrived_ranging }
{
    match s.activation {
        Activation::Initial => s.enter(Activation::SerialNumber),
        Activation::Ranging(left) => {
            if arrived_ranging {
                return count_to1(s, left);
            }
            s
        }
        Activation::Intermittent(_) => s.with_activation(Activation::Operation),
        Activation::SerialNumber | Activation::Operation | Activation::EmergencyStop => s,
    }
}

#[tactic(auto, unfolding(crate::specs::Timing::lost_state_lem))]
fn lost_state(s: Station) -> Station
    ensures { result ≡ lost_state_lem s }
{
    match s.activation {
        Activation::SerialNumber | Activation::Ranging(_) => s.enter(Activation::Initial),
        Activation::Operation => s.with_activation(Activation::Intermittent(TO2)),
        Activation::Intermittent(left) => count_to2(s, left),
        Activation::Initial | Activation::EmergencyStop => s,
    }
}

// A frame time in which the synchroniser reports LODS.
#[tactic(auto, unfolding(crate::specs::Timing::lost_time_lem))]
pub fn lost_time(s: Station) -> Station
    ensures { result ≡ lost_time_lem s }
{
    silence(lost_state(s))
}

#[tactic(auto, unfolding(crate::specs::Timing::unread_state_lem))]
fn unread_state(s: Station) -> Station
    ensures { result ≡ unread_state_lem s }
{
    match s.activation {
        Activation::Ranging(left) => count_to1(s, left),
        Activation::Intermittent(left) => count_to2(s, left),
        Activation::Initial
        | Activation::SerialNumber
        | Activation::Operation
        | Activation::EmergencyStop => s,
    }
}

// The frame time of a frame that is answered 4 or 5.
#[tactic(auto, unfolding(crate::specs::Timing::unread_time_lem))]
pub fn unread_time(s: Station) -> Station
    ensures { result ≡ unread_time_lem s }
{
    silence(unread_state(s))
}
