// The state that octets show. What they show need not have these octets: `known` tests that.
ghost use Rattle.std.specs.Prelude.{◌≡◌, ◌≤◌, length};
ghost use Rattle.layout.specs.Offsets.{state_bytes};
ghost use Rattle.layout.specs.Layout.{activation_by_lem, response_by_lem, shown};

use super::{field, offsets};
use link::Response;
use ploam::Completion;
use station::{Activation, Station};

pub(crate) fn activation_by(number: u8, left: u32) -> Activation
    ensures { result ≡ activation_by_lem number left }
{
    match number {
        station::O23 => Activation::SerialNumber,
        station::O4 => Activation::Ranging(left),
        station::O5 => Activation::Operation,
        station::O6 => Activation::Intermittent(left),
        station::O7 => Activation::EmergencyStop,
        _ => Activation::Initial,
    }
}

pub(crate) fn response_by(number: u8) -> Response
    ensures { result ≡ response_by_lem number }
{
    match number {
        1 => Response::Acknowledgement(Completion::Ok),
        2 => Response::Acknowledgement(Completion::NoMessage),
        4 => Response::Acknowledgement(Completion::UnknownMessageType),
        5 => Response::Acknowledgement(Completion::ParameterError),
        6 => Response::Acknowledgement(Completion::ProcessingError),
        _ => Response::Registration,
    }
}

#[tactic(auto, unfolding(crate::specs::Layout::shown))]
pub(crate) fn station_in(b: &[u8]) -> Station
    requires { state_bytes ≤ length b.now }
    ensures { result ≡ shown b.now }
{
    Station {
        activation: field::field_at(b, offsets::ACTIVATION_AT),
        serial: field::octets_at(b, offsets::SERIAL_AT),
        registration: field::octets_at(b, offsets::REGISTRATION_AT),
        link: field::field_at(b, offsets::LINK_AT),
        ports: field::field_at(b, offsets::PORTS_AT),
        carried: field::field_at(b, offsets::CARRIED_AT),
    }
}
