// Reading an upstream message, as the other end of the fibre does.
ghost use Rattle.std.specs.Prelude.{◌≡◌, ◌≤◌, length};
ghost use Rattle.ploam.specs.Layout.{message_octets, type_of};
ghost use Rattle.ploamu.specs.Upstream.{acknowledged, heard_as, heard, registration_id_of};

use super::{Unheard, UpstreamMessage};
use ids::OnuId;
use octets::Number;
use ploam::reading::{address, serial_number};
use ploam::{ACKNOWLEDGEMENT, Completion, MESSAGE_OCTETS, REGISTRATION, SERIAL_NUMBER_ONU};

fn acknowledged(onu: OnuId, seq: u8, code: u8) -> Result<UpstreamMessage, Unheard>
    ensures { result ≡ acknowledged onu seq code }
{
    let completion = match code {
        0 => Completion::Ok,
        1 => Completion::NoMessage,
        3 => Completion::UnknownMessageType,
        4 => Completion::ParameterError,
        5 => Completion::ProcessingError,
        _ => return Err(Unheard::Other),
    };
    Ok(UpstreamMessage::Acknowledgement(onu, seq, completion))
}

#[tactic(auto, unfolding(crate::specs::Upstream::heard_as))]
fn content(m: &[u8]) -> Result<UpstreamMessage, Unheard>
    requires { message_octets ≤ length m.now }
    ensures { result ≡ heard_as (type_of m.now) m.now }
{
    let kind = m[2];
    match kind {
        SERIAL_NUMBER_ONU => Ok(UpstreamMessage::SerialNumberOnu(
            serial_number([m[4], m[5], m[6], m[7], m[8], m[9], m[10], m[11]]),
            u32::read(&m[12..]),
        )),
        REGISTRATION => Ok(UpstreamMessage::Registration(address(m[0], m[1]), m[3])),
        ACKNOWLEDGEMENT => acknowledged(address(m[0], m[1]), m[3], m[4]),
        _ => Err(Unheard::Other),
    }
}

#[tactic(auto, unfolding(crate::specs::Upstream::heard))]
pub fn read(m: &[u8]) -> Result<UpstreamMessage, Unheard>
    ensures { result ≡ heard m.now }
{
    if m.len() < MESSAGE_OCTETS {
        return Err(Unheard::Short);
    }
    content(m)
}

// The Registration ID of a Registration; empty where the slice is short.
pub fn registration_id(m: &[u8]) -> &[u8]
    ensures { result.now ≡ registration_id_of m.now }
{
    if m.len() < MESSAGE_OCTETS {
        return &m[0..0];
    }
    &m[4..40]
}
