// A state's octets, field after field.
ghost use Rattle.std.specs.Prelude.{◌≡◌, ◌≤◌, ◌<◌, length};
ghost use Rattle.xgem.specs.Writes.{put};
ghost use Rattle.layout.specs.Offsets.{link_at, state_bytes};
ghost use Rattle.layout.specs.Layout.{time_left_lem, response_number_lem, identity_octets, encoded};

use super::field::{self, Field};
use super::offsets;
use link::Response;
use station::{Activation, Station};

pub(crate) fn time_left(a: Activation) -> u32
    ensures { result ≡ time_left_lem a }
{
    match a {
        Activation::Initial => 0,
        Activation::SerialNumber => 0,
        Activation::Ranging(left) => left,
        Activation::Operation => 0,
        Activation::Intermittent(left) => left,
        Activation::EmergencyStop => 0,
    }
}

pub(crate) fn response_number(r: Response) -> u8
    ensures { (result ≡ response_number_lem r) × (result < 7) }
{
    match r {
        Response::Registration => 0,
        Response::Acknowledgement(completion) => completion.code() + 1,
    }
}

fn put_identity(a: Activation, serial: [u8; 8], registration: [u8; 36], out: &mut [u8])
    requires { link_at ≤ length out.old }
    ensures { (out.new ≡ put out.old (identity_octets a serial registration)) × (length (identity_octets a serial registration) ≡ link_at) }
{
    offsets::STATE_VERSION.lay(out);
    a.lay(&mut out[offsets::ACTIVATION_AT..]);
    field::lay_octets(&serial, &mut out[offsets::SERIAL_AT..]);
    field::lay_octets(&registration, &mut out[offsets::REGISTRATION_AT..]);
}

pub(crate) fn put_station(s: Station, out: &mut [u8])
    requires { state_bytes ≤ length out.old }
    ensures { (out.new ≡ put out.old (encoded s)) × (length (encoded s) ≡ state_bytes) }
{
    put_identity(s.activation, s.serial, s.registration, out);
    s.link.lay(&mut out[offsets::LINK_AT..]);
    s.ports.lay(&mut out[offsets::PORTS_AT..]);
    s.carried.lay(&mut out[offsets::CARRIED_AT..]);
}
