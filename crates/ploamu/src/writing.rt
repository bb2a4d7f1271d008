// Writing an upstream message into a lent slice.
ghost use Rattle.std.specs.Prelude.{◌≡◌, ◌∷◌, ◌++◌, ◌+◌, ◌≤◌, length, replicate};
ghost use Rattle.std.proofs.Math.Seq.{paste};
ghost use Rattle.octets.specs.Octets.{octets};
ghost use Rattle.ids.specs.Ids.{broadcast_onu};
ghost use Rattle.ploam.specs.Layout.{serial_number_onu, registration, acknowledgement};
ghost use Rattle.ploamu.specs.Upstream.{capped};
ghost use Rattle.ploamu.specs.Upstream.{upstream_address, upstream_octets_lem};
ghost use Rattle.ploamu.specs.Writing.{laid_by, written_by, Leaves};

use super::UpstreamMessage;
use answers::Answer;
use cmac::Prepared;
use ids::OnuId;
use integrity::{COVERED_OCTETS, Direction};
use octets::Number;
use ploam::reading::ADDRESSES;
use ploam::{ACKNOWLEDGEMENT, MESSAGE_OCTETS, REGISTRATION, SERIAL_NUMBER_ONU, SerialNumber};

// 13.1.2: the longest random delay, 48 microseconds in bit times.
const LONGEST_DELAY: u32 = 119439;

// The ONU-ID field has ten bits, and Serial_Number_ONU is sent from the broadcast ONU-ID.
const WIDEST_ONU: u16 = ADDRESSES - 1;

fn capped(delay: u32) -> u32
    ensures { result ≡ capped delay }
{
    delay.min(LONGEST_DELAY)
}

// What every message begins with, and no content yet.
fn headed(onu: OnuId, kind: u8, seq: u8) -> [u8; 40]
    ensures { result ≡ octets 2 onu.0 ++ kind ∷ seq ∷ replicate 36 0 }
{
    let mut m = [0u8; 40];
    onu.0.put(&mut m);
    m[2] = kind;
    m[3] = seq;
    m
}

fn serial_octets(serial: SerialNumber, delay: u32) -> [u8; 40]
    ensures { result ≡ octets 2 broadcast_onu.0 ++ serial_number_onu ∷ 0 ∷ (octets 4 serial.vendor ++ octets 4 serial.vssn ++ octets 4 delay ++ replicate 24 0) }
{
    let mut m = headed(OnuId::broadcast(), SERIAL_NUMBER_ONU, 0);
    serial.vendor.put(&mut m[4..]);
    serial.vssn.put(&mut m[8..]);
    delay.put(&mut m[12..]);
    m
}

fn registration_octets(onu: OnuId, seq: u8, id: [u8; 36]) -> [u8; 40]
    ensures { result ≡ octets 2 onu.0 ++ registration ∷ seq ∷ id }
{
    let mut m = headed(onu, REGISTRATION, seq);
    m[4..].copy_from_slice(&id);
    m
}

fn acknowledgement_octets(onu: OnuId, seq: u8, code: u8) -> [u8; 40]
    ensures { result ≡ octets 2 onu.0 ++ acknowledgement ∷ seq ∷ code ∷ replicate 35 0 }
{
    let mut m = headed(onu, ACKNOWLEDGEMENT, seq);
    m[4] = code;
    m
}

#[tactic(auto, unfolding(crate::specs::Upstream::upstream_octets_lem))]
fn upstream_octets(message: UpstreamMessage, id: [u8; 36]) -> [u8; 40]
    ensures { result ≡ upstream_octets_lem message id }
{
    match message {
        UpstreamMessage::SerialNumberOnu(serial, delay) => serial_octets(serial, capped(delay)),
        UpstreamMessage::Registration(onu, seq) => registration_octets(onu, seq, id),
        UpstreamMessage::Acknowledgement(onu, seq, code) => acknowledgement_octets(
            onu,
            seq,
            code.code(),
        ),
    }
}

fn sender(message: UpstreamMessage) -> OnuId
    ensures { result ≡ upstream_address message }
{
    match message {
        UpstreamMessage::SerialNumberOnu(_, _) => OnuId::broadcast(),
        UpstreamMessage::Registration(onu, _) => onu,
        UpstreamMessage::Acknowledgement(onu, _, _) => onu,
    }
}

// Lays s over target from a place on.
fn lay(target: &mut [u8], at: usize, s: &[u8])
    requires { at + length s.now ≤ length target.old }
    ensures { target.new ≡ paste target.old at s.now (length s.now) }
{
    target[at..at + s.len()].copy_from_slice(s);
}

// Lays octets 1 to 40 and their integrity field over the front of target.
fn put(key: Prepared, direction: Direction, fits: bool, b: &[u8; 40], target: &mut [u8]) -> Answer
    ensures { record { answer = result; target = target.new } ≡ laid_by key direction fits b.now target.old }
{
    if !fits || target.len() < MESSAGE_OCTETS {
        return Answer::NotWritten;
    }
    let mic = integrity::sign(key, direction, b);
    lay(target, 0, b);
    lay(target, COVERED_OCTETS, &mic);
    Answer::Done
}

// Writes the message, signed with its own key: the default key (`usual`, prepared) or the installed one. Where none is
// installed, the caller gives the default for both.
pub fn write(
    usual: Prepared,
    installed: Prepared,
    message: UpstreamMessage,
    id: [u8; 36],
    target: &mut [u8],
) -> Answer
    ensures { Leaves (written_by usual installed message id target.old) (upstream_octets_lem message id) (record { answer = result; target = target.new }) }
{
    let b = upstream_octets(message, id);
    let onu = sender(message);
    let fits = onu.0 <= WIDEST_ONU;
    if integrity::by_default(Direction::Upstream, onu, b[2]) {
        put(usual, Direction::Upstream, fits, &b, target)
    } else {
        put(installed, Direction::Upstream, fits, &b, target)
    }
}
