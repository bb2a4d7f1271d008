// The calls that take and leave nothing but a state.
ghost use Rattle.std.specs.Prelude.{◌≡◌, ◌≤◌, length, take};
ghost use Rattle.answers.specs.Answers.{answer_number};
ghost use Rattle.layout.specs.Layout.{stored};
ghost use Rattle.boundary.specs.Calls.{StateIs, unread_answer, asked, in_range_on, lost_on, add_on, remove_on, key_on, power_on_in};

use answers::Answer;
use ids::PortId;
use link::KEY_OCTETS;
use station::limits::{REGISTRATION_OCTETS, SERIAL_OCTETS};
use station::{Outcome, Station};
use xgem::ReadError;

const DONE: u8 = answers::DONE;

const STATE_OUT_OF_RANGE: u8 = answers::STATE_OUT_OF_RANGE;

const BUFFER_TOO_SHORT: u8 = answers::BUFFER_TOO_SHORT;

// The first N octets of a buffer.
fn first<const N: usize>(c: &[u8]) -> [u8; N]
    requires { N ≤ length c.now }
    ensures { result ≡ take N c.now }
{
    let mut l = [0u8; N];
    l.copy_from_slice(&c[..N]);
    l
}

// The station goes back where it came from, and the answer by its number.
pub(crate) fn put_back(answer: Answer, s: Station, state: &mut [u8]) -> u8
    ensures { (result ≡ answer_number answer) × (state.new ≡ stored s state.old) }
{
    layout::write_state(s, state);
    answer.number()
}

fn settle(o: Outcome, state: &mut [u8]) -> u8
    ensures { (result ≡ answer_number o.answer) × (state.new ≡ stored o.station state.old) }
{
    put_back(o.answer, o.station, state)
}

// The answer where a buffer holds no state, by its number.
pub(crate) fn unread(error: ReadError) -> u8
    ensures { result ≡ answer_number (unread_answer error) }
{
    match error {
        ReadError::Unreadable => STATE_OUT_OF_RANGE,
        ReadError::Short => BUFFER_TOO_SHORT,
    }
}

// 1 comes before 3, for a call whose own buffer has room or not.
fn asked(room: bool, s: Station) -> u8
    ensures { result ≡ answer_number (asked room s).answer }
{
    if !engine::in_range(s) {
        return STATE_OUT_OF_RANGE;
    }
    if !room {
        return BUFFER_TOO_SHORT;
    }
    DONE
}

// A station that is powered on, in O1 with nothing held.
#[tactic(auto, unfolding(crate::specs::Calls::power_on_in), using(crate::proofs::Laws::powered))]
pub fn lingbarrow_power_on(state: &mut [u8], serial: &[u8], registration: &[u8]) -> u8
    ensures { StateIs result state.new (power_on_in state.old serial.now registration.now) }
{
    if state.len() < layout::STATE_BYTES
        || serial.len() < SERIAL_OCTETS
        || registration.len() < REGISTRATION_OCTETS
    {
        return BUFFER_TOO_SHORT;
    }
    let s = Station::power_on(first(serial), first(registration));
    layout::write_state(s, state);
    DONE
}

// Whether octets are those of a state in range.
pub fn lingbarrow_in_range(state: &[u8]) -> u8
    ensures { result ≡ in_range_on state.now }
{
    match layout::read_state(state) {
        Ok(s) => asked(true, s),
        Err(error) => unread(error),
    }
}

// A frame time in which no frame arrived.
pub fn lingbarrow_lost(state: &mut [u8]) -> u8
    ensures { StateIs result state.new (lost_on state.old) }
{
    match layout::read_state(state) {
        Ok(s) => settle(engine::lost(s), state),
        Err(error) => unread(error),
    }
}

pub fn lingbarrow_add_port(state: &mut [u8], port: u16) -> u8
    ensures { StateIs result state.new (add_on state.old port) }
{
    match layout::read_state(state) {
        Ok(s) => settle(host::add_port(s, PortId(port)), state),
        Err(error) => unread(error),
    }
}

pub fn lingbarrow_remove_port(state: &mut [u8], port: u16) -> u8
    ensures { StateIs result state.new (remove_on state.old port) }
{
    match layout::read_state(state) {
        Ok(s) => settle(host::remove_port(s, PortId(port)), state),
        Err(error) => unread(error),
    }
}

pub fn lingbarrow_give_key(state: &mut [u8], key: &[u8]) -> u8
    ensures { StateIs result state.new (key_on state.old key.now) }
{
    match layout::read_state(state) {
        Ok(s) => {
            if key.len() < KEY_OCTETS {
                return asked(false, s);
            }
            settle(host::give_key(s, first(key)), state)
        }
        Err(error) => unread(error),
    }
}
