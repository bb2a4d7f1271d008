// Reading a downstream message. Nothing here says that it is genuine: the integrity check is a call of its own, which
// costs far more, and is made only for a message that could act.
ghost use Rattle.std.specs.Prelude.{◌≡◌, ◌+◌, ◌≤◌, length};
ghost use Rattle.ploam.specs.Layout.{message_octets, at16, at32, address_by};
ghost use Rattle.ploam.specs.Reading.{serial_at_lem, adjustment_of, switch_of, change_of, onu_in_lem, alloc_in_lem, content_of, received};

use super::{
    ASSIGN_ALLOC_ID, ASSIGN_ONU_ID, Adjustment, AllocChange, Content, DEACTIVATE_ONU_ID,
    DISABLE_SERIAL_NUMBER, KEY_CONTROL, MESSAGE_OCTETS, Message, PROFILE, RANGING_TIME,
    REQUEST_REGISTRATION, SLEEP_ALLOW, SerialNumber, Switch,
};
use ids::{AllocId, OnuId};
use octets::Number;

// An ONU-ID in two octets has ten bits; the upper six are ignored.
pub const ADDRESSES: u16 = 1024;

// The ONU-ID that two octets of a message name.
pub fn address(high: u8, low: u8) -> OnuId
    ensures { result ≡ address_by high low }
{
    OnuId(u16::read(&[high, low]) % ADDRESSES)
}

fn number16(m: &[u8], i: usize) -> u16
    requires { i + 2 ≤ length m.now }
    ensures { result ≡ at16 m.now i }
{
    u16::read(&m[i..])
}

fn number32(m: &[u8], i: usize) -> u32
    requires { i + 4 ≤ length m.now }
    ensures { result ≡ at32 m.now i }
{
    u32::read(&m[i..])
}

fn serial_at(m: &[u8], i: usize) -> SerialNumber
    requires { i + 8 ≤ length m.now }
    ensures { result ≡ serial_at_lem m.now i }
{
    SerialNumber {
        vendor: number32(m, i),
        vssn: number32(m, i + 4),
    }
}

// Eight octets as a message gives a serial number.
pub fn serial_number(serial: [u8; 8]) -> SerialNumber
    ensures { result ≡ serial_at_lem serial 0 }
{
    serial_at(&serial, 0)
}

fn onu_in(m: &[u8]) -> OnuId
    requires { message_octets ≤ length m.now }
    ensures { result ≡ onu_in_lem m.now }
{
    OnuId(number16(m, 4))
}

fn alloc_in(m: &[u8]) -> AllocId
    requires { message_octets ≤ length m.now }
    ensures { result ≡ alloc_in_lem m.now }
{
    AllocId(number16(m, 4) % 16384)
}

fn adjustment(o: u8) -> Adjustment
    ensures { result ≡ adjustment_of o }
{
    if o % 2 == 1 {
        Adjustment::Absolute
    } else if o / 2 % 2 == 1 {
        Adjustment::Subtract
    } else {
        Adjustment::Add
    }
}

fn switch(o: u8) -> Switch
    ensures { result ≡ switch_of o }
{
    match o {
        0xff => Switch::DisableOwn,
        0x00 => Switch::EnableOwn,
        0x0f => Switch::DisableAll,
        0xf0 => Switch::EnableAll,
        _ => Switch::OtherSwitch,
    }
}

fn change(o: u8) -> AllocChange
    ensures { result ≡ change_of o }
{
    match o {
        1 => AllocChange::Assign,
        255 => AllocChange::Deallocate,
        _ => AllocChange::OtherChange,
    }
}

#[tactic(auto, unfolding(crate::specs::Reading::content_as))]
fn content(m: &[u8]) -> Content
    requires { message_octets ≤ length m.now }
    ensures { result ≡ content_of m.now }
{
    let kind = m[2];
    match kind {
        PROFILE => Content::Profile,
        ASSIGN_ONU_ID => Content::AssignOnuId(onu_in(m), serial_at(m, 6)),
        RANGING_TIME => Content::RangingTime(adjustment(m[4]), number32(m, 5)),
        DEACTIVATE_ONU_ID => Content::DeactivateOnuId,
        DISABLE_SERIAL_NUMBER => Content::DisableSerialNumber(switch(m[4]), serial_at(m, 5)),
        REQUEST_REGISTRATION => Content::RequestRegistration,
        ASSIGN_ALLOC_ID => Content::AssignAllocId(alloc_in(m), change(m[6])),
        KEY_CONTROL => Content::KeyControl,
        SLEEP_ALLOW => Content::SleepAllow,
        _ => Content::Unknown(kind),
    }
}

// None where the slice is shorter than a message.
#[tactic(auto, unfolding(crate::specs::Reading::received))]
pub fn read(m: &[u8]) -> Option<Message>
    ensures { result ≡ received m.now }
{
    if m.len() < MESSAGE_OCTETS {
        return None;
    }
    Some(Message {
        address: address(m[0], m[1]),
        seq: m[3],
        content: content(m),
    })
}
