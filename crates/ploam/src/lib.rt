// The messages of the PLOAM channel (G.987.3, clause 11): 48 octets, read. Whether one is genuine is the matter of the
// crate `integrity`, and those that a station sends of `ploamu`.
#![tactic(auto)]

pub mod reading;

ghost use Rattle.std.specs.Prelude.{◌≡◌};
ghost use Rattle.ploam.specs.Completions.{completion_code};

use ids::{AllocId, OnuId};

pub const MESSAGE_OCTETS: usize = 48;

// Table 11-2: the types of downstream messages.
pub const PROFILE: u8 = 0x01;

pub const ASSIGN_ONU_ID: u8 = 0x03;

pub const RANGING_TIME: u8 = 0x04;

pub const DEACTIVATE_ONU_ID: u8 = 0x05;

pub const DISABLE_SERIAL_NUMBER: u8 = 0x06;

pub const REQUEST_REGISTRATION: u8 = 0x09;

pub const ASSIGN_ALLOC_ID: u8 = 0x0a;

pub const KEY_CONTROL: u8 = 0x0d;

pub const SLEEP_ALLOW: u8 = 0x12;

// Table 11-3: those of upstream messages that document 01 sends.
pub const SERIAL_NUMBER_ONU: u8 = 0x01;

pub const REGISTRATION: u8 = 0x02;

pub const ACKNOWLEDGEMENT: u8 = 0x09;

// Vendor-ID and vendor-specific serial number.
#[derive(Clone, Copy, PartialEq, Eq)]
pub struct SerialNumber {
    pub vendor: u32,
    pub vssn: u32,
}

// How Ranging_Time gives its delay.
#[derive(Clone, Copy)]
pub enum Adjustment {
    Absolute,
    Add,
    Subtract,
}

// What Disable_Serial_Number asks, and of whom.
#[derive(Clone, Copy)]
pub enum Switch {
    DisableOwn,
    EnableOwn,
    DisableAll,
    EnableAll,
    OtherSwitch,
}

// What Assign_Alloc-ID does with its Alloc-ID.
#[derive(Clone, Copy)]
pub enum AllocChange {
    Assign,
    Deallocate,
    OtherChange,
}

// What a downstream message says: Table 11-2. A type that the table does not have is Unknown.
#[derive(Clone, Copy)]
pub enum Content {
    Profile,
    AssignOnuId(OnuId, SerialNumber),
    RangingTime(Adjustment, u32),
    DeactivateOnuId,
    DisableSerialNumber(Switch, SerialNumber),
    RequestRegistration,
    AssignAllocId(AllocId, AllocChange),
    KeyControl,
    SleepAllow,
    Unknown(u8),
}

#[derive(Clone, Copy)]
pub struct Message {
    pub address: OnuId,
    pub seq: u8,
    pub content: Content,
}

// The completion codes of Acknowledgement (11.3.4.4) that document 01 sends.
#[derive(Clone, Copy)]
pub enum Completion {
    Ok,
    NoMessage,
    UnknownMessageType,
    ParameterError,
    ProcessingError,
}

impl Completion {
    pub fn code(self) -> u8
        ensures { result ≡ completion_code self }
    {
        match self {
            Completion::Ok => 0,
            Completion::NoMessage => 1,
            Completion::UnknownMessageType => 3,
            Completion::ParameterError => 4,
            Completion::ProcessingError => 5,
        }
    }
}
