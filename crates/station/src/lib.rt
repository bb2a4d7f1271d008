// The station's state of clause 12, by value: where it stands in the activation, what the head end has given it, its
// ports, and the words that its last burst carries into the next frame.
#![tactic(auto)]

ghost use Rattle.std.specs.Prelude.{◌≡◌};
ghost use Rattle.station.specs.States.{holds_identity_lem, is_operating_lem, is_ranging_lem, silent, state_number};
ghost use Rattle.station.specs.Station.{with_activation_lem, with_link_lem, with_ports_lem, with_carried_lem};
ghost use Rattle.station.specs.Station.{power_on_lem, enter};

use answers::Answer;
use link::Link;
use ports::Ports;

pub mod limits;

// The states of clause 12.1 by the numbers that the paper prints.
pub const O1: u8 = 1;

pub const O23: u8 = 2;

pub const O4: u8 = 4;

pub const O5: u8 = 5;

pub const O6: u8 = 6;

pub const O7: u8 = 7;

// Only O4 and O6 count, and only they carry a count: what is left of TO1 and of TO2.
#[derive(Clone, Copy)]
pub enum Activation {
    Initial,
    SerialNumber,
    Ranging(u32),
    Operation,
    Intermittent(u32),
    EmergencyStop,
}

impl Activation {
    // O4, O5 and O6 hold an ONU-ID.
    pub fn holds_identity(self) -> bool
        ensures { result ≡ holds_identity_lem self }
    {
        matches!(
            self,
            Activation::Ranging(_) | Activation::Operation | Activation::Intermittent(_)
        )
    }

    // In O1, O6 and O7 a station sends nothing.
    pub fn is_silent(self) -> bool
        ensures { result ≡ silent self }
    {
        matches!(
            self,
            Activation::Initial | Activation::Intermittent(_) | Activation::EmergencyStop
        )
    }

    pub fn is_ranging(self) -> bool
        ensures { result ≡ is_ranging_lem self }
    {
        matches!(self, Activation::Ranging(_))
    }

    // Only a frame that arrives in O5 has its payload walked.
    pub fn is_operating(self) -> bool
        ensures { result ≡ is_operating_lem self }
    {
        matches!(self, Activation::Operation)
    }

    // The number by which the bench run prints the state.
    pub fn number(self) -> u8
        ensures { result ≡ state_number self }
    {
        match self {
            Activation::Initial => O1,
            Activation::SerialNumber => O23,
            Activation::Ranging(_) => O4,
            Activation::Operation => O5,
            Activation::Intermittent(_) => O6,
            Activation::EmergencyStop => O7,
        }
    }
}

#[derive(Clone, Copy)]
pub struct Station {
    pub activation: Activation,
    pub serial: [u8; 8],
    pub registration: [u8; 36],
    pub link: Link,
    pub ports: Ports,
    // Words of the coming upstream frame that the last burst of the frame before takes.
    pub carried: u16,
}

impl Station {
    pub fn power_on(serial: [u8; 8], registration: [u8; 36]) -> Station
        ensures { result ≡ power_on_lem serial registration }
    {
        Station {
            activation: Activation::Initial,
            serial,
            registration,
            link: Link::nothing(),
            ports: Ports::none(),
            carried: 0,
        }
    }

    pub fn with_activation(mut self, activation: Activation) -> Station
        ensures { result ≡ with_activation_lem self activation }
    {
        self.activation = activation;
        self
    }

    pub fn with_link(mut self, link: Link) -> Station
        ensures { result ≡ with_link_lem self link }
    {
        self.link = link;
        self
    }

    pub fn with_ports(mut self, ports: Ports) -> Station
        ensures { result ≡ with_ports_lem self ports }
    {
        self.ports = ports;
        self
    }

    pub fn with_carried(mut self, words: u16) -> Station
        ensures { result ≡ with_carried_lem self words }
    {
        self.carried = words;
        self
    }

    // O1, O2-3 or O7 is entered: what the head end has given is forgotten, the added ports stay and wait.
    pub fn enter(mut self, activation: Activation) -> Station
        ensures { result ≡ enter self activation }
    {
        self.activation = activation;
        self.link = Link::nothing();
        self.ports = self.ports.drop_all();
        self
    }
}

// What a call answers and the station that it leaves.
#[derive(Clone, Copy)]
pub struct Outcome {
    pub answer: Answer,
    pub station: Station,
}
