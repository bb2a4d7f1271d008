// A station's state as octets at fixed offsets in a buffer that the caller lends: each state has exactly one byte form.
#![tactic(auto)]

mod field;
mod known;
mod offsets;
mod parts;
mod reading;
mod writing;

ghost use Rattle.std.specs.Prelude.{◌≡◌};
ghost use Rattle.layout.specs.Layout.{read_of, stored};

use station::Station;
use xgem::ReadError;

pub const STATE_BYTES: usize = offsets::STATE_BYTES;

// Octets are read only where they are those of the state that they show.
pub fn read_state(state: &[u8]) -> Result<Station, ReadError>
    ensures { result ≡ read_of state.now }
{
    if state.len() < STATE_BYTES {
        return Err(ReadError::Short);
    }
    if !known::octets_known(state) {
        return Err(ReadError::Unreadable);
    }
    Ok(reading::station_in(state))
}

// A buffer without room for a state is left alone.
pub fn write_state(s: Station, state: &mut [u8])
    ensures { state.new ≡ stored s state.old }
{
    if STATE_BYTES <= state.len() {
        writing::put_station(s, state);
    }
}
