// The numbers of the paper that more than one stage needs.

// Words of an upstream frame, and the last of them.
pub const UPSTREAM_WORDS: usize = 9720;

pub const LAST_WORD: u16 = (UPSTREAM_WORDS - 1) as u16;

// Frame times of TO1 (10 s) and of TO2 (100 ms).
pub const TO1: u32 = 80000;

pub const TO2: u32 = 800;

// Octets of a serial number (11.3.4.1) and of a Registration ID (11.3.4.2).
pub const SERIAL_OCTETS: usize = 8;

pub const REGISTRATION_OCTETS: usize = 36;
