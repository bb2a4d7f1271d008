// SubBytes (FIPS 197, 5.1.1).
#![tactic(auto)]

ghost use Rattle.std.specs.Prelude.{◌≡◌, ◌%◌};
ghost use Rattle.subbytes.specs.Field.{s_box};

mod sbox;

use sbox::SBOX;

// The S-box value of the last octet of a number.
pub fn substituted(x: u32) -> u8
    ensures { result ≡ s_box (x % 256) }
{
    SBOX[(x % 256) as usize]
}
