// Which places of a damaged word are flipped, by the remainder of its code bits: the higher place, 64 times the other one,
// with 63 where there is none, and 4,096 times how many they are. 3 says that no two bits leave this remainder.
#![tactic(auto)]

ghost use Rattle.std.specs.Prelude.{◌%◌};
ghost use Rattle.bch.specs.Tables.{Flips};

mod flipped;

use flipped::FLIPPED;

// The thirteenth bit of a syndrome, the parity, is not looked at.
pub fn flips(syndrome: u16) -> u16
    ensures { Flips (syndrome % 4096) result }
{
    FLIPPED[(syndrome % 4096) as usize]
}
