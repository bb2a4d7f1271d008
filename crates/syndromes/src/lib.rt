// The syndrome of a word of 64 bits by its octets: eight looks into a table of what each adds.
#![tactic(auto)]

ghost use Rattle.std.specs.Prelude.{◌≡◌};
ghost use Rattle.bch.specs.Tables.{syndrome};

mod octets;

use octets::OCTETS;

pub fn syndrome(word: u64) -> u16
    ensures { result ≡ syndrome word }
{
    let mut sum = 0;
    let mut left = word;
    for k in 0..8 {
        sum ^= OCTETS[k][(left % 256) as usize];
        left /= 256;
    }
    sum
}
