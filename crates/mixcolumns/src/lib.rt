// SubBytes and MixColumns (FIPS 197, 5.1.1 and 5.1.3) of one octet, the last of a number, in each of the four rows of a column.
#![tactic(auto)]

ghost use Rattle.std.specs.Prelude.{◌≡◌, ◌%◌};
ghost use Rattle.mixcolumns.specs.Columns.{mix_of, turned};

mod mixed;

use mixed::MIXED;

// Four functions and not one by the row's number: each is asked at a fixed row, and its clause says how often that row is turned.
pub fn row0(x: u32) -> u32
    ensures { result ≡ mix_of (x % 256) }
{
    MIXED[0][(x % 256) as usize]
}

pub fn row1(x: u32) -> u32
    ensures { result ≡ turned (mix_of (x % 256)) }
{
    MIXED[1][(x % 256) as usize]
}

pub fn row2(x: u32) -> u32
    ensures { result ≡ turned (turned (mix_of (x % 256))) }
{
    MIXED[2][(x % 256) as usize]
}

pub fn row3(x: u32) -> u32
    ensures { result ≡ turned (turned (turned (mix_of (x % 256)))) }
{
    MIXED[3][(x % 256) as usize]
}
