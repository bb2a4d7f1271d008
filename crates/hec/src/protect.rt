// By the check values of the 63 places: the bits behind the data bits of a word that is written, and the syndrome of one that
// is read.
ghost use Rattle.std.specs.Prelude.{◌≡◌, ◌+◌, ◌*◌, ◌%◌, ◌^◌, ◌<◌};
ghost use Rattle.bch.specs.Code.{remainder};
ghost use Rattle.bch.specs.Tables.{syndrome};
ghost use Rattle.hec.specs.Writes.{closed, protected};

fn remainder_of(code: u64) -> u16
    ensures { result ≡ remainder code }
{
    let mut sum = 0;
    let mut left = code;
    for value in bch::remainders::table() {
        sum ^= (left % 2) as u16 * *value;
        left /= 2;
    }
    sum
}

// The remainder of the code bits, and the parity of all bits as a thirteenth.
pub(crate) fn syndrome(word: u64) -> u16
    ensures { result ≡ syndrome word }
{
    (word.count_ones() % 2) as u16 * 4096 + remainder_of(word / 2)
}

// A codeword with the bit behind it that makes the number of ones even.
fn closed(code: u64) -> u64
    requires { code < 2 ^ 63 }
    ensures { result ≡ closed code }
{
    code * 2 + (code.count_ones() % 2) as u64
}

pub(crate) fn protected(bits: u64) -> u64
    requires { bits < 2 ^ 51 }
    ensures { result ≡ protected bits }
{
    let shifted = bits * 4096;
    closed(shifted + remainder_of(shifted) as u64)
}
