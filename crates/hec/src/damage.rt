// A damaged word: what is left of it when the bits that its remainder points to are flipped.
ghost use Rattle.std.specs.Prelude.{◌≡◌};
ghost use Rattle.hec.specs.Reads.{found_word};
ghost use Rattle.hec.specs.Mends.{mended_as};

use super::{Word, Word64};

// 63 stands for no place, and the bit that it names falls out of the word: which places a damaged word needs is nothing to
// be guessed by a branch. The last bit is flipped where the code bits leave the number of ones odd; all flips are two at most
// just where the code bits and an odd number of ones are.
pub(crate) fn mend(flips: u16, word: u64, s: u16) -> Option<Word64>
    ensures { found_word result ≡ mended_as flips word s }
{
    let count = flips / 4096 + s / 4096 % 2;
    if count <= 2 {
        let first = (flips % 64) as usize;
        let second = (flips / 64 % 64) as usize;
        let bits: u64 = (2 << first) ^ (2 << second);
        let last = count % 2;
        Some(Word(word ^ (bits ^ last as u64)))
    } else {
        None
    }
}
