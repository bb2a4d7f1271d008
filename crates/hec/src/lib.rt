// The header error control of G.987.3, Annex A: words of 32 and of 64 bits, the last 13 of which protect the others. A
// word is read as the true word of its length at most two bits away.
#![tactic(auto)]

ghost use Rattle.std.specs.Prelude.{◌≡◌, ◌%◌, ◌^◌};
ghost use Rattle.bch.specs.Tables.{syndrome};
ghost use Rattle.hec.specs.Reads.{Reads, found_word};
ghost use Rattle.hec.specs.Writes.{Written};

mod damage;
mod protect;

// A true word, of 32 bits or of 64. Only this crate makes one, so whatever is taken from one has been checked and mended.
#[derive(Clone, Copy)]
pub struct Word<T>(T);

pub type Word32 = Word<u32>;

pub type Word64 = Word<u64>;

impl<T: Copy> Word<T> {
    pub fn bits(self) -> T
        ensures { result ≡ self.0 }
    {
        self.0
    }
}

// The true word at most two bits away from a word with the syndrome s.
#[inline(always)]
fn read_by(word: u64, s: u16) -> Option<Word64>
    requires { s ≡ syndrome word }
    ensures { Reads 64 word (found_word result) }
{
    if s == 0 {
        return Some(Word(word));
    }
    damage::mend(flips::flips(s), word, s)
}

// The true word of 64 bits at most two bits away, by the check values of its 63 places.
pub fn read64(word: u64) -> Option<Word64>
    ensures { Reads 64 word (found_word result) }
{
    read_by(word, protect::syndrome(word))
}

// The same by what each octet adds, for a walk over map or payload: eight looks into a table for 63 sums.
pub fn read64_by_octets(word: u64) -> Option<Word64>
    ensures { Reads 64 word (found_word result) }
{
    read_by(word, syndromes::syndrome(word))
}

// The true word of 32 bits at most two bits away: a word of 64 with 32 zeros in front. These are not sent, and a repair that
// needs one of them is none.
pub fn read32(word: u32) -> Option<Word32>
    ensures { Reads 32 word (found_word result) }
{
    let s = syndromes::syndrome(word as u64);
    if s == 0 {
        return Some(Word(word));
    }
    let read = damage::mend(flips::flips(s), word as u64, s);
    match read {
        Some(w) => {
            let v = w.0;
            if v < 0x1_0000_0000 {
                Some(Word(v as u32))
            } else {
                None
            }
        }
        None => None,
    }
}

// The true word with the 51 data bits given; what stands above them is not looked at.
pub fn write64(bits: u64) -> Word64
    ensures { Written 64 (bits % 2 ^ 51) result.0 }
{
    Word(protect::protected(bits % 0x8_0000_0000_0000))
}

// The true word with the 19 data bits given; what stands above them is not looked at.
pub fn write32(bits: u32) -> Word32
    ensures { Written 32 (bits % 2 ^ 19) result.0 }
{
    Word(protect::protected((bits % 0x8_0000) as u64) as u32)
}
