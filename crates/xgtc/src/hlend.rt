// HLend: how many allocation structures and PLOAM messages stand in front of the payload (clause 8.1.1).
ghost use Rattle.std.specs.Prelude.{◌≡◌};
ghost use Rattle.xgem.specs.Layouts.{behind};
ghost use Rattle.xgtc.specs.Layouts.{hlend_of, hlend_fits};
ghost use Rattle.xgem.specs.Reads.{found_in};
ghost use Rattle.xgtc.specs.Reads.{read_hlend_lem};
ghost use Rattle.xgtc.specs.Writes.{write_hlend_lem};

use answers::Answer;
use hec::Word32;
use octets::Number;
use xgem::{ReadError, words};

#[derive(Clone, Copy)]
pub struct Hlend {
    // The BWmap length: how many allocation structures.
    pub bwmap: u16,
    // The PLOAM count: how many messages.
    pub ploam: u8,
}

impl Hlend {
    // The fields of a true word.
    pub fn of(word: Word32) -> Hlend
        ensures { result ≡ hlend_of word.0 }
    {
        let w = word.bits();
        Hlend {
            bwmap: (w / 0x20_0000 % 0x800) as u16,
            ploam: (w / 0x2000 % 0x100) as u8,
        }
    }

    // The PLOAM count has the width of its type.
    fn fits(self) -> bool
        ensures { result ≡ hlend_fits self }
    {
        self.bwmap < 0x800
    }

    fn data_bits(self) -> u32
        ensures { result ≡ behind self.bwmap 8 self.ploam }
    {
        u32::from(self.bwmap) * 0x100 + u32::from(self.ploam)
    }
}

// HLend at the start of a slice.
pub fn read_hlend(s: &[u8]) -> Result<Hlend, ReadError>
    ensures { found_in result ≡ read_hlend_lem s.now }
{
    if s.len() < 4 {
        return Err(ReadError::Short);
    }
    match hec::read32(u32::read(s)) {
        Some(word) => Ok(Hlend::of(word)),
        None => Err(ReadError::Unreadable),
    }
}

// HLend of the fields given, at the start of a target. No word is made of what is refused.
pub fn write_hlend(h: Hlend, target: &mut [u8]) -> Answer
    ensures { record { answer = result; target = target.new } ≡ write_hlend_lem h target.old }
{
    let fits = h.fits();
    if !fits || target.len() < 4 {
        return Answer::NotWritten;
    }
    words::write(fits, hec::write32(h.data_bits()).bits(), target)
}
