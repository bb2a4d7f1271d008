// The allocation structure: one entry of the bandwidth map (clause 8.1.2).
ghost use Rattle.std.specs.Prelude.{◌≡◌};
ghost use Rattle.xgtc.specs.Layouts.{allocation_of, allocation_fits, allocation_bits};
ghost use Rattle.xgem.specs.Reads.{found_in};
ghost use Rattle.xgtc.specs.Reads.{read_allocation_lem};
ghost use Rattle.xgtc.specs.Writes.{write_allocation_lem};

use answers::Answer;
use hec::Word64;
use ids::AllocId;
use xgem::{ReadError, words};

#[derive(Clone, Copy)]
pub struct Allocation {
    pub alloc: AllocId,
    pub dbru: bool,
    pub ploamu: bool,
    // StartTime, in words of the upstream frame; 65,535 continues a burst.
    pub start: u16,
    // GrantSize, in words.
    pub grant: u16,
    pub fwi: bool,
    pub profile: u8,
}

impl Allocation {
    // The fields of a true word.
    pub fn of(word: Word64) -> Allocation
        ensures { result ≡ allocation_of word.0 }
    {
        let w = word.bits();
        Allocation {
            alloc: AllocId((w / 0x4_0000_0000_0000 % 0x4000) as u16),
            dbru: w / 0x2_0000_0000_0000 % 2 == 1,
            ploamu: w / 0x1_0000_0000_0000 % 2 == 1,
            start: (w / 0x1_0000_0000 % 0x1_0000) as u16,
            grant: (w / 0x1_0000 % 0x1_0000) as u16,
            fwi: w / 0x8000 % 2 == 1,
            profile: (w / 0x2000 % 4) as u8,
        }
    }

    fn fits(self) -> bool
        ensures { result ≡ allocation_fits self }
    {
        self.alloc.0 < 0x4000 && self.profile < 4
    }

    fn data_bits(self) -> u64
        ensures { result ≡ allocation_bits self }
    {
        let marks = (u64::from(self.alloc.0) * 2 + u64::from(self.dbru)) * 2
            + u64::from(self.ploamu);
        let times = (marks * 0x1_0000 + u64::from(self.start)) * 0x1_0000 + u64::from(self.grant);
        (times * 2 + u64::from(self.fwi)) * 4 + u64::from(self.profile)
    }
}

// The allocation structure at the start of a slice.
pub fn read_allocation(s: &[u8]) -> Result<Allocation, ReadError>
    ensures { found_in result ≡ read_allocation_lem s.now }
{
    if s.len() < 8 {
        return Err(ReadError::Short);
    }
    match hec::read64(words::word_ahead(s)) {
        Some(word) => Ok(Allocation::of(word)),
        None => Err(ReadError::Unreadable),
    }
}

// The allocation structure of the fields given, at the start of a target. No word is made of what is refused.
pub fn write_allocation(a: Allocation, target: &mut [u8]) -> Answer
    ensures { record { answer = result; target = target.new } ≡ write_allocation_lem a target.old }
{
    let fits = a.fits();
    if !fits || target.len() < 8 {
        return Answer::NotWritten;
    }
    words::write(fits, hec::write64(a.data_bits()).bits(), target)
}
