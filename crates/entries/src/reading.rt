// An entry of a map that is walked: by octets, and with no test before the word is loaded. xgtc reads a structure by itself.
ghost use Rattle.std.specs.Prelude.{◌≡◌};
ghost use Rattle.xgem.specs.Reads.{found_in};
ghost use Rattle.xgtc.specs.Reads.{read_allocation_lem};

use crate::STRUCTURE_OCTETS;
use xgem::ReadError;
use xgtc::allocation::Allocation;

// The entry at the start of a slice.
pub fn read_entry(s: &[u8]) -> Result<Allocation, ReadError>
    ensures { found_in result ≡ read_allocation_lem s.now }
{
    let read = hec::read64_by_octets(xgem::word_ahead(s));
    if s.len() < STRUCTURE_OCTETS {
        return Err(ReadError::Short);
    }
    match read {
        Some(word) => Ok(Allocation::of(word)),
        None => Err(ReadError::Unreadable),
    }
}
