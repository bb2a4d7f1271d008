// The XGEM frame: header, payload and padding (clause 9.1).
ghost use Rattle.std.specs.Prelude.{◌≡◌, ◌-◌, ◌≤◌, ◌++◌, length, replicate};
ghost use Rattle.xgem.specs.Layouts.{xgem_of, xgem_fits, xgem_bits, payload_size_lem};
ghost use Rattle.xgem.specs.Reads.{read_xgem_lem, found_in};
ghost use Rattle.xgem.specs.Writes.{write_xgem_lem, write_xgem_frame_lem, put};

use super::{ReadError, words};
use answers::Answer;
use hec::Word64;
use ids::PortId;
use octets::Number;

// What the padding of a payload holds.
const PADDING: u8 = 0x55;

#[derive(Clone, Copy)]
pub struct XgemHeader {
    // The payload length indication, in bytes.
    pub pli: u16,
    // The key index: 0 for clear text.
    pub key: u8,
    pub port: PortId,
    pub options: u32,
    // The last-fragment mark, LF.
    pub last: bool,
}

impl XgemHeader {
    // The fields of a true word.
    pub fn of(word: Word64) -> XgemHeader
        ensures { result ≡ xgem_of word.0 }
    {
        let w = word.bits();
        XgemHeader {
            pli: (w / 0x4_0000_0000_0000 % 0x4000) as u16,
            key: (w / 0x1_0000_0000_0000 % 4) as u8,
            port: PortId((w / 0x1_0000_0000 % 0x1_0000) as u16),
            options: (w / 0x4000 % 0x4_0000) as u32,
            last: w / 0x2000 % 2 == 1,
        }
    }

    fn fits(self) -> bool
        ensures { result ≡ xgem_fits self }
    {
        self.pli < 0x4000 && (self.key < 4 && self.options < 0x4_0000)
    }

    fn data_bits(self) -> u64
        ensures { result ≡ xgem_bits self }
    {
        let sized = u64::from(self.pli) * 4 + u64::from(self.key);
        let named = (sized * 0x1_0000 + u64::from(self.port.0)) * 0x4_0000
            + u64::from(self.options);
        named * 2 + u64::from(self.last)
    }
}

// How many bytes the payload of a PLI takes.
pub fn payload_size(pli: u16) -> usize
    ensures { result ≡ payload_size_lem pli }
{
    if pli == 0 {
        return 0;
    }
    if pli < 8 {
        return 8;
    }
    (usize::from(pli) + 3) / 4 * 4
}

// The XGEM header at the start of a slice.
pub fn read_xgem(s: &[u8]) -> Result<XgemHeader, ReadError>
    ensures { found_in result ≡ read_xgem_lem s.now }
{
    if s.len() < 8 {
        return Err(ReadError::Short);
    }
    match hec::read64_by_octets(u64::read(s)) {
        Some(word) => Ok(XgemHeader::of(word)),
        None => Err(ReadError::Unreadable),
    }
}

// The XGEM header of the fields given, at the start of a target. No word is made of what is refused.
pub fn write_xgem(x: XgemHeader, target: &mut [u8]) -> Answer
    ensures { record { answer = result; target = target.new } ≡ write_xgem_lem x target.old }
{
    let fits = x.fits();
    if !fits || target.len() < 8 {
        return Answer::NotWritten;
    }
    words::write(fits, hec::write64(x.data_bits()).bits(), target)
}

// The payload of an SDU: the SDU and its padding up to the size.
fn put_payload(sdu: &[u8], size: usize, target: &mut [u8])
    requires { (length sdu.now ≤ size) × (size ≤ length target.old) }
    ensures { target.new ≡ put target.old (sdu.now ++ replicate (size - length sdu.now) 0x55) }
{
    let length = sdu.len();
    target[..length].copy_from_slice(sdu);
    target[length..size].fill(PADDING);
}

// A whole XGEM frame at the start of a target: the header of the fields given, with the SDU's length for its PLI, the SDU
// and the padding.
pub fn write_xgem_frame(x: XgemHeader, sdu: &[u8], target: &mut [u8]) -> Answer
    ensures { record { answer = result; target = target.new } ≡ write_xgem_frame_lem x sdu.now target.old }
{
    let length = sdu.len();
    if 0x4000 <= length {
        return Answer::NotWritten;
    }
    let header = XgemHeader {
        pli: length as u16,
        ..x
    };
    if !header.fits() {
        return Answer::NotWritten;
    }
    let size = payload_size(length as u16);
    if target.len() < 8 + size {
        return Answer::NotWritten;
    }
    hec::write64(header.data_bits()).bits().put(target);
    put_payload(sdu, size, &mut target[8..]);
    Answer::Done
}
