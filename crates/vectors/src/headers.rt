// Annex A: Table A.1's syndromes are the check values that words are written by, and read by where it is place by place; each
// structure of Tables A.2 and A.3 is read as itself and written from its data bits, with one or two bits flipped it reads as
// itself, with three it is unreadable; and a word of 32 bits is not mended in the zeros that are not sent. A word of 64 bits
// is read by its places and by its octets, and is right only where both are. Each line says how many of how many.
ghost use Rattle.std.specs.Prelude.{◌≤◌};

use hec::{Word32, Word64};
use std::io;

// Table A.1, from bit position 63 to 1.
const TABLE_A1: [u16; 63] = [
    0xa9c, 0x54e, 0x2a7, 0xbcf, 0xf7b, 0xd21, 0xc0c, 0x606, 0x303, 0xb1d, 0xf12, 0x789, 0x958,
    0x4ac, 0x256, 0x12b, 0xa09, 0xf98, 0x7cc, 0x3e6, 0x1f3, 0xa65, 0xfae, 0x7d7, 0x977, 0xe27,
    0xd8f, 0xc5b, 0xcb1, 0xcc4, 0x662, 0x331, 0xb04, 0x582, 0x2c1, 0xbfc, 0x5fe, 0x2ff, 0xbe3,
    0xf6d, 0xd2a, 0x695, 0x9d6, 0x4eb, 0x8e9, 0xee8, 0x774, 0x3ba, 0x1dd, 0xa72, 0x539, 0x800,
    0x400, 0x200, 0x100, 0x080, 0x040, 0x020, 0x010, 0x008, 0x004, 0x002, 0x001,
];

// Table A.2.
const TABLE_A2: [u64; 33] = [
    0x58472d504f4e0a55,
    0x204b616e692c1748,
    0x69726f616b690c8b,
    0x2077617320701574,
    0x204a6f6520530247,
    0x204d756b61690a22,
    0x726f64756365128e,
    0x6d6974682c201a23,
    0x2c20446176651a73,
    0x64207468616e1a18,
    0x5269636861720a6e,
    0x20486f6f642c0f79,
    0x6b7320746f201705,
    0x6420476f6f64176e,
    0x20576569204c04f2,
    0x416e6e6120430915,
    0x736f6e2c20440f00,
    0x696e2c20616e05e9,
    0x75692c204661159f,
    0x656e6973204b1780,
    0x64206f6620631c47,
    0x6272696365200372,
    0x686f74696d731f44,
    0x6f757273652c0405,
    0x426f75726761033d,
    0x6b792c205975155f,
    0x204672616e6b0601,
    0x72742c204a751760,
    0x616e7169752005e8,
    0x20456666656e1897,
    0x6e2d6963686908a8,
    0x4c756f2c204817d2,
    0x6265726765720486,
];

// Table A.3.
const TABLE_A3: [u32; 24] = [
    0x58470e66, 0x696e07cc, 0x6b201fcb, 0x2d5011a6, 0x20731b4e, 0x4861190a, 0x4f4e03da, 0x7069115e,
    0x6a6411ea, 0x20680ad7, 0x746518a3, 0x75631541, 0x6170070d, 0x206f1e9b, 0x7a650166, 0x70651d5d,
    0x66200f13, 0x6e691f63, 0x6e651360, 0x4d61022e, 0x612e011b, 0x642018d4, 0x72650a9a, 0x2020162f,
];

// Why a word has no reading: it is not to be mended, or its two readings differ.
#[derive(Clone, Copy, PartialEq, Eq)]
enum Unread {
    Unreadable,
    Differ,
}

fn line(rt: &impl Print, name: &str, right: u64, of: u64) -> io::Result<()> {
    println!(rt; "{name} {right} of {of}")
}

fn counted(n: u64, right: bool) -> u64 {
    n.wrapping_add(u64::from(right))
}

fn bits64(r: Option<Word64>) -> Result<u64, Unread> {
    match r {
        Some(w) => Ok(w.bits()),
        None => Err(Unread::Unreadable),
    }
}

fn bits32(r: Option<Word32>) -> Result<u64, Unread> {
    match r {
        Some(w) => Ok(u64::from(w.bits())),
        None => Err(Unread::Unreadable),
    }
}

// A word of 64 bits by its places and by its octets: what both read it as.
fn both(word: u64) -> Result<u64, Unread> {
    let by_places = bits64(hec::read64(word));
    let by_octets = bits64(hec::read64_by_octets(word));
    if by_places == by_octets {
        by_places
    } else {
        Err(Unread::Differ)
    }
}

// A word of 64 bits, or a short one of 32.
fn read(short: bool, word: u64) -> Result<u64, Unread> {
    if short {
        bits32(hec::read32((word % 0x1_0000_0000) as u32))
    } else {
        both(word)
    }
}

// How many of the words with one of the lowest bits flipped read as wanted.
fn one_flip(bits: u32, wanted: Result<u64, Unread>, word: u64, below: u32) -> u64
    requires { below ≤ 64 }
{
    let mut right: u64 = 0;
    for at in 0..below {
        let flip: u64 = 1 << at;
        right = counted(right, read(bits == 32, word ^ flip) == wanted);
    }
    right
}

fn two_flips(bits: u32, wanted: Result<u64, Unread>, word: u64, below: u32) -> u64
    requires { below ≤ 64 }
{
    let mut right: u64 = 0;
    for at in 0..below {
        let flip: u64 = 1 << at;
        right = right.wrapping_add(one_flip(bits, wanted, word ^ flip, at));
    }
    right
}

fn three_flips(bits: u32, wanted: Result<u64, Unread>, word: u64) -> u64
    requires { bits ≤ 64 }
{
    let mut right: u64 = 0;
    for at in 0..bits {
        let flip: u64 = 1 << at;
        right = right.wrapping_add(two_flips(bits, wanted, word ^ flip, at));
    }
    right
}

fn table_a1(rt: &impl Print) -> io::Result<()> {
    let mut right: u64 = 0;
    for (remainder, printed) in bch::remainders::table().iter().zip(TABLE_A1.iter().rev()) {
        right = counted(right, remainder == printed);
    }
    line(rt, "A.1 syndromes", right, 63)
}

// The counts of a table: words that read as themselves, words written from their data bits, and flips of one, two and
// three bits.
#[derive(Clone, Copy, Default)]
struct Counts {
    read: u64,
    written: u64,
    one: u64,
    two: u64,
    three: u64,
}

fn stands(mut c: Counts, bits: u32, word: u64, written: u64) -> Counts {
    c.read = counted(c.read, read(bits == 32, word) == Ok(word));
    c.written = counted(c.written, written == word);
    c
}

fn flipped(mut c: Counts, bits: u32, word: u64) -> Counts
    requires { bits ≤ 64 }
{
    c.one = c.one.wrapping_add(one_flip(bits, Ok(word), word, bits));
    c.two = c.two.wrapping_add(two_flips(bits, Ok(word), word, bits));
    c.three = c
        .three
        .wrapping_add(three_flips(bits, Err(Unread::Unreadable), word));
    c
}

fn table_a2(rt: &impl Print) -> io::Result<()> {
    let mut c = Counts::default();
    for word in TABLE_A2 {
        let written = hec::write64(word / 0x2000);
        c = flipped(stands(c, 64, word, written.bits()), 64, word);
    }
    line(rt, "A.2 read", c.read, 33)?;
    line(rt, "A.2 written", c.written, 33)?;
    line(rt, "A.2 one bit", c.one, 33 * 64)?;
    line(rt, "A.2 two bits", c.two, 33 * 2016)?;
    line(rt, "A.2 three bits unreadable", c.three, 33 * 41664)
}

fn table_a3(rt: &impl Print) -> io::Result<()> {
    let mut c = Counts::default();
    for word in TABLE_A3 {
        let written = hec::write32(word / 0x2000);
        c = flipped(
            stands(c, 32, u64::from(word), u64::from(written.bits())),
            32,
            u64::from(word),
        );
    }
    line(rt, "A.3 read", c.read, 24)?;
    line(rt, "A.3 written", c.written, 24)?;
    line(rt, "A.3 one bit", c.one, 24 * 32)?;
    line(rt, "A.3 two bits", c.two, 24 * 496)?;
    line(rt, "A.3 three bits unreadable", c.three, 24 * 4960)
}

// A word of 32 bits with the syndrome of a flip at two bit positions of 64: its check bits, and the last bit for the
// parity of two ones.
fn with_syndrome(syndrome: u16) -> u64 {
    let check = u64::from(syndrome % 4096) * 2;
    check + u64::from(check.count_ones() % 2)
}

// The 31 words, one for each sent bit and the unsent bit at `above`, whose only repair would flip that zero.
fn unsent_at(sent: &[u16], above: u16) -> u64 {
    let mut right: u64 = 0;
    for below in sent {
        right = counted(
            right,
            read(true, with_syndrome(above ^ *below)) == Err(Unread::Unreadable),
        );
    }
    right
}

fn unsent_zeros(rt: &impl Print) -> io::Result<()> {
    let remainders = bch::remainders::table();
    let (sent, unsent) = remainders.split_at(31);
    let mut right: u64 = 0;
    for above in unsent {
        right = right.wrapping_add(unsent_at(sent, *above));
    }
    line(rt, "HLend not mended in unsent zeros", right, 32 * 31)
}

pub fn run(rt: &impl Print) -> io::Result<()> {
    table_a1(rt)?;
    table_a2(rt)?;
    table_a3(rt)?;
    unsent_zeros(rt)
}
