// The structures of a map, a line for each.
ghost use Rattle.std.specs.Prelude.{◌≡◌, ◌≤◌, length};
ghost use Rattle.text.specs.Texts.{added};
ghost use Rattle.engine.specs.Naming.{most_structures};
ghost use Rattle.why_dark.specs.Report.{numbers_of_lem, marks_of_lem, fields_of, line_of, structure, lines_from, lines};
ghost use Rattle.xgem.specs.Reads.{found_in};

use super::words;
use downstream::partitions::HLEND_OCTETS;
use entries::{STRUCTURE_OCTETS, reading};
use text::{NEWLINE, SPACE};
use xgem::ReadError;
use xgtc::allocation::Allocation;

fn put_numbers(a: Allocation, text: &mut [u8], at: usize) -> usize
    ensures { record { text = text.new; place = result } ≡ added text.old at (numbers_of_lem a) }
{
    let b = words::put_labelled(b": Alloc-ID ", u64::from(a.alloc.0), text, at);
    let c = words::put_labelled(b", StartTime ", u64::from(a.start), text, b);
    let d = words::put_labelled(b", GrantSize ", u64::from(a.grant), text, c);
    words::put_labelled(b", profile ", u64::from(a.profile), text, d)
}

fn put_marks(a: Allocation, text: &mut [u8], at: usize) -> usize
    ensures { record { text = text.new; place = result } ≡ added text.old at (marks_of_lem a) }
{
    let b = words::put_mark(a.dbru, b", DBRu", text, at);
    let c = words::put_mark(a.ploamu, b", PLOAMu", text, b);
    words::put_mark(a.fwi, b", FWI", text, c)
}

fn put_fields(read: Result<Allocation, ReadError>, text: &mut [u8], at: usize) -> usize
    ensures { record { text = text.new; place = result } ≡ added text.old at (fields_of (found_in read)) }
{
    match read {
        Ok(a) => {
            let b = put_numbers(a, text, at);
            put_marks(a, text, b)
        }
        Err(_) => at,
    }
}

fn put_line(
    number: usize,
    name: u8,
    read: Result<Allocation, ReadError>,
    text: &mut [u8],
    at: usize,
) -> usize
    ensures { record { text = text.new; place = result } ≡ added text.old at (line_of number name (found_in read)) }
{
    let b = text::put_field(number as u64, SPACE, text, at);
    let c = words::put_name(name, text, b);
    let d = put_fields(read, text, c);
    text::put_octet(NEWLINE, text, d)
}

// A structure by its number, its word mended.
fn structure(frame: &[u8], i: usize) -> Result<Allocation, ReadError>
    requires { i ≤ most_structures }
    ensures { found_in result ≡ structure frame.now i }
{
    let from = HLEND_OCTETS + STRUCTURE_OCTETS * i;
    if frame.len() < from {
        return Err(ReadError::Short);
    }
    reading::read_entry(&frame[from..])
}

fn put_lines(frame: &[u8], names: &[u8], text: &mut [u8], at: usize) -> usize
    requires { length names.now ≤ most_structures }
    ensures { record { text = text.new; place = result } ≡ added text.old at (lines_from frame.now 0 names.now) }
{
    let mut place = at;
    for (i, name) in names.iter().enumerate() {
        place = put_line(i, *name, structure(frame, i), text, place);
    }
    place
}

pub(crate) fn put_structures(frame: &[u8], names: &[u8], text: &mut [u8], at: usize) -> usize
    requires { length names.now ≤ most_structures }
    ensures { record { text = text.new; place = result } ≡ added text.old at (lines frame.now names.now) }
{
    if names.is_empty() {
        return text::put_word(b"no structures\n", text, at);
    }
    put_lines(frame, names, text, at)
}
