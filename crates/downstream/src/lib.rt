// A downstream frame is opened: its length is tested, its XGTC header is read, and its partitions are known (clause 8.1). What
// refuses a frame is tested here and nowhere else, for every call that is lent one.
#![tactic(auto)]

ghost use Rattle.std.specs.Prelude.{◌≡◌};
ghost use Rattle.downstream.specs.Opening.{by_hlend_lem, tested, opening_by};
ghost use Rattle.xgem.specs.Reads.{found_in};

pub mod lengths;
pub mod partitions;

use answers::Answer;
use xgem::ReadError;
use xgtc::hlend::Hlend;

// Refused by 1 to 3, and no frame time passes; unread by 4 or 5, and one passes; or open, with its HLend.
#[derive(Clone, Copy)]
pub enum Opening {
    Refused(Answer),
    Unread(Answer),
    Opened(Hlend),
}

fn by_hlend(read: Result<Hlend, ReadError>, octets: usize) -> Opening
    ensures { result ≡ by_hlend_lem (found_in read) octets }
{
    match read {
        Ok(h) => {
            if octets < partitions::header_end(h) {
                return Opening::Unread(Answer::HeaderTooLong);
            }
            Opening::Opened(h)
        }
        Err(_) => Opening::Unread(Answer::HlendUnreadable),
    }
}

// 2 to 5, of the frame alone.
fn test(frame: &[u8], room: bool) -> Opening
    ensures { result ≡ tested frame.now room }
{
    if !lengths::length_fits(frame.len()) {
        return Opening::Refused(Answer::FrameLengthUnfit);
    }
    if !room {
        return Opening::Refused(Answer::BufferTooShort);
    }
    by_hlend(xgtc::hlend::read_hlend(frame), frame.len())
}

// Tested in the order of the numbers. The caller says whether the state is in range, so that no station is copied for it, and
// whether the lent buffers have room; who is lent none has room.
pub fn open(valid: bool, frame: &[u8], room: bool) -> Opening
    ensures { result ≡ opening_by valid frame.now room }
{
    if !valid {
        return Opening::Refused(Answer::StateOutOfRange);
    }
    test(frame, room)
}
