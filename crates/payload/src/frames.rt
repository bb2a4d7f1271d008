// The next XGEM frame of what is left of a payload.
ghost use Rattle.std.specs.Prelude.{◌≡◌, length};
ghost use Rattle.payload.specs.Frames.{next_of};
ghost use Rattle.payload.specs.Inside.{Inside};

use xgem::XgemHeader;

pub const XGEM_HEADER_BYTES: usize = 8;

#[derive(Clone, Copy)]
pub enum Next {
    Done,
    Lost,
    Frame(XgemHeader),
}

// What the walk and the search for a stretch ask at each header: it is merged into the loop of each.
#[inline(always)]
pub fn next_frame(left: &[u8]) -> Next
    ensures { (result ≡ next_of left.now) × (Inside result (length left.now)) }
{
    let read = hec::read64_by_octets(xgem::word_ahead(left));
    if left.len() < XGEM_HEADER_BYTES {
        return Next::Done;
    }
    match read {
        None => Next::Lost,
        Some(w) => {
            let x = XgemHeader::of(w);
            if left.len() - XGEM_HEADER_BYTES < xgem::payload_size(x.pli) {
                Next::Lost
            } else {
                Next::Frame(x)
            }
        }
    }
}
