// Whether delineation is lost in what is left of a payload.
ghost use Rattle.std.specs.Prelude.{◌≡◌, ◌≤◌, length};
ghost use Rattle.stretches.specs.Stretch.{lost_in};

use payload::{Next, XGEM_HEADER_BYTES};

// From a place on. Of a frame nothing matters here but how many bytes its payload takes.
pub(crate) fn is_lost(frame: &[u8], begins: usize) -> bool
    requires { begins ≤ length frame.now }
    ensures { result ≡ lost_in begins frame.now }
{
    let mut at = begins;
    loop {
        match payload::next_frame(&frame[at..]) {
            Next::Done => {
                return false;
            }
            Next::Lost => {
                return true;
            }
            Next::Frame(x) => {
                at = at + XGEM_HEADER_BYTES + xgem::payload_size(x.pli);
            }
        }
    }
}
