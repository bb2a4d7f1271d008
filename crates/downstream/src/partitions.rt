// Where the partitions of a downstream frame end (clause 8.1).
ghost use Rattle.std.specs.Prelude.{◌≡◌};
ghost use Rattle.downstream.specs.Partitions.{map_end_lem, header_end_lem};

use entries::STRUCTURE_OCTETS;
use ploam::MESSAGE_OCTETS;
use xgtc::hlend::Hlend;

pub const HLEND_OCTETS: usize = 4;

pub fn map_end(h: Hlend) -> usize
    ensures { result ≡ map_end_lem h }
{
    HLEND_OCTETS + STRUCTURE_OCTETS * h.bwmap as usize
}

pub fn header_end(h: Hlend) -> usize
    ensures { result ≡ header_end_lem h }
{
    map_end(h) + MESSAGE_OCTETS * h.ploam as usize
}
