// The search for stretches, for the station of the payload walk.
ghost use Rattle.std.specs.Prelude.{◌≡◌};
ghost use Rattle.stretches.specs.Stretch.{list_of};
ghost use Rattle.bench_exports.specs.Ports.{bench_ports_lem, own_port, hlend_octets};

use crate::payload_walk;
use ids::PortId;

const HLEND_OCTETS: usize = 4;

// How many stretches are listed of a frame that has nothing between HLend and payload.
#[unsafe(no_mangle)]
pub extern "C" fn bench_stretches(frame: &[u8], first: usize, places: &mut [usize]) -> usize
    ensures { (result ≡ (list_of own_port bench_ports_lem hlend_octets frame.now first places.old).placed.count)
        × (places.new ≡ (list_of own_port bench_ports_lem hlend_octets frame.now first places.old).places) }
{
    let ports = payload_walk::bench_ports();
    stretches::stretch_places(ports, PortId(5), frame, HLEND_OCTETS, first, places).count
}
