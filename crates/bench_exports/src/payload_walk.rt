// The payload walk, for a station with ONU-ID 5 and sixteen added ports that do not wait.
ghost use Rattle.std.specs.Prelude.{◌≡◌};
ghost use Rattle.payload.specs.Walk.{receive_of};
ghost use Rattle.bench_exports.specs.Ports.{bench_ports_lem, own_port};

use ids::PortId;
use ports::Ports;

#[inline(always)]
pub(crate) fn bench_ports() -> Ports
    ensures { result ≡ bench_ports_lem }
{
    Ports {
        ids: [
            PortId(3000),
            PortId(3011),
            PortId(3022),
            PortId(3033),
            PortId(3044),
            PortId(3055),
            PortId(3066),
            PortId(3077),
            PortId(3088),
            PortId(3099),
            PortId(3110),
            PortId(3121),
            PortId(3132),
            PortId(3143),
            PortId(3154),
            PortId(3165),
        ],
        lengths: [0u16; 17],
        waiting: [false; 17],
    }
}

// The bytes delivered.
#[unsafe(no_mangle)]
pub extern "C" fn bench_receive(memory: &mut [u8], deliveries: &mut [u8], frame: &[u8]) -> usize
    ensures { (result ≡ (receive_of bench_ports_lem own_port memory.old deliveries.old 0 frame.now).receiver.bytes)
        × (memory.new ≡ (receive_of bench_ports_lem own_port memory.old deliveries.old 0 frame.now).receiver.memory)
        × (deliveries.new ≡ (receive_of bench_ports_lem own_port memory.old deliveries.old 0 frame.now).receiver.deliveries) }
{
    payload::receive(bench_ports(), PortId(5), memory, deliveries, 0, frame).bytes
}
