// The messages of a frame, for a station in O5 with ONU-ID 5 and a key.
ghost use Rattle.std.specs.Prelude.{◌≡◌};
ghost use Rattle.messages.specs.Receiving.{receive_all, messages_in};
ghost use Rattle.bench_exports.specs.Messages.{bench_station_lem, bench_key, genuine_count, genuine_count_by};

use cmac::Prepared;
use ids::OnuId;
use link::{Key, Link};
use ploam::MESSAGE_OCTETS;
use station::{Activation, Station};

fn bench_station() -> Station
    ensures { result ≡ bench_station_lem }
{
    let key = Key {
        held: true,
        octets: [9u8; 16],
    };
    let link = Link::nothing().with_onu(OnuId(5)).with_key(key);
    Station::power_on([1u8; 8], [7u8; 36])
        .with_link(link)
        .with_activation(Activation::Operation)
}

// The equalization delay that they leave.
#[unsafe(no_mangle)]
pub extern "C" fn bench_messages(messages: &[u8]) -> u32
    ensures { result ≡ (receive_all bench_station_lem (messages_in messages.now)).link.delay }
{
    messages::receive_all(bench_station(), messages).link.delay
}

fn count_genuine(usual: Prepared, installed: Prepared, messages: &[u8]) -> usize
    ensures { result ≡ genuine_count_by usual installed (messages_in messages.now) }
{
    let mut sum = 0;
    for i in 0..messages.len() / MESSAGE_OCTETS {
        let at = MESSAGE_OCTETS * i;
        sum += usize::from(integrity::genuine(
            usual,
            installed,
            &messages[at..at + MESSAGE_OCTETS],
        ));
    }
    sum
}

// How many of them are genuine: the integrity check alone, by the default key or that of the station.
#[unsafe(no_mangle)]
pub extern "C" fn bench_genuine(messages: &[u8]) -> usize
    ensures { result ≡ genuine_count bench_key (messages_in messages.now) }
{
    let usual = integrity::default_key();
    let installed = cmac::prepare([9u8; 16]);
    count_genuine(usual, installed, messages)
}
