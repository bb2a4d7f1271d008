// What bench/ calls from Rust: loops over the library's functions, long enough to be timed.
#![tactic(auto)]

mod map_walk;
mod message_checks;
mod payload_walk;
mod stretch_search;

ghost use Rattle.std.specs.Prelude.{◌≡◌};
ghost use Rattle.bench_exports.specs.Sums.{read_sum};

// The sum, without carry, of what the words read as.
#[unsafe(no_mangle)]
pub extern "C" fn bench_read32(words: &[u32]) -> u32
    ensures { result ≡ read_sum 32 words.now }
{
    let mut sum = 0;
    for word in words {
        sum ^= hec::read32(*word).map_or(0, |w| w.bits());
    }
    sum
}

// As a walk over map or payload reads them.
#[unsafe(no_mangle)]
pub extern "C" fn bench_read64(words: &[u64]) -> u64
    ensures { result ≡ read_sum 64 words.now }
{
    let mut sum = 0;
    for word in words {
        sum ^= hec::read64_by_octets(*word).map_or(0, |w| w.bits());
    }
    sum
}

// As a word by itself is read.
#[unsafe(no_mangle)]
pub extern "C" fn bench_read64_plain(words: &[u64]) -> u64
    ensures { result ≡ read_sum 64 words.now }
{
    let mut sum = 0;
    for word in words {
        sum ^= hec::read64(*word).map_or(0, |w| w.bits());
    }
    sum
}
