// The walk over a bandwidth map, for a station in O5 with ONU-ID 5 and sixteen added Alloc-IDs.
ghost use Rattle.std.specs.Prelude.{◌≡◌};
ghost use Rattle.bwmap.specs.Plan.{plan_of};
ghost use Rattle.bench_exports.specs.Maps.{bench_own_lem, records_of_lem};

use bwmap::Plan;
use entries::Own;
use ids::{AllocId, OnuId};
use link::Allocs;
use station::Activation;

fn bench_own() -> Own
    ensures { result ≡ bench_own_lem }
{
    let allocs = Allocs {
        ids: [
            AllocId(2000),
            AllocId(2011),
            AllocId(2022),
            AllocId(2033),
            AllocId(2044),
            AllocId(2055),
            AllocId(2066),
            AllocId(2077),
            AllocId(2088),
            AllocId(2099),
            AllocId(2110),
            AllocId(2121),
            AllocId(2132),
            AllocId(2143),
            AllocId(2154),
            AllocId(2165),
        ],
        count: 16,
    };
    Own {
        activation: Activation::Operation,
        onu: OnuId(5),
        allocs,
    }
}

fn records_of(answer: Option<Plan>) -> usize
    ensures { result ≡ records_of_lem answer }
{
    answer.map_or(0, |p| p.records)
}

// The records planned.
#[unsafe(no_mangle)]
pub extern "C" fn bench_plan(map: &[u8], plan: &mut [u16]) -> usize
    ensures { (result ≡ records_of_lem (plan_of bench_own_lem map.now 0 plan.old).answer)
        × (plan.new ≡ (plan_of bench_own_lem map.now 0 plan.old).plan) }
{
    let answer = bwmap::plan_map(map, bench_own(), 0, plan);
    records_of(answer)
}
