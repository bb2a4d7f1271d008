// The records of a plan.
ghost use Rattle.std.specs.Prelude.{◌+◌, ◌*◌, ◌≤◌, ◌<◌, ◌≡◌, length};
ghost use Rattle.std.proofs.lemmas.List.Edits.{sets};
ghost use Rattle.series.specs.Series.{entry_count};
ghost use Rattle.bwmap.specs.Turns.{no_allocation_lem, allocation_at_lem, allocations_from};
ghost use Rattle.plan.specs.Limits.{numbers_a_record};
ghost use Rattle.plan.specs.Plan.{more_numbers, series_numbers};

use entries::STRUCTURE_OCTETS;
use ids::AllocId;
use xgtc::allocation::Allocation;

fn no_allocation() -> Allocation
    ensures { result ≡ no_allocation_lem }
{
    Allocation {
        alloc: AllocId(0),
        dbru: false,
        ploamu: false,
        start: 0,
        grant: 0,
        fwi: false,
        profile: 0,
    }
}

// The fields of the i-th entry; zeros stand for one that could not be read, and none such is planned.
pub(crate) fn allocation_at(map: &[u8], i: usize) -> Allocation
    requires { i < entry_count map.now }
    ensures { result ≡ allocation_at_lem map.now i }
{
    let at = STRUCTURE_OCTETS * i;
    match entries::reading::read_entry(&map[at..]) {
        Ok(a) => a,
        Err(_) => no_allocation(),
    }
}

// The records of `count` entries from `from` on, which continue the burst of the head h.
fn write_more(map: &[u8], from: usize, count: usize, h: Allocation, plan: &mut [u16], at: usize)
    requires { (from + count ≤ entry_count map.now) × (at + numbers_a_record * count ≤ length plan.old) }
    ensures { plan.new ≡ sets plan.old at (more_numbers h (allocations_from map.now from count)) }
{
    for k in 0..count {
        let a = allocation_at(map, from + k);
        plan::write_record(
            plan,
            at + plan::NUMBERS_A_RECORD * k,
            a,
            plan::more_flags(h, a),
            h.start,
        );
    }
}

// The records of a whole burst: its head h, and the `count` entries from `from` on that continue it. The head's record goes to a part
// of its own: there the compiler sees that it has room, and the loop over the map keeps its registers.
pub(crate) fn write_series(
    map: &[u8],
    from: usize,
    count: usize,
    h: Allocation,
    plan: &mut [u16],
    at: usize,
)
    requires { (from + count ≤ entry_count map.now) × (at + numbers_a_record + numbers_a_record * count ≤ length plan.old) }
    ensures { plan.new ≡ sets plan.old at (series_numbers (record { head = h; more = allocations_from map.now from count })) }
{
    let end = at + plan::NUMBERS_A_RECORD;
    plan::write_record(&mut plan[at..end], 0, h, plan::head_flags(h), h.start);
    write_more(map, from, count, h, plan, end);
}
