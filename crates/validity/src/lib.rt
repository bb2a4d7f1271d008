// The paper's "State ranges": what answer 1 refuses.
#![tactic(auto)]

ghost use Rattle.std.specs.Prelude.{◌≡◌, false, not};
ghost use Rattle.ids.specs.Ids.{within};
ghost use Rattle.ports.specs.Limits.{added_ports, slots};
ghost use Rattle.ids.specs.Places.{some};
ghost use Rattle.validity.specs.Ranges.{identity_fits_lem, timer_fits_lem, allocs_fit_lem, ports_fit_lem, every, partial_fits, partials_fit_lem, in_range};
ghost use Rattle.validity.specs.Ranges.{place_number_lem, alloc_numbers_lem, port_numbers_lem, is_unfit, times, equal_pairs_lem, numbers_fit_lem};
ghost use Rattle.validity.specs.Ranges.{length_fits_lem, empty_fits};

use ids::{AllocId, OnuId, PortId};
use link::Allocs;
use ports::SDU_BYTES;
use station::limits::{LAST_WORD, TO1, TO2};
use station::{Activation, Station};

// "ONU-ID at most 1,022 in O4, O5, O6, else 1,023"
#[tactic(auto, unfolding(crate::specs::Ranges::identity_fits_lem))]
fn identity_fits(a: Activation, onu: OnuId) -> bool
    ensures { result ≡ identity_fits_lem a onu }
{
    if a.holds_identity() {
        onu.is_assignable()
    } else {
        onu == OnuId::broadcast()
    }
}

fn count_fits(left: u32, most: u32) -> bool
    ensures { result ≡ within 1 most left }
{
    1 <= left && left <= most
}

// "TO1 1 to 80,000, TO2 1 to 800"
fn timer_fits(a: Activation) -> bool
    ensures { result ≡ timer_fits_lem a }
{
    match a {
        Activation::Ranging(left) => count_fits(left, TO1),
        Activation::Intermittent(left) => count_fits(left, TO2),
        _ => true,
    }
}

// The tests of all places have no early exits, so that a processor can do several places at once.

// Stands for a number that cannot be assigned: of no Alloc-ID, and of idle XGEM frames' port.
const UNFIT: u16 = 65535;

// An unused place's own number is no other's: all that can be assigned are above 15 (Tables 6-2 and 6-3).
#[tactic(auto, unfolding(crate::specs::Ranges::place_number_lem))]
fn place_number(used: bool, assignable: bool, number: u16, place: u16) -> u16
    ensures { result ≡ place_number_lem used assignable number place }
{
    if !used {
        return place;
    }
    if !assignable {
        return UNFIT;
    }
    number
}

#[tactic(auto, using(crate::proofs::Laws::numbers_start), unfolding(crate::specs::Ranges::alloc_numbers_lem))]
fn alloc_numbers(ids: [AllocId; 16], n: usize) -> [u16; 16]
    ensures { result ≡ alloc_numbers_lem n ids }
{
    let mut numbers = [0u16; 16];
    for (i, id) in ids.iter().enumerate() {
        numbers[i] = place_number(i < n, id.is_assignable(), id.0, i as u16);
    }
    numbers
}

#[tactic(auto, using(crate::proofs::Laws::numbers_start), unfolding(crate::specs::Ranges::port_numbers_lem))]
fn port_numbers(ids: [PortId; 16]) -> [u16; 16]
    ensures { result ≡ port_numbers_lem ids }
{
    let none = PortId(0);
    let mut numbers = [0u16; 16];
    for (i, id) in ids.iter().enumerate() {
        numbers[i] = place_number(*id != none, id.is_assignable(), id.0, i as u16);
    }
    numbers
}

fn none_unfit(numbers: [u16; 16]) -> bool
    ensures { result ≡ not (some is_unfit numbers) }
{
    let mut all = true;
    for number in &numbers {
        all &= *number != UNFIT;
    }
    all
}

fn times_in(numbers: [u16; 16], number: u16) -> u16
    ensures { result ≡ times number numbers }
{
    let mut sum = 0;
    for other in &numbers {
        sum += u16::from(number == *other);
    }
    sum
}

// 16 where they are distinct: each number then equals only itself.
#[tactic(auto, using(crate::proofs::Counts::times_most))]
fn equal_pairs(numbers: [u16; 16]) -> u16
    ensures { result ≡ equal_pairs_lem numbers numbers }
{
    let mut sum = 0;
    for number in &numbers {
        sum += times_in(numbers, *number);
    }
    sum
}

#[tactic(auto, unfolding(crate::specs::Ranges::numbers_fit_lem))]
fn numbers_fit(numbers: [u16; 16]) -> bool
    ensures { result ≡ numbers_fit_lem numbers }
{
    none_unfit(numbers) & (equal_pairs(numbers) == 16)
}

#[tactic(auto, using(crate::proofs::Places::allocs_all), unfolding(crate::specs::Ranges::allocs_fit_lem))]
fn allocs_fit(allocs: Allocs) -> bool
    ensures { result ≡ allocs_fit_lem allocs }
{
    allocs.count <= link::ADDED_ALLOCS && numbers_fit(alloc_numbers(allocs.ids, allocs.count))
}

#[tactic(auto, using(crate::proofs::Places::ports_all))]
fn ports_fit(ids: [PortId; 16]) -> bool
    ensures { result ≡ ports_fit_lem ids }
{
    numbers_fit(port_numbers(ids))
}

// "partials at most 2,048, and 0 for a waiting port"
#[tactic(auto, unfolding(crate::specs::Ranges::partial_fits))]
fn length_fits(bytes: u16, waits: bool) -> bool
    ensures { result ≡ partial_fits bytes waits false }
{
    if waits {
        bytes == 0
    } else {
        usize::from(bytes) <= SDU_BYTES
    }
}

fn lengths_fit(lengths: [u16; 17], waiting: [bool; 17]) -> bool
    ensures { result ≡ every (length_fits_lem lengths waiting) 0 slots }
{
    let mut all = true;
    for (slot, bytes) in lengths.iter().enumerate() {
        all &= length_fits(*bytes, waiting[slot]);
    }
    all
}

// "and 0 for [an] empty slot"
fn empties_fit(ids: [PortId; 16], lengths: [u16; 17]) -> bool
    ensures { result ≡ every (empty_fits ids lengths) 0 added_ports }
{
    let none = PortId(0);
    let mut all = true;
    for (i, id) in ids.iter().enumerate() {
        all &= (*id != none) | (lengths[i + 1] == 0);
    }
    all
}

#[tactic(auto, using(crate::proofs::Laws::partials_both))]
fn partials_fit(ids: [PortId; 16], lengths: [u16; 17], waiting: [bool; 17]) -> bool
    ensures { result ≡ partials_fit_lem ids lengths waiting }
{
    lengths_fit(lengths, waiting) && empties_fit(ids, lengths)
}

#[tactic(auto, unfolding(crate::specs::Ranges::in_range))]
pub fn in_range(s: Station) -> bool
    ensures { result ≡ in_range s }
{
    identity_fits(s.activation, s.link.onu)
        && allocs_fit(s.link.allocs)
        && ports_fit(s.ports.ids)
        && partials_fit(s.ports.ids, s.ports.lengths, s.ports.waiting)
        && s.carried <= LAST_WORD
        && timer_fits(s.activation)
        && s.link.owed.count <= link::MOST_OWED
}
