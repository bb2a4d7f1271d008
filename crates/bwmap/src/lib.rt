// The walk over the bandwidth map (clause 8.1.2): the series of ours, which of them are planned, and the plan that the
// laser obeys; and the name of every structure, what became of it.
#![tactic(auto)]

mod names;
mod records;
mod search;

ghost use Rattle.std.specs.Prelude.{◌+◌, ◌*◌, ◌≤◌, ◌<◌, ◌≡◌, length, []};
ghost use Rattle.plan.specs.Limits.{plan_numbers};
ghost use Rattle.series.specs.Series.{entry_count, carried_over_lem};
ghost use Rattle.bwmap.specs.Turns.{finished, to_come, starting, Small};
ghost use Rattle.bwmap.specs.Plan.{MapLeaves};
ghost use Rattle.bwmap.specs.Names.{NamesAre};

use entries::{Own, STRUCTURE_OCTETS};
use series::Around;
use station::limits::UPSTREAM_WORDS;

// What is planned of a map.
#[derive(Clone, Copy)]
pub struct Plan {
    // Records of four numbers at the start of the plan.
    pub records: usize,
    pub bursts: usize,
    // Bursts whose head has PLOAMu: each sends one message.
    pub messages: usize,
    // The word where the last burst ends; where none is planned, the words carried over from the frame before.
    pub end: usize,
    // Words of the next upstream frame that the last burst takes.
    pub carried: u16,
}

// How far a walk has come: the next entry, and what is planned of those before it.
#[derive(Clone, Copy)]
pub struct Walk {
    pub at: usize,
    pub records: usize,
    pub messages: usize,
    pub around: Around,
}

fn carried_over(end: usize) -> u16
    requires { end ≤ 65535 }
    ensures { result ≡ carried_over_lem end }
{
    end.saturating_sub(UPSTREAM_WORDS) as u16
}

// The next series that is planned, written; or none, and then the walk is at its end.
fn turn(map: &[u8], own: Own, w: Walk, plan: &mut [u16]) -> Walk
    requires { (w.at < entry_count map.now) × (plan_numbers ≤ length plan.old) × Small w }
    ensures { Small result × (w.at < result.at) × (result.at ≤ entry_count map.now) × (to_come own map.now plan.new result ≡ to_come own map.now plan.old w) }
{
    let before = w.around;
    match search::next_planned(map, own, w.at, before) {
        Some(ended) => {
            let s = ended.series;
            let at = ended.until - s.entries;
            let more = s.entries - 1;
            let h = records::allocation_at(map, at);
            let place = plan::NUMBERS_A_RECORD * w.records;
            records::write_series(map, at + 1, more, h, plan, place);
            Walk {
                at: ended.until,
                records: w.records + (more + 1),
                messages: w.messages + usize::from(h.ploamu),
                around: Around {
                    end: s.start + s.words,
                    bursts: before.bursts + 1,
                },
            }
        }
        None => Walk {
            at: map.len() / STRUCTURE_OCTETS,
            records: w.records,
            messages: w.messages,
            around: before,
        },
    }
}

// The walk over the whole map. Once the last burst that a frame may have is planned, every series is passed over.
fn walk_map(map: &[u8], own: Own, carried: u16, plan: &mut [u16]) -> Walk
    requires { plan_numbers ≤ length plan.old }
    ensures { Small result × (finished plan.new result [] ≡ to_come own map.now plan.old (starting carried)) }
{
    let mut w = Walk {
        at: 0,
        records: 0,
        messages: 0,
        around: Around {
            end: usize::from(carried),
            bursts: 0,
        },
    };
    let n = map.len() / STRUCTURE_OCTETS;
    while w.at < n {
        // with this test in the loop's condition, which was tried, a foreign entry took 4.8 % more instructions than before, not at most 3 %
        if series::BURSTS_A_FRAME <= w.around.bursts {
            return w;
        }
        w = turn(map, own, w, plan);
    }
    w
}

// The plan of a map: records of four numbers at the start of the lent plan, the rest of which keeps its content. None where the
// plan is too short, and then all of it keeps its content.
pub fn plan_map(map: &[u8], own: Own, carried: u16, plan: &mut [u16]) -> Option<Plan>
    ensures { MapLeaves own map.now carried plan.old result plan.new }
{
    if plan.len() < plan::PLAN_NUMBERS {
        return None;
    }
    if own.activation.is_silent() {
        let end = usize::from(carried);
        return Some(Plan {
            records: 0,
            bursts: 0,
            messages: 0,
            end,
            carried: carried_over(end),
        });
    }
    let w = walk_map(map, own, carried, plan);
    Some(Plan {
        records: w.records,
        bursts: w.around.bursts,
        messages: w.messages,
        end: w.around.end,
        carried: carried_over(w.around.end),
    })
}

// The name of every structure of a map, at the start of the lent list, the rest of which keeps its content: how many have one. None
// where the list is too short, and then all of it keeps its content.
pub fn name_map(map: &[u8], own: Own, carried: u16, names: &mut [u8]) -> Option<usize>
    ensures { NamesAre own map.now carried names.old result names.new }
{
    let n = map.len() / STRUCTURE_OCTETS;
    if names.len() < n {
        return None;
    }
    if own.activation.is_silent() {
        names::fill(names, 0, n, entries::SILENT);
        return Some(n);
    }
    names::name_entries(map, own, carried, names);
    Some(n)
}
