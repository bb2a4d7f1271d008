// The name of every structure of a map, by its number: what became of it.
ghost use Rattle.std.specs.Prelude.{◌+◌, ◌≤◌, ◌<◌, ◌≡◌, length, replicate, set};
ghost use Rattle.std.proofs.lemmas.List.Edits.{sets};
ghost use Rattle.xgem.specs.Writes.{put};
ghost use Rattle.entries.specs.Standings.{standing};
ghost use Rattle.entries.specs.Names.{name_number};
ghost use Rattle.series.specs.Series.{entry_at, entry_count};
ghost use Rattle.series.specs.Opens.{closed, Modest};
ghost use Rattle.bwmap.specs.Names.{names_of};
ghost use Rattle.bwmap.specs.Courses.{behind, ended, excess, named_from, Steady};

use super::search;
use entries::{Own, STRUCTURE_OCTETS, Standing};
use series::{Around, Open};

// How far the walk has come: what is planned of the series that have ended, and the one that is open.
#[derive(Clone, Copy)]
pub struct Course {
    pub around: Around,
    pub series: Open,
}

// So many names from a place on.
pub(crate) fn fill(names: &mut [u8], at: usize, count: usize, name: u8)
    requires { at + count ≤ length names.old }
    ensures { names.new ≡ sets names.old at (replicate count name) }
{
    names[at..at + count].fill(name);
}

// A series ends before the i-th entry, and each of its entries has its name. What is around the next one.
fn name_series(around: Around, s: Open, names: &mut [u8], i: usize) -> Around
    requires { Modest s × (0 < s.entries) × (s.entries ≤ i) × (i ≤ length names.old) }
    ensures { (result ≡ behind around s) × (names.new ≡ ended names.old i around s) }
{
    let verdict = series::judge(around, s.start, s.words);
    fill(names, i - s.entries, s.entries, verdict.number());
    if verdict.is_planned() {
        Around {
            end: s.start + s.words,
            bursts: around.bursts + 1,
        }
    } else {
        around
    }
}

// The series that is open, where one is, ends before the i-th entry. The test stands apart from the work: most entries end none.
fn end_series(around: Around, s: Open, names: &mut [u8], i: usize) -> Around
    requires { Modest s × (s.entries ≤ i) × (i ≤ length names.old) }
    ensures { (result ≡ behind around s) × (names.new ≡ ended names.old i around s) }
{
    if s.entries == 0 {
        return around;
    }
    name_series(around, s, names, i)
}

// An entry that stands by itself closes what is open.
fn name_alone(w: Course, names: &mut [u8], i: usize, name: u8) -> Course
    requires { Steady w i × (i < length names.old) }
    ensures { (result ≡ record { around = behind w.around w.series; series = closed }) × (names.new ≡ set (ended names.old i w.around w.series) i name) }
{
    let around = end_series(w.around, w.series, names, i);
    names[i] = name;
    Course {
        around,
        series: series::closed(),
    }
}

// The name of an entry of ours that continues and goes no series on: a seventeenth where one is open, and else nothing is there to
// continue.
fn excess(s: Open) -> u8
    ensures { result ≡ name_number (excess s.entries) }
{
    if 0 < s.entries {
        entries::SEVENTEENTH
    } else {
        entries::CONTINUING_NOTHING
    }
}

// The i-th entry. One that opens a series or goes it on has its name when the series ends.
fn name_entry(map: &[u8], own: Own, i: usize, w: Course, names: &mut [u8]) -> Course
    requires { (i < entry_count map.now) × (entry_count map.now ≤ length names.old) × Steady w i }
    ensures { Steady result (i + 1) × (named_from own map.now names.new (i + 1) result ≡ named_from own map.now names.old i w) }
{
    match search::read_at(map, own, i) {
        Standing::Head(h) => {
            let around = end_series(w.around, w.series, names, i);
            Course {
                around,
                series: series::opened(h),
            }
        }
        Standing::More(a) => {
            if series::goes_on(w.series) {
                Course {
                    around: w.around,
                    series: search::joined(w.series, a),
                }
            } else {
                name_alone(w, names, i, excess(w.series))
            }
        }
        Standing::Apart(verdict) => name_alone(w, names, i, verdict.number()),
    }
}

// The names of all entries, in a list that has room for them.
pub(crate) fn name_entries(map: &[u8], own: Own, carried: u16, names: &mut [u8])
    requires { entry_count map.now ≤ length names.old }
    ensures { names.new ≡ put names.old (names_of own map.now carried) }
{
    let n = map.len() / STRUCTURE_OCTETS;
    let mut w = Course {
        around: Around {
            end: usize::from(carried),
            bursts: 0,
        },
        series: series::closed(),
    };
    for i in 0..n {
        w = name_entry(map, own, i, w, names);
    }
    end_series(w.around, w.series, names, n);
}
