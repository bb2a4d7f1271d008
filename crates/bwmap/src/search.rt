// The search for the next series of a map that is planned.
ghost use Rattle.std.specs.Prelude.{◌≤◌, ◌<◌, ◌≡◌, true};
ghost use Rattle.entries.specs.Standings.{standing};
ghost use Rattle.series.specs.Series.{entry_at, entry_count};
ghost use Rattle.series.specs.Opens.{joined, goes_on_lem, Modest};
ghost use Rattle.bwmap.specs.Turns.{NextPlanned};

use entries::{Own, STRUCTURE_OCTETS, Standing};
use series::{Around, Open};
use xgtc::allocation::Allocation;

// A series, and the entry before which it ends.
#[derive(Clone, Copy)]
pub struct Ended {
    pub until: usize,
    pub series: Open,
}

// The i-th entry of a map.
#[inline(always)]
pub(crate) fn read_at(map: &[u8], own: Own, i: usize) -> Standing
    requires { i < entry_count map.now }
    ensures { result ≡ standing own (entry_at map.now i) }
{
    let at = STRUCTURE_OCTETS * i;
    own.standing_ahead(&map[at..])
}

pub(crate) fn joined(s: Open, a: Allocation) -> Open
    requires { Modest s × (goes_on_lem s ≡ true) }
    ensures { (result ≡ joined s a) × Modest result }
{
    Open {
        entries: s.entries + 1,
        start: s.start,
        words: s.words + usize::from(a.grant),
    }
}

// The next series from `from` on that is planned, if there is one, with what is around it before. Each entry is
// read once, in one loop, and series that are passed over stay in it: most entries of a map are foreign.
pub(crate) fn next_planned(map: &[u8], own: Own, from: usize, around: Around) -> Option<Ended>
    requires { from ≤ entry_count map.now }
    ensures { NextPlanned own map.now around from result }
{
    let n = map.len() / STRUCTURE_OCTETS;
    let mut s = series::closed();
    for i in from..n {
        match read_at(map, own, i) {
            Standing::Head(h) => {
                if series::fits(around, s) {
                    return Some(Ended {
                        until: i,
                        series: s,
                    });
                }
                s = series::opened(h);
            }
            Standing::More(a) => {
                if series::goes_on(s) {
                    s = joined(s, a);
                } else {
                    if series::fits(around, s) {
                        return Some(Ended {
                            until: i,
                            series: s,
                        });
                    }
                    s = series::closed();
                }
            }
            Standing::Apart(_) => {
                if series::fits(around, s) {
                    return Some(Ended {
                        until: i,
                        series: s,
                    });
                }
                s = series::closed();
            }
        }
    }
    if series::fits(around, s) {
        return Some(Ended {
            until: n,
            series: s,
        });
    }
    None
}
