// A burst allocation series (clause 8.1.2), as far as the entries of the map that make it are read: where its burst
// starts, how many words that takes, whether it has room for one more entry, and whether it is planned.
#![tactic(auto)]

ghost use Rattle.std.specs.Prelude.{◌≤◌, ◌≡◌};
ghost use Rattle.series.specs.Series.{words_of, judged};
ghost use Rattle.series.specs.Opens.{closed, opened, goes_on_lem, fits, Modest};

use entries::Verdict;
use station::limits::UPSTREAM_WORDS;
use xgtc::allocation::Allocation;

// Bursts that a frame may have planned.
pub const BURSTS_A_FRAME: usize = 4;

// Entries of a burst, its head among them.
pub const ENTRIES_A_BURST: usize = 16;

const MORE_A_BURST: usize = ENTRIES_A_BURST - 1;

const WORDS_A_BURST: usize = UPSTREAM_WORDS;

// Words of a PLOAMu.
const PLOAMU_WORDS: usize = 12;

// What is around a series: the word where the last planned burst ends, and how many the frame has planned before it.
#[derive(Clone, Copy)]
pub struct Around {
    pub end: usize,
    pub bursts: usize,
}

// A series as far as it is read: its entries, none where no series is open; the word where its burst starts, and the
// words of that burst.
#[derive(Clone, Copy)]
pub struct Open {
    pub entries: usize,
    pub start: usize,
    pub words: usize,
}

// The words of a burst of which the head alone is read.
#[tactic(auto, unfolding(crate::specs::Series::words_of))]
fn head_words(h: Allocation) -> usize
    ensures { (result ≡ words_of h 0) × (result ≤ 65549) }
{
    let ploamu = if h.ploamu { PLOAMU_WORDS } else { 0 };
    1 + ploamu + usize::from(h.grant) + 1
}

pub fn closed() -> Open
    ensures { result ≡ closed }
{
    Open {
        entries: 0,
        start: 0,
        words: 0,
    }
}

pub fn opened(h: Allocation) -> Open
    ensures { (result ≡ opened h) × Modest result }
{
    Open {
        entries: 1,
        start: usize::from(h.start),
        words: head_words(h),
    }
}

// Whether an entry of ours that continues goes the series on: one must be open, and a seventeenth closes it.
#[tactic(auto, unfolding(crate::specs::Opens::goes_on_lem))]
pub fn goes_on(s: Open) -> bool
    ensures { result ≡ goes_on_lem s }
{
    0 < s.entries && s.entries <= MORE_A_BURST
}

// What becomes of a burst of so many words at `start`.
#[tactic(auto, unfolding(crate::specs::Series::judged))]
pub fn judge(around: Around, start: usize, words: usize) -> Verdict
    ensures { result ≡ judged around start words }
{
    if WORDS_A_BURST < words {
        Verdict::TooLong
    } else if start < around.end {
        Verdict::Overlapping
    } else if BURSTS_A_FRAME <= around.bursts {
        Verdict::AfterTheLast
    } else {
        Verdict::Planned
    }
}

// Whether a series is open and, as it ends, planned.
#[tactic(auto, unfolding(crate::specs::Opens::fits))]
pub fn fits(around: Around, s: Open) -> bool
    ensures { result ≡ fits around s }
{
    0 < s.entries && judge(around, s.start, s.words).is_planned()
}
