// What the head end gives a station and what the station owes it: all that entering O1, O2-3 or O7 forgets.
#![tactic(auto)]

ghost use Rattle.std.specs.Prelude.{◌≡◌, Bool, ◌<◌, ◌≤◌, length, take};
ghost use Rattle.ids.specs.Ids.{same_alloc};
ghost use Rattle.ids.specs.Places.{place_from, Below};
ghost use Rattle.link.specs.Limits.{added_allocs, most_owed};
ghost use Rattle.link.specs.Lists.{close_up};
ghost use Rattle.link.specs.Link.{no_alloc, blank, no_key, no_allocs, none_owed, nothing, installed};
ghost use Rattle.link.specs.Link.{alloc_place, add_alloc, remove_alloc, owe, paid, oldest};
ghost use Rattle.link.specs.Link.{with_onu_lem, with_delay_lem, with_key_lem, with_allocs_lem, with_owed_lem};

use ids::{AllocId, OnuId};
use ploam::Completion;

// Of the added Alloc-IDs and of the answers owed, at most so many.
pub const ADDED_ALLOCS: usize = 16;

pub const MOST_OWED: usize = 8;

// Octets of a key, 15.6.2.
pub const KEY_OCTETS: usize = 16;

// What an upstream message answers.
#[derive(Clone, Copy)]
pub enum Response {
    Registration,
    Acknowledgement(Completion),
}

// An answer owed repeats the SeqNo of the message that asked for it.
#[derive(Clone, Copy)]
pub struct Owed {
    pub response: Response,
    pub seq_no: u8,
}

// The PLOAM integrity key of clause 15.3.2. One that is not held is sixteen zeros.
// No Option: of a state for C any octets beside the mark 0 are a state's and come back (`shown`, `encoded` of layout).
#[derive(Clone, Copy)]
pub struct Key {
    pub held: bool,
    pub octets: [u8; 16],
}

// The added Alloc-IDs in the order of their adding; past the count there is 0. Here and in the queue a count stands beside an array:
// no memory is taken from a heap, and a count above the array's length is a state for C, out of range (`in_range` of validity).
#[derive(Clone, Copy)]
pub struct Allocs {
    pub ids: [AllocId; 16],
    pub count: usize,
}

// The answers owed, oldest first; past the count they are blank.
#[derive(Clone, Copy)]
pub struct Queue {
    pub answers: [Owed; 8],
    pub count: usize,
}

#[derive(Clone, Copy)]
pub struct Link {
    // The broadcast number while none is held.
    pub onu: OnuId,
    pub allocs: Allocs,
    // Equalization delay in bit times.
    pub delay: u32,
    pub key: Key,
    pub owed: Queue,
}

fn blank_answer() -> Owed
    ensures { result ≡ blank }
{
    Owed {
        response: Response::Registration,
        seq_no: 0,
    }
}

// The array without what stands at i: the others keep their order, and a blank comes in at the end.
fn close_up<T: Copy, const N: usize>(mut list: [T; N], i: usize, blank: T) -> [T; N]
    requires { i < N }
    ensures { result ≡ close_up blank i list }
{
    list.copy_within(i + 1.., i);
    list[N - 1] = blank;
    list
}

// Among the first n.
fn find_alloc(ids: [AllocId; 16], n: usize, id: AllocId) -> Option<usize>
    ensures { (result ≡ place_from (same_alloc id) 0 (take n ids)) × (Below result added_allocs) }
{
    ids::place_of(&ids[..n.min(ADDED_ALLOCS)], id)
}

impl Allocs {
    pub fn none() -> Allocs
        ensures { result ≡ no_allocs }
    {
        Allocs {
            ids: [AllocId(0); 16],
            count: 0,
        }
    }

    pub fn place(self, id: AllocId) -> Option<usize>
        ensures { result ≡ alloc_place self id }
    {
        find_alloc(self.ids, self.count, id)
    }

    pub fn add(mut self, id: AllocId) -> Allocs
        ensures { result ≡ add_alloc self id }
    {
        if ADDED_ALLOCS <= self.count {
            return self;
        }
        self.ids[self.count] = id;
        self.count += 1;
        self
    }

    pub fn remove(self, id: AllocId) -> Allocs
        ensures { result ≡ remove_alloc self id }
    {
        match find_alloc(self.ids, self.count, id) {
            Some(i) => Allocs {
                ids: close_up(self.ids, i, AllocId(0)),
                count: self.count - 1,
            },
            None => self,
        }
    }
}

impl Queue {
    pub fn none() -> Queue
        ensures { result ≡ none_owed }
    {
        Queue {
            answers: [blank_answer(); 8],
            count: 0,
        }
    }

    pub fn owe(mut self, answer: Owed) -> Queue
        ensures { result ≡ owe self answer }
    {
        if MOST_OWED <= self.count {
            return self;
        }
        self.answers[self.count] = answer;
        self.count += 1;
        self
    }

    pub fn oldest(self) -> Owed
        ensures { result ≡ oldest self }
    {
        self.answers[0]
    }

    pub fn paid(self) -> Queue
        ensures { result ≡ paid self }
    {
        if self.count == 0 {
            return self;
        }
        Queue {
            answers: close_up(self.answers, 0, blank_answer()),
            count: self.count - 1,
        }
    }
}

impl Key {
    pub fn none() -> Key
        ensures { result ≡ no_key }
    {
        Key {
            held: false,
            octets: [0u8; 16],
        }
    }

    pub fn installed(octets: [u8; 16]) -> Key
        ensures { result ≡ installed octets }
    {
        Key { held: true, octets }
    }
}

impl Link {
    pub fn nothing() -> Link
        ensures { result ≡ nothing }
    {
        Link {
            onu: OnuId::broadcast(),
            allocs: Allocs::none(),
            delay: 0,
            key: Key::none(),
            owed: Queue::none(),
        }
    }

    pub fn with_onu(mut self, onu: OnuId) -> Link
        ensures { result ≡ with_onu_lem self onu }
    {
        self.onu = onu;
        self
    }

    pub fn with_delay(mut self, delay: u32) -> Link
        ensures { result ≡ with_delay_lem self delay }
    {
        self.delay = delay;
        self
    }

    pub fn with_key(mut self, key: Key) -> Link
        ensures { result ≡ with_key_lem self key }
    {
        self.key = key;
        self
    }

    pub fn with_allocs(mut self, allocs: Allocs) -> Link
        ensures { result ≡ with_allocs_lem self allocs }
    {
        self.allocs = allocs;
        self
    }

    pub fn with_owed(mut self, owed: Queue) -> Link
        ensures { result ≡ with_owed_lem self owed }
    {
        self.owed = owed;
        self
    }
}
