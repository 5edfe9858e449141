// The values that the store is made of, as structs by value. The definitions in specs/ use these very structs as their
// records, so that code and definitions speak of the same things.
#![tactic(auto)]

mod refusal;

ghost use Rattle.std.specs.Prelude.{◌≡◌, ◌^◌, ◌*◌, ◌<◌, ◌≤◌};
ghost use Rattle.model.specs.Bits.{edition_of, count_bits, root_bits, oldest_bits};
ghost use Rattle.model.specs.Store.{last_of};
ghost use Rattle.model.specs.Header.{with_flag, with_version, with_roots, with_oldest};

pub use refusal::{Fault, ListRefusal, Refusal};

// In a leaf a setting, in an index page a router: its low key and the page below.
#[derive(Clone, Copy)]
pub struct Entry {
    pub key: u32,
    pub start: u32,
    pub end: u32,
    pub value: u32,
}

// What an entry says of one version: a setting, or a router.
#[derive(Clone, Copy, PartialEq, Eq)]
pub struct Pair {
    pub key: u32,
    pub value: u32,
}

// What differs at a key between two versions: 0 added, 1 removed, 2 changed; the old value and the new, zero where there is none. The kind
// is a number, as it stands in the caller's list and in the definitions, whose record this is.
#[derive(Clone, Copy)]
pub struct Delta {
    pub key: u32,
    pub kind: u32,
    pub old: u32,
    pub new: u32,
}

// A stretch of versions in which a key holds one value: from start up to but not including end.
#[derive(Clone, Copy)]
pub struct Stretch {
    pub start: u32,
    pub end: u32,
    pub value: u32,
}

// A slot of the root directory.
#[derive(Clone, Copy)]
pub struct Slot {
    pub version: u32,
    pub root: u32,
}

// "The store's header travels as one value": number of pages, current version, whether an update is open, number of roots,
// oldest version that is kept.
#[derive(Clone, Copy)]
pub struct Header {
    pub pages: u32,
    pub current: u32,
    pub opened: bool,
    pub roots: u32,
    pub oldest: u32,
}

// What a store tells of itself: number of pages, current version, whether an update is open, slots used, edition, free pages, oldest
// version.
#[derive(Clone, Copy)]
pub struct State {
    pub pages: u32,
    pub current: u32,
    pub opened: bool,
    pub roots: u32,
    pub edition: u32,
    pub free: u32,
    pub oldest: u32,
}

// What a setting may be: "a whole number with its limits, a switch, or a level with its lowest and highest float".
#[derive(Clone, Copy)]
pub enum Kind {
    Whole(u32, u32),
    Switch,
    Level(f32, f32),
}

// The limits of an edition: no other place in the code has them as numbers.
#[derive(Clone, Copy)]
pub struct Limits {
    // live entries that a reached page has at the least
    pub least: usize,
    // a gathered list under this takes a neighbour's entries too
    pub merge: usize,
    // entries that one rebuilt page takes
    pub full: usize,
    // entries that a page has room for, dead ones counted
    pub room: usize,
    // bytes of a page
    pub bytes: usize,
    // slots of the root directory
    pub slots: usize,
    // bits of a page's entry count
    pub counter: usize,
    // bits of the header's number of roots
    pub rooter: usize,
    // bits of the header's oldest version
    pub aged: usize,
    pub ghost four: { 4 ≤ least },
    pub ghost eight: { least ≤ 8 },
    pub ghost merging: { merge ≡ 2 * least },
    pub ghost filling: { full ≡ 4 * least },
    pub ghost holding: { room ≡ 5 * least },
    pub ghost paging: { bytes ≡ 64 * least },
    pub ghost slotting: { slots ≡ 64 * least },
    pub ghost counting: { counter ≡ count_bits least },
    pub ghost rooting: { rooter ≡ root_bits least },
    pub ghost aging: { aged ≡ oldest_bits least },
}

// The limits of edition 1.
pub fn edition_one() -> Limits
    ensures one { result.least ≡ 4 }
{
    Limits {
        least: 4,
        merge: 8,
        full: 16,
        room: 20,
        bytes: 256,
        slots: 256,
        counter: 5,
        rooter: 9,
        aged: 0,
    }
}

// The limits of edition 2.
pub fn edition_two() -> Limits
    ensures two { result.least ≡ 8 }
{
    Limits {
        least: 8,
        merge: 16,
        full: 32,
        room: 40,
        bytes: 512,
        slots: 512,
        counter: 6,
        rooter: 10,
        aged: 20,
    }
}

// The edition whose limits have this least number. Any number may be asked.
pub fn edition_of(least: usize) -> u32
    ensures { result ≡ edition_of least }
{
    if least <= 4 {
        return 1;
    }
    2
}

impl Header {
    // "Let 'last' be the open version if one is open, else the current one."
    pub fn last(self) -> u32
        requires { self.current < 2 ^ 20 }
        ensures { result ≡ last_of self.opened self.current }
    {
        if self.opened {
            return self.current + 1;
        }
        self.current
    }

    pub fn with_flag(mut self, flag: bool) -> Header
        ensures { result ≡ with_flag self flag }
    {
        self.opened = flag;
        self
    }

    pub fn with_version(mut self, v: u32) -> Header
        ensures { result ≡ with_version self v }
    {
        self.current = v;
        self
    }

    pub fn with_roots(mut self, n: u32) -> Header
        ensures { result ≡ with_roots self n }
    {
        self.roots = n;
        self
    }

    pub fn with_oldest(mut self, v: u32) -> Header
        ensures { result ≡ with_oldest self v }
    {
        self.oldest = v;
        self
    }
}
