// Fixed lists and their entries: a command's parameters, the stored commands, the trace and the warnings; and one list copied over another.
#![tactic(auto)]

ghost use Rattle.std.specs.Prelude.{◌≡◌, ◌+◌, ◌-◌, min, ltb, eqb};
ghost use Rattle.lists.specs.Entries.{some, stored_long};
ghost use Rattle.lists.specs.Params.{no_params, filled, excess, differ};

pub use copying::copy;

mod copying;

pub const MAX_PARAMS: u8 = 14;

// The parameter bytes that followed a command: the first `count` of 14 (no heap; a count above 14 is what BAD_STATE tells).
// No PartialEq, nor has what holds one: the bytes behind the count say nothing (`differs`).
#[derive(Clone, Copy)]
pub struct Params {
    pub bytes: [u8; 14],
    pub count: u8,
}

// The place of one stored command: no list yet, or its last one.
// A flag and not an Option<Params>: a place without a list may hold one of 15, and is not bad (the edit stored_long_absent_too).
#[derive(Clone, Copy)]
pub struct Stored {
    pub present: bool,
    pub params: Params,
}

// A command as the trace keeps it. Pixel bytes are counted, not kept.
#[derive(Clone, Copy)]
pub struct TraceRecord {
    pub at: u64,
    pub pixel_bytes: u64,
    pub params: Params,
    pub cmd: u8,
}

// A timing rule that was broken, by which command and when. The rule is a number: entries that hold no warning have 0 (`fresh_panel`), and
// any number can be passed in.
#[derive(Clone, Copy)]
pub struct Warning {
    pub at: u64,
    pub rule: u8,
    pub cmd: u8,
}

// How many trace records the state holds, and how many warnings.
pub const PLACES: usize = 128;

// The place that is free next in a list of which an owner may have `most` entries; `most` where none is, as `answer` says, so no Option.
pub fn free(used: u8, most: usize) -> usize
    ensures answer { result ≡ min used most }
{
    usize::from(used).min(most)
}

// Whether entry i is the latest one. A comparison with a name: it is public, and the edits is_latest_* name it.
pub fn is_latest(i: u8, used: u8) -> bool
    ensures answer { result ≡ eqb (i + 1) used }
{
    usize::from(i) + 1 == usize::from(used)
}

// Whether more entries are used than an owner may have. With a name likewise: the edits over_*.
pub fn over(used: u8, most: usize) -> bool
    ensures answer { result ≡ ltb most used }
{
    usize::from(used) > most
}

impl Params {
    pub fn empty() -> Params
        ensures answer { result ≡ no_params }
    {
        Params {
            bytes: [0u8; 14],
            count: 0,
        }
    }

    // How many more bytes find a place.
    fn room(self) -> usize
        ensures { result ≡ 14 - self.count }
    {
        usize::from(MAX_PARAMS.saturating_sub(self.count))
    }

    // As many of the bytes as there are places free.
    #[tactic(auto, using(crate::proofs::Filling::filling))]
    pub fn append(mut self, bytes: &[u8]) -> Params
        ensures answer { result ≡ filled self bytes.now }
    {
        let fit = bytes.len().min(self.room());
        for byte in &bytes[..fit] {
            self.bytes[usize::from(self.count)] = *byte;
            self.count += 1;
        }
        self
    }

    // How many of n bytes find no place.
    pub fn excess(self, n: usize) -> u64
        ensures answer { result ≡ excess self n }
    {
        n.saturating_sub(self.room()) as u64
    }

    // Not `!=`: the bytes behind the count say nothing.
    #[tactic(auto, using(crate::proofs::Alike::differing))]
    pub fn differs(self, other: Params) -> bool
        ensures answer { result ≡ differ self other }
    {
        if self.count != other.count {
            return true;
        }
        let n = usize::from(self.count).min(14);
        self.bytes[..n] != other.bytes[..n]
    }
}

// Whether a stored list is longer than 14.
pub fn stored_long(stored: [Stored; 12]) -> bool
    ensures answer { result ≡ some stored_long stored }
{
    stored
        .iter()
        .any(|entry| entry.present && entry.params.count > MAX_PARAMS)
}
