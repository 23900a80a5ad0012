// The boot comparison: a trace against the 23 commands of the boot sequence.
#![tactic(auto)]

ghost use Rattle.std.specs.Prelude.{◌≡◌, [], ◌∷◌, ◌-◌, take, drop};
ghost use Rattle.sequence.specs.Sequence.{boot_sequence};
ghost use Rattle.lists.specs.Entries.{empty_record};
ghost use Rattle.boot.specs.Boot.{fits, answered, compared_from, compared, judged, step_of};

use lists::{PLACES, Params, TraceRecord};
use sequence::BootStep;

// A match, or the number of the first step that differs or is missing: `judge` takes any of these, and a type with fewer values would ask
// more of its callers.
#[derive(Clone, Copy, Debug, PartialEq, Eq)]
pub enum BootCheck {
    Match,
    Differs(u8),
    Missing(u8),
}

// The answer, and the record that differs, or an empty one where none was found: `judge` takes any two, so the record is not part of the
// answer.
#[derive(Clone, Copy)]
pub struct Compared {
    pub check: BootCheck,
    pub found: TraceRecord,
}

// An answer with no record found.
fn alone(check: BootCheck) -> Compared
    ensures { result ≡ answered check empty_record }
{
    let found = TraceRecord {
        at: 0,
        pixel_bytes: 0,
        params: Params::empty(),
        cmd: 0,
    };
    Compared { check, found }
}

#[tactic(auto, unfolding(crate::specs::Boot::fits))]
fn step_fits(step: BootStep, r: TraceRecord) -> bool
    ensures { result ≡ fits step r }
{
    step.cmd == r.cmd && !step.params.differs(r.params)
}

impl BootCheck {
    // Document 01's number of the answer: steps count from 1.
    pub fn number(self) -> u8
        ensures answer { result ≡ step_of self }
    {
        match self {
            BootCheck::Match => 0,
            BootCheck::Differs(k) | BootCheck::Missing(k) => k.max(1),
        }
    }
}

// A record where step k is the first missing one.
#[tactic(auto, using(crate::proofs::Judging::steps))]
fn judge_step(k: u8, r: TraceRecord) -> Compared
    ensures { result ≡ compared_from k (drop (k - 1) boot_sequence) (r ∷ []) }
{
    if 23 < k {
        return alone(BootCheck::Match);
    }
    let step = BootStep::at(usize::from(k.saturating_sub(1)));
    if !step_fits(step, r) {
        return Compared {
            check: BootCheck::Differs(k),
            found: r,
        };
    }
    if k < 23 {
        let next = k + 1;
        return alone(BootCheck::Missing(next));
    }
    alone(BootCheck::Match)
}

// The comparison with one record more.
pub fn judge(c: Compared, r: TraceRecord) -> Compared
    ensures answer { result ≡ judged c r }
{
    match c.check {
        BootCheck::Match | BootCheck::Differs(_) => c,
        BootCheck::Missing(k) => judge_step(k, r),
    }
}

// Records past the 23rd are not looked at.
#[tactic(auto, using(crate::proofs::Judging::records, crate::proofs::Fronts::looked), unfolding(crate::specs::Boot::compared_from))]
pub fn boot_mismatch(records: &[TraceRecord]) -> Compared
    ensures answer { result ≡ compared records.now }
{
    let mut c = alone(BootCheck::Missing(1));
    let n = records.len().min(23);
    for r in &records[..n] {
        c = judge(c, *r);
    }
    c
}

// The same of a trace by value, of which the first `used` records are used: at most all 128. The count stands beside the array as in the
// panel's state: `answer` promises of any.
#[tactic(auto, using(crate::proofs::Fronts::used_front))]
pub fn trace_mismatch(records: [TraceRecord; PLACES], used: u8) -> Compared
    ensures answer { result ≡ compared (take used records) }
{
    boot_mismatch(&records[..lists::free(used, PLACES)])
}
