// The timing lint: what the firmware did too early. Warnings only, never enforced. Times are nanoseconds.
#![tactic(auto)]

ghost use Rattle.std.specs.Prelude.{◌≡◌, ◌≤◌, length, get_or};
ghost use Rattle.timing.specs.Lint.{soon_after, breaks1, breaks2, wrong_colmod, breaks3, breaks4, broken_by, only, rules_of, fresh_times, times_after};

use codes::Kind;
use formats::in_force::is_other;

const SLPOUT_SETTLE: u64 = 5_000_000;

const SLEEP_CYCLE: u64 = 120_000_000;

const SWRESET_SETTLE: u64 = 5_000_000;

// When the panel last left sleep, if it has, when it last entered it, and when it was last reset by a command, if it was.
#[derive(Clone, Copy, Debug, PartialEq, Eq)]
pub struct Times {
    pub slpout: Option<u64>,
    pub slpin: u64,
    pub swreset: Option<u64>,
}

// Which of the four rules a command breaks. Four flags, since a command was slower with a list in memory (docs/SPEED.md).
#[derive(Clone, Copy, Debug, PartialEq, Eq)]
pub struct Broken {
    pub rule1: bool,
    pub rule2: bool,
    pub rule3: bool,
    pub rule4: bool,
}

// Less than `limit` after a moment. Nothing has passed where the clock went back.
fn soon_after(since: Option<u64>, t: u64, limit: u64) -> bool
    ensures { result ≡ soon_after since t limit }
{
    since.is_some_and(|at| t.saturating_sub(at) < limit)
}

// A command less than 5 ms after SLPOUT.
fn command_after_slpout(times: Times, kind: Kind, t: u64) -> bool
    ensures { result ≡ breaks1 times kind t }
{
    !matches!(kind, Kind::Slpout) && soon_after(times.slpout, t, SLPOUT_SETTLE)
}

// SLPIN and SLPOUT less than 120 ms apart.
fn sleep_cycle_too_fast(times: Times, kind: Kind, t: u64) -> bool
    ensures { result ≡ breaks2 times kind t }
{
    match kind {
        Kind::Slpin => soon_after(times.slpout, t, SLEEP_CYCLE),
        Kind::Slpout => soon_after(Some(times.slpin), t, SLEEP_CYCLE),
        _ => false,
    }
}

// Whether COLMOD is one that pixel data is not to be sent under: with the formats read, one that names none; else any but 16 bits.
fn wrong_colmod(formats: bool, colmod: u8) -> bool
    ensures { result ≡ wrong_colmod formats colmod }
{
    if formats {
        is_other(colmod)
    } else {
        colmod != 0x55
    }
}

// RAMWR or RAMWRC under a wrong COLMOD.
fn ramwr_wrong_colmod(formats: bool, colmod: u8, kind: Kind) -> bool
    ensures { result ≡ breaks3 formats colmod kind }
{
    kind.starts_run() && wrong_colmod(formats, colmod)
}

// A command less than 5 ms after SWRESET, under the strict profile.
fn command_after_swreset(strict: bool, times: Times, t: u64) -> bool
    ensures { result ≡ breaks4 strict times t }
{
    strict && soon_after(times.swreset, t, SWRESET_SETTLE)
}

// What a command of this kind breaks at time t, under the strict profile or the plain one, with the formats read or not.
// Six parameters: those of `broken_by`; a struct of them would be made for one call.
#[tactic(auto, unfolding(crate::specs::Lint::broken_by))]
pub fn lint(strict: bool, formats: bool, times: Times, colmod: u8, kind: Kind, t: u64) -> Broken
    ensures answer { result ≡ broken_by strict formats times colmod kind t }
{
    Broken {
        rule1: command_after_slpout(times, kind, t),
        rule2: sleep_cycle_too_fast(times, kind, t),
        rule3: ramwr_wrong_colmod(formats, colmod, kind),
        rule4: command_after_swreset(strict, times, t),
    }
}

// A flag as a number. With a name: the edits count_rule2_missed and others name it.
fn one(broken: bool) -> usize
    ensures value { result ≡ length (only broken 0) }
    ensures upper_bound { result ≤ 1 }
{
    usize::from(broken)
}

impl Broken {
    // How many rules are broken.
    pub fn count(self) -> usize
        ensures answer { result ≡ length (rules_of self) }
    {
        one(self.rule1) + one(self.rule2) + one(self.rule3) + one(self.rule4)
    }

    // The number of the broken rule that stands at k in their order, 0 past the last, as `answer` says, so no Option.
    pub fn rule(self, k: usize) -> u8
        ensures answer { result ≡ get_or (rules_of self) k 0 }
    {
        let two = one(self.rule1);
        let three = two + one(self.rule2);
        let four = three + one(self.rule3);
        let end = four + one(self.rule4);
        if k < two {
            return 1;
        }
        if k < three {
            return 2;
        }
        if k < four {
            return 3;
        }
        if k < end {
            return 4;
        }
        0
    }
}

// The same moment, made anew. A copy takes its padding along, which the next one waits for: a NOP in a long segment took 1.3 ns, not 1.0.
fn anew(moment: Option<u64>) -> Option<u64>
    ensures { result ≡ moment }
{
    match moment {
        None => None,
        Some(at) => Some(at),
    }
}

impl Times {
    pub fn fresh() -> Times
        ensures answer { result ≡ fresh_times }
    {
        Times {
            slpout: None,
            slpin: 0,
            swreset: None,
        }
    }

    // The same times, made anew.
    pub fn anew(self) -> Times
        ensures answer { result ≡ self }
    {
        Times {
            slpout: anew(self.slpout),
            slpin: self.slpin,
            swreset: anew(self.swreset),
        }
    }

    // The times after a command of this kind at time t.
    #[tactic(auto, unfolding(crate::specs::Lint::times_after))]
    pub fn after(self, kind: Kind, t: u64) -> Times
        ensures answer { result ≡ times_after self kind t }
    {
        let times = self.anew();
        match kind {
            Kind::Slpout => Times {
                slpout: Some(t),
                ..times
            },
            Kind::Slpin => Times { slpin: t, ..times },
            Kind::Swreset => Times {
                slpin: t,
                swreset: Some(t),
                ..times
            },
            _ => times,
        }
    }
}
