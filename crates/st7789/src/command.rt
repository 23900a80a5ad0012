// Beginning a command, and the CS release: what becomes of the controller, and the record that the trace keeps.
ghost use Rattle.std.specs.Prelude.{◌≡◌, false, cond, ◌+◌, ◌^◌, ◌≤◌, ◌<◌, length};
ghost use Rattle.st7789.specs.Command.{broken_with, counts_begun, logs_begun, begun_record, controller_begun, logs_released, controller_released};
ghost use Rattle.st7789.specs.Places.{any_free, alone, Passing, controller_begun_all};

use crate::table::Codes;
use crate::{Controller, Counts, Logs};
use codes::Kind;
use formats::Carry;
use lists::{PLACES, Params, TraceRecord};
use timing::Broken;

impl Counts {
    // A command more. Not `Countable`: a loop over commands keeps these two bounds alone (`Turn`).
    fn begin(mut self, kind: Kind) -> Counts
        requires { (self.commands + 1 < 2 ^ 64) × (self.ramwr_count + 1 < 2 ^ 64) }
        ensures { result ≡ counts_begun kind self }
    {
        self.commands += 1;
        if kind.is(Kind::Ramwr) {
            self.ramwr_count += 1;
        }
        self
    }
}

impl Logs {
    // Whether a command may leave a record or a warning: a place is free for one of them.
    fn any_free(self) -> bool
        ensures { result ≡ any_free self }
    {
        let record = lists::free(self.traced, PLACES);
        let warning = lists::free(self.warned, PLACES);
        record < PLACES || warning < PLACES
    }

    // A record more, which is current, or none where no place is free.
    fn begin(self) -> Logs
        ensures { result ≡ logs_begun self }
    {
        let last = self.traced;
        if lists::free(last, PLACES) < PLACES {
            return Logs {
                traced: last + 1,
                current: Some(last),
                ..self
            };
        }
        Logs {
            current: None,
            ..self
        }
    }

    // No record is current any more.
    fn release(self) -> Logs
        ensures { result ≡ logs_released self }
    {
        Logs {
            current: None,
            ..self
        }
    }
}

// The record of a begun command.
pub(crate) fn begun_record(c: u8, t: u64) -> TraceRecord
    ensures { result ≡ begun_record c t }
{
    TraceRecord {
        at: t,
        pixel_bytes: 0,
        params: Params::empty(),
        cmd: c,
    }
}

// Of the commands from i on, the first of which something stays when the next one begins; the last one where there is none.
fn next_busy(codes: &Codes, bytes: &[u8], i: usize) -> usize
    requires { i < length bytes.now }
    ensures lower_bound { (i ≤ result) × (result < length bytes.now) }
    ensures passing { Passing bytes.now i result }
{
    let last = bytes.len() - 1;
    for at in i..last {
        let kind = codes.decode(bytes[at]).kind;
        // `|`: one branch for both.
        if kind.has_effect() | kind.is(Kind::Ramwr) {
            return at;
        }
    }
    last
}

impl Controller {
    // The rules that command c breaks at time t.
    pub(crate) fn lint(self, codes: &Codes, c: u8, t: u64) -> Broken
        ensures { result ≡ broken_with c t self }
    {
        timing::lint(
            self.cfg.strict,
            self.cfg.formats,
            self.chip.times,
            self.chip.registers.colmod,
            codes.decode(c).kind,
            t,
        )
    }

    // Command c begins at time t, after the lint.
    #[tactic(auto, unfolding(chip::specs::Begin::chip_begun))]
    pub(crate) fn begin(mut self, codes: &Codes, c: u8, t: u64) -> Controller
        requires { (self.counts.commands + 1 < 2 ^ 64) × (self.counts.ramwr_count + 1 < 2 ^ 64) }
        ensures { result ≡ controller_begun c t self }
    {
        let command = codes.decode(c);
        self.chip = self.chip.begin(command, t);
        self.counts = self.counts.begin(command.kind);
        self.logs = self.logs.begin();
        self
    }

    // How far the commands from i on go together: one by itself, or all that are left where none can leave anything in a list and no byte
    // waits for its pixel.
    pub(crate) fn reach(self, i: usize, end: usize) -> usize
        requires { i < end }
        ensures value { result ≡ cond (alone self) (i + 1) end }
        ensures lower_bound { (i < result) × (result ≤ end) }
    {
        if self.logs.any_free() {
            return i + 1;
        }
        match self.chip.walk.carry {
            Carry::Empty => end,
            Carry::One(_) | Carry::Two(_, _) => i + 1,
        }
    }

    // Each byte begins a command: what becomes of the controller. Commands that go together are only counted where nothing else stays of
    // them.
    pub(crate) fn begin_all(self, codes: &Codes, t: u64, bytes: &[u8]) -> Controller
        requires room { (self.counts.commands + length bytes.now < 2 ^ 64) × (self.counts.ramwr_count + length bytes.now < 2 ^ 64) }
        requires together { 1 < length bytes.now → alone self ≡ false }
        ensures { result ≡ controller_begun_all t bytes.now self }
    {
        let mut controller = self;
        let mut i = 0;
        // No `for`: how many are passed over is known in each turn.
        while i < bytes.len() {
            let next = next_busy(codes, bytes, i);
            controller.counts.commands += (next - i) as u64;
            controller = controller.begin(codes, bytes[next], t);
            i = next + 1;
        }
        controller
    }

    // CS goes high, if asked: nothing is in force, no record is current, and the pointer stays.
    #[tactic(auto, unfolding(crate::specs::Command::controller_released))]
    pub(crate) fn release(mut self, cs_release: bool) -> Controller
        ensures { result ≡ cond cs_release (controller_released self) self }
    {
        if cs_release {
            self.chip = self.chip.release();
            self.logs = self.logs.release();
        }
        self
    }
}
