// 01's table of refusals: names, and the tests that look at numbers alone.
#![tactic(auto)]

ghost use Rattle.std.specs.Prelude.{◌≡◌, eqb};
ghost use Rattle.lists.specs.Entries.{some};
ghost use Rattle.status.specs.Numbers.{number};
ghost use Rattle.status.specs.Tests.{first, high, memory_refusal, view_row, transfer_row};

pub const PANEL_PIXELS: usize = 76800;

const HIGH: u64 = 0x8000_0000_0000_0000;

// Why an operation refuses its arguments.
#[derive(Clone, Copy, Debug, PartialEq, Eq)]
pub enum Refusal {
    BadState,
    BadMemory,
    BadFrame,
    TooLong,
    CountHigh,
    LogLong,
    BadLog,
}

// What an operation says of its arguments: that it accepts them, or why it refuses.
pub type Status = Result<(), Refusal>;

// 01's number of a status.
pub fn number(status: Status) -> u64
    ensures answer { result ≡ number status }
{
    match status {
        Ok(()) => 0,
        Err(Refusal::BadState) => 1,
        Err(Refusal::BadMemory) => 2,
        Err(Refusal::BadFrame) => 3,
        Err(Refusal::TooLong) => 4,
        Err(Refusal::CountHigh) => 5,
        Err(Refusal::LogLong) => 6,
        Err(Refusal::BadLog) => 7,
    }
}

// `is_ok` under a name: it is public, and the edits accepted_* name it.
pub fn accepted(status: Status) -> bool
    ensures answer { result ≡ eqb (number status) 0 }
{
    status.is_ok()
}

// Whether one of the counts is above 2^63.
pub fn some_high(counts: &[u64]) -> bool
    ensures answer { result ≡ some high counts.now }
{
    counts.iter().any(|count| *count > HIGH)
}

// BAD_MEMORY alone.
pub fn memory_status(cells: usize) -> Status
    ensures answer { number result ≡ memory_refusal cells }
{
    if cells == PANEL_PIXELS {
        return Ok(());
    }
    Err(Refusal::BadMemory)
}

// BAD_MEMORY, then BAD_FRAME: the two lengths that a whole view and a publish ask for.
pub fn view_status(cells: usize, room: usize) -> Status
    ensures answer { number result ≡ first (view_row cells room) }
{
    memory_status(cells)?;
    if room != PANEL_PIXELS {
        return Err(Refusal::BadFrame);
    }
    Ok(())
}

// The tests of a transfer: BAD_STATE, BAD_MEMORY, TOO_LONG, COUNT_HIGH, the first and the last told by what looked at the state.
pub fn transfer_status(bad: bool, cells: usize, bytes: usize, counts: &[u64]) -> Status
    ensures answer { number result ≡ first (transfer_row bad cells bytes counts.now) }
{
    if bad {
        return Err(Refusal::BadState);
    }
    memory_status(cells)?;
    if bytes > 65536 {
        return Err(Refusal::TooLong);
    }
    if some_high(counts) {
        return Err(Refusal::CountHigh);
    }
    Ok(())
}
