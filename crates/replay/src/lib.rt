// A log of transfers replayed on a fresh panel without memory, and what the program prints of it.
#![tactic(auto)]

ghost use Rattle.std.specs.Prelude.{◌≡◌, [], ◌∷◌};
ghost use Rattle.lines.specs.Lines.{ascii, line};
ghost use Rattle.status.specs.Numbers.{number_of};
ghost use Rattle.text.specs.Text.{appended};
ghost use Rattle.logs.specs.Log.{log_refusal, bad_offset};
ghost use Rattle.logs.specs.Refused.{refusal_of, offset_of};
ghost use Rattle.st7789.specs.Entries.{fresh_panel};
ghost use Rattle.replay.specs.Replay.{logged, replayed, replayed_if_good, printed};

use board::PanelConfig;
use logs::Refused;
use pixels::Totals;
use st7789::{PanelMemory, St7789p3, Transferred};

// A fresh panel, the switch as in a log.
fn fresh() -> St7789p3
    ensures { result ≡ fresh_panel logged }
{
    St7789p3::fresh(PanelConfig::new(true))
}

// Each record of the log as a transfer.
#[tactic(auto, using(crate::proofs::Running::running))]
fn run(log: &[u8]) -> St7789p3
    ensures { result ≡ replayed log.now }
{
    // The whole answer is kept from turn to turn: its panel in a place of its own would be copied once more at each record.
    let mut a = Transferred {
        panel: fresh(),
        totals: Totals::none(),
        status: Ok(()),
    };
    let mut at = 0;
    // No `for`: a record says itself where it ends.
    while at < log.len() {
        let h = logs::head_at(log, at);
        a = a.panel.transfer(
            h.t,
            h.dc,
            &log[h.start..h.end],
            h.release,
            PanelMemory::Without,
            &mut [],
        );
        at = h.end;
    }
    a.panel
}

// The panel after the log, or a fresh one where the log is refused, and then why and where.
#[derive(Clone, Copy)]
pub struct Replayed {
    pub panel: St7789p3,
    pub checked: Result<(), Refused>,
}

// The log is checked whole before any record runs.
pub fn replay(log: &[u8]) -> Replayed
    ensures refusal { refusal_of result.checked ≡ log_refusal log.now }
    ensures offset { offset_of result.checked ≡ bad_offset log.now }
    ensures answer { result.panel ≡ replayed_if_good log.now }
{
    let checked = logs::check(log);
    let panel = if checked.is_ok() { run(log) } else { fresh() };
    Replayed { panel, checked }
}

// The line of a refusal.
fn put_refusal(out: &mut [u8], refused: Refused) -> usize
    ensures value { result ≡ (appended out.old 0 (line (ascii "refused") (number_of refused.refusal ∷ refused.offset ∷ []))).count }
    ensures out_after { out.new ≡ (appended out.old 0 (line (ascii "refused") (number_of refused.refusal ∷ refused.offset ∷ []))).places }
{
    let ns = [status::number(Err(refused.refusal)), refused.offset as u64];
    lines::put_line(out, 0, b"refused", &ns)
}

// What the program prints of a log: the panel's report, or the refusal. The answer is how much of the buffer it takes.
#[tactic(auto, using(crate::proofs::Printing::printing))]
pub fn print_log(log: &[u8], out: &mut [u8]) -> usize
    ensures answer { result ≡ (appended out.old 0 (printed log.now)).count }
    ensures lent { out.new ≡ (appended out.old 0 (printed log.now)).places }
{
    let answer = replay(log);
    match answer.checked {
        Ok(()) => report::write_report(answer.panel, out),
        Err(refused) => put_refusal(out, refused),
    }
}
