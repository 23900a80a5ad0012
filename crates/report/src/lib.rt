// What the program prints of a panel, as text in a lent buffer. What does not fit is left out.
#![tactic(auto)]

ghost use Rattle.std.specs.Prelude.{◌≡◌};
ghost use Rattle.text.specs.Text.{appended, Put};
ghost use Rattle.report.specs.Report.{regs_line, win_line, cnt_line, dirty_line, boot_line, state_lines, report};

use chip::Registers;
use geometry::{Pointer, Window};
pub use listing::{put_params, put_record, put_warnings};
use st7789::{Controller, Counts, St7789p3};

#[tactic(auto, using(text::proofs::Text::joined), unfolding(crate::specs::Report::regs_line))]
fn put_regs(out: &mut [u8], at: usize, r: Registers) -> usize
    ensures { Put out.old at (regs_line r) result out.new }
{
    let flags = [
        u64::from(r.sleeping),
        u64::from(r.display_on),
        u64::from(r.inverted),
    ];
    let codes = [r.madctl, r.colmod, r.ramctrl0, r.ramctrl1];
    let named = text::put_bytes(out, at, b"regs");
    let flagged = lines::put_numbers(out, named, &flags);
    let coded = lines::put_hex_bytes(out, flagged, &codes);
    text::put_byte(out, coded, b'\n')
}

#[tactic(auto, using(text::proofs::Text::joined), unfolding(crate::specs::Report::win_line))]
fn put_win(out: &mut [u8], at: usize, w: Window, p: Pointer) -> usize
    ensures { Put out.old at (win_line w p) result out.new }
{
    let ns = [w.xs, w.xe, w.ys, w.ye, p.x, p.y].map(u64::from);
    lines::put_line(out, at, b"win", &ns)
}

#[tactic(auto, using(text::proofs::Text::joined), unfolding(crate::specs::Report::cnt_line))]
fn put_cnt(out: &mut [u8], at: usize, n: Counts, warned: u8) -> usize
    ensures { Put out.old at (cnt_line n warned) result out.new }
{
    let ns = [
        n.commands,
        n.ramwr_count,
        n.pixels_written,
        n.dropped_params,
        u64::from(warned),
    ];
    lines::put_line(out, at, b"cnt", &ns)
}

#[tactic(auto, using(text::proofs::Text::joined), unfolding(crate::specs::Report::dirty_line))]
fn put_dirty(out: &mut [u8], at: usize, dirty: Option<(u16, u16)>) -> usize
    ensures { Put out.old at (dirty_line dirty) result out.new }
{
    match dirty {
        None => lines::put_line(out, at, b"dirty none", &[]),
        Some((first, last)) => {
            let ns = [first, last].map(u64::from);
            lines::put_line(out, at, b"dirty", &ns)
        }
    }
}

// The boot line. `step` is 01's number of the answer, 0 for a match, as `boot_line` takes it, so no Option.
#[tactic(auto, using(text::proofs::Text::joined), unfolding(crate::specs::Report::boot_line))]
fn put_boot(out: &mut [u8], at: usize, step: u8) -> usize
    ensures { Put out.old at (boot_line step) result out.new }
{
    if step == 0 {
        return lines::put_line(out, at, b"boot ok", &[]);
    }
    lines::put_line(out, at, b"boot", &[u64::from(step)])
}

// The lines of which there is one each.
#[tactic(auto, using(text::proofs::Text::joined), unfolding(crate::specs::Report::state_lines))]
fn put_state(out: &mut [u8], controller: Controller, step: u8) -> usize
    ensures { Put out.old 0 (state_lines controller step) result out.new }
{
    let chip = controller.chip;
    let told = put_regs(out, 0, chip.registers);
    let placed = put_win(out, told, chip.window, chip.walk.pointer);
    let counted = put_cnt(out, placed, controller.counts, controller.logs.warned);
    let marked = put_dirty(out, counted, controller.marks.span());
    put_boot(out, marked, step)
}

// What 01's program prints of a panel, from the buffer's start on; the answer is how much of the buffer it takes.
#[tactic(auto, using(text::proofs::Text::joined), unfolding(crate::specs::Report::report))]
pub fn write_report(panel: St7789p3, out: &mut [u8]) -> usize
    ensures answer { result ≡ (appended out.old 0 (report panel)).count }
    ensures lent { out.new ≡ (appended out.old 0 (report panel)).places }
{
    let logs = panel.controller.logs;
    let step = boot::trace_mismatch(panel.records, logs.traced)
        .check
        .number();
    let told = put_state(out, panel.controller, step);
    let listed = listing::put_warnings(out, told, panel.warnings, logs.warned);
    listing::put_trace(out, listed, panel.records, logs.traced)
}
