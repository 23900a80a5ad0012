// For timing from outside: what a host calls, run many times over lent buffers. No rule of 01 stands here and no crate is above it.
// Functions have many parameters: C calls them, and hands each by itself.
#![tactic(auto)]

use board::{PanelConfig, Power};
use marks::Marks;
use st7789::{Controller, Counts, Logs, PanelMemory, St7789p3};
use status::Status;
use views::FrameView;

// One transfer of a table: when, the dc level, the CS release, and which part of the bytes.
#[derive(Clone, Copy, Default)]
struct Segment {
    t: u64,
    dc: bool,
    release: bool,
    start: usize,
    end: usize,
}

// Row n of a table of four numbers a row: time, flags (1 dc, 2 release), start, end. Past the table an empty row.
fn segment_at(table: &[u64], row: usize) -> Segment {
    let (rows, _) = table.as_chunks::<4>();
    match rows.get(row) {
        None => Segment::default(),
        Some(&[t, flags, start, end]) => Segment {
            t,
            dc: flags & 1 != 0,
            release: flags & 2 != 0,
            start: start as usize,
            end: end as usize,
        },
    }
}

// The row after this one; after the last one comes `first`.
fn next_row(row: usize, first: usize, rows: usize) -> usize {
    if row < rows && row + 1 < rows {
        row + 1
    } else {
        first
    }
}

// One more, where the call was refused.
fn counted(refused: u64, status: Status) -> u64 {
    refused.wrapping_add(u64::from(status.is_err()))
}

fn tell(refused: u64, counts: Counts, logs: Logs, out: &mut [u64; 8]) {
    out[..7].copy_from_slice(&[
        refused,
        counts.commands,
        counts.ramwr_count,
        counts.pixels_written,
        counts.dropped_params,
        u64::from(logs.traced),
        u64::from(logs.warned),
    ]);
}

// Transfers on a fresh panel, whose mode of formats is on or off: the table's rows in order, then from row `first` on again, until there
// were `turns`.
fn session(
    table: &[u64],
    bytes: &[u8],
    first: usize,
    turns: usize,
    formats: bool,
    memory: &mut [u16],
    out: &mut [u64; 8],
) {
    let rows = table.len() / 4;
    let mut panel = St7789p3::fresh(PanelConfig::new(true).with_formats(formats));
    let mut refused = 0;
    let mut row = 0;
    for _ in 0..turns {
        let s = segment_at(table, row);
        let part = bytes.get(s.start..s.end).unwrap_or(&[]);
        let a = panel.transfer(s.t, s.dc, part, s.release, PanelMemory::Lent, memory);
        refused = counted(refused, a.status);
        panel = a.panel;
        row = next_row(row, first, rows);
    }
    tell(refused, panel.controller.counts, panel.controller.logs, out);
}

// The same session again and again; what the last one left is told.
#[unsafe(no_mangle)]
pub extern "C" fn timed_transfers(
    table: &[u64],
    bytes: &[u8],
    first: usize,
    turns: usize,
    sessions: usize,
    formats: u8,
    memory: &mut [u16],
    out: &mut [u64; 8],
) {
    for _ in 0..sessions {
        session(table, bytes, first, turns, formats == 1, memory, out);
    }
}

// Publishing of the rows first to last, which are marked again before each turn. The answer counts refusals.
#[unsafe(no_mangle)]
pub extern "C" fn timed_publish(
    first: u16,
    last: u16,
    turns: usize,
    memory: &[u16],
    frame: &mut [u16],
) -> u64 {
    let mut panel = St7789p3::fresh(PanelConfig::new(true));
    let mut refused = 0;
    for _ in 0..turns {
        panel.controller.marks = Marks::of_span(Some((first, last)));
        let p = publishing::publish(panel, memory, frame);
        refused = counted(refused, p.status);
        panel = p.panel;
    }
    refused
}

// The C interface hands a view over as a number.
fn view_of(number: u8) -> FrameView {
    match number {
        0 => FrameView::Raw,
        1 => FrameView::Glass,
        _ => FrameView::Perceived,
    }
}

// A whole view of a lit panel, dimmed by level over scale. The answer counts refusals.
#[unsafe(no_mangle)]
pub extern "C" fn timed_view(
    number: u8,
    level: u32,
    scale: u32,
    inverted: u8,
    turns: usize,
    memory: &[u16],
    buffer: &mut [u16],
) -> u64 {
    let mut controller = Controller::fresh(PanelConfig::new(true));
    controller.power = Power::fresh()
        .set_powered(true)
        .set_brightness(level, scale, 0);
    controller.chip.registers.sleeping = false;
    controller.chip.registers.display_on = true;
    controller.chip.registers.inverted = inverted == 1;
    let mut refused = 0;
    for _ in 0..turns {
        let status = views::frame(controller, view_of(number), memory, buffer);
        refused = counted(refused, status);
    }
    refused
}

// A log from its bytes to the report, again and again. The answer is the report's length.
#[unsafe(no_mangle)]
pub extern "C" fn timed_replay(log: &[u8], turns: usize, out: &mut [u8]) -> usize {
    let mut length = 0;
    for _ in 0..turns {
        length = replay::print_log(log, out);
    }
    length
}
