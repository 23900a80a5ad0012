// The ST7789P3 panel: a small controller, and the lists flat beside it. Panel memory is lent.
#![tactic(auto)]

use board::{PanelConfig, Power};
use chip::Chip;
use lists::{PLACES, Stored, TraceRecord, Warning};
use marks::Marks;
use pixels::Totals;
use status::Status;

mod command;
mod current;
mod data;
mod fresh;
mod refusals;
mod switches;
mod table;
mod transfer;

// What was counted since the panel was fresh; the last two are pixels that vanished, in an inverted window and where no cell was.
#[derive(Clone, Copy, Debug, Default, PartialEq, Eq)]
pub struct Counts {
    pub commands: u64,
    pub ramwr_count: u64,
    pub pixels_written: u64,
    pub dropped_params: u64,
    pub inverted: u64,
    pub unmapped: u64,
}

// How many trace records and warnings are used, and which record is current.
#[derive(Clone, Copy, Debug, Default, PartialEq, Eq)]
pub struct Logs {
    pub traced: u8,
    pub warned: u8,
    pub current: Option<u8>,
}

// Everything but the lists. No PartialEq, here and of what holds it: parameters in force have none (`lists::Params`).
#[derive(Clone, Copy)]
pub struct Controller {
    pub cfg: PanelConfig,
    pub power: Power,
    pub chip: Chip,
    pub counts: Counts,
    pub marks: Marks,
    pub logs: Logs,
}

// The lists lie flat, so that a store changes them in place.
#[derive(Clone, Copy)]
pub struct St7789p3 {
    pub controller: Controller,
    pub stored: [Stored; 12],
    pub records: [TraceRecord; PLACES],
    pub warnings: [Warning; PLACES],
}

// Whether a transfer comes with panel memory. It stands beside what is lent, and not as an Option of it: without panel memory `lent` still
// promises that the numbers stay.
#[derive(Clone, Copy, Debug, PartialEq, Eq)]
pub enum PanelMemory {
    Lent,
    Without,
}

// What a transfer answers: the panel, how many of its own pixels went which way, and whether it was refused. No Result: a refusal gives the
// panel back.
#[derive(Clone, Copy)]
pub struct Transferred {
    pub panel: St7789p3,
    pub totals: Totals,
    pub status: Status,
}

// What is answered where a panel is made or reset; likewise.
#[derive(Clone, Copy)]
pub struct Answer {
    pub panel: St7789p3,
    pub status: Status,
}

// The warnings that a panel hands over, the first `count` of them used (no heap, so no list of that length).
#[derive(Clone, Copy)]
pub struct HandedOver {
    pub panel: St7789p3,
    pub warnings: [Warning; PLACES],
    pub count: u8,
}
