// `set`, for states that no call reaches: each part of the panel takes the fields that are its own, and stays as it is for any other.
use crate::fields::Field;
use board::PanelConfig;
use chip::{Chip, Decoder, Registers};
use lists::PLACES;
use marks::Marks;
use pixels::Walk;
use st7789::{Controller, Counts, Logs, St7789p3};
use timing::Times;

fn registers(r: Registers, field: Field) -> Registers {
    match field {
        Field::Sleeping(sleeping) => Registers { sleeping, ..r },
        Field::On(display_on) => Registers { display_on, ..r },
        Field::Inverted(inverted) => Registers { inverted, ..r },
        Field::Madctl(madctl) => Registers { madctl, ..r },
        Field::Colmod(colmod) => Registers { colmod, ..r },
        Field::Ramctrl(ramctrl0, ramctrl1) => Registers {
            ramctrl0,
            ramctrl1,
            ..r
        },
        _ => r,
    }
}

fn walk(old: Walk, field: Field) -> Walk {
    match field {
        Field::Win(_, pointer) => Walk { pointer, ..old },
        Field::Carry(carry) => Walk { carry, ..old },
        _ => old,
    }
}

fn decoder(old: Decoder, field: Field) -> Decoder {
    match field {
        Field::Run(in_pixels) => Decoder { in_pixels, ..old },
        Field::Applied(applied) => Decoder { applied, ..old },
        Field::Cmd(cmd) => Decoder { cmd, ..old },
        Field::Params(params) => Decoder { params, ..old },
        _ => old,
    }
}

fn times(old: Times, field: Field) -> Times {
    match field {
        Field::Slpout(slpout) => Times { slpout, ..old },
        Field::Slpin(slpin) => Times { slpin, ..old },
        Field::Swreset(swreset) => Times { swreset, ..old },
        _ => old,
    }
}

fn chip(old: Chip, field: Field) -> Chip {
    let window = match field {
        Field::Win(window, _) => window,
        _ => old.window,
    };
    Chip {
        registers: registers(old.registers, field),
        window,
        walk: walk(old.walk, field),
        decoder: decoder(old.decoder, field),
        times: times(old.times, field),
    }
}

fn counts(old: Counts, field: Field) -> Counts {
    match field {
        Field::Commands(commands) => Counts { commands, ..old },
        Field::Ramwrs(ramwr_count) => Counts { ramwr_count, ..old },
        Field::Written(pixels_written) => Counts {
            pixels_written,
            ..old
        },
        Field::Dropped(dropped_params) => Counts {
            dropped_params,
            ..old
        },
        Field::LostInverted(inverted) => Counts { inverted, ..old },
        Field::LostUnmapped(unmapped) => Counts { unmapped, ..old },
        _ => old,
    }
}

fn marks(old: Marks, field: Field) -> Marks {
    match field {
        Field::Dirty(rows) => Marks::of_span(rows),
        _ => old,
    }
}

// The counts after an entry more, or after none is left.
fn logs(old: Logs, field: Field) -> Logs {
    match field {
        Field::Current(current) => Logs { current, ..old },
        Field::Trace(Some(_)) => Logs {
            traced: old.traced.saturating_add(1),
            ..old
        },
        Field::Trace(None) => Logs { traced: 0, ..old },
        Field::Warnings(Some(_)) => Logs {
            warned: old.warned.saturating_add(1),
            ..old
        },
        Field::Warnings(None) => Logs { warned: 0, ..old },
        _ => old,
    }
}

fn config(old: PanelConfig, field: Field) -> PanelConfig {
    match field {
        Field::Strict(strict) => old.with_strict(strict),
        Field::Formats(formats) => old.with_formats(formats),
        _ => old,
    }
}

fn controller(old: Controller, field: Field) -> Controller {
    Controller {
        cfg: config(old.cfg, field),
        chip: chip(old.chip, field),
        counts: counts(old.counts, field),
        marks: marks(old.marks, field),
        logs: logs(old.logs, field),
        ..old
    }
}

// An entry at a place of a list; nothing past its end.
fn put<T: Copy>(all: &mut [T], place: usize, entry: T) {
    if let Some(old) = all.get_mut(place) {
        *old = entry;
    }
}

// The counts of the logs may pass the lists; what fits is kept.
pub(crate) fn panel(mut panel: St7789p3, field: Field) -> St7789p3 {
    let logs = panel.controller.logs;
    panel.controller = controller(panel.controller, field);
    match field {
        Field::Stored(place, entry) => put(&mut panel.stored, place, entry),
        Field::Trace(Some(record)) => put(
            &mut panel.records,
            lists::free(logs.traced, PLACES),
            record,
        ),
        Field::Warnings(Some(warning)) => put(
            &mut panel.warnings,
            lists::free(logs.warned, PLACES),
            warning,
        ),
        _ => {}
    }
    panel
}
