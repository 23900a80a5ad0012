// The panel at the end: the report, what is in force, the stored lists, and digests of every number.
use crate::bench::Bench;
use crate::print;
use board::{PanelConfig, Power};
use chip::{Chip, Decoder};
use formats::Carry;
use lists::Stored;
use st7789::{Counts, St7789p3};
use status::PANEL_PIXELS;
use std::io;
use std::io::{Print, Stdout};
use views::FrameView;

fn print_digest(stdout: Stdout, name: &str, numbers: &[u16]) -> io::Result<()> {
    print!(stdout; "digest {name}")?;
    print::digest(stdout, numbers)
}

fn print_report(stdout: Stdout, panel: St7789p3) -> io::Result<()> {
    let mut out = [0u8; 18000];
    let used = report::write_report(panel, &mut out);
    print::show(stdout, &out, used)
}

fn print_ctl(stdout: Stdout, power: Power, cfg: PanelConfig) -> io::Result<()> {
    let powered = u8::from(power.powered);
    let shows_ram = u8::from(cfg.invon_shows_ram);
    print!(stdout;
        "ctl {powered} {shows_ram} {} {} {}",
        power.level, power.scale, power.duty
    )?;
    println!(stdout; " {} {}", u8::from(cfg.strict), u8::from(cfg.formats))
}

fn print_in_force(stdout: Stdout, cmd: Option<u8>) -> io::Result<()> {
    match cmd {
        None => print!(stdout; "ctx none"),
        Some(c) => print!(stdout; "ctx {c:02x}"),
    }
}

fn print_carry(stdout: Stdout, carry: Carry) -> io::Result<()> {
    match carry {
        Carry::Empty => print!(stdout; " none"),
        Carry::One(a) => print!(stdout; " {a:02x}"),
        Carry::Two(a, b) => print!(stdout; " {a:02x}{b:02x}"),
    }
}

fn print_ctx(stdout: Stdout, decoder: Decoder, carry: Carry) -> io::Result<()> {
    print_in_force(stdout, decoder.cmd)?;
    print!(stdout;
        " {} {}",
        u8::from(decoder.in_pixels),
        u8::from(decoder.applied)
    )?;
    print_carry(stdout, carry)?;
    print::params(stdout, decoder.params)
}

fn print_or_none(stdout: Stdout, n: Option<u64>) -> io::Result<()> {
    match n {
        None => print!(stdout; " none"),
        Some(n) => print!(stdout; " {n}"),
    }
}

fn print_lost(stdout: Stdout, counts: Counts) -> io::Result<()> {
    println!(stdout; "lost {} {}", counts.inverted, counts.unmapped)
}

// The rest of the chip and the current record, after the report.
fn print_rest(stdout: Stdout, chip: Chip, current: Option<u8>) -> io::Result<()> {
    let times = chip.times;
    print_ctx(stdout, chip.decoder, chip.walk.carry)?;
    print!(stdout; "at")?;
    print_or_none(stdout, times.slpout)?;
    print!(stdout; " {}", times.slpin)?;
    print_or_none(stdout, times.swreset)?;
    print_or_none(stdout, current.map(u64::from))?;
    println!(stdout; "")
}

fn print_stored(stdout: Stdout, code: u8, entry: Stored) -> io::Result<()> {
    if entry.present {
        print!(stdout; "s {code:02x}")?;
        print::params(stdout, entry.params)?;
    }
    Ok(())
}

// Each byte that has a place, in the order of the bytes.
fn print_all_stored(stdout: Stdout, stored: [Stored; 12]) -> io::Result<()> {
    let codes = codes::table();
    for c in 0..=255u8 {
        let place = codes::decode(&codes, c).place();
        if place < 12 {
            print_stored(stdout, c, stored[place])?;
        }
    }
    Ok(())
}

impl Bench {
    fn print_view(&mut self, name: &str, view: FrameView) -> io::Result<()> {
        let stdout = self.out;
        let controller = self.panel.controller;
        // The lesser, as over the constant alone antt runs out of steps.
        let n = PANEL_PIXELS.min(self.view.numbers.len());
        let buffer = &mut self.view.numbers[..];
        let seen = &mut buffer[..n];
        let _ = views::frame(controller, view, self.memory.whole(), seen);
        print_digest(stdout, name, seen)
    }

    fn print_digests(&mut self) -> io::Result<()> {
        print_digest(self.out, "memory", self.memory.whole())?;
        print_digest(self.out, "frame", self.frame.whole())?;
        self.print_view("raw", FrameView::Raw)?;
        self.print_view("glass", FrameView::Glass)?;
        self.print_view("perceived", FrameView::Perceived)
    }

    // Whatever is lent, the digests are over all numbers of a panel.
    pub(crate) fn dump(&mut self) -> io::Result<()> {
        let panel = self.panel;
        let c = panel.controller;
        print_report(self.out, panel)?;
        print_ctl(self.out, c.power, c.cfg)?;
        print_rest(self.out, c.chip, c.logs.current)?;
        print_lost(self.out, c.counts)?;
        print_all_stored(self.out, panel.stored)?;
        self.print_digests()
    }
}
