// The calls, one after the other: those that change the panel here, those that show something in looks.rt.
use crate::bench::Bench;
use crate::fields::Field;
use crate::forms::{Call, Sent};
use crate::{looks, picture, print, sets};
use lists::{PLACES, Warning};
use pixels::Totals;
use st7789::{Answer, PanelMemory, St7789p3};
use status::Refusal;
use std::io;
use std::io::Stdout;

fn print_taken(stdout: Stdout, warnings: [Warning; PLACES], count: u8) -> io::Result<()> {
    let mut out = [0u8; 5000];
    let used = report::put_warnings(&mut out, 0, warnings, count);
    println!(stdout; "taken {count}")?;
    print::show(stdout, &out, used)
}

impl Bench {
    // The panel of an answer, its refusal printed.
    fn answered(&mut self, answer: Answer) -> io::Result<()> {
        self.panel = answer.panel;
        print::refusal(self.out, answer.status)
    }

    // What a transfer stores and loses, or why it is refused.
    fn send(&mut self, sent: Sent, memory: PanelMemory, bytes: &[u8]) -> Result<Totals, Refusal> {
        let part = &bytes[..sent.count.min(bytes.len())];
        let lent = self.memory.lent_mut();
        let answer = self
            .panel
            .transfer(sent.at, sent.data, part, sent.release, memory, lent);
        self.panel = answer.panel;
        answer.status?;
        Ok(answer.totals)
    }

    fn transfer(&mut self, sent: Sent, memory: PanelMemory, bytes: &[u8]) -> io::Result<()> {
        match self.send(sent, memory, bytes) {
            Err(refusal) => print::refusal(self.out, Err(refusal)),
            Ok(_) => Ok(()),
        }
    }

    fn totals(&mut self, sent: Sent, bytes: &[u8]) -> io::Result<()> {
        let stdout = self.out;
        match self.send(sent, PanelMemory::Lent, bytes) {
            Err(refusal) => print::refusal(stdout, Err(refusal)),
            Ok(n) => println!(stdout; "totals {} {} {}", n.stored, n.inverted, n.unmapped),
        }
    }

    fn publish(&mut self) -> io::Result<()> {
        let answer = publishing::publish(self.panel, self.memory.lent(), self.frame.lent_mut());
        self.panel = answer.panel;
        looks::print_published(self.out, answer.status, answer.span, answer.flags)
    }

    fn take_warnings(&mut self) -> io::Result<()> {
        let taken = self.panel.take_warnings();
        self.panel = taken.panel;
        print_taken(self.out, taken.warnings, taken.count)
    }

    fn set(&mut self, field: Field) {
        match field {
            Field::Memory(value) => self.memory.numbers.fill(value),
            Field::Frame(value) => self.frame.numbers.fill(value),
            _ => self.panel = sets::panel(self.panel, field),
        }
    }

    // Those that print nothing.
    fn change(&mut self, call: Call) {
        let c = self.panel.controller;
        match call {
            Call::Power(on) => self.panel.controller = c.set_powered(on),
            Call::Switch(shows_ram) => self.panel.controller = c.set_invon_shows_ram(shows_ram),
            Call::Brightness(level, scale, duty) => {
                self.panel.controller = c.set_brightness(level, scale, duty)
            }
            Call::MarkAll => self.panel.controller = c.mark_all_dirty(),
            Call::Lend(loan, length) => self.lend(loan, length),
            Call::Set(field) => self.set(field),
            _ => {}
        }
    }

    // Runs a call; `line` names what is shown, and `bytes` holds the list of bytes.
    pub(crate) fn run(&mut self, call: Call, line: &[u8], bytes: &[u8]) -> io::Result<()> {
        let panel = self.panel;
        match call {
            Call::Transfer(sent) => self.transfer(sent, PanelMemory::Lent, bytes),
            Call::Bare(sent) => self.transfer(sent, PanelMemory::Without, bytes),
            Call::Totals(sent) => self.totals(sent, bytes),
            Call::Reset(domain) => {
                let answer = panel.reset(domain, self.memory.lent_mut());
                self.answered(answer)
            }
            Call::Fresh(config) => {
                let answer = St7789p3::new(config, self.memory.lent_mut());
                self.answered(answer)
            }
            Call::Publish => self.publish(),
            Call::TakeWarnings => self.take_warnings(),
            Call::View(view) => self.show_view(view, line, print::digest),
            Call::Pixels(view) => self.show_view(view, line, picture::print),
            Call::Pixel(view, x, y) => self.show_pixel(view, x, y, line),
            Call::Row(memory, row) => self.show_row(memory, row, line),
            Call::Boot => self.show_boot(),
            Call::Dump => self.dump(),
            _ => {
                self.change(call);
                Ok(())
            }
        }
    }
}
