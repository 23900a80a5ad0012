// The calls that show something and change nothing.
use crate::bench::Bench;
use crate::{print, words};
use boot::BootCheck;
use lists::TraceRecord;
use publishing::Flags;
use status::Status;
use std::io;
use std::io::{Print, Stdout};
use views::{FrameView, Memory};

fn print_span(stdout: Stdout, span: Option<(u16, u16)>) -> io::Result<()> {
    match span {
        None => print!(stdout; "publish none"),
        Some((first, last)) => print!(stdout; "publish {first} {last}"),
    }
}

fn print_flags(stdout: Stdout, f: Flags) -> io::Result<()> {
    let powered = u8::from(f.powered);
    let sleeping = u8::from(f.sleeping);
    let inverted = u8::from(f.inverted);
    let on = u8::from(f.display_on);
    let shows_ram = u8::from(f.invon_shows_ram);
    println!(stdout;
        " {powered} {sleeping} {inverted} {on} {shows_ram} {}",
        f.duty
    )
}

pub(crate) fn print_published(
    stdout: Stdout,
    status: Status,
    span: Option<(u16, u16)>,
    flags: Flags,
) -> io::Result<()> {
    if !status::accepted(status) {
        return print::refusal(stdout, status);
    }
    print_span(stdout, span)?;
    print_flags(stdout, flags)
}

// The first two words of a line, which name what is shown.
fn print_named(stdout: Stdout, line: &[u8]) -> io::Result<()> {
    stdout.write_all(words::word(line, 0))?;
    stdout.write_all(b" ")?;
    stdout.write_all(words::word(line, 1))
}

fn print_found(stdout: Stdout, step: u8, record: TraceRecord) -> io::Result<()> {
    let mut out = [0u8; 200];
    let used = report::put_record(&mut out, 0, record);
    print!(stdout; "boot {step} ")?;
    print::show(stdout, &out, used)
}

impl Bench {
    // view V, pixels V: `show` prints what is seen.
    pub(crate) fn show_view<F: FnOnce(Stdout, &[u16]) -> io::Result<()> + Drop>(
        &mut self,
        view: FrameView,
        line: &[u8],
        show: F,
    ) -> io::Result<()>
        requires { F.IsAlwaysCallable show }
    {
        let stdout = self.out;
        let controller = self.panel.controller;
        let seen = self.view.lent_mut();
        let status = views::frame(controller, view, self.memory.lent(), seen);
        if !status::accepted(status) {
            return print::refusal(stdout, status);
        }
        print_named(stdout, line)?;
        show(stdout, seen)
    }

    // pixel V X Y
    pub(crate) fn show_pixel(
        &mut self,
        view: FrameView,
        x: u16,
        y: u16,
        line: &[u8],
    ) -> io::Result<()> {
        let stdout = self.out;
        let controller = self.panel.controller;
        match views::pixel(controller, view, x, y, self.memory.lent()) {
            Err(refusal) => print::refusal(stdout, Err(refusal)),
            Ok(pixel) => {
                print_named(stdout, line)?;
                println!(stdout; " {x} {y} {pixel:04x}")
            }
        }
    }

    // row panel N, row frame N
    pub(crate) fn show_row(&mut self, memory: Memory, row: u16, line: &[u8]) -> io::Result<()> {
        let stdout = self.out;
        let numbers = views::row(
            memory,
            usize::from(row),
            self.memory.lent(),
            self.frame.lent(),
        );
        print_named(stdout, line)?;
        print!(stdout; " {row}")?;
        if numbers.is_empty() {
            return stdout.write_all(b" empty\n");
        }
        print::digest(stdout, numbers)
    }

    // boot
    pub(crate) fn show_boot(&mut self) -> io::Result<()> {
        let stdout = self.out;
        let compared = boot::trace_mismatch(self.panel.records, self.panel.controller.logs.traced);
        match compared.check {
            BootCheck::Match => println!(stdout; "boot ok"),
            BootCheck::Differs(step) => print_found(stdout, step, compared.found),
            BootCheck::Missing(step) => println!(stdout; "boot {step} none"),
        }
    }
}
