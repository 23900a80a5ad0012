// The end of a line, and then a view's numbers, row by row: a row that isn't all 0 as `p`, its number and its runs of equal numbers.
ghost use Rattle.std.specs.Prelude.{◌≤◌, length};

use crate::print;
use std::io;
use std::io::{Print, Stdout};
use views::Memory;

const ROWS: usize = 320;

// How long the run of equal numbers at the start is.
fn run_length(row: &[u16], value: u16) -> usize
    ensures { result ≤ length row.now }
{
    row.iter().position(|n| *n != value).unwrap_or(row.len())
}

// A run: its number in hex, and where there is more than one, how many.
fn put_run(out: &mut [u8], at: usize, value: u16, count: usize) -> usize {
    let apart = text::put_byte(out, at, b' ');
    let valued = text::put_hex(out, apart, u64::from(value), 4);
    if count < 2 {
        return valued;
    }
    let starred = text::put_byte(out, valued, b'*');
    text::put_decimal(out, starred, count as u64)
}

fn put_row(out: &mut [u8], number: usize, row: &[u16]) -> usize {
    let named = text::put_bytes(out, 0, b"p ");
    let mut used = text::put_decimal(out, named, number as u64);
    let mut rest = row;
    while let Some((first, others)) = rest.split_first() {
        let more = run_length(others, *first);
        used = put_run(out, used, *first, 1 + more);
        rest = &others[more..];
    }
    text::put_byte(out, used, b'\n')
}

// One write a row: it has at most 240 runs, each of five characters or of several numbers.
fn print_row(stdout: Stdout, number: usize, row: &[u16]) -> io::Result<()> {
    if row.iter().all(|n| *n == 0) {
        return Ok(());
    }
    let mut out = [0u8; 1300];
    let used = put_row(&mut out, number, row);
    print::show(stdout, &out, used)
}

pub(crate) fn print(stdout: Stdout, numbers: &[u16]) -> io::Result<()> {
    stdout.write_all(b"\n")?;
    for number in 0..ROWS {
        print_row(
            stdout,
            number,
            views::row(Memory::Panel, number, numbers, numbers),
        )?;
    }
    Ok(())
}
