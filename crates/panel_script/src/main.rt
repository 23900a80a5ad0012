// Reads a script of calls from standard input, runs each on the panel, and prints what it answers and the panel at the end.
#![tactic(auto)]

ghost use Rattle.std.specs.Prelude.{◌≡◌, ◌≤◌, length};

use bench::Bench;
use forms::Call;
use print::Streams;
use std::env::{Env, FillError};
use std::io;
use std::io::Print;
use wrong::Wrong;

mod bench;
mod bytes;
mod calls;
mod dump;
mod fields;
mod forms;
mod kinds;
mod looks;
mod numbers;
mod picture;
mod print;
mod sets;
mod words;
mod wrong;

// A longer script is run up to the last line that ends within so many bytes; the next line is bad. A longer list of scripts is
// not run.
const MAX_SCRIPT: usize = 1048576;

// The call of a line, which ends at a place of the script.
fn read(
    script: &[u8],
    end: usize,
    line: &[u8],
    bench: &Bench,
    bytes: &mut [u8],
) -> Result<Option<Call>, Wrong> {
    if MAX_SCRIPT < script.len() && MAX_SCRIPT <= end {
        return Err(Wrong::TooLong);
    }
    forms::read(line, bench.panel.controller.logs, bytes)
}

// Runs a script; `head` is the line that begins it in a list, or nothing. Here and below a line begins where the one before it
// ends, so the loops go by that place.
fn run(streams: Streams, head: &[u8], script: &[u8]) -> io::Result<()> {
    let mut bench = Bench::new(streams.out);
    let mut bytes = [0u8; 65537];
    let mut at = 0;
    let mut number = 0;
    while at < script.len() {
        let whole = words::before(words::tail(script, at), b'\n');
        let line = words::before(whole, b'#');
        let end = at + whole.len();
        number += 1;
        match read(script, end, line, &bench, &mut bytes) {
            Err(wrong) => return print::bad_line(streams, head, number, wrong),
            Ok(Some(call)) => bench.run(call, line, &bytes)?,
            Ok(None) => {}
        }
        at = end + 1;
    }
    bench.dump()
}

// Whether a line begins a case: `case NAME`.
fn begins_case(line: &[u8]) -> bool {
    let content = words::before(line, b'#');
    words::word(content, 0) == b"case".as_slice()
        && words::has(content, 1)
        && !words::has(content, 2)
}

// How much of a text stands before the next line that begins a case.
fn case_size(text: &[u8]) -> usize
    ensures { result ≤ length text.now }
{
    let mut at = 0;
    while at < text.len() {
        let line = words::before(words::tail(text, at), b'\n');
        if begins_case(line) {
            return at;
        }
        at = at + line.len() + 1;
    }
    text.len()
}

// Scripts one after the other, each begun by a line `case NAME`, which is printed before what its script prints.
fn run_cases(streams: Streams, text: &[u8]) -> io::Result<()> {
    let mut at = 0;
    while at < text.len() {
        let line = words::before(words::tail(text, at), b'\n');
        let rest = words::tail(text, at + line.len() + 1);
        let size = case_size(rest);
        streams.out.write_all(line)?;
        streams.out.write_all(b"\n")?;
        run(streams, line, &rest[..size])?;
        at = at + line.len() + 1 + size;
    }
    Ok(())
}

// A list of scripts, if it is one.
fn run_list(streams: Streams, text: &[u8]) -> io::Result<()> {
    if MAX_SCRIPT < text.len() {
        return streams.err.write_all(
            b"panel-script: a list of scripts has at most 1048576 bytes\n",
        );
    }
    if !begins_case(words::before(text, b'\n')) {
        return print::bad_line(streams, b"", 1, Wrong::NoCase);
    }
    run_cases(streams, text)
}

// What the arguments ask for: a script to run, a list of them, or nothing that there is.
#[derive(Clone, Copy)]
enum Asked {
    Script,
    Cases,
    Nothing,
}

fn read_arguments(rt: &impl Env) -> Asked {
    let mut word = [0u8; 5];
    let mut more = [0u8; 1];
    let first = rt.arg(1, &mut word);
    let second = rt.arg(2, &mut more);
    match (first, second) {
        (Err(FillError::NotPresent), _) => Asked::Script,
        (Ok(5), Err(FillError::NotPresent)) if word == *b"cases" => Asked::Cases,
        _ => Asked::Nothing,
    }
}

// Room for one byte more than the longest script. Apart from `main`, where antt runs out of stack over so long a literal.
fn room() -> [u8; 1048577]
    ensures { 1048577 ≡ length result }
{
    [0; 1048577]
}

fn run_asked(streams: Streams, asked: Asked, text: &[u8]) -> io::Result<()> {
    match asked {
        Asked::Script => run(streams, b"", text),
        Asked::Cases => run_list(streams, text),
        Asked::Nothing => {
            streams.err.write_all(
                b"panel-script: takes no words, or the word `cases` for a list of scripts\n",
            )
        }
    }
}

fn main(rt: HostRuntime) -> io::Result<()> {
    let streams = Streams {
        out: rt.stdout(),
        err: rt.stderr(),
    };
    let asked = read_arguments(&rt);
    let mut text = room();
    let mut stdin = rt.stdin();
    let n = input::read_full(&mut stdin, &mut text)?;
    run_asked(streams, asked, &text[..n])
}
