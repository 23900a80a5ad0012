// Replays a log from standard input and prints the panel that it leaves, or why it is refused. With the word `cases` it takes a list
// of logs and does so for each of them, after a line with its number. A list has of each log four bytes, its length, lowest first,
// and the log.
#![tactic(auto)]

ghost use Rattle.std.specs.Prelude.{◌≡◌, length};

use std::env::{Env, FillError};
use std::io;
use std::io::{Print, Stderr, Stdin, Stdout};

// A longer list is not run.
const MAX_LIST: usize = 1048576;

// Where the program writes.
#[derive(Clone, Copy)]
struct Streams {
    out: Stdout,
    err: Stderr,
}

fn tell(stderr: Stderr, what: &str) -> io::Result<()> {
    println!(stderr; "panel-replay: {what}")
}

fn show(stdout: Stdout, log: &[u8]) -> io::Result<()> {
    let mut out = [0u8; 18000];
    let used = replay::print_log(log, &mut out);
    stdout.write_all(&out[..used.min(out.len())])
}

fn show_numbered(stdout: Stdout, number: u64, log: &[u8]) -> io::Result<()> {
    println!(stdout; "log {number}")?;
    show(stdout, log)
}

// The logs of a list, one after the other. One that the list ends in is not run.
fn run_logs(streams: Streams, list: &[u8]) -> io::Result<()> {
    let mut rest = list;
    let mut number = 0;
    while let Some((length, after)) = rest.split_first_chunk::<4>() {
        let size = u32::from_le_bytes(*length) as usize;
        if after.len() < size {
            return tell(streams.err, "the list ends within a log");
        }
        number += 1;
        show_numbered(streams.out, number, &after[..size])?;
        rest = &after[size..];
    }
    if !rest.is_empty() {
        return tell(streams.err, "the list ends within a length");
    }
    Ok(())
}

fn run_list(streams: Streams, list: &[u8]) -> io::Result<()> {
    if MAX_LIST < list.len() {
        return tell(streams.err, "a list of logs has at most 1048576 bytes");
    }
    run_logs(streams, list)
}

// Room for one byte more than the longest log.
fn replay_one(stdout: Stdout, mut stdin: Stdin) -> io::Result<()> {
    let mut log = [0u8; 65537];
    let n = input::read_full(&mut stdin, &mut log)?;
    show(stdout, &log[..n])
}

// Room for one byte more than the longest list. Apart from its caller, where antt runs out of stack over so long a literal.
fn room() -> [u8; 1048577]
    ensures { 1048577 ≡ length result }
{
    [0; 1048577]
}

fn replay_list(streams: Streams, mut stdin: Stdin) -> io::Result<()> {
    let mut list = room();
    let n = input::read_full(&mut stdin, &mut list)?;
    run_list(streams, &list[..n])
}

// This and `Streams`, `room` and `read_arguments` are as in panel_script: a function of a library has to promise its whole
// answer, and what an argument is no contract knows.
// What the arguments ask for: a log to replay, a list of them, or nothing that there is.
#[derive(Clone, Copy)]
enum Asked {
    Log,
    Cases,
    Nothing,
}

fn read_arguments(rt: &impl Env) -> Asked {
    let mut word = [0u8; 5];
    let mut more = [0u8; 1];
    let first = rt.arg(1, &mut word);
    let second = rt.arg(2, &mut more);
    match (first, second) {
        (Err(FillError::NotPresent), _) => Asked::Log,
        (Ok(5), Err(FillError::NotPresent)) if word == *b"cases" => Asked::Cases,
        _ => Asked::Nothing,
    }
}

fn main(rt: HostRuntime) -> io::Result<()> {
    let streams = Streams {
        out: rt.stdout(),
        err: rt.stderr(),
    };
    match read_arguments(&rt) {
        Asked::Log => replay_one(streams.out, rt.stdin()),
        Asked::Cases => replay_list(streams, rt.stdin()),
        Asked::Nothing => {
            tell(
                streams.err,
                "takes no words, or the word `cases` for a list of logs",
            )
        }
    }
}
