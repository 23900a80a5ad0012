// Text to standard output, and what is wrong to standard error.
use crate::wrong::Wrong;
use lists::Params;
use status::Status;
use std::io;
use std::io::{Print, Stderr, Stdout};

// Where a program writes.
#[derive(Clone, Copy)]
pub(crate) struct Streams {
    pub(crate) out: Stdout,
    pub(crate) err: Stderr,
}

// The used part of a buffer.
pub(crate) fn show(stdout: Stdout, out: &[u8], used: usize) -> io::Result<()> {
    stdout.write_all(&out[..used.min(out.len())])
}

// A digest after a space, and the line's end.
pub(crate) fn digest(stdout: Stdout, numbers: &[u16]) -> io::Result<()> {
    let halves = digests::digest(numbers);
    println!(stdout; " {:08x}{:08x}", halves.first, halves.second)
}

// A list of parameters, and the line's end.
pub(crate) fn params(stdout: Stdout, p: Params) -> io::Result<()> {
    let mut out = [0u8; 100];
    let used = report::put_params(&mut out, 0, p);
    show(stdout, &out, used)?;
    stdout.write_all(b"\n")
}

// A refusal, if it is one.
pub(crate) fn refusal(stdout: Stdout, status: Status) -> io::Result<()> {
    let n = status::number(status);
    if n != 0 {
        return println!(stdout; "refused {n}");
    }
    Ok(())
}

// The line that begins a case of a list, or nothing.
fn tell_head(stderr: Stderr, head: &[u8]) -> io::Result<()> {
    if head.is_empty() {
        return Ok(());
    }
    stderr.write_all(&head[..head.len().min(100)])?;
    stderr.write_all(b": ")
}

// A bad line's number, and on standard error the reason too, after the line that begins its case.
pub(crate) fn bad_line(streams: Streams, head: &[u8], n: usize, wrong: Wrong) -> io::Result<()> {
    println!(streams.out; "bad line {n}")?;
    tell_head(streams.err, head)?;
    println!(streams.err; "bad line {n}: {wrong}")
}
