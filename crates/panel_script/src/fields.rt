// `set FIELD ..` read: the field, and what it is set to.
use crate::wrong::Wrong;
use crate::{bytes, forms, kinds, words};
use formats::Carry;
use geometry::{Pointer, Window};
use lists::{Params, Stored, TraceRecord, Warning};
use st7789::Logs;

#[derive(Clone, Copy)]
pub(crate) enum Field {
    Sleeping(bool),
    On(bool),
    Inverted(bool),
    Madctl(u8),
    Colmod(u8),
    Ramctrl(u8, u8),
    Win(Window, Pointer),
    Carry(Carry),
    Run(bool),
    Applied(bool),
    Cmd(Option<u8>),
    Params(Params),
    Stored(usize, Stored),
    Commands(u64),
    Ramwrs(u64),
    Written(u64),
    Dropped(u64),
    LostInverted(u64),
    LostUnmapped(u64),
    Dirty(Option<(u16, u16)>),
    Slpout(Option<u64>),
    Slpin(u64),
    Swreset(Option<u64>),
    Current(Option<u8>),
    Trace(Option<TraceRecord>),
    Warnings(Option<Warning>),
    Strict(bool),
    Formats(bool),
    Memory(u16),
    Frame(u16),
}

// `set FIELD none`.
fn says_none(line: &[u8]) -> bool {
    words::word(line, 2) == b"none".as_slice() && !words::has(line, 3)
}

// The n words of a field that is never `none`.
fn counted(line: &[u8], n: usize) -> Result<(), Wrong> {
    if says_none(line) {
        return Err(Wrong::BadNumber);
    }
    forms::counted(line, n, n)
}

// The n words of a field that may be `none`; false where it is.
fn given(line: &[u8], n: usize) -> Result<bool, Wrong> {
    if says_none(line) {
        return Ok(false);
    }
    forms::counted(line, n, n)?;
    Ok(true)
}

// One entry more of a list that has so many; 255 is the most.
fn more(entries: u8) -> Result<(), Wrong> {
    if entries == u8::MAX {
        return Err(Wrong::TooLong);
    }
    Ok(())
}

// The one word of a field that is never `none`.
fn one<T, F: FnOnce(&[u8]) -> Result<T, Wrong> + Drop>(line: &[u8], read: F) -> Result<T, Wrong>
    requires { F.IsAlwaysCallable read }
{
    counted(line, 3)?;
    read(words::word(line, 2))
}

// The one word of a field that may be `none`.
fn one_or_none<T, F: FnOnce(&[u8]) -> Result<T, Wrong> + Drop>(
    line: &[u8],
    read: F,
) -> Result<Option<T>, Wrong>
    requires { F.IsAlwaysCallable read }
{
    if !given(line, 3)? {
        return Ok(None);
    }
    Ok(Some(read(words::word(line, 2))?))
}

fn ramctrl(line: &[u8]) -> Result<Field, Wrong> {
    let (first, second) = one(line, kinds::two_bytes)?;
    Ok(Field::Ramctrl(first, second))
}

// win XS XE YS YE X Y
fn win(line: &[u8]) -> Result<Field, Wrong> {
    counted(line, 8)?;
    let xs = kinds::number::<u16>(words::word(line, 2))?;
    let xe = kinds::number::<u16>(words::word(line, 3))?;
    let ys = kinds::number::<u16>(words::word(line, 4))?;
    let ye = kinds::number::<u16>(words::word(line, 5))?;
    let x = kinds::number::<u16>(words::word(line, 6))?;
    let y = kinds::number::<u16>(words::word(line, 7))?;
    Ok(Field::Win(Window { xs, xe, ys, ye }, Pointer { x, y }))
}

fn carry(line: &[u8]) -> Result<Carry, Wrong> {
    Ok(one_or_none(line, kinds::carry)?.unwrap_or(Carry::Empty))
}

// A list of bytes as parameters: their number, 255 at most, is the count, and the first 14 are kept.
fn kept(word: &[u8], bytes: &mut [u8]) -> Result<Params, Wrong> {
    let room = bytes.len().min(255);
    let count = bytes::expand(word, &mut bytes[..room])?;
    let all = &bytes[..count];
    let mut params = Params::empty().append(all);
    params.count = count as u8;
    Ok(params)
}

fn params(line: &[u8], bytes: &mut [u8]) -> Result<Params, Wrong> {
    counted(line, 3)?;
    kept(words::word(line, 2), bytes)
}

// stored HH BYTES, stored HH none
fn stored(line: &[u8], bytes: &mut [u8]) -> Result<Field, Wrong> {
    counted(line, 4)?;
    let place = kinds::stored(words::word(line, 2))?;
    let word = words::word(line, 3);
    let present = word != b"none".as_slice();
    let params = if present {
        kept(word, bytes)?
    } else {
        Params::empty()
    };
    Ok(Field::Stored(place, Stored { present, params }))
}

// dirty FIRST LAST
fn rows(line: &[u8]) -> Result<Option<(u16, u16)>, Wrong> {
    if !given(line, 4)? {
        return Ok(None);
    }
    let first = kinds::number::<u16>(words::word(line, 2))?;
    let last = kinds::number::<u16>(words::word(line, 3))?;
    Ok(Some((first, last)))
}

// trace CMD TIME PIXELBYTES BYTES
fn trace(line: &[u8], traced: u8, bytes: &mut [u8]) -> Result<Option<TraceRecord>, Wrong> {
    if !given(line, 6)? {
        return Ok(None);
    }
    more(traced)?;
    let cmd = kinds::byte(words::word(line, 2))?;
    let at = kinds::time(words::word(line, 3))?;
    let pixel_bytes = kinds::time(words::word(line, 4))?;
    let params = kept(words::word(line, 5), bytes)?;
    Ok(Some(TraceRecord {
        at,
        pixel_bytes,
        params,
        cmd,
    }))
}

// warnings RULE CMD TIME
fn warnings(line: &[u8], warned: u8) -> Result<Option<Warning>, Wrong> {
    if !given(line, 5)? {
        return Ok(None);
    }
    more(warned)?;
    let rule = kinds::rule(words::word(line, 2))?;
    let cmd = kinds::byte(words::word(line, 3))?;
    let at = kinds::time(words::word(line, 4))?;
    Ok(Some(Warning { at, rule, cmd }))
}

// The counts, the profile, the fills; `set` alone has too few words.
fn read_rest(name: &str, line: &[u8]) -> Result<Field, Wrong> {
    match name {
        "commands" => Ok(Field::Commands(one(line, kinds::time)?)),
        "ramwrs" => Ok(Field::Ramwrs(one(line, kinds::time)?)),
        "pixels" => Ok(Field::Written(one(line, kinds::time)?)),
        "dropped" => Ok(Field::Dropped(one(line, kinds::time)?)),
        "lost_inverted" => Ok(Field::LostInverted(one(line, kinds::time)?)),
        "lost_unmapped" => Ok(Field::LostUnmapped(one(line, kinds::time)?)),
        "strict" => Ok(Field::Strict(one(line, kinds::flag)?)),
        "formats" => Ok(Field::Formats(one(line, kinds::flag)?)),
        "memory" => Ok(Field::Memory(one(line, kinds::short)?)),
        "frame" => Ok(Field::Frame(one(line, kinds::short)?)),
        "" => Err(Wrong::FewWords),
        _ => Err(Wrong::UnknownField),
    }
}

// The lists and the times.
fn read_logs(name: &str, line: &[u8], logs: Logs, bytes: &mut [u8]) -> Result<Field, Wrong> {
    match name {
        "stored" => stored(line, bytes),
        "trace" => Ok(Field::Trace(trace(line, logs.traced, bytes)?)),
        "current" => Ok(Field::Current(one_or_none(line, kinds::number::<u8>)?)),
        "warnings" => Ok(Field::Warnings(warnings(line, logs.warned)?)),
        "dirty" => Ok(Field::Dirty(rows(line)?)),
        "slpout" => Ok(Field::Slpout(one_or_none(line, kinds::time)?)),
        "slpin" => Ok(Field::Slpin(one(line, kinds::time)?)),
        "swreset" => Ok(Field::Swreset(one_or_none(line, kinds::time)?)),
        _ => read_rest(name, line),
    }
}

// A list of bytes is read by way of a buffer.
pub(crate) fn read(line: &[u8], logs: Logs, bytes: &mut [u8]) -> Result<Field, Wrong> {
    let name = kinds::text(words::word(line, 1));
    match name {
        "sleeping" => Ok(Field::Sleeping(one(line, kinds::flag)?)),
        "on" => Ok(Field::On(one(line, kinds::flag)?)),
        "inverted" => Ok(Field::Inverted(one(line, kinds::flag)?)),
        "madctl" => Ok(Field::Madctl(one(line, kinds::byte)?)),
        "colmod" => Ok(Field::Colmod(one(line, kinds::byte)?)),
        "ramctrl" => ramctrl(line),
        "win" => win(line),
        "carry" => Ok(Field::Carry(carry(line)?)),
        "run" => Ok(Field::Run(one(line, kinds::flag)?)),
        "applied" => Ok(Field::Applied(one(line, kinds::flag)?)),
        "cmd" => Ok(Field::Cmd(one_or_none(line, kinds::byte)?)),
        "params" => Ok(Field::Params(params(line, bytes)?)),
        _ => read_logs(name, line, logs, bytes),
    }
}
