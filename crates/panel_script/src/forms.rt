// A line read, before anything of it is done: which call it is and what it is called with, or what is wrong with it.
use crate::bench::ROOM;
use crate::fields::Field;
use crate::kinds::Loan;
use crate::wrong::Wrong;
use crate::{bytes, fields, kinds, words};
use board::{BoardDomain, PanelConfig};
use st7789::Logs;
use views::{FrameView, Memory};

// What a transfer is called with; its bytes stand in a buffer, at the start.
#[derive(Clone, Copy)]
pub(crate) struct Sent {
    pub(crate) at: u64,
    pub(crate) data: bool,
    pub(crate) release: bool,
    pub(crate) count: usize,
}

#[derive(Clone, Copy)]
pub(crate) enum Call {
    Transfer(Sent),
    Bare(Sent),
    Totals(Sent),
    Power(bool),
    Switch(bool),
    Brightness(u32, u32, u16),
    MarkAll,
    TakeWarnings,
    Reset(BoardDomain),
    Fresh(PanelConfig),
    Publish,
    View(FrameView),
    Pixels(FrameView),
    Pixel(FrameView, u16, u16),
    Row(Memory, u16),
    Boot,
    Lend(Loan, usize),
    Dump,
    Set(Field),
}

// A line with `least` words or more, `most` at most; it has one.
pub(crate) fn counted(line: &[u8], least: usize, most: usize) -> Result<(), Wrong> {
    if words::has(line, most) {
        return Err(Wrong::ManyWords);
    }
    if !words::has(line, least.saturating_sub(1)) {
        return Err(Wrong::FewWords);
    }
    Ok(())
}

// TIME DC CS BYTES
fn transfer(line: &[u8], bytes: &mut [u8]) -> Result<Sent, Wrong> {
    counted(line, 5, 5)?;
    let at = kinds::time(words::word(line, 1))?;
    let data = kinds::flag(words::word(line, 2))?;
    let release = kinds::flag(words::word(line, 3))?;
    let count = bytes::expand(words::word(line, 4), bytes)?;
    Ok(Sent {
        at,
        data,
        release,
        count,
    })
}

// A call of one word.
fn alone(line: &[u8], call: Call) -> Result<Call, Wrong> {
    counted(line, 1, 1)?;
    Ok(call)
}

// The one word of a call.
fn one<T, F: FnOnce(&[u8]) -> Result<T, Wrong> + Drop>(line: &[u8], read: F) -> Result<T, Wrong>
    requires { F.IsAlwaysCallable read }
{
    counted(line, 2, 2)?;
    read(words::word(line, 1))
}

fn brightness(line: &[u8]) -> Result<Call, Wrong> {
    counted(line, 4, 4)?;
    let level = kinds::number::<u32>(words::word(line, 1))?;
    let scale = kinds::number::<u32>(words::word(line, 2))?;
    let duty = kinds::number::<u16>(words::word(line, 3))?;
    Ok(Call::Brightness(level, scale, duty))
}

// fresh SWITCH [STRICT [FORMATS]]
fn config(line: &[u8]) -> Result<PanelConfig, Wrong> {
    counted(line, 2, 4)?;
    let switch = kinds::flag(words::word(line, 1))?;
    let strict = kinds::flag_or_none(words::word(line, 2))?;
    let formats = kinds::flag_or_none(words::word(line, 3))?;
    let plain = PanelConfig::new(switch);
    Ok(plain.with_strict(strict).with_formats(formats))
}

fn pixel(line: &[u8]) -> Result<Call, Wrong> {
    counted(line, 4, 4)?;
    let view = kinds::view(words::word(line, 1))?;
    let x = kinds::number::<u16>(words::word(line, 2))?;
    let y = kinds::number::<u16>(words::word(line, 3))?;
    Ok(Call::Pixel(view, x, y))
}

fn row(line: &[u8]) -> Result<Call, Wrong> {
    counted(line, 3, 3)?;
    let memory = kinds::memory(words::word(line, 1))?;
    let row = kinds::number::<u16>(words::word(line, 2))?;
    Ok(Call::Row(memory, row))
}

fn lend(line: &[u8]) -> Result<Call, Wrong> {
    counted(line, 3, 3)?;
    let loan = kinds::buffer(words::word(line, 1))?;
    let length = kinds::decimal(words::word(line, 2), ROOM as u64)?;
    Ok(Call::Lend(loan, length as usize))
}

fn read_call(name: &str, line: &[u8], bytes: &mut [u8]) -> Result<Call, Wrong> {
    match name {
        "transfer" => Ok(Call::Transfer(transfer(line, bytes)?)),
        "bare" => Ok(Call::Bare(transfer(line, bytes)?)),
        "totals" => Ok(Call::Totals(transfer(line, bytes)?)),
        "power" => Ok(Call::Power(one(line, kinds::flag)?)),
        "switch" => Ok(Call::Switch(one(line, kinds::flag)?)),
        "brightness" => brightness(line),
        "mark-all" => alone(line, Call::MarkAll),
        "take-warnings" => alone(line, Call::TakeWarnings),
        "reset" => Ok(Call::Reset(one(line, kinds::domain)?)),
        "fresh" => Ok(Call::Fresh(config(line)?)),
        "publish" => alone(line, Call::Publish),
        "view" => Ok(Call::View(one(line, kinds::view)?)),
        "pixels" => Ok(Call::Pixels(one(line, kinds::view)?)),
        "pixel" => pixel(line),
        "row" => row(line),
        "boot" => alone(line, Call::Boot),
        "lend" => lend(line),
        "dump" => alone(line, Call::Dump),
        _ => Err(Wrong::UnknownCall),
    }
}

// The call of a line; none where it has no words. A list of bytes goes to the buffer.
pub(crate) fn read(line: &[u8], logs: Logs, bytes: &mut [u8]) -> Result<Option<Call>, Wrong> {
    match kinds::text(words::word(line, 0)) {
        "" => Ok(None),
        "set" => Ok(Some(Call::Set(fields::read(line, logs, bytes)?))),
        name => Ok(Some(read_call(name, line, bytes)?)),
    }
}
