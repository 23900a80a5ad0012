// What a word of a line may be, and what it stands for.
ghost use Rattle.std.specs.Prelude.{◌≡◌, Some, IfOk};
ghost use Rattle.panel_script.specs.Numbers.{hex_of};

use crate::numbers;
use crate::wrong::Wrong;
use board::BoardDomain;
use formats::Carry;
use views::{FrameView, Memory};

// Which buffer is lent.
#[derive(Clone, Copy)]
pub(crate) enum Loan {
    Memory,
    Frame,
    View,
}

// A decimal number, `most` at most.
pub(crate) fn decimal(word: &[u8], most: u64) -> Result<u64, Wrong> {
    numbers::decimal(word, most).ok_or(Wrong::BadNumber)
}

// A decimal number of any size.
pub(crate) fn time(word: &[u8]) -> Result<u64, Wrong> {
    decimal(word, u64::MAX)
}

// A decimal number that fits its type.
pub(crate) fn number<T: TryFrom<u64>>(word: &[u8]) -> Result<T, Wrong>
where
    T::Error: Drop,
{
    T::try_from(time(word)?).ok().ok_or(Wrong::BadNumber)
}

// Two hex digits.
pub(crate) fn byte(word: &[u8]) -> Result<u8, Wrong>
    ensures { IfOk result (λ n. hex_of 2 word.now ≡ Some n) }
{
    let n = numbers::hex(word, 2).ok_or(Wrong::BadNumber)?;
    u8::try_from(n).ok().ok_or(Wrong::BadNumber)
}

// Four hex digits.
pub(crate) fn short(word: &[u8]) -> Result<u16, Wrong>
    ensures { IfOk result (λ n. hex_of 4 word.now ≡ Some n) }
{
    let n = numbers::hex(word, 4).ok_or(Wrong::BadNumber)?;
    u16::try_from(n).ok().ok_or(Wrong::BadNumber)
}

// Four hex digits, as two bytes.
pub(crate) fn two_bytes(word: &[u8]) -> Result<(u8, u8), Wrong> {
    let [first, second] = short(word)?.to_be_bytes();
    Ok((first, second))
}

pub(crate) fn flag(word: &[u8]) -> Result<bool, Wrong> {
    match numbers::hex(word, 1) {
        Some(0) => Ok(false),
        Some(1) => Ok(true),
        _ => Err(Wrong::BadNumber),
    }
}

// A flag that may be left out, and is 0 then.
pub(crate) fn flag_or_none(word: &[u8]) -> Result<bool, Wrong> {
    if word.is_empty() {
        return Ok(false);
    }
    flag(word)
}

// A timing rule, 1 to 4.
pub(crate) fn rule(word: &[u8]) -> Result<u8, Wrong> {
    let n = number::<u8>(word)?;
    if matches!(n, 1..=4) {
        Ok(n)
    } else {
        Err(Wrong::BadNumber)
    }
}

// The place of a stored command.
pub(crate) fn stored(word: &[u8]) -> Result<usize, Wrong> {
    let codes = codes::table();
    let command = codes::decode(&codes, byte(word)?);
    let place = command.place();
    if place < 12 {
        Ok(place)
    } else {
        Err(Wrong::BadNumber)
    }
}

// One byte or two that wait for their pixel.
pub(crate) fn carry(word: &[u8]) -> Result<Carry, Wrong> {
    if word.len() == 4 {
        let (first, second) = two_bytes(word)?;
        return Ok(Carry::Two(first, second));
    }
    Ok(Carry::One(byte(word)?))
}

// A word as text; none of the names where it is no text.
pub(crate) fn text(word: &[u8]) -> &str {
    std::str::from_utf8(word).unwrap_or("?")
}

pub(crate) fn domain(word: &[u8]) -> Result<BoardDomain, Wrong> {
    match text(word) {
        "mcu_rail" => Ok(BoardDomain::McuRail),
        "rtc" => Ok(BoardDomain::Rtc),
        "board_rail" => Ok(BoardDomain::BoardRail),
        "battery" => Ok(BoardDomain::Battery),
        "card" => Ok(BoardDomain::Card),
        "flash" => Ok(BoardDomain::Flash),
        "host" => Ok(BoardDomain::Host),
        _ => Err(Wrong::BadWord),
    }
}

pub(crate) fn view(word: &[u8]) -> Result<FrameView, Wrong> {
    match text(word) {
        "raw" => Ok(FrameView::Raw),
        "glass" => Ok(FrameView::Glass),
        "perceived" => Ok(FrameView::Perceived),
        _ => Err(Wrong::BadWord),
    }
}

pub(crate) fn memory(word: &[u8]) -> Result<Memory, Wrong> {
    match text(word) {
        "panel" => Ok(Memory::Panel),
        "frame" => Ok(Memory::Frame),
        _ => Err(Wrong::BadWord),
    }
}

pub(crate) fn buffer(word: &[u8]) -> Result<Loan, Wrong> {
    match text(word) {
        "memory" => Ok(Loan::Memory),
        "frame" => Ok(Loan::Frame),
        "view" => Ok(Loan::View),
        _ => Err(Wrong::BadWord),
    }
}
