// The step: a byte arrives at what waits. The one place that knows how bytes form a pixel.
ghost use Rattle.std.specs.Prelude.{◌≡◌, ◌+◌, ◌*◌, ◌<◌};
ghost use Rattle.formats.specs.Bytes.{colour, widened, first_of_two, second_of_two, narrowed, waits, completes, second, third, arrival};

use crate::{Arrived, Carry, Format};

// The number of two bytes, high byte first.
pub fn joined(high: u8, low: u8) -> u16
    ensures answer { result ≡ high * 256 + low }
{
    u16::from_be_bytes([high, low])
}

fn side_by_side(red: u8, green: u8, blue: u8) -> u16
    requires { (red < 32) × (green < 64) × (blue < 32) }
    ensures { result ≡ colour red green blue }
{
    u16::from(red) * 2048 + u16::from(green) * 32 + u16::from(blue)
}

// Four bits of each colour, widened by repeating the top ones.
fn from_fours(red: u8, green: u8, blue: u8) -> u16
    requires { (red < 16) × (green < 16) × (blue < 16) }
    ensures { result ≡ widened red green blue }
{
    side_by_side(
        red * 2 + red / 8,
        green * 4 + green / 4,
        blue * 2 + blue / 8,
    )
}

// The two pixels of three bytes of 12 bits: the first ends in the second byte, where the other begins.
pub fn first_of_two(a: u8, b: u8) -> u16
    ensures answer { result ≡ first_of_two a b }
{
    from_fours(a / 16, a % 16, b / 16)
}

pub fn second_of_two(b: u8, c: u8) -> u16
    ensures answer { result ≡ second_of_two b c }
{
    from_fours(b % 16, c / 16, c % 16)
}

// The upper six bits of three bytes, red and blue without their lowest.
pub fn from_eighteen(a: u8, b: u8, c: u8) -> u16
    ensures answer { result ≡ narrowed a b c }
{
    side_by_side(a / 4 / 2, b / 4, c / 4 / 2)
}

fn wait(waiting: Carry) -> Arrived
    ensures { result ≡ waits waiting }
{
    Arrived {
        waiting,
        pixel: None,
    }
}

fn complete(pixel: u16, waiting: Carry) -> Arrived
    ensures { result ≡ completes pixel waiting }
{
    Arrived {
        waiting,
        pixel: Some(pixel),
    }
}

// A byte comes to one that waits.
fn after_one(format: Format, a: u8, b: u8) -> Arrived
    ensures { result ≡ second format a b }
{
    match format {
        Format::HighFirst => complete(joined(a, b), Carry::Empty),
        Format::LowFirst => complete(joined(b, a), Carry::Empty),
        Format::Twelve => complete(first_of_two(a, b), Carry::Two(a, b)),
        Format::Eighteen => wait(Carry::Two(a, b)),
    }
}

// A byte comes to two that wait.
fn after_two(format: Format, a: u8, b: u8, c: u8) -> Arrived
    ensures { result ≡ third format a b c }
{
    match format {
        Format::HighFirst => complete(joined(b, c), Carry::Empty),
        Format::LowFirst => complete(joined(c, b), Carry::Empty),
        Format::Twelve => complete(second_of_two(b, c), Carry::Empty),
        Format::Eighteen => complete(from_eighteen(a, b, c), Carry::Empty),
    }
}

// A byte arrives at what waits: it waits too, or completes a pixel, or both.
#[tactic(auto, unfolding(crate::specs::Bytes::arrival))]
pub fn arrive(format: Format, waiting: Carry, byte: u8) -> Arrived
    ensures answer { result ≡ arrival format waiting byte }
{
    match waiting {
        Carry::Empty => wait(Carry::One(byte)),
        Carry::One(a) => after_one(format, a, byte),
        Carry::Two(a, b) => after_two(format, a, b, byte),
    }
}
