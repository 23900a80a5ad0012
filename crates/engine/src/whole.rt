// Whole pixels: bytes of which the first begins one and none is left. How many they are, and each of them by its place.
ghost use Rattle.std.specs.Prelude.{◌≡◌, true, ◌+◌, ◌*◌, ◌≤◌, length, get_or};
ghost use Rattle.formats.specs.Counts.{whole_in, rest_in};
ghost use Rattle.formats.specs.declared.Format.TheVariants.{Twelve, HighFirst, LowFirst, Eighteen};
ghost use Rattle.engine.specs.Whole.{pixels_in, missing_in, head_of};

use formats::bytewise::{first_of_two, from_eighteen, joined, second_of_two};
use formats::{Carry, Format};

pub(crate) fn is_high_first(format: Format) -> bool
    ensures { result ≡ true → format ≡ HighFirst }
{
    matches!(format, Format::HighFirst)
}

// How many bytes the first that waits waits for. Here and below each format has its own arm: with shared arms, or one function for the
// round of a format, 8x16 boxes take up to a fifth longer.
fn missing(format: Format) -> usize
    ensures { result ≡ missing_in format }
{
    match format {
        Format::Twelve => 2,
        Format::HighFirst => 1,
        Format::LowFirst => 1,
        Format::Eighteen => 2,
    }
}

// How many bytes stand before the first of the whole pixels.
pub(crate) fn head_bytes(format: Format, waiting: Carry) -> usize
    ensures { result ≡ head_of format waiting }
{
    match waiting {
        Carry::Empty => 0,
        Carry::One(_) => missing(format),
        Carry::Two(_, _) => 1,
    }
}

// How many of so many bytes are left behind the last of them.
pub(crate) fn rest_bytes(format: Format, bytes: usize) -> usize
    ensures { result ≡ rest_in format bytes }
{
    match format {
        Format::Twelve => bytes % 3,
        Format::HighFirst => bytes % 2,
        Format::LowFirst => bytes % 2,
        Format::Eighteen => bytes % 3,
    }
}

// Bytes that are whole pixels of a format: the first begins one and none is left.
#[derive(Clone, Copy)]
pub(crate) struct Whole<'a> {
    pub(crate) format: Format,
    pub(crate) bytes: &'a [u8],
    ghost none_left: { rest_in format (length bytes.now) ≡ 0 },
}

impl Whole<'_> {
    // How many pixels they are.
    pub(crate) fn pixels(self) -> usize
        ensures { result ≡ whole_in self.entry.format (length self.entry.bytes.now) }
    {
        let bytes = self.bytes.len();
        match self.format {
            Format::Twelve => bytes / 3 * 2,
            Format::HighFirst => bytes / 2,
            Format::LowFirst => bytes / 2,
            Format::Eighteen => bytes / 3,
        }
    }
}

// Pixel k in 16 bits, high byte first.
pub(crate) fn high_first(bytes: &[u8], k: usize) -> u16
    requires { 2 * (k + 1) ≤ length bytes.now }
    ensures { result ≡ get_or (pixels_in HighFirst bytes.now) k 0 }
{
    joined(bytes[2 * k], bytes[2 * k + 1])
}

// Low byte first.
pub(crate) fn low_first(bytes: &[u8], k: usize) -> u16
    requires { 2 * (k + 1) ≤ length bytes.now }
    ensures { result ≡ get_or (pixels_in LowFirst bytes.now) k 0 }
{
    joined(bytes[2 * k + 1], bytes[2 * k])
}

// In 18 bits.
pub(crate) fn eighteen(bytes: &[u8], k: usize) -> u16
    requires { 3 * (k + 1) ≤ length bytes.now }
    ensures { result ≡ get_or (pixels_in Eighteen bytes.now) k 0 }
{
    let i = 3 * k;
    from_eighteen(bytes[i], bytes[i + 1], bytes[i + 2])
}

// The two pixels of round k, of three bytes, in 12 bits.
pub(crate) fn first_of_round(bytes: &[u8], k: usize) -> u16
    requires { 3 * (k + 1) ≤ length bytes.now }
    ensures { result ≡ get_or (pixels_in Twelve bytes.now) (2 * k) 0 }
{
    let i = 3 * k;
    first_of_two(bytes[i], bytes[i + 1])
}

pub(crate) fn second_of_round(bytes: &[u8], k: usize) -> u16
    requires { 3 * (k + 1) ≤ length bytes.now }
    ensures { result ≡ get_or (pixels_in Twelve bytes.now) (2 * k + 1) 0 }
{
    let i = 3 * k;
    second_of_two(bytes[i + 1], bytes[i + 2])
}
