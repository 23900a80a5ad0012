// The format in force, by the mode and the registers, and how many bytes may wait in it.
ghost use Rattle.std.specs.Prelude.{◌≡◌};
ghost use Rattle.formats.specs.Formats.{is_other, sixteen, read_from, format_of, takes_three, carry_bad};

use crate::{Carry, Format};

// Whether COLMOD's low three bits name no format.
pub fn is_other(colmod: u8) -> bool
    ensures answer { result ≡ is_other colmod }
{
    !matches!(colmod % 8, 3 | 5 | 6)
}

// 16 bits, in the byte order that RAMCTRL's second parameter asks for.
fn sixteen_bits(ramctrl1: u8) -> Format
    ensures { result ≡ sixteen ramctrl1 }
{
    if ramctrl1 & 0x08 != 0 {
        Format::LowFirst
    } else {
        Format::HighFirst
    }
}

// The format that the registers name.
fn read_from(colmod: u8, ramctrl1: u8) -> Format
    ensures { result ≡ read_from colmod ramctrl1 }
{
    match colmod % 8 {
        3 => Format::Twelve,
        6 => Format::Eighteen,
        _ => sixteen_bits(ramctrl1),
    }
}

// The format of pixel data: with the mode off 16 bits, high byte first, whatever the registers say.
pub fn format_of(formats: bool, colmod: u8, ramctrl1: u8) -> Format
    ensures answer { result ≡ format_of formats colmod ramctrl1 }
{
    if formats {
        read_from(colmod, ramctrl1)
    } else {
        Format::HighFirst
    }
}

fn takes_three(format: Format) -> bool
    ensures { result ≡ takes_three format }
{
    matches!(format, Format::Twelve | Format::Eighteen)
}

// Whether more bytes wait than the format leaves waiting.
pub fn carry_bad(format: Format, carry: Carry) -> bool
    ensures answer { result ≡ carry_bad format carry }
{
    matches!(carry, Carry::Two(..)) && !takes_three(format)
}
