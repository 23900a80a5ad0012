// Lines of text in a lent buffer. What does not fit is left out.
#![tactic(auto)]

ghost use Rattle.std.specs.Prelude.{◌≡◌};
ghost use Rattle.text.specs.Text.{appended};
ghost use Rattle.lines.specs.Lines.{numbers, hex_bytes, line};

// Each number in decimal after a space.
#[tactic(auto, using(crate::proofs::Writing::entries))]
pub fn put_numbers(out: &mut [u8], at: usize, ns: &[u64]) -> usize
    ensures answer { result ≡ (appended out.old at (numbers ns.now)).count }
    ensures lent { out.new ≡ (appended out.old at (numbers ns.now)).places }
{
    let mut used = at;
    for n in ns {
        used = text::put_byte(out, used, b' ');
        used = text::put_decimal(out, used, *n);
    }
    used
}

// Each byte in hex after a space.
#[tactic(auto, using(crate::proofs::Writing::entries))]
pub fn put_hex_bytes(out: &mut [u8], at: usize, bytes: &[u8]) -> usize
    ensures answer { result ≡ (appended out.old at (hex_bytes bytes.now)).count }
    ensures lent { out.new ≡ (appended out.old at (hex_bytes bytes.now)).places }
{
    let mut used = at;
    for byte in bytes {
        used = text::put_byte(out, used, b' ');
        used = text::put_hex(out, used, u64::from(*byte), 2);
    }
    used
}

// A word, numbers and the line's end.
#[tactic(auto, using(text::proofs::Text::joined))]
pub fn put_line(out: &mut [u8], at: usize, word: &[u8], ns: &[u64]) -> usize
    ensures answer { result ≡ (appended out.old at (line word.now ns.now)).count }
    ensures lent { out.new ≡ (appended out.old at (line word.now ns.now)).places }
{
    let named = text::put_bytes(out, at, word);
    let counted = put_numbers(out, named, ns);
    text::put_byte(out, counted, b'\n')
}
