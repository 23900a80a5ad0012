// Text written into a lent buffer: bytes, decimal numbers and hex digits. What does not fit is left out.
#![tactic(auto)]

ghost use Rattle.std.specs.Prelude.{◌≡◌, [], ◌∷◌, map, ◌≤◌, ◌<◌};
ghost use Rattle.text.specs.Text.{appended, Put};
ghost use Rattle.text.specs.Numbers.{digit_code, digits, size, decimal, hex_digits};

// No 64-bit number has more decimal digits.
const MAX_DECIMAL: usize = 20;

// No 64-bit number has more hex digits.
const MAX_HEX: usize = 16;

// A byte at place `at`, if there is room. Each put answers the place for the next byte. The buffer and the place are two arguments, for
// the clauses of each put speak of both.
#[tactic(auto, unfolding(crate::specs::Text::appended))]
pub fn put_byte(out: &mut [u8], at: usize, byte: u8) -> usize
    ensures answer { result ≡ (appended out.old at (byte ∷ [])).count }
    ensures lent { out.new ≡ (appended out.old at (byte ∷ [])).places }
{
    if at < out.len() {
        out[at] = byte;
        return at + 1;
    }
    at
}

// Bytes in turn. Not `fold`: over a lent buffer it is no plainer.
#[tactic(auto, using(crate::proofs::Text::put_next), unfolding(crate::specs::Text::appended))]
pub fn put_bytes(out: &mut [u8], at: usize, bytes: &[u8]) -> usize
    ensures answer { result ≡ (appended out.old at bytes.now).count }
    ensures lent { out.new ≡ (appended out.old at bytes.now).places }
{
    let mut used = at;
    for byte in bytes {
        used = put_byte(out, used, *byte);
    }
    used
}

// The ASCII code of a digit.
fn digit_code(digit: u64) -> u8
    requires { digit < 16 }
    ensures { result ≡ digit_code digit }
{
    if digit < 10 {
        return (48 + digit) as u8;
    }
    (87 + digit) as u8
}

// The last `width` digits to a base: made last first, at the end of an array.
fn put_digits(out: &mut [u8], at: usize, n: u64, base: u64, width: usize) -> usize
    requires { (0 < base) × (base ≤ 16) × (width ≤ 20) }
    ensures { Put out.old at (map digit_code (digits base width n)) result out.new }
{
    let start = MAX_DECIMAL - width;
    let mut codes = [0u8; MAX_DECIMAL];
    let mut rest = n;
    for i in (start..MAX_DECIMAL).rev() {
        codes[i] = digit_code(rest % base);
        rest /= base;
    }
    put_bytes(out, at, &codes[start..])
}

// How many decimal digits. It counts digits, no index: `checked_ilog10` would need its own lemma to `size`, by the same induction.
fn decimal_size(n: u64) -> usize
    ensures { (result ≡ size 20 n) × (result ≤ 20) }
{
    let mut rest = n;
    let mut count = 1;
    while 10 <= rest {
        rest /= 10;
        count += 1;
    }
    count
}

// A number in decimal, without leading zeros.
#[tactic(auto, unfolding(crate::specs::Numbers::decimal))]
pub fn put_decimal(out: &mut [u8], at: usize, n: u64) -> usize
    ensures answer { result ≡ (appended out.old at (decimal n)).count }
    ensures lent { out.new ≡ (appended out.old at (decimal n)).places }
{
    put_digits(out, at, n, 10, decimal_size(n))
}

// The last `width` hex digits of a number, 16 at most, in lower case.
#[tactic(auto, unfolding(crate::specs::Numbers::hex_digits))]
pub fn put_hex(out: &mut [u8], at: usize, n: u64, width: usize) -> usize
    ensures answer { result ≡ (appended out.old at (hex_digits width n)).count }
    ensures lent { out.new ≡ (appended out.old at (hex_digits width n)).places }
{
    put_digits(out, at, n, 16, width.min(MAX_HEX))
}
