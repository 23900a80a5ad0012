// Numbers read from words.
ghost use Rattle.std.specs.Prelude.{◌≡◌, Some};
ghost use mathlib.Core.List.{foldl};
ghost use Rattle.panel_script.specs.Numbers.{digit_of, next, decimal_of, hex_of};

// What a digit stands for.
pub(crate) fn digit(byte: u8) -> Option<u64>
    ensures { result ≡ digit_of byte }
{
    match byte {
        b'0'..=b'9' => Some(u64::from(byte - b'0')),
        b'a'..=b'f' => Some(u64::from(byte - b'a') + 10),
        _ => None,
    }
}

// The number with one digit more, if the byte is a digit to this base and the number stays at or below `most`.
fn with_digit(n: u64, base: u64, most: u64, byte: u8) -> Option<u64>
    ensures { result ≡ next base most (Some n) byte }
{
    let d = digit(byte)?;
    let more = n.checked_mul(base)?.checked_add(d)?;
    if d < base && more <= most {
        Some(more)
    } else {
        None
    }
}

fn read(word: &[u8], base: u64, most: u64) -> Option<u64>
    ensures { result ≡ foldl (next base most) (Some 0) word.now }
{
    let mut n = 0;
    for byte in word {
        n = with_digit(n, base, most, *byte)?;
    }
    Some(n)
}

// One or more decimal digits whose value is at most `most`.
pub(crate) fn decimal(word: &[u8], most: u64) -> Option<u64>
    ensures { result ≡ decimal_of most word.now }
{
    if word.is_empty() {
        return None;
    }
    read(word, 10, most)
}

// So many lower-case hex digits, whose value fits 64 bits.
pub(crate) fn hex(word: &[u8], digits: usize) -> Option<u64>
    ensures { result ≡ hex_of digits word.now }
{
    if word.len() != digits {
        return None;
    }
    read(word, 16, u64::MAX)
}
