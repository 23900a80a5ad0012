// A list of bytes as a word: `-` for none, or pieces joined by commas, each hex bytes, or hex bytes `*` a count.
ghost use Rattle.std.specs.Prelude.{◌<◌, ◌≤◌, length, IfOk};

use crate::wrong::Wrong;
use crate::{kinds, numbers, words};

// The bytes of hex digits, as many as there is room for; 0 for two that are none.
fn put_pairs(digits: &[u8], out: &mut [u8]) {
    for (byte, pair) in out.iter_mut().zip(digits.chunks(2)) {
        *byte = kinds::byte(pair).unwrap_or(0);
    }
}

// The bytes of hex digits over and over, `size` of them at a time.
fn put_over(digits: &[u8], size: usize, out: &mut [u8])
    requires { 0 < size }
{
    for part in out.chunks_mut(size) {
        put_pairs(digits, part);
    }
}

// How often a piece's bytes come: the count after its `*`, or once.
fn times(piece: &[u8], digits: usize) -> Result<usize, Wrong> {
    if piece.len() <= digits {
        return Ok(1);
    }
    let count = kinds::decimal(words::tail(piece, digits + 1), u64::MAX)?;
    Ok(count as usize)
}

// A piece's bytes after the first `at` of the buffer, if they find room. Answers where they end.
fn put_piece(piece: &[u8], out: &mut [u8], at: usize) -> Result<usize, Wrong>
    requires { at ≤ length out.old }
    ensures { IfOk result (λ end. end ≤ length out.new) }
{
    let digits = words::before(piece, b'*');
    let size = digits.len() / 2;
    let count = times(piece, digits.len())?;
    let hex = digits.iter().all(|d| numbers::digit(*d).is_some());
    if size == 0 || digits.len() % 2 != 0 || !hex {
        return Err(Wrong::BadNumber);
    }
    if (out.len() - at) / size < count {
        return Err(Wrong::TooLong);
    }
    let end = at + count * size;
    put_over(digits, size, &mut out[at..end]);
    Ok(end)
}

// The bytes of a word, at the buffer's start. Answers how many.
pub(crate) fn expand(word: &[u8], out: &mut [u8]) -> Result<usize, Wrong>
    ensures { IfOk result (λ count. count ≤ length out.new) }
{
    if word == b"-".as_slice() {
        return Ok(0);
    }
    let mut used = 0;
    for piece in word.split(|x| *x == b',') {
        used = put_piece(piece, out, used)?;
    }
    Ok(used)
}
