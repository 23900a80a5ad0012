// Parts of a text, lent out of it: what follows a place, what stands before a byte, and the words between spaces.
ghost use Rattle.std.specs.Prelude.{◌≡◌, ◌==◌, not, drop, length, ltb};
ghost use Rattle.std.specs.List.{position};
ghost use Rattle.panel_script.specs.Words.{until, run, before_first, unspaced, word_at};

// Apart from `until`, and the next from `run`: what a chain finds is known once its function ends.
fn first(bytes: &[u8], b: u8) -> Option<usize>
    ensures { result ≡ position (λ x. x == b) bytes.now }
{
    bytes.iter().position(|x| *x == b)
}

fn first_other(bytes: &[u8], b: u8) -> Option<usize>
    ensures { result ≡ position (λ x. not (x == b)) bytes.now }
{
    bytes.iter().position(|x| *x != b)
}

// How many bytes stand before the first b.
fn until(bytes: &[u8], b: u8) -> usize
    ensures { result ≡ until b bytes.now }
{
    first(bytes, b).unwrap_or(bytes.len())
}

// How many bytes at the start are b.
fn run(bytes: &[u8], b: u8) -> usize
    ensures { result ≡ run b bytes.now }
{
    first_other(bytes, b).unwrap_or(bytes.len())
}

// What follows a place; nothing past the end.
pub(crate) fn tail(bytes: &[u8], from: usize) -> &[u8]
    ensures { result.now ≡ drop from bytes.now }
{
    &bytes[from.min(bytes.len())..]
}

// What stands before the first byte b; all of it where there is none.
pub(crate) fn before(bytes: &[u8], b: u8) -> &[u8]
    ensures { result.now ≡ before_first b bytes.now }
{
    &bytes[..until(bytes, b)]
}

fn unspaced(text: &[u8]) -> &[u8]
    ensures { result.now ≡ unspaced text.now }
{
    tail(text, run(text, b' '))
}

// Word k, counted from 0; nothing where there are fewer.
pub(crate) fn word(text: &[u8], k: usize) -> &[u8]
    ensures { result.now ≡ word_at k text.now }
{
    let mut rest = text;
    for _ in 0..k {
        let spaced = unspaced(rest);
        rest = tail(spaced, until(spaced, b' '));
    }
    before(unspaced(rest), b' ')
}

// Whether there is a word k.
pub(crate) fn has(text: &[u8], k: usize) -> bool
    ensures { result ≡ ltb 0 (length (word_at k text.now)) }
{
    0 < word(text, k).len()
}
