// The loop that lays a stretch of pixels into memory, in the direction in which x leads.
ghost use Rattle.std.specs.Prelude.{◌≡◌, ℕ, List, ◌+◌, ◌*◌, ◌^◌, ◌≤◌, ◌<◌, length};
ghost use Rattle.formats.specs.Counts.{whole_in, rest_in};
ghost use Rattle.formats.specs.declared.Format.TheVariants.{Twelve};
ghost use Rattle.engine.specs.Strides.{stride_of, cell_of, on_from, Inside};
ghost use Rattle.engine.specs.Whole.{pixels_in, Agree};
ghost use Rattle.engine.specs.Rows.{laid, Leads, Reads};

use crate::whole::{first_of_round, second_of_round};

// Pixels j to j + n - 1, which go from an index on in the direction in which x leads, and stay on the panel.
#[derive(Clone, Copy)]
pub(crate) struct Stretch {
    pub(crate) madctl: u8,
    pub(crate) first: usize,
    pub(crate) j: usize,
    pub(crate) n: usize,
    ghost inside: { Inside madctl first n },
}

// Where the pixels of a stretch go: from an index on, each so many cells forth, or so many back.
#[derive(Clone, Copy)]
struct Stride {
    first: usize,
    forth: usize,
    back: usize,
}

impl Stride {
    // That of the direction in which x leads.
    fn of(madctl: u8, first: usize) -> Stride
        ensures { result ≡ stride_of madctl first }
    {
        let (forth, back) = if madctl & geometry::MADCTL_MV != 0 {
            if madctl & geometry::MADCTL_MY != 0 {
                (0, 240)
            } else {
                (240, 0)
            }
        } else if madctl & geometry::MADCTL_MX != 0 {
            (0, 1)
        } else {
            (1, 0)
        };
        Stride { first, forth, back }
    }

    // The index of the pixel that stands k further.
    fn cell(self, k: usize) -> usize
        requires { (self.first + self.forth * k < 2 ^ 64) × (self.back * k ≤ self.first + self.forth * k) }
        ensures { result ≡ cell_of self k }
    {
        self.first + self.forth * k - self.back * k
    }
}

// Pixels j to j + n - 1, as a call reads them, each into the cell that a call names for its place from 0 on: the one loop of all formats.
fn lay_each<C: Fn(usize) -> usize, P: Fn(usize) -> u16>(
    memory: &mut [u16],
    j: usize,
    n: usize,
    cell: C,
    pixel: P,
)
    requires fits { j + n < 2 ^ 64 }
    requires cells { (k : ℕ) → k < n → C.pre cell k }
    requires in_bounds { (k i : ℕ) → k < n → C.post cell k i → i < length memory.old }
    requires pixels { (k : ℕ) → k < n → P.pre pixel (j + k) }
    ensures { (f : ℕ → ℕ) (pixels : List ℕ) → Leads (C.post cell) f n → Reads (P.post pixel) pixels j n → memory.new ≡ laid f memory.old pixels j n }
{
    for k in 0..n {
        memory[cell(k)] = pixel(j + k);
    }
}

// The same in the direction in which x leads: four loops with a constant stride, which in 16 bits, high byte first, are quicker than one.
// Here and below `in_bounds` is asked of a slice: with `&mut [u16; 76800]` in its place a full screen in 12 bits takes a fifth longer.
pub(crate) fn lay_turned<P: Fn(usize) -> u16>(stretch: Stretch, memory: &mut [u16], pixel: P)
    requires in_bounds { 76800 ≤ length memory.old }
    requires fits { stretch.j + stretch.n < 2 ^ 64 }
    requires pixels { (k : ℕ) → k < stretch.n → P.pre pixel (stretch.j + k) }
    ensures { (pixels : List ℕ) → Reads (P.post pixel) pixels stretch.j stretch.n → memory.new ≡ laid (on_from stretch.madctl stretch.first) memory.old pixels stretch.j stretch.n }
{
    let Stretch {
        madctl,
        first,
        j,
        n,
    } = stretch;
    if madctl & geometry::MADCTL_MV != 0 {
        if madctl & geometry::MADCTL_MY != 0 {
            lay_each(memory, j, n, |k| first - 240 * k, pixel);
        } else {
            lay_each(memory, j, n, |k| first + 240 * k, pixel);
        }
    } else if madctl & geometry::MADCTL_MX != 0 {
        lay_each(memory, j, n, |k| first - k, pixel);
    } else {
        lay_each(memory, j, n, |k| first + k, pixel);
    }
}

// The same by one loop, with the stride that the direction asks for: with four for each format 8x16 boxes, high byte first, take a tenth longer.
pub(crate) fn lay_strided<P: Fn(usize) -> u16>(stretch: Stretch, memory: &mut [u16], pixel: P)
    requires in_bounds { 76800 ≤ length memory.old }
    requires fits { stretch.j + stretch.n < 2 ^ 64 }
    requires pixels { (k : ℕ) → k < stretch.n → P.pre pixel (stretch.j + k) }
    ensures { (pixels : List ℕ) → Reads (P.post pixel) pixels stretch.j stretch.n → memory.new ≡ laid (on_from stretch.madctl stretch.first) memory.old pixels stretch.j stretch.n }
{
    let stride = Stride::of(stretch.madctl, stretch.first);
    lay_each(memory, stretch.j, stretch.n, |k| stride.cell(k), pixel);
}

// In 12 bits rounds of three bytes become two pixels each, in a line of their own.
fn widen(bytes: &[u8], round: usize, rounds: usize, line: &mut [u16])
    requires rounds_in_bounds { 3 * (round + rounds) ≤ length bytes.now }
    requires rounds_in_bounds_2 { 2 * rounds ≤ length line.old }
    ensures { Agree line.new 0 (pixels_in Twelve bytes.now) (2 * round) (2 * rounds) }
{
    for k in 0..rounds {
        line[2 * k] = first_of_round(bytes, round + k);
        line[2 * k + 1] = second_of_round(bytes, round + k);
    }
}

// The same in 12 bits: the rounds in which the pixels stand as a line, and of that line what is asked for.
pub(crate) fn lay_twelve(stretch: Stretch, memory: &mut [u16], bytes: &[u8])
    requires in_bounds { 76800 ≤ length memory.old }
    requires bytes_value { (rest_in Twelve (length bytes.now) ≡ 0) × (stretch.j + stretch.n ≤ whole_in Twelve (length bytes.now)) }
    ensures { memory.new ≡ laid (on_from stretch.madctl stretch.first) memory.old (pixels_in Twelve bytes.now) stretch.j stretch.n }
{
    let mut line = [0u16; 322];
    let Stretch {
        madctl,
        first,
        j,
        n,
    } = stretch;
    let round = j / 2;
    widen(bytes, round, (j + n + 1) / 2 - round, &mut line);
    let of_line = Stretch {
        madctl,
        first,
        j: j % 2,
        n,
    };
    lay_strided(of_line, memory, |i| line[i]);
}
