// The pixel walk as a begun command leaves it.
ghost use Rattle.std.specs.Prelude.{◌≡◌};
ghost use Rattle.chip.specs.Begin.{walk_begun, walk_reset};
ghost use Rattle.geometry.specs.declared.Window.{Window};

use codes::Kind;
use formats::Carry;
use geometry::{Pointer, Window};
use pixels::Walk;

// The same carry, made anew: a copy goes through memory at each command, and a NOP in a long segment took 2.0 ns, not 1.0.
fn anew(carry: Carry) -> Carry
    ensures { result ≡ carry }
{
    match carry {
        Carry::Empty => Carry::Empty,
        Carry::One(a) => Carry::One(a),
        Carry::Two(a, b) => Carry::Two(a, b),
    }
}

fn begun_carry(kind: Kind, walk: Walk) -> Carry
    ensures { (window : Window) → result ≡ (walk_reset kind (walk_begun kind window walk)).carry }
{
    match kind {
        Kind::Ramwrc => anew(walk.carry),
        _ => Carry::Empty,
    }
}

// By two tests that return: with one match of three arms, mixed commands in a long segment took a tenth longer.
fn begun_pointer(kind: Kind, window: Window, walk: Walk) -> Pointer
    ensures { result ≡ (walk_reset kind (walk_begun kind window walk)).pointer }
{
    if matches!(kind, Kind::Ramwr) {
        return Pointer {
            x: window.xs,
            y: window.ys,
        };
    }
    if matches!(kind, Kind::Swreset) {
        return Pointer { x: 0, y: 0 };
    }
    walk.pointer
}

pub(crate) fn begun_walk(kind: Kind, window: Window, walk: Walk) -> Walk
    ensures { result ≡ walk_reset kind (walk_begun kind window walk) }
{
    Walk {
        carry: begun_carry(kind, walk),
        pointer: begun_pointer(kind, window, walk),
    }
}
