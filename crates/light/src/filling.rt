// A part of memory seen: copied where it is seen as it stands, and otherwise number by number, on the glass or dimmed as well.
ghost use Rattle.std.specs.Prelude.{◌≡◌, ℕ, map, length};
ghost use Rattle.light.specs.Light.{glass_of, part_seen};
ghost use Rattle.light.specs.Looks.{dimmed_by};

use crate::glass::on_glass;
use crate::tables::Channels;
use crate::{FrameView, Light};

// Each number as a call sees it.
fn fill_each<F: Fn(u16) -> u16>(from: &[u16], to: &mut [u16], see: F)
    requires as_long { length to.old ≡ length from.now }
    requires calls { (raw : ℕ) → F.pre see raw }
    ensures { (f : ℕ → ℕ) → ((raw v : ℕ) → F.post see raw v → v ≡ f raw) → to.new ≡ map f from.now }
{
    // No `zip` with `to.iter_mut()`: of an adapter of `iter_mut` the library says nothing of what is written.
    for (i, raw) in from.iter().enumerate() {
        to[i] = see(*raw);
    }
}

// What is seen as it stands is copied.
fn fill_glass(light: Light, from: &[u16], to: &mut [u16])
    requires { length to.old ≡ length from.now }
    ensures { to.new ≡ map (glass_of light) from.now }
{
    if light.lit && light.plain {
        lists::copy(from, to);
        return;
    }
    fill_each(from, to, |raw| on_glass(light, raw, 65535));
}

fn fill_dimmed(light: Light, from: &[u16], to: &mut [u16])
    requires { length to.old ≡ length from.now }
    ensures { to.new ≡ map (dimmed_by light) from.now }
{
    let channels = Channels::of(light);
    fill_each(from, to, |raw| channels.dim(raw));
}

// A part of memory as it is seen, into a part of a buffer as long; where they are not as long the buffer stays. A black glass needs no dimming.
#[tactic(auto, unfolding(crate::specs::Light::part_seen, crate::specs::Light::viewed))]
pub fn fill(view: FrameView, light: Light, from: &[u16], to: &mut [u16])
    ensures lent { to.new ≡ part_seen view light from.now to.old }
{
    if to.len() != from.len() {
        return;
    }
    match view {
        FrameView::Raw => lists::copy(from, to),
        FrameView::Glass => fill_glass(light, from, to),
        FrameView::Perceived if light.lit => fill_dimmed(light, from, to),
        FrameView::Perceived => fill_glass(light, from, to),
    }
}
