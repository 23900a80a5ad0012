// The glass, and one pixel of a view.
ghost use Rattle.std.specs.Prelude.{◌≡◌, ◌≤◌};
ghost use Rattle.light.specs.Light.{viewed};
ghost use Rattle.light.specs.Looks.{glass_of_most};

use crate::dimming::dim;
use crate::{FrameView, Light};

// A number on the glass, or a channel of one: black unless lit, otherwise itself or its complement. Numbers go up to `most`.
pub(crate) fn on_glass(light: Light, value: u16, most: u16) -> u16
    requires { value ≤ most }
    ensures { (result ≡ glass_of_most most light value) × (result ≤ most) }
{
    if !light.lit {
        0
    } else if light.plain {
        value
    } else {
        most - value
    }
}

// One number of memory as it is seen.
#[tactic(auto, unfolding(crate::specs::Light::viewed))]
pub fn seen(view: FrameView, light: Light, raw: u16) -> u16
    ensures answer { result ≡ viewed view light raw }
{
    match view {
        FrameView::Raw => raw,
        FrameView::Glass => on_glass(light, raw, 65535),
        FrameView::Perceived => dim(on_glass(light, raw, 65535), light.level, light.scale),
    }
}
