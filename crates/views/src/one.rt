// One pixel of a view; outside the panel it is 0.
ghost use Rattle.std.specs.Prelude.{◌≡◌, length};
ghost use Rattle.status.specs.Numbers.{number, value_of};
ghost use Rattle.status.specs.Tests.{memory_refusal};
ghost use Rattle.views.specs.Views.{pixel_seen};

use crate::lighting::light_of;
use light::FrameView;
use st7789::Controller;
use status::Refusal;

#[tactic(auto, unfolding(crate::specs::Views::pixel_seen))]
pub fn pixel(
    controller: Controller,
    view: FrameView,
    x: u16,
    y: u16,
    memory: &[u16],
) -> Result<u16, Refusal>
    ensures refusal { number result ≡ memory_refusal (length memory.now) }
    ensures answer { value_of result ≡ pixel_seen view controller x y memory.now }
{
    status::memory_status(memory.len())?;
    if x >= 240 || y >= 320 {
        return Ok(0);
    }
    let at = usize::from(y) * 240 + usize::from(x);
    Ok(light::seen(view, light_of(controller), memory[at]))
}
