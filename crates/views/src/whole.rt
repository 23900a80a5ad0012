// A whole view into a lent buffer, in the order of memory.
ghost use Rattle.std.specs.Prelude.{◌≡◌, length};
ghost use Rattle.status.specs.Numbers.{number};
ghost use Rattle.views.specs.Views.{frame_refusal, frame_seen};

use crate::lighting::light_of;
use light::FrameView;
use st7789::Controller;
use status::Status;

#[tactic(auto, unfolding(crate::specs::Views::frame_seen, light::specs::Light::part_seen))]
pub fn frame(controller: Controller, view: FrameView, memory: &[u16], buffer: &mut [u16]) -> Status
    ensures refusal { number result ≡ frame_refusal (length memory.now) (length buffer.old) }
    ensures lent { buffer.new ≡ frame_seen view controller memory.now buffer.old }
{
    status::view_status(memory.len(), buffer.len())?;
    light::fill(view, light_of(controller), memory, buffer);
    Ok(())
}
