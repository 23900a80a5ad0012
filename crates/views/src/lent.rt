// A row of the panel or of the frame, lent out of that memory; an empty part where there is none, which `row_seen` promises.
ghost use Rattle.std.specs.Prelude.{◌≡◌};
ghost use Rattle.views.specs.Views.{row_seen};

use crate::Memory;

#[tactic(auto, unfolding(crate::specs::Views::row_seen))]
pub fn row<'a>(memory: Memory, row: usize, panel: &'a [u16], frame: &'a [u16]) -> &'a [u16]
    ensures answer { result.now ≡ row_seen memory row panel.now frame.now }
{
    if status::view_status(panel.len(), frame.len()).is_err() || row >= 320 {
        return &[];
    }
    let from = match memory {
        Memory::Panel => panel,
        Memory::Frame => frame,
    };
    let start = row * 240;
    let end = start + 240;
    &from[start..end]
}
