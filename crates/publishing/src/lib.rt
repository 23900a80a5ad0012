// Publishing: the rows of the span copied to the frame, as one stretch, and the flags beside them.
#![tactic(auto)]

ghost use Rattle.std.specs.Prelude.{◌≡◌, ◌≤◌, ◌<◌, length};
ghost use Rattle.status.specs.Numbers.{number};
ghost use Rattle.status.specs.Tests.{first, publish_row};
ghost use Rattle.publishing.specs.Publish.{copied, publish_refusal, flags_of, published_span, published_flags, published, published_frame};

use marks::Marks;
use st7789::{Controller, St7789p3};
use status::{Refusal, Status};

// The panel's flags as they go with the frame; all of them 0 where there are none.
#[derive(Clone, Copy, Debug, Default, PartialEq, Eq)]
pub struct Flags {
    pub powered: bool,
    pub sleeping: bool,
    pub inverted: bool,
    pub display_on: bool,
    pub invon_shows_ram: bool,
    pub duty: u16,
}

// What a publish answers, refused or not: it hands the panel back either way, so no Result.
#[derive(Clone, Copy)]
pub struct Published {
    pub panel: St7789p3,
    pub span: Option<(u16, u16)>,
    pub flags: Flags,
    pub status: Status,
}

// Rows first to last lie side by side in both memories: one part of each, copied at once.
fn copy_rows(first: usize, last: usize, memory: &[u16], frame: &mut [u16])
    requires first_le_last { (first ≤ last) × (last < 320) }
    requires memory_len { (length memory.now ≡ 76800) × (length frame.old ≡ 76800) }
    ensures { frame.new ≡ copied first last memory.now frame.old }
{
    let start = first * 240;
    let end = last * 240 + 240;
    lists::copy(&memory[start..end], &mut frame[start..end]);
}

// The first refusal in 01's order, or Ok.
fn publish_status(bad: bool, cells: usize, room: usize) -> Status
    ensures { number result ≡ first (publish_row bad cells room) }
{
    if bad {
        return Err(Refusal::BadState);
    }
    status::view_status(cells, room)
}

fn flags_of(controller: Controller) -> Flags
    ensures { result ≡ flags_of controller }
{
    let power = controller.power;
    let registers = controller.chip.registers;
    Flags {
        powered: power.powered,
        sleeping: registers.sleeping,
        inverted: registers.inverted,
        display_on: registers.display_on,
        invon_shows_ram: controller.cfg.invon_shows_ram,
        duty: power.duty,
    }
}

// Copies the rows of the span to the frame, answers span and flags, and empties the span. Memory is only read.
// A refusal hands the panel back, with no span and no flag. One way out: a return of a refusal's own has the panel copied at every publish.
#[tactic(auto, unfolding(crate::specs::Publish::publish_refusal, crate::specs::Publish::published, crate::specs::Publish::published_span, crate::specs::Publish::published_flags, crate::specs::Publish::published_frame))]
pub fn publish(mut panel: St7789p3, memory: &[u16], frame: &mut [u16]) -> Published
    ensures refusal { number result.status ≡ publish_refusal panel (length memory.now) (length frame.old) }
    ensures answer { result.panel ≡ published (publish_refusal panel (length memory.now) (length frame.old)) panel }
    ensures span { result.span ≡ published_span (publish_refusal panel (length memory.now) (length frame.old)) panel }
    ensures flags { result.flags ≡ published_flags (publish_refusal panel (length memory.now) (length frame.old)) panel }
    ensures lent { frame.new ≡ published_frame (publish_refusal panel (length memory.now) (length frame.old)) panel memory.now frame.old }
{
    let status = publish_status(panel.bad_state(), memory.len(), frame.len());
    let mut span = None;
    let mut flags = Flags::default();
    if status.is_ok() {
        let marks = panel.controller.marks;
        span = marks.span();
        if let Some((first, last)) = span {
            copy_rows(usize::from(first), usize::from(last), memory, frame);
        }
        flags = flags_of(panel.controller);
        panel.controller.marks = Marks::none();
    }
    Published {
        panel,
        span,
        flags,
        status,
    }
}
