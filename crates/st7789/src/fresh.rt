// A panel as it comes up: made bare, made over lent memory, or made anew by the board rail.
ghost use Rattle.std.specs.Prelude.{◌≡◌, length};
ghost use Rattle.status.specs.Numbers.{number};
ghost use Rattle.status.specs.Tests.{memory_refusal};
ghost use Rattle.st7789.specs.Entries.{fresh_controller, empty_lists, fresh_panel, new_memory, all_marked, reset_state, reset_memory};

use crate::{Answer, Controller, Counts, Logs, St7789p3};
use board::{BoardDomain, PanelConfig, Power};
use chip::Chip;
use lists::{PLACES, Params, Stored, TraceRecord, Warning};
use marks::Marks;
use status::accepted;

impl Controller {
    // Unpowered, asleep, display and inversion off.
    #[tactic(auto, unfolding(crate::specs::Entries::fresh_controller))]
    pub fn fresh(cfg: PanelConfig) -> Controller
        ensures answer { result ≡ fresh_controller cfg }
    {
        Controller {
            cfg,
            power: Power::fresh(),
            chip: Chip::fresh(),
            counts: Counts::default(),
            marks: Marks::none(),
            logs: Logs::default(),
        }
    }
}

impl St7789p3 {
    // A controller with its lists empty.
    #[tactic(auto, unfolding(crate::specs::Entries::empty_lists))]
    fn empty(controller: Controller) -> St7789p3
        ensures { result ≡ empty_lists controller }
    {
        let params = Params::empty();
        let absent = Stored {
            present: false,
            params,
        };
        let record = TraceRecord {
            at: 0,
            pixel_bytes: 0,
            params,
            cmd: 0,
        };
        let warning = Warning {
            at: 0,
            rule: 0,
            cmd: 0,
        };
        St7789p3 {
            controller,
            stored: [absent; 12],
            records: [record; PLACES],
            warnings: [warning; PLACES],
        }
    }

    pub fn fresh(cfg: PanelConfig) -> St7789p3
        ensures answer { result ≡ fresh_panel cfg }
    {
        St7789p3::empty(Controller::fresh(cfg))
    }

    // As the board rail leaves it: fresh, and all rows marked.
    fn renewed(cfg: PanelConfig) -> St7789p3
        ensures { result ≡ empty_lists (all_marked (fresh_controller cfg)) }
    {
        St7789p3::empty(Controller::fresh(cfg).mark_all_dirty())
    }

    // A panel over lent memory, which is cleared. Refused, it is fresh all the same and the memory stays.
    #[tactic(auto, unfolding(crate::specs::Entries::new_memory))]
    pub fn new(cfg: PanelConfig, memory: &mut [u16]) -> Answer
        ensures refusal { number result.status ≡ memory_refusal (length memory.old) }
        ensures answer { result.panel ≡ fresh_panel cfg }
        ensures lent { memory.new ≡ new_memory memory.old }
    {
        let panel = St7789p3::fresh(cfg);
        let status = status::memory_status(memory.len());
        if accepted(status) {
            pixels::clear(memory);
        }
        Answer { panel, status }
    }

    // Resets a board domain. Only the board rail resets the panel, clearing memory with it; the configuration stays.
    #[tactic(auto, unfolding(crate::specs::Entries::reset_state, crate::specs::Entries::reset_memory))]
    pub fn reset(mut self, domain: BoardDomain, memory: &mut [u16]) -> Answer
        ensures refusal { number result.status ≡ memory_refusal (length memory.old) }
        ensures answer { result.panel ≡ reset_state domain (length memory.old) self }
        ensures lent { memory.new ≡ reset_memory domain memory.old }
    {
        let status = status::memory_status(memory.len());
        if accepted(status) && board::is_board_rail(domain) {
            pixels::clear(memory);
            self = St7789p3::renewed(self.controller.cfg);
        }
        Answer {
            panel: self,
            status,
        }
    }
}
