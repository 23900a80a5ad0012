// What the board sets of a controller. Never refused.
ghost use Rattle.std.specs.Prelude.{◌≡◌};
ghost use Rattle.st7789.specs.Entries.{powered_set, shows_set, brightness_set, all_marked, warnings_taken};

use crate::{Controller, HandedOver, St7789p3};
use marks::Marks;

impl Controller {
    // Raises or drops the panel rail; memory is cleared only by a board-rail reset.
    pub fn set_powered(mut self, on: bool) -> Controller
        ensures answer { result ≡ powered_set on self }
    {
        self.power = self.power.set_powered(on);
        self
    }

    pub fn set_invon_shows_ram(mut self, shows_ram: bool) -> Controller
        ensures answer { result ≡ shows_set shows_ram self }
    {
        self.cfg = self.cfg.set_invon_shows_ram(shows_ram);
        self
    }

    // The backlight as level over scale, and the frame's duty. Every pair is taken.
    pub fn set_brightness(mut self, level: u32, scale: u32, duty: u16) -> Controller
        ensures answer { result ≡ brightness_set level scale duty self }
    {
        self.power = self.power.set_brightness(level, scale, duty);
        self
    }

    // Marks every row, so that the next publishing copies everything.
    pub fn mark_all_dirty(mut self) -> Controller
        ensures answer { result ≡ all_marked self }
    {
        self.marks = Marks::all();
        self
    }
}

impl St7789p3 {
    // The warnings and their count as they are, and the panel with none.
    pub fn take_warnings(mut self) -> HandedOver
        ensures answer { result ≡ warnings_taken self }
    {
        let warnings = self.warnings;
        let count = self.controller.logs.warned;
        self.controller.logs.warned = 0;
        HandedOver {
            panel: self,
            warnings,
            count,
        }
    }
}
