// The chip as it comes up, and by a command: its begin, its data, the CS release.
ghost use Rattle.std.specs.Prelude.{◌≡◌};
ghost use Rattle.chip.specs.Begin.{fresh_chip, chip_begun, chip_released};
ghost use Rattle.chip.specs.Site.{site_of};
ghost use Rattle.chip.specs.Apply.{chip_filled, applied_if_due, chip_taken};

use crate::walk::begun_walk;
use crate::window::{applied_window, begun_window, full_window};
use crate::{Chip, Decoder, Registers};
use codes::Command;
use formats::Carry;
use formats::in_force::format_of;
use geometry::{Pointer, Site};
use pixels::Walk;
use timing::Times;

impl Chip {
    #[tactic(auto, unfolding(crate::specs::Begin::fresh_chip))]
    pub fn fresh() -> Chip
        ensures answer { result ≡ fresh_chip }
    {
        let registers = Registers {
            sleeping: true,
            display_on: false,
            inverted: false,
            madctl: 0x00,
            colmod: 0x66,
            ramctrl0: 0x00,
            ramctrl1: 0x00,
        };
        let walk = Walk {
            pointer: Pointer { x: 0, y: 0 },
            carry: Carry::Empty,
        };
        Chip {
            registers,
            window: full_window(0x00),
            walk,
            decoder: Decoder::idle(),
            times: Times::fresh(),
        }
    }

    // Where its pixels go, and the format in which they come.
    pub fn site(self, formats: bool) -> Site
        ensures answer { result ≡ site_of formats self }
    {
        let registers = self.registers;
        Site {
            window: self.window,
            madctl: registers.madctl,
            format: format_of(formats, registers.colmod, registers.ramctrl1),
        }
    }

    // A command begins at time t.
    #[tactic(auto, unfolding(crate::specs::Begin::chip_begun))]
    pub fn begin(self, command: Command, t: u64) -> Chip
        ensures answer { result ≡ chip_begun command t self }
    {
        let kind = command.kind;
        Chip {
            registers: self.registers.begin(kind),
            window: begun_window(kind, self.registers.madctl, self.window),
            walk: begun_walk(kind, self.window, self.walk),
            decoder: Decoder::begun(command),
            times: self.times.after(kind, t),
        }
    }

    fn fill(self, bytes: &[u8]) -> Chip
        ensures { result ≡ chip_filled bytes.now self }
    {
        let decoder = Decoder {
            params: self.decoder.params.append(bytes),
            ..self.decoder
        };
        Chip { decoder, ..self }
    }

    #[tactic(auto, unfolding(crate::specs::Apply::applied_if_due))]
    fn apply(self, command: Command) -> Chip
        ensures { result ≡ applied_if_due command self }
    {
        if !self.decoder.is_due(command.need) {
            return self;
        }
        let kind = command.kind;
        let params = self.decoder.params;
        let decoder = Decoder {
            applied: true,
            ..self.decoder
        };
        Chip {
            registers: self.registers.apply(kind, params),
            window: applied_window(kind, params, self.registers.madctl, self.window),
            decoder,
            ..self
        }
    }

    // Data for a command.
    #[tactic(auto, unfolding(crate::specs::Apply::chip_taken))]
    pub fn take(self, command: Command, bytes: &[u8]) -> Chip
        ensures answer { result ≡ chip_taken command bytes.now self }
    {
        self.fill(bytes).apply(command)
    }

    // CS goes high: nothing is in force, and the pointer stays.
    #[tactic(auto, unfolding(crate::specs::Begin::chip_released))]
    pub fn release(self) -> Chip
        ensures answer { result ≡ chip_released self }
    {
        let walk = Walk {
            carry: Carry::Empty,
            ..self.walk
        };
        Chip {
            walk,
            decoder: Decoder::idle(),
            times: self.times.anew(),
            ..self
        }
    }
}
