// The registers: what a begun command sets, and what one sets that applies.
ghost use Rattle.std.specs.Prelude.{◌≡◌};
ghost use Rattle.chip.specs.Begin.{registers_begun};
ghost use Rattle.chip.specs.Apply.{registers_applied};

use crate::Registers;
use codes::Kind;
use lists::Params;

impl Registers {
    pub(crate) fn begin(mut self, kind: Kind) -> Registers
        ensures { result ≡ registers_begun kind self }
    {
        match kind {
            Kind::Swreset => {
                self.sleeping = true;
                self.display_on = false;
                self.inverted = false;
            }
            Kind::Slpin => self.sleeping = true,
            Kind::Slpout => self.sleeping = false,
            Kind::Invoff => self.inverted = false,
            Kind::Invon => self.inverted = true,
            Kind::Dispoff => self.display_on = false,
            Kind::Dispon => self.display_on = true,
            _ => {}
        }
        self
    }

    pub(crate) fn apply(mut self, kind: Kind, params: Params) -> Registers
        ensures { result ≡ registers_applied kind params self }
    {
        match kind {
            Kind::Madctl => self.madctl = params.bytes[0],
            Kind::Colmod => self.colmod = params.bytes[0],
            Kind::Ramctrl => {
                self.ramctrl0 = params.bytes[0];
                self.ramctrl1 = params.bytes[1];
            }
            _ => {}
        }
        self
    }
}
