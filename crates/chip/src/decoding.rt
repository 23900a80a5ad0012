// The command being decoded: what is in force, when it is due, and its parameters.
ghost use Rattle.std.specs.Prelude.{◌≡◌};
ghost use Rattle.chip.specs.Begin.{idle, decoder_begun};
ghost use Rattle.chip.specs.Apply.{due};

use crate::Decoder;
use codes::Command;
use lists::Params;

impl Decoder {
    pub(crate) fn idle() -> Decoder
        ensures { result ≡ idle }
    {
        Decoder {
            cmd: None,
            params: Params::empty(),
            applied: false,
            in_pixels: false,
        }
    }

    pub(crate) fn begun(command: Command) -> Decoder
        ensures { result ≡ decoder_begun command }
    {
        Decoder {
            cmd: Some(command.code),
            params: Params::empty(),
            applied: false,
            in_pixels: command.kind.starts_run(),
        }
    }

    pub(crate) fn is_due(self, need: u8) -> bool
        ensures { result ≡ due need self }
    {
        !self.applied && 0 < need && need <= self.params.count
    }
}
