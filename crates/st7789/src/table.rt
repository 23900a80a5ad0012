// The table of codes, laid out once for a segment.
ghost use Rattle.std.specs.Prelude.{◌≡◌};
ghost use Rattle.codes.specs.Codes.{command_of};
ghost use Rattle.codes.specs.Table.{table};

use codes::Command;

#[derive(Drop)]
pub(crate) struct Codes {
    numbers: [u16; 256],
    ghost told: { numbers ≡ table },
}

impl Codes {
    pub(crate) fn new() -> Codes {
        Codes {
            numbers: codes::table(),
        }
    }

    // What a byte is.
    pub(crate) fn decode(&self, c: u8) -> Command
        ensures { result ≡ command_of c }
    {
        codes::decode(&self.numbers, c)
    }
}
