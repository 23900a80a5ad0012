// The boot sequence: what the official firmware sends between power-on and the first flush.
#![tactic(auto)]

ghost use Rattle.std.specs.Prelude.{◌≡◌, get_or};
ghost use Rattle.sequence.specs.Sequence.{boot_sequence, past_step};

use lists::Params;

// One command of the boot sequence. The wait after it is the driver's own: nothing here enforces it.
#[derive(Clone, Copy)]
pub struct BootStep {
    pub cmd: u8,
    pub params: Params,
    pub delay_ms_after: u32,
}

// A row of the table. Its parameters stand in front, and 0 fills their list up to 14.
macro_rules! row {
    ($cmd:literal, [], $wait:literal) => {
        row!($cmd, 0 of [0, 0, 0, 0, 0, 0, 0, 0, 0, 0, 0, 0, 0, 0], $wait)
    };
    ($cmd:literal, [$a:literal], $wait:literal) => {
        row!($cmd, 1 of [$a, 0, 0, 0, 0, 0, 0, 0, 0, 0, 0, 0, 0, 0], $wait)
    };
    ($cmd:literal, [$a:literal, $b:literal], $wait:literal) => {
        row!($cmd, 2 of [$a, $b, 0, 0, 0, 0, 0, 0, 0, 0, 0, 0, 0, 0], $wait)
    };
    ($cmd:literal, [$a:literal, $b:literal, $c:literal, $d:literal, $e:literal], $wait:literal) => {
        row!($cmd, 5 of [$a, $b, $c, $d, $e, 0, 0, 0, 0, 0, 0, 0, 0, 0], $wait)
    };
    ($cmd:literal, [$($all:literal),*], $wait:literal) => {
        row!($cmd, 14 of [$($all),*], $wait)
    };
    ($cmd:literal, $count:literal of $bytes:expr, $wait:literal) => {
        BootStep {
            cmd: $cmd,
            params: Params { bytes: $bytes, count: $count },
            delay_ms_after: $wait,
        }
    };
}

const BOOT_SEQUENCE: [BootStep; 23] = [
    row!(0x01, [], 20), // SWRESET
    row!(0x11, [], 100), // SLPOUT
    row!(0x36, [0x00], 0), // MADCTL
    row!(0x3A, [0x55], 0), // COLMOD
    row!(0xB0, [0x00, 0xF0], 0), // RAMCTRL
    row!(0xB2, [0x05, 0x05, 0x00, 0x33, 0x33], 0), // PORCTRL
    row!(0xB7, [0x35], 0), // GCTRL
    row!(0xBB, [0x21], 0), // VCOMS
    row!(0xC0, [0x2C], 0), // LCMCTRL
    row!(0xC2, [0x01], 0), // VDVVRHEN
    row!(0xC3, [0x0B], 0), // VRHS
    row!(0xC4, [0x20], 0), // VDVS
    row!(0xC6, [0x0F], 0), // FRCTRL2
    row!(0xD0, [0xA7, 0xA1], 0), // PWCTRL1
    row!(0xD0, [0xA4, 0xA1], 0), // PWCTRL1
    row!(0xD6, [0xA1], 0), // VENDOR_D6
    row!(
        0xE0,
        [
            0xD0, 0x04, 0x08, 0x0A, 0x09, 0x05, 0x2D, 0x43, 0x49, 0x09, 0x16, 0x15, 0x26, 0x2B
        ],
        0
    ), // PVGAMCTRL
    row!(
        0xE1,
        [
            0xD0, 0x03, 0x09, 0x0A, 0x0A, 0x06, 0x2E, 0x44, 0x40, 0x3A, 0x15, 0x15, 0x26, 0x2A
        ],
        10
    ), // NVGAMCTRL
    row!(0x21, [], 0), // INVON
    row!(0x36, [0x00], 0), // MADCTL
    row!(0x29, [], 0), // DISPON
    row!(0x36, [0x00], 0), // MADCTL
    row!(0x36, [0x00], 0), // MADCTL
];

impl BootStep {
    // The row at index k, from 0 on. Past the 23rd it is empty, command 0 and no parameters, as `answer` promises.
    pub fn at(k: usize) -> BootStep
        ensures answer { result ≡ get_or boot_sequence k past_step }
    {
        match BOOT_SEQUENCE.get(k) {
            Some(step) => *step,
            None => row!(0, [], 0),
        }
    }
}
