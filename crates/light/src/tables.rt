// Tables of what the values of a channel become, for a part of many numbers: making them divides, and using them does not.
ghost use Rattle.std.specs.Prelude.{◌≡◌, ◌*◌, ◌<◌};
ghost use Rattle.light.specs.Looks.{Table, Tables, dimmed_by};

use crate::Light;
use crate::dimming::scale_value;
use crate::glass::on_glass;

// What the values of a channel, up to `most`, become: on the glass, dimmed, and in the channel's place in a pixel.
pub(crate) fn channel_table(light: Light, most: u16, times: u64) -> [u16; 64]
    requires { (most < 64) × (most * times < 65536) }
    ensures { Table light most times result }
{
    let mut table = [0; 64];
    for k in 0..=most {
        let value = u64::from(on_glass(light, k, most));
        table[k as usize] = (scale_value(value, light.level, light.scale) * times) as u16;
    }
    table
}

// The tables of the three channels, in a light.
#[derive(Drop)]
pub(crate) struct Channels {
    pub(crate) light: Light,
    reds: [u16; 64],
    greens: [u16; 64],
    blues: [u16; 64],
    ghost made: { Tables light reds greens blues },
}

impl Channels {
    pub(crate) fn of(light: Light) -> Channels
        ensures { result.light ≡ light }
    {
        Channels {
            light,
            reds: channel_table(light, 31, 2048),
            greens: channel_table(light, 63, 32),
            blues: channel_table(light, 31, 1),
        }
    }

    // One number of memory on the glass and dimmed, its channels looked up.
    pub(crate) fn dim(&self, raw: u16) -> u16
        ensures { result ≡ dimmed_by self.now.light raw }
    {
        let all = raw as usize;
        (self.reds[all / 2048] | self.greens[all / 32 % 64]) | self.blues[all % 32]
    }
}
