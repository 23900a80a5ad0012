// A pixel dimmed by a brightness pair, channel by channel.
ghost use Rattle.std.specs.Prelude.{◌≡◌, ◌^◌, ◌≤◌, ◌<◌, min};
ghost use Rattle.light.specs.Light.{scaled, dimmed};

// A channel scaled by level over scale, rounding down: never more than the channel. A level above the scale counts as the scale.
pub(crate) fn scale_value(channel: u64, level: u32, scale: u32) -> u64
    requires { channel < 64 }
    ensures { (result ≡ scaled channel level scale) × (result ≤ channel) }
{
    if scale == 0 {
        return 0;
    }
    channel * u64::from(level.min(scale)) / u64::from(scale)
}

// One pixel dimmed. Every pair is accepted; level 0 makes every channel 0.
pub fn dim(pixel: u16, level: u32, scale: u32) -> u16
    ensures answer { result ≡ dimmed pixel level scale }
{
    let all = u64::from(pixel);
    let red = scale_value(all / 2048, level, scale);
    let green = scale_value(all / 32 % 64, level, scale);
    let blue = scale_value(all % 32, level, scale);
    (red * 2048 + green * 32 + blue) as u16
}
