// What a number of memory looks like: as it is, on the glass, and on the glass as the backlight lets it be seen. It goes by numbers alone:
// no panel stands here, and no place.
#![tactic(auto)]

pub use dimming::dim;
pub use filling::fill;
pub use glass::seen;

mod dimming;
mod filling;
mod glass;
mod tables;

#[derive(Clone, Copy, Debug, PartialEq, Eq)]
pub enum FrameView {
    Raw,
    Glass,
    Perceived,
}

// What a view goes by.
#[derive(Clone, Copy, Debug, PartialEq, Eq)]
pub struct Light {
    pub lit: bool,
    pub plain: bool,
    pub level: u32,
    pub scale: u32,
}
