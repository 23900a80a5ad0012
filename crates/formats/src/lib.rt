// Bytes to pixels, by the format in force. No function here asks anything of its arguments.
#![tactic(auto)]

pub mod bytewise;
pub mod in_force;

// How bytes make a pixel: 12 bits, 16 bits with the high byte or the low byte first, 18 bits.
#[derive(Clone, Copy, Debug, PartialEq, Eq)]
pub enum Format {
    Twelve,
    HighFirst,
    LowFirst,
    Eighteen,
}

// The bytes that wait for the rest of their pixel, the first one first.
#[derive(Clone, Copy, Debug, PartialEq, Eq)]
pub enum Carry {
    Empty,
    One(u8),
    Two(u8, u8),
}

// What a byte leaves: the bytes that wait, and the pixel that it completes, if it completes one.
#[derive(Clone, Copy, Debug, PartialEq, Eq)]
pub struct Arrived {
    pub waiting: Carry,
    pub pixel: Option<u16>,
}
