// What a reviewer sees of a panel: one pixel of a view, a whole view, and a row lent out of memory.
#![tactic(auto)]

pub use lent::row;
pub use light::FrameView;
pub use one::pixel;
pub use whole::frame;

mod lent;
mod lighting;
mod one;
mod whole;

// Which of two lent memories a row is lent from.
#[derive(Clone, Copy, Debug, PartialEq, Eq)]
pub enum Memory {
    Panel,
    Frame,
}
