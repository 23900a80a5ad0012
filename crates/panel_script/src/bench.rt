// What the calls of a script act on: the panel, the memory, the frame and a buffer for views, and how much of each is lent.
use crate::kinds::Loan;
use board::PanelConfig;
use st7789::St7789p3;
use status::PANEL_PIXELS;
use std::io::Stdout;

// One number more than a panel has.
pub(crate) const ROOM: usize = 76801;

// Numbers, of which so many are lent.
#[derive(Drop)]
pub(crate) struct Buffer {
    pub(crate) numbers: [u16; ROOM],
    pub(crate) size: usize,
}

impl Buffer {
    // All numbers 0, and as much lent as a panel has.
    fn new() -> Buffer {
        Buffer {
            numbers: [0; ROOM],
            size: PANEL_PIXELS,
        }
    }

    // As many as a panel has.
    pub(crate) fn whole(&self) -> &[u16] {
        &self.numbers[..PANEL_PIXELS]
    }

    pub(crate) fn lent(&self) -> &[u16] {
        &self.numbers[..self.size.min(ROOM)]
    }

    pub(crate) fn lent_mut(&mut self) -> &mut [u16] {
        let n = self.size.min(ROOM);
        &mut self.numbers[..n]
    }
}

#[derive(Drop)]
pub(crate) struct Bench {
    pub(crate) out: Stdout,
    pub(crate) panel: St7789p3,
    pub(crate) memory: Buffer,
    pub(crate) frame: Buffer,
    pub(crate) view: Buffer,
}

impl Bench {
    pub(crate) fn new(out: Stdout) -> Bench {
        Bench {
            out,
            panel: St7789p3::fresh(PanelConfig::new(true)),
            memory: Buffer::new(),
            frame: Buffer::new(),
            view: Buffer::new(),
        }
    }

    // lend memory N, lend frame N, lend view N
    pub(crate) fn lend(&mut self, loan: Loan, length: usize) {
        match loan {
            Loan::Memory => self.memory.size = length,
            Loan::Frame => self.frame.size = length,
            Loan::View => self.view.size = length,
        }
    }
}
