// The current record, judged by what stands at its place.
ghost use Rattle.std.specs.Prelude.{◌≡◌, ◌<◌};
ghost use Rattle.lists.specs.Fixed.{places};
ghost use Rattle.st7789.specs.Places.{current_place, wrong_for, held_for};

use crate::Logs;
use lists::{PLACES, Params};

impl Logs {
    // The place of the current record, the first one where there is none.
    pub(crate) fn place(self) -> usize
        ensures value { result ≡ current_place self.current }
        ensures upper_bound { result < places }
    {
        match self.current {
            None => 0,
            Some(i) => {
                let at = lists::free(i, PLACES);
                if at < PLACES { at } else { 0 }
            }
        }
    }

    // Whether a record is current that is not the last used one, or has other parameters than those in force.
    pub(crate) fn current_bad(self, params: Params, in_force: Params) -> bool
        ensures { result ≡ wrong_for self.current self.traced params in_force }
    {
        match self.current {
            None => false,
            Some(i) => !lists::is_latest(i, self.traced) || params.differs(in_force),
        }
    }

    // The current record's pixel bytes, 0 where none is current.
    pub(crate) fn held(self, pixel_bytes: u64) -> u64
        ensures { result ≡ held_for self.current pixel_bytes }
    {
        match self.current {
            None => 0,
            Some(_) => pixel_bytes,
        }
    }
}
