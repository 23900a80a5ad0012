// Data: pixels of a run, parameters of a command, or lost. What becomes of the controller, and beside it what the lists keep.
ghost use Rattle.std.specs.Prelude.{◌≡◌, true, ◌+◌, ◌^◌, ◌<◌, length};
ghost use Rattle.pixels.specs.Run.{written};
ghost use Rattle.st7789.specs.Data.{record_data, pixels_added, controller_data, stores_in, totals_in};
ghost use Rattle.st7789.specs.Places.{held_for, if_current, command_in};
ghost use Rattle.st7789.specs.Room.{Countable};

use crate::table::Codes;
use crate::{Controller, Counts};
use codes::Command;
use lists::{Stored, TraceRecord};
use pixels::Totals;

impl Counts {
    // The pixels of a segment: stored or unmapped they count as written, and those that vanished count by cause as well.
    fn draw(mut self, totals: Totals) -> Counts
        requires unmapped_bound { self.pixels_written + (totals.stored + totals.unmapped) < 2 ^ 64 }
        requires inverted_bound { (self.inverted + totals.inverted < 2 ^ 64) × (self.unmapped + totals.unmapped < 2 ^ 64) }
        ensures { result ≡ pixels_added (totals.stored + totals.unmapped) totals self }
    {
        self.pixels_written += totals.stored + totals.unmapped;
        self.inverted += totals.inverted;
        self.unmapped += totals.unmapped;
        self
    }
}

impl Controller {
    // What stands at the current record's place after data, changed where it is current.
    pub(crate) fn noted(self, old: TraceRecord, bytes: &[u8]) -> TraceRecord
        requires { held_for self.logs.current old.pixel_bytes + length bytes.now < 2 ^ 64 }
        ensures { result ≡ if_current (record_data bytes.now self) self.logs.current old }
    {
        let decoder = self.chip.decoder;
        if self.logs.current.is_none() {
            return old;
        }
        if decoder.in_pixels {
            return TraceRecord {
                pixel_bytes: old.pixel_bytes + bytes.len() as u64,
                ..old
            };
        }
        match decoder.cmd {
            None => old,
            Some(_) => TraceRecord {
                params: old.params.append(bytes),
                ..old
            },
        }
    }

    // The command that data is for; in a run there is none.
    pub(crate) fn command(self) -> Option<Command>
        ensures { result ≡ command_in self }
    {
        let decoder = self.chip.decoder;
        if decoder.in_pixels {
            return None;
        }
        match decoder.cmd {
            None => None,
            Some(c) => Some(Codes::new().decode(c)),
        }
    }

    // The list in force, as a stored command keeps it.
    pub(crate) fn stored_list(self) -> Stored
        ensures { result ≡ record { present = true; params = self.chip.decoder.params } }
    {
        let params = self.chip.decoder.params;
        Stored {
            present: true,
            params,
        }
    }

    // Pixels in a run, parameters for the command in force, or lost. The answer is the totals of the pixels.
    pub(crate) fn data(
        &mut self,
        command: Option<Command>,
        bytes: &[u8],
        memory: &mut [u16],
    ) -> Totals
        requires { (command ≡ command_in self.old) × Countable (length bytes.now) self.old.counts }
        ensures controller_value { self.new ≡ controller_data bytes.now self.old }
        ensures totals_value { result ≡ totals_in true bytes.now self.old }
        ensures memory_after { memory.new ≡ written memory.old (stores_in true bytes.now self.old) }
    {
        let decoder = self.chip.decoder;
        if decoder.in_pixels {
            let site = self.chip.site(self.cfg.formats);
            let run = engine::write_pixels(site, self.chip.walk, self.marks, bytes, memory);
            self.chip.walk = run.walk;
            self.marks = run.marks;
            self.counts = self.counts.draw(run.totals);
            return run.totals;
        }
        match command {
            None => Totals::none(),
            Some(command) => {
                self.counts.dropped_params += decoder.params.excess(bytes.len());
                self.chip = self.chip.take(command, bytes);
                Totals::none()
            }
        }
    }
}
