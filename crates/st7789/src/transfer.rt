// One SPI transaction: the tests, the segment, and the CS release. What the lists keep is stored in place.
ghost use Rattle.std.specs.Prelude.{◌≡◌, true, cond, length, map};
ghost use Rattle.lists.specs.Fixed.{places, push_all};
ghost use Rattle.pixels.specs.Run.{written};
ghost use Rattle.timing.specs.Lint.{rules_of};
ghost use Rattle.st7789.specs.Parts.{warnings_of, with_warnings};
ghost use Rattle.st7789.specs.Command.{warning, begun_all};
ghost use Rattle.st7789.specs.Data.{data_in, stores_in, totals_in};
ghost use Rattle.st7789.specs.Entries.{refusal_with, transferred_with, totals_with, memory_with};
ghost use Rattle.st7789.specs.Room.{Room, Countable};
ghost use Rattle.status.specs.Numbers.{number};

use crate::command::begun_record;
use crate::table::Codes;
use crate::{PanelMemory, St7789p3, Transferred};
use lists::{PLACES, Warning};
use pixels::Totals;
use status::accepted;
use timing::Broken;

impl St7789p3 {
    // A segment of data.
    fn take(&mut self, bytes: &[u8], memory: &mut [u16]) -> Totals
        requires { Room (length bytes.now) self.old }
        ensures panel { self.new ≡ data_in bytes.now self.old }
        ensures totals { result ≡ totals_in true bytes.now self.old.controller }
        ensures memory_after { memory.new ≡ written memory.old (stores_in true bytes.now self.old.controller) }
    {
        let at = self.controller.logs.place();
        self.records[at] = self.controller.noted(self.records[at], bytes);
        let command = self.controller.command();
        let totals = self.controller.data(command, bytes, memory);
        match command {
            None => {}
            Some(command) => {
                let place = command.place();
                if place < 12 {
                    self.stored[place] = self.controller.stored_list();
                }
            }
        }
        totals
    }

    // The warnings of a command, while a place is free.
    fn warn(&mut self, c: u8, t: u64, broken: Broken)
        ensures { self.new ≡ with_warnings (push_all places (warnings_of self.old) (map (warning c t) (rules_of broken))) self.old }
    {
        for k in 0..broken.count() {
            let place = lists::free(self.controller.logs.warned, PLACES);
            if place < PLACES {
                self.warnings[place] = Warning {
                    at: t,
                    rule: broken.rule(k),
                    cmd: c,
                };
                self.controller.logs.warned += 1;
            }
        }
    }

    // A segment of commands, each byte one: by itself, or those that are left together.
    fn begin(&mut self, t: u64, bytes: &[u8])
        requires { Countable (length bytes.now) self.old.controller.counts }
        ensures { self.new ≡ begun_all t bytes.now self.old }
    {
        let codes = Codes::new();
        let mut i = 0;
        // No `for`: how many go together is known in each turn.
        while i < bytes.len() {
            let c = bytes[i];
            let end = self.controller.reach(i, bytes.len());
            let broken = self.controller.lint(&codes, c, t);
            self.warn(c, t, broken);
            let free = lists::free(self.controller.logs.traced, PLACES);
            self.controller = self.controller.begin_all(&codes, t, &bytes[i..end]);
            if free < PLACES {
                self.records[free] = begun_record(c, t);
            }
            i = end;
        }
    }

    // A segment: with dc low each byte begins a command, with dc high the bytes are data.
    fn run(&mut self, t: u64, dc: bool, bytes: &[u8], memory: &mut [u16]) -> Totals
        requires { Room (length bytes.now) self.old }
        ensures panel { self.new ≡ cond dc (data_in bytes.now self.old) (begun_all t bytes.now self.old) }
        ensures totals { result ≡ totals_in dc bytes.now self.old.controller }
        ensures memory_after { memory.new ≡ written memory.old (stores_in dc bytes.now self.old.controller) }
    {
        if dc {
            return self.take(bytes, memory);
        }
        self.begin(t, bytes);
        Totals::none()
    }

    // The segment, and CS release last. Without panel memory nothing is stored to what is lent, and the state and the totals are the full
    // transfer's.
    pub fn transfer(
        mut self,
        t: u64,
        dc: bool,
        bytes: &[u8],
        cs_release: bool,
        panel_memory: PanelMemory,
        memory: &mut [u16],
    ) -> Transferred
        ensures refusal { number result.status ≡ refusal_with panel_memory self (length memory.old) (length bytes.now) }
        ensures answer { result.panel ≡ transferred_with panel_memory t dc bytes.now cs_release (length memory.old) self }
        ensures totals { result.totals ≡ totals_with panel_memory dc bytes.now (length memory.old) self }
        ensures lent { memory.new ≡ memory_with panel_memory dc bytes.now memory.old self }
    {
        let cells = panel_memory.cells(memory.len());
        let status = self.judged(cells, bytes.len());
        let mut totals = Totals::none();
        // One way out: with two, the panel would be copied at each call.
        if accepted(status) {
            let end = panel_memory.end(memory.len());
            totals = self.run(t, dc, bytes, &mut memory[0..end]);
            self.controller = self.controller.release(cs_release);
        }
        Transferred {
            panel: self,
            totals,
            status,
        }
    }
}
