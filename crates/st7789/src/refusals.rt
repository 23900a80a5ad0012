// The refusal tests of a panel, in 01's order.
ghost use Rattle.std.specs.Prelude.{◌≡◌, min, take};
ghost use Rattle.lists.specs.Fixed.{places};
ghost use Rattle.lists.specs.Entries.{some, record_long};
ghost use Rattle.st7789.specs.Refusals.{itself, clauses, bad_state, transfer_refusal};
ghost use Rattle.st7789.specs.Places.{judged_for, cells_for, end_for};
ghost use Rattle.status.specs.Numbers.{number};

use crate::{Controller, PanelMemory, St7789p3};
use formats::in_force::carry_bad;
use lists::{MAX_PARAMS, PLACES, TraceRecord};
use status::{PANEL_PIXELS, Status};

impl PanelMemory {
    // How much memory a transfer takes as lent, of so many numbers.
    pub(crate) fn cells(self, len: usize) -> usize
        ensures { result ≡ cells_for self len }
    {
        match self {
            PanelMemory::Lent => len,
            PanelMemory::Without => PANEL_PIXELS,
        }
    }

    // How many of them it may store to.
    pub(crate) fn end(self, len: usize) -> usize
        ensures { result ≡ end_for self len }
    {
        match self {
            PanelMemory::Lent => len,
            PanelMemory::Without => 0,
        }
    }
}

impl Controller {
    // BAD_STATE, by what was told of the lists: a stored list is too long, a used record's is, the current record is wrong.
    pub(crate) fn bad(self, stored: bool, records: bool, current: bool) -> bool
        ensures { result ≡ some itself (clauses self stored records current) }
    {
        let corner = geometry::window_bad(self.chip.window);
        let at = geometry::pointer_bad(self.chip.walk.pointer);
        let in_force = self.chip.decoder.params.count > MAX_PARAMS;
        let traced = lists::over(self.logs.traced, PLACES);
        let warned = lists::over(self.logs.warned, PLACES);
        let span = self.marks.bad();
        let format = self.chip.site(self.cfg.formats).format;
        let waiting = carry_bad(format, self.chip.walk.carry);
        corner
            || at
            || in_force
            || stored
            || records
            || traced
            || warned
            || span
            || current
            || waiting
    }

    // The tests of a transfer, by BAD_STATE and by the current record's pixel bytes.
    pub(crate) fn judged(self, bad: bool, held: u64, cells: usize, bytes: usize) -> Status
        ensures { number result ≡ judged_for self bad held cells bytes }
    {
        let counts = [
            self.counts.commands,
            self.counts.ramwr_count,
            self.counts.pixels_written,
            self.counts.dropped_params,
            self.counts.inverted,
            self.counts.unmapped,
            held,
        ];
        status::transfer_status(bad, cells, bytes, &counts)
    }
}

// Whether a used record's list is longer than 14. All are looked at: `any` is a branch for each, and a transfer over a full trace slower by
// it.
fn records_long(records: &[TraceRecord; PLACES], traced: u8) -> bool
    ensures { result ≡ some record_long (take (min traced places) records.now) }
{
    let used = &records[..lists::free(traced, PLACES)];
    let mut long = false;
    for record in used {
        long = long | (record.params.count > MAX_PARAMS);
    }
    long
}

impl St7789p3 {
    // BAD_STATE of a panel that is lent.
    fn bad(&self) -> bool
        ensures { result ≡ bad_state self.now }
    {
        let controller = self.controller;
        let logs = controller.logs;
        let stored = lists::stored_long(self.stored);
        let records = records_long(&self.records, logs.traced);
        let record = self.records[logs.place()];
        let wrong = logs.current_bad(record.params, controller.chip.decoder.params);
        controller.bad(stored, records, wrong)
    }

    // BAD_STATE: whether the state is one that no transfer and no publishing takes. By `bad` each publish would copy the panel: 78 ns, not 8.
    pub fn bad_state(self) -> bool
        ensures answer { result ≡ bad_state self }
    {
        let controller = self.controller;
        let logs = controller.logs;
        let stored = lists::stored_long(self.stored);
        let records = records_long(&self.records, logs.traced);
        let record = self.records[logs.place()];
        let wrong = logs.current_bad(record.params, controller.chip.decoder.params);
        controller.bad(stored, records, wrong)
    }

    // The tests of a transfer of so many bytes with so much memory.
    pub(crate) fn judged(&self, cells: usize, bytes: usize) -> Status
        ensures { number result ≡ transfer_refusal self.now cells bytes }
    {
        let logs = self.controller.logs;
        let record = self.records[logs.place()];
        let held = logs.held(record.pixel_bytes);
        self.controller.judged(self.bad(), held, cells, bytes)
    }
}
