// Warnings and trace records as the lines that the program prints of them, in a lent buffer. What does not fit is left out.
#![tactic(auto)]

ghost use Rattle.std.specs.Prelude.{◌≡◌, take};
ghost use Rattle.text.specs.Text.{appended, Put};
ghost use Rattle.lines.specs.Lines.{texts, hex_bytes};
ghost use Rattle.lists.specs.Params.{listed};
ghost use Rattle.listing.specs.Listing.{warning_line, trace_line};

use lists::{PLACES, Params, TraceRecord, Warning};

// The parameters of a list, each in hex after a space.
pub fn put_params(out: &mut [u8], at: usize, p: Params) -> usize
    ensures answer { result ≡ (appended out.old at (hex_bytes (listed p))).count }
    ensures lent { out.new ≡ (appended out.old at (hex_bytes (listed p))).places }
{
    let n = lists::free(p.count, 14);
    lines::put_hex_bytes(out, at, &p.bytes[..n])
}

// A trace record as its `t` line.
#[tactic(auto, using(text::proofs::Text::joined), unfolding(crate::specs::Listing::trace_line))]
pub fn put_record(out: &mut [u8], at: usize, r: TraceRecord) -> usize
    ensures answer { result ≡ (appended out.old at (trace_line r)).count }
    ensures lent { out.new ≡ (appended out.old at (trace_line r)).places }
{
    let named = text::put_bytes(out, at, b"t");
    let coded = lines::put_hex_bytes(out, named, &[r.cmd]);
    let timed = lines::put_numbers(out, coded, &[r.at, r.pixel_bytes]);
    let listed = put_params(out, timed, r.params);
    text::put_byte(out, listed, b'\n')
}

// The used records of a trace, each as its `t` line. The count stands beside the array as in the panel's state: `answer` promises of any.
#[tactic(auto, using(lines::proofs::Writing::entries))]
pub fn put_trace(out: &mut [u8], at: usize, records: [TraceRecord; PLACES], n: u8) -> usize
    ensures answer { result ≡ (appended out.old at (texts trace_line (take n records))).count }
    ensures lent { out.new ≡ (appended out.old at (texts trace_line (take n records))).places }
{
    let end = lists::free(n, PLACES);
    let mut used = at;
    for record in &records[..end] {
        used = put_record(out, used, *record);
    }
    used
}

#[tactic(auto, using(text::proofs::Text::joined), unfolding(crate::specs::Listing::warning_line))]
fn put_warning(out: &mut [u8], at: usize, w: Warning) -> usize
    ensures { Put out.old at (warning_line w) result out.new }
{
    let named = text::put_bytes(out, at, b"w");
    let ruled = lines::put_numbers(out, named, &[u64::from(w.rule)]);
    let coded = lines::put_hex_bytes(out, ruled, &[w.cmd]);
    let timed = lines::put_numbers(out, coded, &[w.at]);
    text::put_byte(out, timed, b'\n')
}

// The used warnings, each as its `w` line; the count stands as in `put_trace`. One function for both would take a closure, with a contract
// longer than the loop.
#[tactic(auto, using(lines::proofs::Writing::entries))]
pub fn put_warnings(out: &mut [u8], at: usize, warnings: [Warning; PLACES], n: u8) -> usize
    ensures answer { result ≡ (appended out.old at (texts warning_line (take n warnings))).count }
    ensures lent { out.new ≡ (appended out.old at (texts warning_line (take n warnings))).places }
{
    let end = lists::free(n, PLACES);
    let mut used = at;
    for warning in &warnings[..end] {
        used = put_warning(out, used, *warning);
    }
    used
}
