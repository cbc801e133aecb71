// The build for a web service: calls that C and Rust can make. What is lent arrives as a pointer and a length.
#![tactic(auto)]

ghost use Rattle.std.specs.Prelude.{◌≡◌, replicate};
ghost use Rattle.startup.specs.Report.{report_number, report_of, slots_after};
ghost use Rattle.report_text.specs.Text.{report_text};
ghost use Rattle.pen.specs.Writing.{Writes};
ghost use Rattle.entry.specs.Claim.{claim};
ghost use Rattle.memory.specs.Made.{Made};
ghost use Rattle.late_claim.specs.Late.{late_of};
ghost use Rattle.map_numbers.specs.Numbers.{map_in, numbers_of};
ghost use Rattle.service.specs.Plain.{has_share, share_float, plain_of};
ghost use Rattle.service.specs.Late.{memory_after, plain_late};

use entry::Claim;
use numbers::Numbered;
use startup::{Refusal, Summary};

// What a build answers, in plain fields: 0 or the number of the refusal; how many areas were written; the Free and the usable pages;
// whether there is a share, 0 or 1, and the share. A refusal has 0 in every field but the first.
#[repr(C)]
#[derive(Drop)]
pub struct WharfthrumReport {
    pub number: u64,
    pub count: u64,
    pub free: u64,
    pub usable: u64,
    pub has_share: u64,
    pub share: f64,
}

// What a late claim answers: 0 or the number of the refusal, and how many slots are used then.
#[repr(C)]
#[derive(Drop)]
pub struct WharfthrumLate {
    pub number: u64,
    pub count: u64,
}

// Whether there is a share.
fn has_share(share: Option<f64>) -> u64
    ensures { result ≡ has_share share }
{
    u64::from(share.is_some())
}

// The share, or 0.0 where there is none.
fn share_or_zero(share: Option<f64>) -> f64
    ensures { result ≡ share_float share }
{
    share.unwrap_or(0.0)
}

// A report in plain fields.
fn plain(report: Result<Summary, Refusal>) -> WharfthrumReport
    ensures { result ≡ plain_of report }
{
    match report {
        Err(refusal) => WharfthrumReport {
            number: refusal.number() as u64,
            count: 0,
            free: 0,
            usable: 0,
            has_share: 0,
            share: 0.0,
        },
        Ok(Summary { count, sheet }) => WharfthrumReport {
            number: 0,
            count: count as u64,
            free: sheet.free,
            usable: sheet.usable,
            has_share: has_share(sheet.share),
            share: share_or_zero(sheet.share),
        },
    }
}

// Builds the area table of an order file in the lent slots, two numbers each, and answers in plain fields. A refusal writes nothing.
#[unsafe(no_mangle)]
pub extern "C" fn wharfthrum_build(file: &[u8], slots: &mut [u64]) -> WharfthrumReport
    ensures value { result ≡ plain_of (report_of 4096 file.now slots.old) }
    ensures slots_after { slots.new ≡ slots_after 4096 file.now slots.old }
{
    plain(startup::init(file, slots))
}

// Builds the same in 512 slots, puts the report's text at the start of the buffer and leaves the rest of it. Answers how long the text is:
// C lends a buffer of a fixed size.
#[unsafe(no_mangle)]
pub extern "C" fn wharfthrum_report(
    file: &[u8],
    slots: &mut [u64; 1024],
    text: &mut [u8; 17500],
) -> usize
    ensures writes { Writes text.old 0 (report_text 4096 file.now slots.old) text.new result }
    ensures slots_after { slots.new ≡ slots_after 4096 file.now slots.old }
{
    report_text::report(file, slots, text)
}

// The number that an order file is answered with under 512 slots, for a form that only checks it.
#[unsafe(no_mangle)]
pub extern "C" fn wharfthrum_number(file: &[u8]) -> u64
    ensures { result ≡ report_number (report_of 4096 file.now (replicate 1024 0)) }
{
    let mut slots = [0u64; 1024];
    let report = startup::init(file, &mut slots);
    report.number() as u64
}

// Builds the same as `wharfthrum_build`, and leaves the map in the lent numbers, whatever they were. A refusal leaves them as they were.
#[unsafe(no_mangle)]
pub extern "C" fn wharfthrum_build_map(
    file: &[u8],
    slots: &mut [u64],
    map: &mut [u64; 1537],
) -> WharfthrumReport
    ensures value { result ≡ plain_of (report_of 4096 file.now slots.old) }
    ensures slots_after { slots.new ≡ slots_after 4096 file.now slots.old }
    ensures map_after { map.new ≡ memory_after 4096 file.now slots.old map.old }
{
    let start = startup::init_map(file, slots);
    let Ok(_) = start.report else {
        return plain(start.report);
    };
    map_numbers::store(map, start.map);
    plain(start.report)
}

// A late claim on the map in the lent numbers and on a finished table, of which `count` slots are used. What it asks of those numbers
// `wharfthrum_build_map` and every late claim leave so: proofs/Asked. The claim comes as three numbers, as C passes it.
#[unsafe(no_mangle)]
pub extern "C" fn wharfthrum_claim_late(
    map: &mut [u64; 1537],
    base: u64,
    size: u64,
    kind: u64,
    slots: &mut [u64],
    count: usize,
) -> WharfthrumLate
    requires { Made 4096 (map_in map.old) }
    ensures value { result ≡ plain_late (late_of 4096 (map_in map.old) (claim base size kind) count slots.old) }
    ensures slots_after { slots.new ≡ (late_of 4096 (map_in map.old) (claim base size kind) count slots.old).table }
    ensures map_after { map.new ≡ numbers_of (late_of 4096 (map_in map.old) (claim base size kind) count slots.old).map }
{
    let mut loaded = map_numbers::load(map);
    let claim = Claim { base, size, kind };
    let answer = late_claim::claim_late_in(&mut loaded, claim, slots, count);
    map_numbers::store(map, loaded);
    WharfthrumLate {
        number: answer.number() as u64,
        count: answer.unwrap_or(count) as u64,
    }
}
