// The report's text: the count of the areas, each base and size, the page sheet; or the number of the refusal. And the text of late claims
// behind an order file: the areas when they are made, and how many were, or which was refused.
//
// A place in the text is a number, as in pen. The text and the slots are arrays with a length beside: there is no heap, and C lends them so.
#![tactic(auto)]

ghost use Rattle.std.specs.Prelude.{◌≡◌, ◌+◌, ◌≤◌, min, length};
ghost use Rattle.pen.specs.Writing.{Writes, Lands};
ghost use Rattle.report_text.specs.Text.{share_text, area_line, area_lines, count_line, pages_line, refused_line, text_of, report_text};
ghost use Rattle.report_text.specs.LateText.{last_line, lines_of, late_text, late_slots};
ghost use Rattle.startup.specs.Report.{slots_after};

use figures::{put_decimal, put_hex, put_labelled};
use late_claim::LateRefusal;
use numbers::Numbered;
use pen::put;
use sheet::PageSheet;
use startup::{Refusal, Summary};

// The share's bits, or `none`.
fn put_share(out: &mut [u8], at: usize, sheet: PageSheet) -> usize
    ensures { Lands out.old at (share_text sheet) out.new result }
{
    match sheet::share_bits(sheet.free, sheet.usable) {
        Some(bits) => put_hex(out, at, bits),
        None => put(out, at, b"none"),
    }
}

// One area: its base and its size.
fn put_area(out: &mut [u8], at: usize, base: u64, size: u64) -> usize
    ensures { Lands out.old at (area_line base size) out.new result }
{
    let a = put_hex(out, at, base);
    let b = put(out, a, b" ");
    let c = put_hex(out, b, size);
    put(out, c, b"\n")
}

// The first n areas of the slots, a line each.
fn put_areas(out: &mut [u8], at: usize, slots: &[u64], n: usize) -> usize
    requires { n + n ≤ length slots.now }
    ensures { Lands out.old at (area_lines slots.now n 0) out.new result }
{
    let mut p = at;
    for i in 0..n {
        p = put_area(out, p, slots[i + i], slots[i + i + 1]);
    }
    p
}

fn put_count(out: &mut [u8], at: usize, n: usize) -> usize
    ensures { Lands out.old at (count_line n) out.new result }
{
    let a = put(out, at, b"areas ");
    let b = put_decimal(out, a, n as u64);
    put(out, b, b"\n")
}

fn put_pages(out: &mut [u8], at: usize, sheet: PageSheet) -> usize
    ensures { Lands out.old at (pages_line sheet) out.new result }
{
    let a = put(out, at, b"pages ");
    let b = put_decimal(out, a, sheet.free);
    let c = put(out, b, b" ");
    let d = put_decimal(out, c, sheet.usable);
    let e = put(out, d, b" ");
    let f = put_share(out, e, sheet);
    put(out, f, b"\n")
}

fn put_refusal(out: &mut [u8], number: u8) -> usize
    ensures { Lands out.old 0 (refused_line number) out.new result }
{
    let a = put(out, 0, b"refused ");
    let b = put_decimal(out, a, number as u64);
    put(out, b, b"\n")
}

// The count as far as there are slots.
fn listed(n: usize) -> usize
    ensures { (result ≤ n) × (result ≤ 512) × (result ≡ min n 512) }
{
    n.min(512)
}

// The text of a report and the slots that it was made in, at the start of the buffer; the rest of the buffer stays. Answers how long the
// text is. The buffer holds the longest text that there can be: 512 areas, and numbers of 20 digits.
pub fn text(report: Result<Summary, Refusal>, slots: &[u64; 1024], out: &mut [u8; 17500]) -> usize
    ensures { Writes out.old 0 (text_of report slots.now) out.new result }
{
    match report {
        Err(refusal) => put_refusal(out, refusal.number()),
        Ok(summary) => {
            let a = put_count(out, 0, summary.count);
            let b = put_areas(out, a, slots, listed(summary.count));
            put_pages(out, b, summary.sheet)
        }
    }
}

// Builds the area table of an order file in the lent slots, and puts the report's text at the start of the buffer.
pub fn report(file: &[u8], slots: &mut [u64; 1024], out: &mut [u8; 17500]) -> usize
    ensures writes { Writes out.old 0 (report_text 4096 file.now slots.old) out.new result }
    ensures slots_after { slots.new ≡ slots_after 4096 file.now slots.old }
{
    let answer = startup::init(file, slots);
    text(answer, slots, out)
}

// How many claims were made; or the number of the refusal and the index of its claim.
fn put_last(out: &mut [u8], at: usize, answer: Result<(), LateRefusal>, index: usize) -> usize
    ensures { Lands out.old at (last_line answer index) out.new result }
{
    match answer {
        Ok(()) => {
            let a = put_labelled(out, at, b"late ", index as u64);
            put(out, a, b"\n")
        }
        Err(refusal) => {
            let a = put_labelled(out, at, b"refused ", refusal.number() as u64);
            let b = put_labelled(out, a, b" at ", index as u64);
            put(out, b, b"\n")
        }
    }
}

// The areas in the slots and the last line, at the start of the buffer. It holds the longest text that there can be: 512 areas, and numbers
// of 20 digits.
fn put_run(
    out: &mut [u8; 17500],
    slots: &[u64; 1024],
    count: usize,
    answer: Result<(), LateRefusal>,
    index: usize,
) -> usize
    ensures { Writes out.old 0 (lines_of count slots.now answer index) out.new result }
{
    let a = put_count(out, 0, count);
    let b = put_areas(out, a, slots, listed(count));
    put_last(out, b, answer, index)
}

// Builds the area table of the order file at the start of the input in the lent slots, makes the late claims behind it one after the other
// up to the first that is refused, and puts the text at the start of the buffer.
pub fn late(input: &[u8], slots: &mut [u64; 1024], out: &mut [u8; 17500]) -> usize
    ensures writes { Writes out.old 0 (late_text 4096 input.now slots.old) out.new result }
    ensures slots_after { slots.new ≡ late_slots 4096 input.now slots.old }
{
    let end = order::file_end(input);
    let start = startup::init_map(&input[..end], slots);
    match start.report {
        Err(refusal) => put_refusal(out, refusal.number()),
        Ok(summary) => {
            let run = late_run::claim_all(start.map, slots, summary.count, &input[end..]);
            put_run(out, slots, run.count, run.answer, run.index)
        }
    }
}
