// The programs `report` and `late` as functions over the streams that they are lent, which answer how they ended. The programs of those names
// lend the streams of their runtime; `program_c` offers both functions to C. There is no heap: what is read and the text are arrays with a
// length beside.
#![tactic(auto)]

ghost use Rattle.std.specs.Prelude.{◌≡◌};
ghost use Rattle.program.specs.Whole.{Reports, ReportsLate, SilentUnread, RefusesLong};

use standard::Failure;
use std::io::{Read, Write};

// Reads an order file from standard input and writes its report to standard output. Up to 65,536 bytes are read and one more, which is
// refused; 512 slots are lent. A refusal's report is written as any other.
pub fn report<R: Read, W: Write, E: Eprint>(
    input: &mut R,
    output: &mut W,
    told: &E,
) -> Result<(), Failure>
    ensures text { Reports (R.remaining input.old) (W.contents output.old) (W.contents output.new) result }
    ensures unread { SilentUnread (W.contents output.old) (W.contents output.new) result }
{
    let mut file = [0u8; 65537];
    let n = standard::read_all(input, told, &mut file)?;
    let mut slots = [0u64; 1024];
    let mut text = [0u8; 17500];
    let k = report_text::report(&file[..n], &mut slots, &mut text);
    standard::write_all(output, told, &text[..k])
}

// Reads an order file with late claims behind it from standard input, makes them, and writes the areas and how many were made to standard
// output. Up to 262,144 bytes are read, which is the longest order file and 8,192 claims, and one more: where that is there, nothing is
// done, so that no claim is lost unseen. 512 slots are lent.
pub fn late<R: Read, W: Write, E: Eprint>(
    input: &mut R,
    output: &mut W,
    told: &E,
) -> Result<(), Failure>
    ensures text { ReportsLate (R.remaining input.old) (W.contents output.old) (W.contents output.new) result }
    ensures long { RefusesLong (R.remaining input.old) result }
    ensures unread { SilentUnread (W.contents output.old) (W.contents output.new) result }
{
    let mut space = [0u8; 262145];
    let n = standard::read_all(input, told, &mut space)?;
    if 262144 < n {
        let _ = told.eprintln("late: more than 262144 bytes on standard input");
        return Err(Failure::Unread);
    }
    let mut slots = [0u64; 1024];
    let mut text = [0u8; 17500];
    let k = report_text::late(&space[..n], &mut slots, &mut text);
    standard::write_all(output, told, &text[..k])
}
