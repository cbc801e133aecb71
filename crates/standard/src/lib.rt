// Standard input and standard output for programs. A read or a write that fails is told on standard error, with what failed and why.
// No contract can say which bytes the system gives or takes: a contract says how many of a space hold what was read, and which bytes these
// are of a reader whose bytes are known, as of one over memory.
//
// A program's `main` lends its runtime's streams; a function that C calls has them as parameters, which take no bytes.
#![tactic(auto)]

ghost use Rattle.std.specs.Prelude.{◌≤◌, ◌≡◌, ◌≢◌, Err};
ghost use Rattle.standard.specs.Input.{Holds, Reads, ReadsAll};
ghost use Rattle.standard.specs.Status.{status_of, Writes};

use std::fmt::InlineText;
use std::io::{Error, Read, Write};

// What a program could not do: read, or more came than it takes, and nothing is written then; or write.
#[derive(Clone, Copy)]
pub enum Failure {
    Unread,
    Unwritten,
}

// The exit status of a program that reads and then writes.
pub fn status(ended: Result<(), Failure>) -> u8
    ensures value { result ≡ status_of ended }
    ensures upper_bound { result ≤ 2 }
{
    match ended {
        Ok(()) => 0,
        Err(Failure::Unread) => 1,
        Err(Failure::Unwritten) => 2,
    }
}

// Tells on standard error what failed and why, in the system's words and without their number.
fn tell<E: Eprint>(told: &E, what: &str, error: Error) {
    let text = InlineText::<256>::of(error);
    let words = text.as_str();
    let why = match words.split_once(" (os error ") {
        Some((why, _)) => why,
        None => words,
    };
    let _ = told.eprintln(format_args!("{what}: {why}"));
}

// One read: how many bytes it put at the start of the space. They are none where the input has ended.
fn read_some<R: Read, E: Eprint>(
    input: &mut R,
    told: &E,
    space: &mut [u8],
) -> Result<usize, Failure>
    ensures held { Holds space.new result }
    ensures bytes { Reads (R.remaining input.old) (R.remaining input.new) space.new result }
{
    match input.read(space) {
        Ok(got) => Ok(got),
        Err(error) => {
            tell(told, "standard input", error);
            Err(Failure::Unread)
        }
    }
}

// Reads standard input until it ends or the space is full, in however many pieces it comes.
pub fn read_all<R: Read, E: Eprint>(
    input: &mut R,
    told: &E,
    space: &mut [u8],
) -> Result<usize, Failure>
    ensures held { Holds space.new result }
    ensures bytes { ReadsAll (R.remaining input.old) (R.remaining input.new) space.new result }
{
    let mut have: usize = 0;
    // A `while`: a read gives as many bytes as it likes, so no `for` counts them. The library's `read_to_end` fills a `Vec`, and there is no heap.
    while have < space.len() {
        let more = read_some(input, told, &mut space[have..])?;
        if more == 0 {
            return Ok(have);
        }
        have += more;
    }
    Ok(have)
}

// Writes all of a text to standard output.
pub fn write_all<W: Write, E: Eprint>(output: &mut W, told: &E, text: &[u8]) -> Result<(), Failure>
    ensures bytes { Writes (W.contents output.old) (W.contents output.new) text.now result }
    ensures no_read { result ≢ Err Failure.Unread }
{
    match output.write_all(text) {
        Ok(()) => Ok(()),
        Err(error) => {
            tell(told, "standard output", error);
            Err(Failure::Unwritten)
        }
    }
}
