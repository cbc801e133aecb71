// A stream of cases on standard input, each with the answers of another program: the bytes of it that are held, the
// numbers in them, and the tally of what differs. Each program lends a space for the bytes that has room for its largest
// case, with a count of those held beside it: there is no heap. No contract can say what the system gives or takes, so
// `refill` and `report` have none.
#![tactic(auto)]

ghost use Rattle.std.specs.Prelude.{◌≡◌, ◌+◌, ◌*◌, ◌<◌};
ghost use Rattle.stream.specs.Cases.{NumberAt, Three, Tells, Ahead, none, and_case};

use std::io::{Read, Result};

// How many cases there were, how many of them differ, and the first that does, counted from 0, with its part. `cut` says
// that the stream ended, or made no sense, in the midst of a case. The first is no Option: `none` and `and_case`, by which
// the contracts speak, have it as two numbers.
#[derive(Clone, Copy)]
pub struct Tally {
    pub cases: u64,
    pub differ: u64,
    pub case: u64,
    pub part: u64,
    pub cut: bool,
}

// The number in the 8 bytes at a place, the lowest byte first, or 0 where the space does not have them: no Option, since
// `NumberAt` says so, and words reads so too.
pub fn word(space: &[u8], at: usize) -> u64
    ensures { NumberAt space.now at result }
{
    if space.len() < 8 {
        return 0;
    }
    if space.len() - 8 < at {
        return 0;
    }
    words::le64(space, at)
}

// The place so many bytes further on, or the end of the space where that lies past it.
pub fn forward(space: &[u8], at: usize, bytes: u64) -> usize
    ensures { Ahead space.now at bytes result }
{
    at.saturating_add(bytes as usize).min(space.len())
}

// The same for numbers.
pub fn past(space: &[u8], at: usize, words: u64) -> usize
    ensures { Ahead space.now at (words * 8) result }
{
    forward(space, at, words.saturating_mul(8))
}

// The same for registrations, claims and entries of a map, of three numbers each.
pub fn past_threes(space: &[u8], at: usize, count: u64) -> usize
    ensures { Ahead space.now at (count * 24) result }
{
    forward(space, at, count.saturating_mul(24))
}

// The number that stands so many numbers further on, or 0 where the space does not have it.
pub fn nth(space: &[u8], at: usize, n: u64) -> u64
    ensures { NumberAt space.now (at + n * 8) result }
{
    word(space, past(space, at, n))
}

// Whether three numbers stand at a place.
pub fn is_three(space: &[u8], at: usize, a: u64, b: u64, c: u64) -> bool
    ensures { Tells result (Three space.now at a b c) }
{
    word(space, at) == a && nth(space, at, 1) == b && nth(space, at, 2) == c
}

// Moves the bytes from `at` up to `have` to the front, and answers how many they are.
fn shift(space: &mut [u8], at: usize, have: usize) -> usize {
    if space.len() < have {
        return 0;
    }
    if have < at {
        return 0;
    }
    space.copy_within(at..have, 0);
    have - at
}

// Fills the space behind its first `have` bytes from standard input, and answers how many there are then. A read that fails is told, and
// is then the end of the stream.
fn fill<R: Read, E: Eprint>(input: &mut R, told: &E, space: &mut [u8], have: usize) -> usize {
    if space.len() <= have {
        return have;
    }
    let Ok(more) = standard::read_all(input, told, &mut space[have..]) else {
        return have;
    };
    have + more
}

// Reads on: the bytes from `at` up to `have` go to the front, and behind them come as many as there are and have room.
// Answers how many are held then.
pub fn refill<R: Read, E: Eprint>(
    input: &mut R,
    told: &E,
    space: &mut [u8],
    at: usize,
    have: usize,
) -> usize {
    let kept = shift(space, at, have);
    fill(input, told, space, kept)
}

// Before the first case.
pub fn fresh() -> Tally
    ensures { result ≡ none }
{
    Tally {
        cases: 0,
        differ: 0,
        case: 0,
        part: 0,
        cut: false,
    }
}

// With one case more, and the part of it that differs, or 0: no Option, since `and_case` takes a number.
#[tactic(auto, unfolding(crate::specs::Cases::and_case))]
pub fn counted(tally: Tally, part: u64) -> Tally
    ensures { result ≡ and_case tally part }
{
    let mut t = tally;
    t.cases = tally.cases.wrapping_add(1);
    if part == 0 {
        return t;
    }
    if tally.differ == 0 {
        t.differ = 1;
        t.case = tally.cases;
        t.part = part;
        return t;
    }
    t.differ = tally.differ.wrapping_add(1);
    t
}

fn print<P: Print>(out: &P, label: &[u8], n: u64) -> Result<()> {
    out.write_all(label)?;
    out.println(n)
}

// Writes a tally to standard output. `name` is what one case is called. It ends at the first write that fails.
pub fn report<P: Print>(out: &P, tally: Tally, name: &[u8]) -> Result<()> {
    if tally.cut {
        out.write_all(b"cut off\n")?;
    }
    out.write_all(name)?;
    print(out, b"s ", tally.cases)?;
    print(out, b"differ ", tally.differ)?;
    if tally.differ != 0 {
        out.write_all(b"first differs: ")?;
        out.write_all(name)?;
        print(out, b" ", tally.case)?;
        print(out, b"in part ", tally.part)?;
    }
    Ok(())
}
