// The programs `report` and `late` for C, which calls them with no argument: a stream takes no bytes, so that nothing is passed for it.
#![tactic(auto)]

ghost use Rattle.std.specs.Prelude.{◌≤◌};

use std::io::{Stderr, Stdin, Stdout};

// `program::report` with its exit status, which is one of those of `standard::status`.
#[unsafe(no_mangle)]
pub extern "C" fn wharfthrum_program(mut input: Stdin, mut output: Stdout, told: Stderr) -> u8
    ensures { result ≤ 2 }
{
    standard::status(program::report(&mut input, &mut output, &told))
}

// The same for `program::late`.
#[unsafe(no_mangle)]
pub extern "C" fn wharfthrum_late_program(mut input: Stdin, mut output: Stdout, told: Stderr) -> u8
    ensures { result ≤ 2 }
{
    standard::status(program::late(&mut input, &mut output, &told))
}
