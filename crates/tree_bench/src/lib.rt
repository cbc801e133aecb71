// What trees/bench.c times of our reader: a call that C can make.
#![tactic(auto)]

ghost use Rattle.std.specs.Prelude.{◌≡◌};
ghost use Rattle.fdt.specs.Opening.{opened_number, opened_of};

use numbers::Numbered;

// Opens a tree, and answers the number of what that says.
#[unsafe(no_mangle)]
pub extern "C" fn bench_open(s: &[u8]) -> u8
    ensures { result ≡ opened_number (opened_of s.now) }
{
    fdt::open_tree(s).number()
}
