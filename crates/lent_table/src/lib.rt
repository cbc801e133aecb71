// The finished table where a caller lends it, as numbers: whether it can be one, and taking a range away from its areas in place. Nothing
// here knows of a map or of a claim.
//
// Slot k is the numbers at places k + k and k + k + 1, an area's base and its size, and the first n slots are in use: numbers and a count,
// since C lends them so. No base and size are added before it is known that the sum fits.
#![tactic(auto)]

ghost use Rattle.std.specs.Prelude.{◌≡◌, ◌+◌, ◌≤◌, ◌<◌, leb, length};
ghost use Rattle.areas.specs.Interval.{interval};
ghost use Rattle.lent_table.specs.Table.{good_area, good_table};
ghost use Rattle.lent_table.specs.Edit.{crowds, lent, edited};
ghost use Rattle.lent_table.specs.Steps.{Past, Inserted, Cleared, Slid, Trims, Trimmed, Rested, Splits, Parted};

use areas::Interval;

// T, the start of the last page: no area ends past it.
const TOP: u64 = 0xffff_ffff_ffff_f000;

// Whether this is an area of a table, where the areas before it let the next start at `least`: nonempty, of whole pages, and up to T at most.
// One test a line, since the last ones subtract and add what those before them allow.
fn good_area(least: u64, base: u64, size: u64) -> bool
    ensures { result ≡ good_area 4096 least (interval base (base + size)) }
{
    if base < least {
        return false;
    }
    if size == 0 {
        return false;
    }
    if base % page::PAGE_SIZE != 0 {
        return false;
    }
    if TOP < base {
        return false;
    }
    if TOP - base < size {
        return false;
    }
    (base + size) % page::PAGE_SIZE == 0
}

// Whether the first n slots can be a finished table: refusal 14 is that they cannot. The count comes first, so that only slots that are
// there are read. The next area starts past the end of the one before, and not at it: areas that touch would be one area.
pub fn good_table(slots: &[u64], n: usize) -> bool
    ensures { result ≡ good_table 4096 n slots.now }
{
    if slots.len() / 2 < n {
        return false;
    }
    let mut least: u64 = 0;
    for k in 0..n {
        let base = slots[k + k];
        let size = slots[k + k + 1];
        if !good_area(least, base, size) {
            return false;
        }
        least = base + size + 1;
    }
    true
}

// Whether an area ends at x or below. Its end itself may not fit.
fn ends_by(base: u64, size: u64, x: u64) -> bool
    ensures { result ≡ leb (base + size) x }
{
    if x < base {
        return false;
    }
    size <= x - base
}

// The first slot from `from` on whose area ends past x, or n where each ends at x or below. Slot by slot, since it answers for any numbers,
// and not only for areas that ascend.
fn past(slots: &[u64], from: usize, n: usize, x: u64) -> usize
    requires { (from ≤ n) × (n + n ≤ length slots.now) }
    ensures { Past slots.now from n x result }
{
    for k in from..n {
        let base = slots[k + k];
        let size = slots[k + k + 1];
        if !ends_by(base, size, x) {
            return k;
        }
    }
    n
}

// Puts an area into slot `at`, and moves the areas from there up to slot n one slot on.
fn insert_area(slots: &mut [u64], at: usize, n: usize, base: u64, size: u64)
    requires { (at ≤ n) × (n + n + 1 < length slots.old) }
    ensures { Inserted slots.old at n base size slots.new }
{
    slots.copy_within(at + at..n + n, at + at + 2);
    slots[at + at] = base;
    slots[at + at + 1] = size;
}

// Zeros in the places from `from` up to `to`: the areas there are gone.
fn clear(l: &mut [u64], from: usize, to: usize)
    requires { to ≤ length l.old }
    ensures { Cleared l.old from to l.new }
{
    if from < to {
        l[from..to].fill(0);
    }
}

// Moves the numbers from place `from` up to `end` down to place `to`, over zeros, which go behind them.
fn slide(l: &mut [u64], to: usize, from: usize, end: usize)
    requires { (to ≤ from) × (end ≤ length l.old) }
    ensures { Slid l.old to from end l.new }
{
    if from < end {
        l.copy_within(from..end, to);
        l[end - (from - to)..end].fill(0);
    }
}

// The area in slot j ends past hi: from here on it starts at hi at the earliest. Where j is n there is none.
fn trim_front(slots: &mut [u64], j: usize, n: usize, hi: u64)
    requires { Trims slots.old j n hi }
    ensures { Trimmed slots.old j n hi slots.new }
{
    if n <= j {
        return;
    }
    let base = slots[j + j];
    if hi <= base {
        return;
    }
    let size = slots[j + j + 1];
    slots[j + j] = hi;
    slots[j + j + 1] = size - (hi - base);
}

// Takes away what lies below hi of the areas from slot i on, and returns how many slots are in use then. Those before slot j, the first that
// ends past hi, are gone, and those from there on move down to slot i and leave zeros.
fn cut_rest(slots: &mut [u64], i: usize, n: usize, hi: u64) -> usize
    requires { (i ≤ n) × (n + n ≤ length slots.old) }
    ensures { Rested slots.old i n hi slots.new result }
{
    let j = past(slots, i, n, hi);
    trim_front(slots, j, n, hi);
    clear(slots, i + i, j + j);
    slide(slots, i + i, j + j, n + n);
    i + (n - j)
}

// The area in slot i reaches past the range on both sides: it stays up to the range's start, and what it is from the range's end on becomes an
// area of its own in the next slot. The areas after it move one slot on.
fn split_at(slots: &mut [u64], i: usize, n: usize, range: Interval)
    requires { Splits slots.old i n range }
    ensures { Parted slots.old i n range slots.new }
{
    let base = slots[i + i];
    let size = slots[i + i + 1];
    slots[i + i + 1] = range.lo - base;
    insert_area(slots, i + 1, n, range.hi, size - (range.hi - base));
}

// The first n areas less the range, where they stand, and how many they are then. Slot i is the first whose area ends past the range's start:
// all before it stay as they are, and the rest depends on where this one lies. Nothing changes where the range is empty, the slots are not
// there, or there is none for each area that is left.
pub fn edit(slots: &mut [u64], n: usize, range: Interval) -> usize
    ensures { lent result slots.new ≡ edited range n slots.old }
{
    if range.hi <= range.lo {
        return n;
    }
    if n > slots.len() / 2 {
        return n;
    }
    let i = past(slots, 0, n, range.lo);
    if n <= i {
        return n;
    }
    let base = slots[i + i];
    if range.hi <= base {
        return n;
    }
    if range.lo <= base {
        return cut_rest(slots, i, n, range.hi);
    }
    let size = slots[i + i + 1];
    if ends_by(base, size, range.hi) {
        slots[i + i + 1] = range.lo - base;
        return cut_rest(slots, i + 1, n, range.hi);
    }
    if slots.len() / 2 <= n {
        return n;
    }
    split_at(slots, i, n, range);
    n + 1
}

// Whether there is no slot for each area that is left when the range is taken away. That needs a slot more only where it makes two areas of
// one, the first that ends past the range's start. An empty range takes nothing away, and nothing is taken from slots that are not there.
pub fn crowded(slots: &[u64], n: usize, range: Interval) -> bool
    ensures { result ≡ crowds range n slots.now }
{
    if range.hi <= range.lo {
        return false;
    }
    if n != slots.len() / 2 {
        return false;
    }
    let i = past(slots, 0, n, range.lo);
    if n <= i {
        return false;
    }
    let base = slots[i + i];
    if range.lo <= base {
        return false;
    }
    let size = slots[i + i + 1];
    !ends_by(base, size, range.hi)
}
