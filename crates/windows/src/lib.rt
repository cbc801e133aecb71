// The two ways that an address goes through the `ranges` of a bus: the soc window, and translation. They differ in the byte at a
// window's end, and so each has a rule of its own.
#![tactic(auto)]

ghost use Rattle.std.specs.Prelude.{◌≡◌, true, false};
ghost use Rattle.cells.specs.Rows.{ranges_of};
ghost use Rattle.windows.specs.Window.{reach, last_byte, landing, fit_soc, fit_bus, fit_by, window};

use cells::{CellCount, Cells, Range, RangeRow, Region};

// A bus, as its regions are read: the value of its `ranges`, what its own cell properties say, and its parent's address cells.
#[derive(Clone, Copy)]
pub struct Bus<'a> {
    pub ranges: &'a [u8],
    pub own: Cells,
    pub parent: CellCount,
}

// Where an address leads: to another; nowhere; or the value cannot be read. Three ways, each named by definitions, so it is no Result.
#[derive(Clone, Copy)]
pub enum Window {
    To(u64),
    Nowhere,
    Unreadable,
}

// What one range does with a region: it takes it to an address; it takes it, and the sum does not fit; or it does not have it.
// Three ways, as in Window.
#[derive(Clone, Copy)]
enum Fit {
    Gives(u64),
    Over,
    Not,
}

// How far past its first byte a region's last byte lies; a region of no bytes counts as one of one byte.
#[tactic(auto, unfolding(crate::specs::Window::reach))]
fn reach_of(size: u64) -> u64
    ensures { result ≡ reach size }
{
    size.saturating_sub(1)
}

// The parent's address that lies `offset` bytes into the range, where that and the region's last byte fit. Of the second sum only that it
// fits is asked, so neither is a `checked_add`.
fn land(parent: u64, offset: u64, last: u64) -> Fit
    ensures { result ≡ landing parent offset last }
{
    if u64::MAX - parent < offset {
        return Fit::Over;
    }
    let to = parent + offset;
    if u64::MAX - to < last {
        return Fit::Over;
    }
    Fit::Gives(to)
}

// The address of a region's last byte, or the largest address where that lies past it.
#[tactic(auto, unfolding(crate::specs::Window::last_byte))]
fn last_of(region: Region) -> u64
    ensures { result ≡ last_byte region.address region.size }
{
    region.address.saturating_add(reach_of(region.size))
}

// The soc window's rule.
fn fit_soc(range: Range, region: Region) -> Fit
    ensures { result ≡ fit_soc range region.address region.size }
{
    if region.address < range.child {
        return Fit::Not;
    }
    let last = last_of(region);
    if range.size < last - range.child {
        return Fit::Not;
    }
    land(
        range.parent,
        region.address - range.child,
        reach_of(region.size),
    )
}

// Translation's rule.
fn fit_bus(range: Range, region: Region) -> Fit
    ensures { result ≡ fit_bus range region.address region.size }
{
    if region.address < range.child {
        return Fit::Not;
    }
    let offset = region.address - range.child;
    if range.size <= offset {
        return Fit::Not;
    }
    if range.size - offset <= reach_of(region.size) {
        return Fit::Not;
    }
    land(range.parent, offset, 0)
}

// By the one rule or the other: `soc` is the definition's own argument.
fn fit_by(soc: bool, range: Range, region: Region) -> Fit
    ensures { result ≡ fit_by soc range region.address region.size }
{
    if soc {
        return fit_soc(range, region);
    }
    fit_bus(range, region)
}

// A region through the `ranges` of a bus: the first range that has it decides.
fn through<'a>(soc: bool, bus: Bus<'a>, region: Region) -> Window
    ensures { result ≡ window soc (ranges_of bus.entry.own.address bus.entry.parent bus.entry.own.size bus.entry.ranges.now) region.address region.size }
{
    let mut i: usize = 0;
    // A `loop`: how many rows there are is told by range_row alone.
    loop {
        match cells::range_row(bus.ranges, bus.own, bus.parent, i) {
            RangeRow::NoRange => {
                return Window::Unreadable;
            }
            RangeRow::PastRange => {
                if i == 0 {
                    return Window::To(region.address);
                }
                return Window::Nowhere;
            }
            RangeRow::RangeAt(range) => match fit_by(soc, range, region) {
                Fit::Gives(to) => {
                    return Window::To(to);
                }
                Fit::Over => {
                    return Window::Nowhere;
                }
                Fit::Not => {
                    i += 1;
                }
            },
        }
    }
}

// A region of /soc's child through the soc window.
pub fn get_mmio_address<'a>(bus: Bus<'a>, region: Region) -> Window
    ensures { result ≡ window true (ranges_of bus.entry.own.address bus.entry.parent bus.entry.own.size bus.entry.ranges.now) region.address region.size }
{
    through(true, bus, region)
}

// A region on a bus to the bus's parent.
pub fn translate_bus_address<'a>(bus: Bus<'a>, region: Region) -> Window
    ensures { result ≡ window false (ranges_of bus.entry.own.address bus.entry.parent bus.entry.own.size bus.entry.ranges.now) region.address region.size }
{
    through(false, bus, region)
}
