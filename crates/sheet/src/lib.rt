// The page sheet: how many pages are Free inside the limits, how many of them are usable, and the share of the one in the other.
#![tactic(auto)]

ghost use Rattle.std.specs.Prelude.{◌≡◌};
ghost use Rattle.memory.specs.Made.{Made};
ghost use Rattle.sheet.specs.Share.{counted, share_of, bits_of};
ghost use Rattle.sheet.specs.Sheet.{free_pages, slot_pages, slots_to, sheet_of};

use entry::BootloaderMemoryKind;
use memory::MemoryMap;
use page::PAGE_SIZE;

// How many pages are Free and how many usable, and the share usable over Free: none where no page is Free.
#[derive(Clone, Copy)]
pub struct PageSheet {
    pub free: u64,
    pub usable: u64,
    pub share: Option<f64>,
}

// A count as one below 2^52, so that a float holds it whole.
#[tactic(auto, unfolding(crate::specs::Share::counted))]
fn counted_as(count: u64) -> u64
    ensures { result ≡ counted count }
{
    count.min(0xf_ffff_ffff_ffff)
}

// One division, rounded once; none where no page is Free.
pub fn share_of(free: u64, usable: u64) -> Option<f64>
    ensures { result ≡ share_of free usable }
{
    if free == 0 {
        return None;
    }
    let part = counted_as(usable) as f64;
    let whole = counted_as(free) as f64;
    Some(part / whole)
}

// The bits of the share of two counts. A share of counts is never a NaN, so it has bits.
pub fn share_bits(free: u64, usable: u64) -> Option<u64>
    ensures { result ≡ bits_of (share_of free usable) }
{
    let share = share_of(free, usable)?;
    Some(share.to_bits())
}

// The sheet of two counts.
pub fn page_sheet(free: u64, usable: u64) -> PageSheet
    ensures { result ≡ sheet_of free usable }
{
    PageSheet {
        free,
        usable,
        share: share_of(free, usable),
    }
}

// The Free pages of a map inside the limits, which are the Rust's two parameters.
pub fn free_pages(map: MemoryMap, low: Option<u64>, high: Option<u64>) -> u64
    requires { Made 4096 map }
    ensures { result ≡ free_pages 4096 low high map }
{
    let limits = areas::limits(low, high);
    let mut pages: u64 = 0;
    for held in &map.entries[..map.size] {
        if held.kind == BootloaderMemoryKind::Free.number() {
            if let Some(part) = held.intersect(limits) {
                pages += (part.end - part.start) / PAGE_SIZE;
            }
        }
    }
    pages
}

// The pages of the first n areas of a table, lent as `lent_table` says, capped at 2^64 - 1: a table of a map never comes near.
pub fn usable_pages(slots: &[u64], n: usize) -> u64
    ensures { result ≡ slot_pages 4096 slots.now (slots_to slots.now n) 0 }
{
    let mut pages: u64 = 0;
    for i in 0..n.min(slots.len() / 2) {
        pages = page::saturating_add(pages, slots[i + i + 1] / PAGE_SIZE);
    }
    pages
}
