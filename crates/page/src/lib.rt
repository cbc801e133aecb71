// Rounding to pages: the leaf that every registration and every limit stands on.
#![tactic(auto)]

ghost use Rattle.std.specs.Prelude.{◌≡◌};
ghost use Rattle.page.specs.Round.{down, up, ending};

// Code and its contracts say 4,096; the definitions hold for every page size.
pub const PAGE_SIZE: u64 = 4096;

// The greatest multiple of the page size that is not above x.
pub fn align_down(x: u64) -> u64
    ensures { result ≡ down 4096 x }
{
    x / PAGE_SIZE * PAGE_SIZE
}

// Where a range ends: base + size, or the largest address where that does not fit. A promise has this name, so it stands beside the
// library's.
#[tactic(auto, unfolding(crate::specs::Round::ending))]
pub fn saturating_add(base: u64, size: u64) -> u64
    ensures { result ≡ ending base size }
{
    base.saturating_add(size)
}

// The least multiple of the page size that is not below x, but the last page's start for every x above it.
pub fn align_up(x: u64) -> u64
    ensures { result ≡ up 4096 x }
{
    align_down(saturating_add(x, PAGE_SIZE - 1))
}
