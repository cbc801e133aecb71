// The memory reservation block: its bounds, and its entries as they stand. Devicetree Specification v0.4, section 5.3.
#![tactic(auto)]

ghost use Rattle.std.specs.Prelude.{◌≡◌};
ghost use Rattle.reservations.specs.Reservations.{block_in, entry_of};

use cells::Region;
use fdt::Blocks;

// An entry by its number: an address and a size; the end, (0, 0); or that no whole entry is left. Three ways, as its
// definition has them, so it is no Option.
#[derive(Clone, Copy)]
pub enum Reservation {
    Entry(Region),
    End,
    Past,
}

// The bytes of the block: from its offset up to the structure block; none where the block is skipped.
pub fn reservation_block(s: &[u8], blocks: Blocks) -> &[u8]
    ensures { result.now ≡ block_in s.now blocks }
{
    let at = blocks.reservations;
    let end = blocks.structure.at;
    if at < 40 {
        return words::part(s, 0, 0);
    }
    if at % 8 != 0 {
        return words::part(s, 0, 0);
    }
    if end < at {
        return words::part(s, 0, 0);
    }
    words::part(s, at, end - at)
}

// Entry i of the block.
#[tactic(auto, unfolding(crate::specs::Reservations::entry_of))]
pub fn reserved_entry(block: &[u8], i: usize) -> Reservation
    ensures { result ≡ entry_of block.now i }
{
    if block.len() / 16 <= i {
        return Reservation::Past;
    }
    let address = words::be64(block, i * 16);
    let size = words::be64(block, i * 16 + 8);
    if address != 0 {
        return Reservation::Entry(Region { address, size });
    }
    if size != 0 {
        return Reservation::Entry(Region { address, size });
    }
    Reservation::End
}
