// The rules of /reserved-memory: when its children count, which of them, and the one dynamic case that is exact.
#![tactic(auto)]

ghost use Rattle.std.specs.Prelude.{◌≡◌};
ghost use Rattle.subtree.specs.Subtree.{node_at, props_of};
ghost use Rattle.reserved.specs.Number.{cells_number};
ghost use Rattle.reserved.specs.Reserved.{available, stated_alike, children_count, exact_of};

use cells::{CellCount, Cells, RegRow, Region};
use fdt::Tree;

// The number in the first cells of some bytes, one cell or two; nothing where it cannot be read.
pub fn cells_to_usize(bytes: &[u8], cells: usize) -> Option<u64>
    ensures { result ≡ cells_number bytes.now cells }
{
    if cells == 1 {
        if bytes.len() < 4 {
            return None;
        }
        return Some(words::be32(bytes, 0) as u64);
    }
    if cells == 2 {
        if bytes.len() < 8 {
            return None;
        }
        return Some(words::be64(bytes, 0));
    }
    None
}

// Whether both nodes state the count, and the same one.
fn stated_alike(root: CellCount, own: CellCount) -> bool
    ensures { result ≡ stated_alike root own }
{
    match (root, own) {
        (CellCount::Stated(x), CellCount::Stated(y)) => x == y,
        _ => false,
    }
}

// Whether the children of /reserved-memory, at `node`, count.
pub fn children_count<'a>(tree: Tree<'a>, root: usize, node: usize) -> bool
    ensures { result ≡ children_count (props_of (node_at tree.entry.structure.now tree.entry.strings.now root)) (props_of (node_at tree.entry.structure.now tree.entry.strings.now node)) }
{
    // The counts are read one after the other and not by `cells_of`: each is looked for among all properties, and the first test may decide.
    let address = nodes::address_cells(tree, root);
    if !stated_alike(address, nodes::address_cells(tree, node)) {
        return false;
    }
    let size = nodes::size_cells(tree, root);
    if !stated_alike(size, nodes::size_cells(tree, node)) {
        return false;
    }
    match nodes::getprop(tree, node, b"ranges") {
        Some(ranges) => ranges.len == 0,
        None => false,
    }
}

// Whether a child of /reserved-memory counts by its `status`.
pub fn reserved_memory_node_is_available<'a>(tree: Tree<'a>, node: usize) -> bool
    ensures { result ≡ available (props_of (node_at tree.entry.structure.now tree.entry.strings.now node)) }
{
    match nodes::getprop(tree, node, b"status") {
        Some(value) => nodes::same(words::part(tree.structure, value.at, value.len), b"okay\0"),
        None => true,
    }
}

// The one region that a dynamic reservation can only be, where its `alloc-ranges` leave it no choice. Both values are read by
// /reserved-memory's own cells. Of the region's end only that it fits is asked, so it is no `checked_add`.
pub fn visit_exact_dynamic_reserved_memory_range<'a>(
    size: &'a [u8],
    ranges: &'a [u8],
    cells: Cells,
) -> Option<Region>
    ensures { result ≡ exact_of cells.address cells.size size.now ranges.now }
{
    let CellCount::Stated(count) = cells.size else {
        return None;
    };
    let bytes = cells_to_usize(size, count)?;
    if size.len() != count * 4 {
        return None;
    }
    let RegRow::RegAt(region) = cells::reg_row(ranges, cells, 0) else {
        return None;
    };
    let RegRow::PastReg = cells::reg_row(ranges, cells, 1) else {
        return None;
    };
    if bytes == 0 {
        return None;
    }
    if region.size != bytes {
        return None;
    }
    if 0xffff_ffff_ffff_ffff - region.address < bytes {
        return None;
    }
    Some(region)
}
