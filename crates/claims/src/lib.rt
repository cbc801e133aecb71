// What a tree claims, child by child, and what it is refused for. The list as a whole is a definition: specs/Claims.antt.
#![tactic(auto)]

ghost use Rattle.std.specs.Prelude.{◌≡◌, []};
ghost use Rattle.cells.specs.Rows.{rows, ranges_of};
ghost use Rattle.nodes.specs.Nav.{prop_at};
ghost use Rattle.subtree.specs.Names.{size_name, alloc_ranges_name};
ghost use Rattle.subtree.specs.Subtree.{node_at, at, root_at, props_of, Stands};
ghost use Rattle.claims.specs.Claims.{lands_by, kind_by, is_virt};
ghost use Rattle.claims.specs.Judging.{child_is, some_kid, bad_reg, bad_ranges, judged_of, value_fault_number};
ghost use Rattle.claims.specs.Values.{child_value, dynamic_at};
ghost use Rattle.claims.specs.declared.Way.TheVariants.{Reserve, Controllers};

use cells::{Cells, RangeRow, RegRow, Region};
use entry::BootloaderMemoryKind;
use fdt::{Block, Tree};
use numbers::Numbered;
use windows::{Bus, Window};

// By which rule children claim memory: as those of /reserved-memory, as those of /soc, or as the root's. A rule is a value and no trait, for
// definitions go by it as well.
#[derive(Clone, Copy)]
pub enum Way {
    Reserve,
    Soc,
    Controllers,
}

impl Way {
    // The kind of what is claimed.
    pub fn kind(self) -> u64
        ensures { result ≡ kind_by self }
    {
        match self {
            Way::Reserve => BootloaderMemoryKind::Reserved.number(),
            Way::Soc | Way::Controllers => BootloaderMemoryKind::Device.number(),
        }
    }
}

// What a tree is refused for, beyond its form. The calls above repeat these cases among their own: a number as discriminant wants a flat enum.
#[derive(Clone, Copy)]
pub enum ValueFault {
    UnreadableReg = 7,
    UnreadableRanges = 8,
}

impl Numbered for ValueFault {
    ghost number_of = { value_fault_number };

    fn number(self) -> u8 {
        self as u8
    }
}

// A region of the root's child: there is no bus to go through, and so its end alone is looked at. The end of translation tests it alike, but
// each has a definition of its own.
fn at_root(region: Region) -> Window
    ensures { result ≡ lands_by Controllers (rows []) region.address region.size }
{
    if region.size == 0 {
        return Window::To(region.address);
    }
    if 0xffff_ffff_ffff_ffff - region.address < region.size - 1 {
        return Window::Nowhere;
    }
    Window::To(region.address)
}

// Where a region lies, by the rule of its parent. `bus` is /soc, and is read for its children alone.
pub fn lands<'a>(way: Way, bus: Bus<'a>, region: Region) -> Window
    ensures { result ≡ lands_by way (ranges_of bus.entry.own.address bus.entry.parent bus.entry.own.size bus.entry.ranges.now) region.address region.size }
{
    match way {
        Way::Reserve => Window::To(region.address),
        Way::Soc => windows::get_mmio_address(bus, region),
        Way::Controllers => at_root(region),
    }
}

// The value of `alloc-ranges` of a dynamic reservation, where it leaves no choice.
fn dynamic_value<'a>(tree: Tree<'a>, child: usize, cells: Cells) -> Option<Block>
    ensures { result ≡ dynamic_at tree.entry.structure.now cells.address cells.size (prop_at tree.entry.structure.now tree.entry.strings.now child size_name) (prop_at tree.entry.structure.now tree.entry.strings.now child alloc_ranges_name) }
{
    let bytes = nodes::getprop(tree, child, b"size")?;
    let ranges = nodes::getprop(tree, child, b"alloc-ranges")?;
    reserved::visit_exact_dynamic_reserved_memory_range(
        words::part(tree.structure, bytes.at, bytes.len),
        words::part(tree.structure, ranges.at, ranges.len),
        cells,
    )?;
    Some(ranges)
}

// The value of a reserved child's entries: its `reg`, or that of an exact dynamic reservation.
fn reserved_value<'a>(tree: Tree<'a>, child: usize, cells: Cells) -> Option<Block>
    ensures { result ≡ child_value tree.entry.structure.now tree.entry.strings.now Reserve cells.address cells.size child }
{
    if !reserved::reserved_memory_node_is_available(tree, child) {
        return None;
    }
    match nodes::getprop(tree, child, b"reg") {
        Some(reg) => Some(reg),
        None => dynamic_value(tree, child, cells),
    }
}

// The value whose entries a child claims, by the rule and the cells of its parent.
pub fn child_value<'a>(tree: Tree<'a>, way: Way, cells: Cells, child: usize) -> Option<Block>
    ensures { result ≡ child_value tree.entry.structure.now tree.entry.strings.now way cells.address cells.size child }
{
    match way {
        Way::Reserve => reserved_value(tree, child, cells),
        Way::Soc => nodes::getprop(tree, child, b"reg"),
        Way::Controllers => {
            // No `?`: what a child without the property gives stands here, where a must-fail edit gives another value.
            let Some(_) = nodes::getprop(tree, child, b"interrupt-controller") else {
                return None;
            };
            nodes::getprop(tree, child, b"reg")
        }
    }
}

// Whether the tree is that of a virtual board whose devices the build knows.
#[tactic(auto, unfolding(crate::specs::Claims::is_virt))]
pub fn is_qemu_virt<'a>(tree: Tree<'a>, arm: bool) -> bool
    ensures { result ≡ is_virt arm (root_at tree.entry.structure.now tree.entry.strings.now) }
{
    if !arm {
        return false;
    }
    let Some(root) = nodes::path_offset(tree, b"/") else {
        return false;
    };
    let Some(model) = text::string_of(tree, root, b"model") else {
        return false;
    };
    text::holds(
        words::part(tree.structure, model.at, model.len),
        b"linux,dummy-virt",
    )
}

// Whether a child is a counted reserved one whose `reg` cannot be read, where `reserved`, or else one that has a readable entry. `reserved` is
// the definition's own argument.
fn child_is<'a>(tree: Tree<'a>, child: usize, cells: Cells, reserved: bool) -> bool
    ensures { result ≡ child_is reserved cells.address cells.size (props_of (node_at tree.entry.structure.now tree.entry.strings.now child)) }
{
    let Some(reg) = nodes::getprop(tree, child, b"reg") else {
        return false;
    };
    let value = words::part(tree.structure, reg.at, reg.len);
    let first = cells::reg_row(value, cells, 0);
    if reserved {
        if !reserved::reserved_memory_node_is_available(tree, child) {
            return false;
        }
        return matches!(first, RegRow::NoReg);
    }
    matches!(first, RegRow::RegAt(_))
}

// Whether some child from a first one on is a counted reserved one with an unreadable `reg`, or else has a readable entry.
fn some_child<'a>(tree: Tree<'a>, first: Option<usize>, cells: Cells, reserved: bool) -> bool
    requires { Stands tree.structure.now tree.strings.now first }
    ensures { result ≡ some_kid reserved cells.address cells.size (at tree.entry.structure.now tree.entry.strings.now first) }
{
    let mut child = first;
    while let Some(node) = child {
        if child_is(tree, node, cells, reserved) {
            return true;
        }
        child = nodes::next_subnode(tree, node);
    }
    false
}

// Whether a counted child of /reserved-memory has a `reg` that cannot be read.
fn bad_reg<'a>(tree: Tree<'a>, root: usize) -> bool
    ensures { result ≡ bad_reg (node_at tree.entry.structure.now tree.entry.strings.now root) }
{
    let Some(node) = nodes::subnode(tree, root, b"reserved-memory") else {
        return false;
    };
    if !reserved::children_count(tree, root, node) {
        return false;
    }
    let first = nodes::first_subnode(tree, node);
    some_child(tree, first, nodes::cells_of(tree, node), true)
}

// Whether an entry of /soc's children meets a `ranges` that cannot be read.
fn bad_ranges<'a>(tree: Tree<'a>, root: usize) -> bool
    ensures { result ≡ bad_ranges (node_at tree.entry.structure.now tree.entry.strings.now root) }
{
    let Some(soc) = nodes::subnode(tree, root, b"soc") else {
        return false;
    };
    let Some(ranges) = nodes::getprop(tree, soc, b"ranges") else {
        return false;
    };
    let value = words::part(tree.structure, ranges.at, ranges.len);
    let own = nodes::cells_of(tree, soc);
    let parent = nodes::address_cells(tree, root);
    let RangeRow::NoRange = cells::range_row(value, own, parent, 0) else {
        return false;
    };
    let first = nodes::first_subnode(tree, soc);
    some_child(tree, first, own, false)
}

// What the tree is refused for: 7 is judged before 8, and both before its first claim is registered.
pub fn judge<'a>(tree: Tree<'a>, arm: bool) -> Result<(), ValueFault>
    ensures { result ≡ judged_of arm (root_at tree.entry.structure.now tree.entry.strings.now) }
{
    let Some(root) = nodes::path_offset(tree, b"/") else {
        return Ok(());
    };
    if bad_reg(tree, root) {
        return Err(ValueFault::UnreadableReg);
    }
    if is_qemu_virt(tree, arm) {
        return Ok(());
    }
    if bad_ranges(tree, root) {
        return Err(ValueFault::UnreadableRanges);
    }
    Ok(())
}
