// Translation of a device's bus address through every ancestor's `ranges`, with the number of nodes tried. One routine tries a node as
// the target, the other runs over its children; the levels that are left fall.
#![tactic(auto)]

ghost use Rattle.std.specs.Prelude.{◌≡◌, ◌+◌, Some};
ghost use Rattle.nodes.specs.OnTree.{kids_of};
ghost use Rattle.subtree.specs.Names.{reg_name};
ghost use Rattle.subtree.specs.Subtree.{node_at, at, root_at, props_of};
ghost use Rattle.translation.specs.Translation.{over, start_of, address_of, size_of, translated, tried_number};
ghost use Rattle.translation.specs.Search.{begun_at, up_through, tried, searched, finished, Begins};
ghost use Rattle.reading.specs.Values.{value_of};

use cells::{CellCount, Cells, RegRow, Region};
use fdt::Tree;
use windows::{Bus, Window};

// What is translated: a given region of the target, or the first entry of its `reg`. The second is a region too, and not the lack of one, so
// this is no Option.
#[derive(Clone, Copy)]
pub enum Sought {
    Given(Region),
    FirstReg,
}

// The region at its translated address, with the number of nodes tried.
#[derive(Clone, Copy)]
pub struct Translated {
    pub region: Region,
    pub tried: usize,
}

// How many nodes were tried; 0 where there is no address.
pub fn number(found: Option<Translated>) -> usize
    ensures { result ≡ tried_number found }
{
    match found {
        Some(translated) => translated.tried,
        None => 0,
    }
}

// A search under way: the target's address and size so far and the number of nodes tried; the target was met and has no address; or it
// was not met among so many nodes. Three ways, each named by definitions, so it is no Option.
#[derive(Clone, Copy)]
enum Search {
    Gone(u64, u64, usize),
    Lost,
    On(usize),
}

// The target's region, by its parent's cells.
fn begin_at<'a>(tree: Tree<'a>, node: usize, cells: Cells, sought: Sought, number: usize) -> Search
    ensures { result ≡ begun_at (start_of sought cells.address cells.size (value_of reg_name (props_of (node_at tree.entry.structure.now tree.entry.strings.now node)))) number }
{
    match sought {
        Sought::Given(region) => Search::Gone(region.address, region.size, number),
        Sought::FirstReg => match nodes::getprop(tree, node, b"reg") {
            Some(reg) => {
                let value = words::part(tree.structure, reg.at, reg.len);
                match cells::reg_row(value, cells, 0) {
                    RegRow::RegAt(region) => Search::Gone(region.address, region.size, number),
                    RegRow::PastReg | RegRow::NoReg => Search::Lost,
                }
            }
            None => Search::Lost,
        },
    }
}

// A region through the bus at a place, whose parent has such address cells.
fn over_bus<'a>(tree: Tree<'a>, node: usize, parent: CellCount, region: Region) -> Window
    ensures { result ≡ over (props_of (node_at tree.entry.structure.now tree.entry.strings.now node)) parent region.address region.size }
{
    match nodes::getprop(tree, node, b"ranges") {
        Some(value) => {
            let bus = Bus {
                ranges: words::part(tree.structure, value.at, value.len),
                own: nodes::cells_of(tree, node),
                parent,
            };
            windows::translate_bus_address(bus, region)
        }
        None => Window::Nowhere,
    }
}

// What the children of the node at a place gave, through the node itself.
fn up_through<'a>(tree: Tree<'a>, bus: usize, parent: CellCount, found: Search) -> Search
    ensures { result ≡ up_through (λ x size. over (props_of (node_at tree.entry.structure.now tree.entry.strings.now bus)) parent x size) found }
{
    let Search::Gone(address, size, number) = found else {
        return found;
    };
    match over_bus(tree, bus, parent, Region { address, size }) {
        Window::To(to) => Search::Gone(to, size, number),
        Window::Nowhere | Window::Unreadable => Search::Lost,
    }
}

// Tries the node at a place as the target, and then its children. So many nodes were tried before it.
#[cycle(translate_from_children_translate_from_subtree)]
fn translate_from_subtree<'a>(
    tree: Tree<'a>,
    node: usize,
    cells: Cells,
    target: usize,
    sought: Sought,
    before: usize,
) -> Search
    requires { Begins tree.structure.now tree.strings.now (Some node) before }
    ensures { result ≡ tried target sought node (props_of (node_at tree.entry.structure.now tree.entry.strings.now node)) cells.address cells.size before (searched target sought (kids_of (node_at tree.entry.structure.now tree.entry.strings.now node)) (address_of (props_of (node_at tree.entry.structure.now tree.entry.strings.now node))) (size_of (props_of (node_at tree.entry.structure.now tree.entry.strings.now node))) (before + 1)) }
{
    if node == target {
        return begin_at(tree, node, cells, sought, before + 1);
    }
    let inner = translate_from_children(
        tree,
        nodes::first_subnode(tree, node),
        nodes::cells_of(tree, node),
        target,
        sought,
        before + 1,
    );
    up_through(tree, node, cells.address, inner)
}

// Tries the nodes from a first one on, which have a parent with these cells.
#[cycle(translate_from_children_translate_from_subtree)]
fn translate_from_children<'a>(
    tree: Tree<'a>,
    first: Option<usize>,
    cells: Cells,
    target: usize,
    sought: Sought,
    before: usize,
) -> Search
    requires { Begins tree.structure.now tree.strings.now first before }
    ensures { result ≡ searched target sought (at tree.entry.structure.now tree.entry.strings.now first) cells.address cells.size before }
{
    let mut child = first;
    let mut tried = before;
    while let Some(node) = child {
        let found = translate_from_subtree(tree, node, cells, target, sought, tried);
        let Search::On(passed) = found else {
            return found;
        };
        tried = passed;
        child = nodes::next_subnode(tree, node);
    }
    Search::On(tried)
}

// What the search gives in the end: the whole region has to lie below 2^64. Only that its end fits is asked, so it is no `checked_add`.
fn finish(found: Search) -> Option<Translated>
    ensures { result ≡ finished found }
{
    let Search::Gone(address, size, tried) = found else {
        return None;
    };
    let region = Region { address, size };
    if size == 0 {
        return Some(Translated { region, tried });
    }
    if 0xffff_ffff_ffff_ffff - address < size - 1 {
        return None;
    }
    Some(Translated { region, tried })
}

// A region of the node at a place, through each of its ancestors below the root.
pub fn translate_mmio_address<'a>(
    tree: Tree<'a>,
    target: usize,
    sought: Sought,
) -> Option<Translated>
    ensures { result ≡ translated (root_at tree.entry.structure.now tree.entry.strings.now) target sought }
{
    let root = nodes::path_offset(tree, b"/")?;
    let first = nodes::first_subnode(tree, root);
    let cells = nodes::cells_of(tree, root);
    finish(translate_from_children(tree, first, cells, target, sought, 0))
}
