// A tree's claims, one after the other: the visitors of the kernel's src/dtb/mod.rs as a cursor and a step. The map is not known here.
#![tactic(auto)]

ghost use Rattle.std.specs.Prelude.{◌≡◌};
ghost use Rattle.cells.specs.Rows.{ranges_of};
ghost use Rattle.words.specs.Bytes.{part_of};
ghost use Rattle.reservations.specs.Reservations.{entry_of};
ghost use Rattle.nodes.specs.Nav.{prop_at};
ghost use Rattle.subtree.specs.Names.{ranges_name};
ghost use Rattle.subtree.specs.Subtree.{root_at};
ghost use Rattle.stdout.specs.Stdout.{uart_of};
ghost use Rattle.claims.specs.declared.Way.TheVariants.{Reserve, Soc, Controllers};
ghost use Rattle.claims.specs.Claims.{claim_by, uart_claim};
ghost use Rattle.visit.specs.Steps.{start_at, with_row, part_by, parent_at, root_cells, ranges_by, enter_at, yields, entry_step, after_at, child_next, child_step, virt_step, step_of};
ghost use Rattle.visit.specs.declared.Stage.TheVariants.{Entries};

use cells::{CellCount, Cells, RegRow, Region};
use claims::Way;
use entry::{BootloaderMemoryKind, Claim};
use fdt::{Block, Tree};
use reservations::Reservation;
use windows::{Bus, Window};

// The sources of a tree's claims: the reservation block, rows of children by their rule, the ranges of a virtual board, the console.
#[derive(Clone, Copy)]
pub enum Stage {
    Entries,
    Children(Way),
    Virt,
    Console,
    Over,
}

// How far the claims of a tree are taken: the stage, the next entry of a value or a block, the child after it, and what the children's
// values are read by.
#[derive(Clone, Copy)]
pub struct Cursor {
    pub stage: Stage,
    pub row: usize,
    pub value: Block,
    pub next: Option<usize>,
    pub own: Cells,
    pub parent: CellCount,
    pub ranges: Block,
}

// A step gives a claim or none, and where to go on; or all is claimed. Three ways, so it is no Option.
#[derive(Clone, Copy)]
pub enum Step {
    Claims(Claim, Cursor),
    On(Cursor),
    End,
}

// The part of no bytes, where there is nothing to read.
const NO_PART: Block = Block { at: 0, len: 0 };

// At the start of a stage.
fn start_at(stage: Stage) -> Cursor
    ensures { result ≡ start_at stage }
{
    Cursor {
        stage,
        row: 0,
        value: NO_PART,
        next: None,
        own: Cells {
            address: CellCount::Absent,
            size: CellCount::Absent,
        },
        parent: CellCount::Absent,
        ranges: NO_PART,
    }
}

// Before the first claim of a tree.
pub fn first_claim() -> Cursor
    ensures { result ≡ start_at Entries }
{
    start_at(Stage::Entries)
}

// Where a value stands, or no part where there is none.
fn part_by(value: Option<Block>) -> Block
    ensures { result ≡ part_by value }
{
    value.unwrap_or(NO_PART)
}

// /reserved-memory, where its children count.
fn reserved_parent<'a>(tree: Tree<'a>) -> Option<usize>
    ensures { result ≡ parent_at tree.entry.structure.now tree.entry.strings.now Reserve }
{
    let root = nodes::path_offset(tree, b"/")?;
    let node = nodes::subnode(tree, root, b"reserved-memory")?;
    if reserved::children_count(tree, root, node) {
        return Some(node);
    }
    None
}

// /soc, where it has `ranges`.
fn soc_parent<'a>(tree: Tree<'a>) -> Option<usize>
    ensures { result ≡ parent_at tree.entry.structure.now tree.entry.strings.now Soc }
{
    let root = nodes::path_offset(tree, b"/")?;
    let node = nodes::subnode(tree, root, b"soc")?;
    nodes::getprop(tree, node, b"ranges")?;
    Some(node)
}

// The node whose children claim by a rule, where they do.
fn parent_of<'a>(tree: Tree<'a>, way: Way) -> Option<usize>
    ensures { result ≡ parent_at tree.entry.structure.now tree.entry.strings.now way }
{
    match way {
        Way::Reserve => reserved_parent(tree),
        Way::Soc => soc_parent(tree),
        Way::Controllers => nodes::path_offset(tree, b"/"),
    }
}

// What the root says of its children's addresses.
fn root_cells<'a>(tree: Tree<'a>) -> CellCount
    ensures { result ≡ root_cells tree.entry.structure.now tree.entry.strings.now }
{
    match nodes::path_offset(tree, b"/") {
        Some(root) => nodes::address_cells(tree, root),
        None => CellCount::Absent,
    }
}

// The `ranges` that a child's regions go through: /soc's alone.
fn ranges_of<'a>(tree: Tree<'a>, way: Way, node: usize) -> Block
    ensures { result ≡ ranges_by way (prop_at tree.entry.structure.now tree.entry.strings.now node ranges_name) }
{
    match way {
        Way::Reserve | Way::Controllers => NO_PART,
        Way::Soc => part_by(nodes::getprop(tree, node, b"ranges")),
    }
}

// Before the first child that claims by a rule. All that its siblings share is read here, once.
fn enter<'a>(tree: Tree<'a>, way: Way) -> Cursor
    ensures { result ≡ enter_at tree.entry.structure.now tree.entry.strings.now way }
{
    let Some(node) = parent_of(tree, way) else {
        return start_at(Stage::Children(way));
    };
    Cursor {
        stage: Stage::Children(way),
        row: 0,
        value: NO_PART,
        next: nodes::first_subnode(tree, node),
        own: nodes::cells_of(tree, node),
        parent: root_cells(tree),
        ranges: ranges_of(tree, way, node),
    }
}

// The same cursor at another row.
fn with_row(cursor: Cursor, row: usize) -> Cursor
    ensures { result ≡ with_row cursor row }
{
    Cursor { row, ..cursor }
}

// An entry of the reservation block: size 0, or a sum of 2^64 or more, is passed over. The sum itself is not used, so it is no `checked_add`.
fn visit_fdt_memory_reservations<'a>(tree: Tree<'a>, block: &'a [u8], cursor: Cursor) -> Step
    ensures { result ≡ entry_step tree.entry.structure.now tree.entry.strings.now (entry_of block.now cursor.row) cursor }
{
    let Reservation::Entry(entry) = reservations::reserved_entry(block, cursor.row) else {
        return Step::On(enter(tree, Way::Reserve));
    };
    let next = with_row(cursor, cursor.row + 1);
    if entry.size == 0 {
        return Step::On(next); // size 0 alone does not end the block
    }
    if u64::MAX - entry.address < entry.size {
        return Step::On(next);
    }
    Step::Claims(
        Claim {
            base: entry.address,
            size: entry.size,
            kind: BootloaderMemoryKind::Reserved.number(),
        },
        next,
    )
}

// What comes after the children of a rule.
fn after<'a>(tree: Tree<'a>, arm: bool, way: Way) -> Cursor
    ensures { result ≡ after_at tree.entry.structure.now tree.entry.strings.now arm way }
{
    match way {
        Way::Reserve => {
            if claims::is_qemu_virt(tree, arm) {
                return start_at(Stage::Virt);
            }
            enter(tree, Way::Soc)
        }
        Way::Soc => start_at(Stage::Console),
        Way::Controllers => start_at(Stage::Over),
    }
}

// To the next child, or past the last one.
fn next_child<'a>(tree: Tree<'a>, arm: bool, way: Way, cursor: Cursor) -> Cursor
    ensures { result ≡ child_next tree.entry.structure.now tree.entry.strings.now arm way cursor cursor.next }
{
    let Some(child) = cursor.next else {
        return after(tree, arm, way);
    };
    Cursor {
        stage: Stage::Children(way),
        row: 0,
        value: part_by(claims::child_value(tree, way, cursor.own, child)),
        next: nodes::next_subnode(tree, child),
        ..cursor
    }
}

// A region of a child, where it lies somewhere.
fn region_step(structure: &[u8], way: Way, cursor: Cursor, region: Region, next: Cursor) -> Step
    ensures { result ≡ yields (claim_by way (ranges_of cursor.own.address cursor.parent cursor.own.size (part_of structure.now cursor.ranges.at cursor.ranges.len)) region) next }
{
    let bus = Bus {
        ranges: words::part(structure, cursor.ranges.at, cursor.ranges.len),
        own: cursor.own,
        parent: cursor.parent,
    };
    match claims::lands(way, bus, region) {
        Window::To(base) => Step::Claims(
            Claim {
                base,
                size: region.size,
                kind: way.kind(),
            },
            next,
        ),
        Window::Nowhere | Window::Unreadable => Step::On(next),
    }
}

// The next region of the child at hand, or the next child.
fn child_step<'a>(tree: Tree<'a>, arm: bool, way: Way, cursor: Cursor) -> Step
    ensures { result ≡ child_step tree.entry.structure.now tree.entry.strings.now arm way cursor }
{
    let entries = words::part(tree.structure, cursor.value.at, cursor.value.len);
    match cells::reg_row(entries, cursor.own, cursor.row) {
        RegRow::RegAt(region) => {
            let next = with_row(cursor, cursor.row + 1);
            region_step(tree.structure, way, cursor, region, next)
        }
        RegRow::PastReg | RegRow::NoReg => Step::On(next_child(tree, arm, way, cursor)),
    }
}

// The two ranges of a virtual board.
fn virt_step(cursor: Cursor) -> Step
    ensures { result ≡ virt_step cursor }
{
    if cursor.row == 0 {
        return Step::Claims(
            Claim {
                base: 0x0800_0000,
                size: 0x0800_0000,
                kind: BootloaderMemoryKind::Device.number(),
            },
            with_row(cursor, 1),
        );
    }
    Step::Claims(
        Claim {
            base: 0x1000_0000,
            size: 0x3000_0000,
            kind: BootloaderMemoryKind::Device.number(),
        },
        start_at(Stage::Over),
    )
}

// The console's registers, and then the root's children.
fn console_step<'a>(tree: Tree<'a>) -> Step
    ensures { result ≡ yields (uart_claim (uart_of (root_at tree.entry.structure.now tree.entry.strings.now))) (enter_at tree.entry.structure.now tree.entry.strings.now Controllers) }
{
    let next = enter(tree, Way::Controllers);
    match stdout::diag_uart_range(tree) {
        Some(region) => Step::Claims(
            Claim {
                base: region.address,
                size: region.size,
                kind: BootloaderMemoryKind::Device.number(),
            },
            next,
        ),
        None => Step::On(next),
    }
}

// A step from a cursor on: one entry, one region or one child further. The stage is matched and no closure: it is part of the cursor, which the
// caller holds between two steps.
pub fn next_claim<'a>(tree: Tree<'a>, block: &'a [u8], arm: bool, cursor: Cursor) -> Step
    ensures { result ≡ step_of tree.entry.structure.now tree.entry.strings.now block.now arm cursor }
{
    match cursor.stage {
        Stage::Entries => visit_fdt_memory_reservations(tree, block, cursor),
        Stage::Children(way) => child_step(tree, arm, way, cursor),
        Stage::Virt => virt_step(cursor),
        Stage::Console => console_step(tree),
        Stage::Over => Step::End,
    }
}
