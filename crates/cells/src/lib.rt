// The values of properties: cell counts, the rows of `reg` and `ranges`, and strings. Devicetree Specification v0.4, chapter 2.
#![tactic(auto)]

ghost use Rattle.std.specs.Prelude.{◌≡◌, ◌≤◌};
ghost use Rattle.cells.specs.Count.{stated_by, cell_bytes, width_by};
ghost use Rattle.cells.specs.Rows.{number_at, reg_of, ranges_of, reg_row, range_row};
ghost use Rattle.cells.specs.Text.{text_of};

// What a cell property of a node says: so many cells; it is not there; or it is not 4 bytes long. Definitions name the three ways, and a
// Result with an Option in it would be no plainer.
#[derive(Clone, Copy)]
pub enum CellCount {
    Stated(usize),
    Absent,
    Faulty,
}

// What the cell properties of a node say: its children's addresses and sizes are read by them.
#[derive(Clone, Copy)]
pub struct Cells {
    pub address: CellCount,
    pub size: CellCount,
}

// A row of `reg`.
#[derive(Clone, Copy)]
pub struct Region {
    pub address: u64,
    pub size: u64,
}

// A row of `ranges`.
#[derive(Clone, Copy)]
pub struct Range {
    pub child: u64,
    pub parent: u64,
    pub size: u64,
}

// A row of `reg` by its number: the value is unreadable, there are fewer rows, or the row. Three ways, as in CellCount.
#[derive(Clone, Copy)]
pub enum RegRow {
    NoReg,
    PastReg,
    RegAt(Region),
}

// The same of `ranges`. Definitions name the ways of each apart, so it is no one type over the row.
#[derive(Clone, Copy)]
pub enum RangeRow {
    NoRange,
    PastRange,
    RangeAt(Range),
}

// The count that the value of a cell property states.
pub fn stated(v: &[u8]) -> CellCount
    ensures { result ≡ stated_by v.now }
{
    if v.len() == 4 {
        return CellCount::Stated(words::be32(v, 0));
    }
    CellCount::Faulty
}

// How many bytes so many cells take; 0 where they are not 1 or 2, as in its definition.
fn cell_bytes(c: usize) -> usize
    ensures { result ≡ cell_bytes c }
{
    if c == 1 {
        return 4;
    }
    if c == 2 {
        return 8;
    }
    0
}

// The same of what a cell property says, where so many cells stand for one that is not there.
fn width(c: CellCount, missing: usize) -> usize
    ensures { result ≡ width_by c missing }
{
    match c {
        CellCount::Stated(n) => cell_bytes(n),
        CellCount::Absent => cell_bytes(missing),
        CellCount::Faulty => 0,
    }
}

// The number in w bytes, 4 or 8, at a place.
fn number(v: &[u8], w: usize, at: usize) -> u64
    ensures { result ≡ number_at v.now w at }
{
    if w == 4 {
        return words::be32(v, at) as u64;
    }
    words::be64(v, at)
}

// Row i of a value of `reg`, by the cells of the node's parent. It and range_row are no one walk: the rows have two numbers and three, and each
// has a definition of its own.
pub fn reg_row(v: &[u8], cells: Cells, i: usize) -> RegRow
    ensures { result ≡ reg_row (reg_of cells.address cells.size v.now) i }
{
    if v.len() == 0 {
        return RegRow::PastReg;
    }
    let x = width(cells.address, 2);
    let z = width(cells.size, 1);
    if x == 0 {
        return RegRow::NoReg;
    }
    if z == 0 {
        return RegRow::NoReg;
    }
    let w = x + z;
    if v.len() % w != 0 {
        return RegRow::NoReg;
    }
    if v.len() / w <= i {
        return RegRow::PastReg;
    }
    let at = i * w;
    RegRow::RegAt(Region {
        address: number(v, x, at),
        size: number(v, z, at + x),
    })
}

// Row i of a value of `ranges`, by the bus's own cells and its parent's address cells.
pub fn range_row(v: &[u8], own: Cells, parent: CellCount, i: usize) -> RangeRow
    ensures { result ≡ range_row (ranges_of own.address parent own.size v.now) i }
{
    if v.len() == 0 {
        return RangeRow::PastRange;
    }
    let x = width(own.address, 2);
    let y = width(parent, 2);
    let z = width(own.size, 1);
    if x == 0 {
        return RangeRow::NoRange;
    }
    if y == 0 {
        return RangeRow::NoRange;
    }
    if z == 0 {
        return RangeRow::NoRange;
    }
    let row = x + y + z;
    if v.len() % row != 0 {
        return RangeRow::NoRange;
    }
    if v.len() / row <= i {
        return RangeRow::PastRange;
    }
    let at = i * row;
    RangeRow::RangeAt(Range {
        child: number(v, x, at),
        parent: number(v, y, at + x),
        size: number(v, z, at + x + y),
    })
}

// Where a string value ends; nothing where no zero byte ends it.
pub fn text(v: &[u8]) -> Option<usize>
    ensures { result ≡ text_of v.now }
{
    let end = words::byte_from(v, 0, 0);
    if end < v.len() {
        return Some(end);
    }
    None
}
