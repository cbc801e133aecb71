// Reading an opened tree: names, children, properties, paths and document order. Each function takes the tree's blocks and a place in
// the structure block; whatever these are, it answers. A node's place is that of its FDT_BEGIN_NODE token: a number, since
// a tree is its bytes as they are lent, and there is no heap for nodes. The names are libfdt's, whose functions take a node's place as well, so
// these are no methods of a node.
#![tactic(auto)]

ghost use Rattle.std.specs.Prelude.{◌≡◌, ◌||◌, ◌≤◌, length};
ghost use Rattle.words.specs.Bytes.{bytes};
ghost use Rattle.fdt.specs.Tree.{lex_at};
ghost use Rattle.nodes.specs.Nav.{same_bytes, matches, content_at, name_at, first_kid, KidIs, SkipsTo, first_at, next_at, lookup, prop_at, ChildIs, child_at};
ghost use Rattle.nodes.specs.Path.{path_at};
ghost use Rattle.nodes.specs.Order.{place_at};
ghost use Rattle.nodes.specs.Cells.{address_cells, size_cells, count_at};

use cells::{CellCount, Cells};
use fdt::{Block, Token, Tree};

// What stands past the properties: a child, with the length of its name and the place after its name; the end of the node, with the
// place after it; or a token at which nothing goes on. Three ways, each named by a definition of its own, so it is no Option.
#[derive(Clone, Copy)]
enum Kid {
    Node(usize, usize, usize),
    End(usize),
    Stuck,
}

// Whether two parts of bytes are the same. A name for `==`, for contracts speak of its definition.
pub fn same<'a>(a: &'a [u8], b: &'a [u8]) -> bool
    ensures { result ≡ same_bytes a.now b.now }
{
    a == b
}

// Whether a node's name is a step of a path: its whole name, or its part before `@`.
pub fn is_step<'a>(name: &'a [u8], step: &'a [u8]) -> bool
    ensures { result ≡ matches name.now step.now }
{
    if same(name, step) {
        return true;
    }
    let unit = words::byte_from(name, 0, b'@');
    same(words::part(name, 0, unit), step)
}

// The place after the name of the node at a place, or nothing where no node begins there.
fn content_of<'a>(tree: Tree<'a>, node: usize) -> Option<usize>
    ensures { result ≡ content_at tree.entry.structure.now tree.entry.strings.now node }
{
    match fdt::token_at(tree, node) {
        Token::Begin(_, next) => Some(next),
        _ => None,
    }
}

// The name of the node at a place: a part of the structure block; empty where no node begins there.
pub fn name_of<'a>(tree: Tree<'a>, node: usize) -> &'a [u8]
    ensures { result.now ≡ name_at tree.entry.structure.now tree.entry.strings.now node }
{
    match fdt::token_at(tree, node) {
        Token::Begin(len, _) => words::part(tree.structure, node + 4, len),
        _ => words::part(tree.structure, 0, 0),
    }
}

// What stands past the properties from p on.
fn next_kid<'a>(tree: Tree<'a>, p: usize) -> Kid
    ensures { KidIs tree.entry.structure.now tree.entry.strings.now p result }
{
    let mut at = p;
    loop {
        match fdt::token_at(tree, at) {
            Token::Nop(next) | Token::Prop(_, _, _, next) => {
                at = next;
            }
            Token::Begin(len, next) => {
                return Kid::Node(at, len, next);
            }
            Token::EndNode(next) => {
                return Kid::End(next);
            }
            Token::Fin | Token::Bad => {
                return Kid::Stuck;
            }
        }
    }
}

// The place past the end of the node in which p stands, after its name; or a place where nothing goes on. Nop and Prop are no one arm, here
// and in place_of: the loop's goals would have no lasting names.
fn skip<'a>(tree: Tree<'a>, p: usize) -> usize
    ensures { SkipsTo tree.entry.structure.now tree.entry.strings.now p result }
{
    let mut at = p;
    let mut depth: usize = 1;
    loop {
        match fdt::token_at(tree, at) {
            Token::Nop(next) => {
                at = next;
            }
            Token::Prop(_, _, _, next) => {
                at = next;
            }
            Token::Begin(_, next) => {
                at = next;
                depth += 1;
            }
            Token::EndNode(next) => {
                if depth <= 1 {
                    return next;
                }
                at = next;
                depth -= 1;
            }
            Token::Fin | Token::Bad => {
                return at;
            }
        }
    }
}

// The first node from p on, past the properties.
fn kid_from<'a>(tree: Tree<'a>, p: usize) -> Option<usize>
    ensures { result ≡ first_kid (lex_at tree.entry.structure.now tree.entry.strings.now p) }
{
    match next_kid(tree, p) {
        Kid::Node(q, _, _) => Some(q),
        Kid::End(_) | Kid::Stuck => None,
    }
}

// The first child of the node at a place.
pub fn first_subnode<'a>(tree: Tree<'a>, node: usize) -> Option<usize>
    ensures { result ≡ first_at tree.entry.structure.now tree.entry.strings.now node }
{
    let p = content_of(tree, node)?;
    kid_from(tree, p)
}

// The sibling after the node at a place.
pub fn next_subnode<'a>(tree: Tree<'a>, node: usize) -> Option<usize>
    ensures { result ≡ next_at tree.entry.structure.now tree.entry.strings.now node }
{
    let p = content_of(tree, node)?;
    kid_from(tree, skip(tree, p))
}

// The first property of a name from p on, before the first child.
fn prop_from<'a>(tree: Tree<'a>, p: usize, name: &'a [u8]) -> Option<Block>
    ensures { result ≡ lookup name.now (lex_at tree.entry.structure.now tree.entry.strings.now p) }
{
    let mut at = p;
    loop {
        match fdt::token_at(tree, at) {
            Token::Nop(next) => {
                at = next;
            }
            Token::Prop(len, a, z, next) => {
                if same(words::part(tree.strings, a, z - a), name) {
                    return Some(Block { at: at + 12, len });
                }
                at = next;
            }
            Token::Begin(_, _) | Token::EndNode(_) | Token::Fin | Token::Bad => {
                return None;
            }
        }
    }
}

// The value of the property of a name of the node at a place: where it stands in the structure block and how long it is; of equal names
// the first counts.
pub fn getprop<'a>(tree: Tree<'a>, node: usize, name: &'a [u8]) -> Option<Block>
    ensures { result ≡ prop_at tree.entry.structure.now tree.entry.strings.now node name.now }
{
    let p = content_of(tree, node)?;
    prop_from(tree, p, name)
}

// The first child from p on that is a step's.
fn child_from<'a>(tree: Tree<'a>, p: usize, step: &'a [u8]) -> Option<usize>
    ensures { ChildIs tree.entry.structure.now tree.entry.strings.now p step.now result }
{
    let mut at = p;
    loop {
        match next_kid(tree, at) {
            Kid::Node(q, len, next) => {
                if is_step(words::part(tree.structure, q + 4, len), step) {
                    return Some(q);
                }
                at = skip(tree, next);
            }
            Kid::End(_) | Kid::Stuck => {
                return None;
            }
        }
    }
}

// The first child of the node at a place whose whole name, or part before `@`, is the step. It and getprop are no twins: two lines each, over
// different calls.
pub fn subnode<'a>(tree: Tree<'a>, node: usize, step: &'a [u8]) -> Option<usize>
    ensures { result ≡ child_at tree.entry.structure.now tree.entry.strings.now node step.now }
{
    let p = content_of(tree, node)?;
    child_from(tree, p, step)
}

// The node that a path names from the root on. `/` alone is the root; any other empty step finds nothing.
pub fn path_offset<'a>(tree: Tree<'a>, path: &'a [u8]) -> Option<usize>
    ensures { result ≡ path_at tree.entry.structure.now tree.entry.strings.now path.now }
{
    let root = kid_from(tree, 0)?;
    if path.len() == 0 {
        return None;
    }
    if path[0] != b'/' {
        return None;
    }
    if path.len() == 1 {
        return Some(root);
    }
    let mut node = root;
    let mut i: usize = 1;
    // A `loop`: how many steps a path has shows only as it is read.
    loop {
        let end = words::byte_from(path, i, b'/');
        if end <= i {
            return None;
        }
        let next = subnode(tree, node, words::part(path, i, end - i))?;
        if path.len() <= end {
            return Some(next);
        }
        node = next;
        i = end + 1;
    }
}

// The number of the node at a place among the nodes below the root, in document order, the root's first child being 1; 0 for none, as in
// its definition.
pub fn place_of<'a>(tree: Tree<'a>, target: usize) -> usize
    ensures { result ≡ place_at tree.entry.structure.now tree.entry.strings.now target }
{
    let mut at: usize = 0;
    let mut begun: usize = 0;
    loop {
        match fdt::token_at(tree, at) {
            Token::Nop(next) => {
                at = next;
            }
            Token::Prop(_, _, _, next) => {
                at = next;
            }
            Token::Begin(_, next) => {
                if at == target {
                    return begun;
                }
                at = next;
                begun += 1;
            }
            Token::EndNode(next) => {
                at = next;
            }
            Token::Fin | Token::Bad => {
                return 0;
            }
        }
    }
}

// What a cell property of the node at a place says of itself.
fn count_of<'a>(tree: Tree<'a>, node: usize, name: &'a [u8]) -> CellCount
    ensures { result ≡ count_at tree.entry.structure.now tree.entry.strings.now node name.now }
{
    match getprop(tree, node, name) {
        Some(value) => cells::stated(words::part(tree.structure, value.at, value.len)),
        None => CellCount::Absent,
    }
}

pub fn address_cells<'a>(tree: Tree<'a>, node: usize) -> CellCount
    ensures { result ≡ count_at tree.entry.structure.now tree.entry.strings.now node address_cells }
{
    count_of(tree, node, b"#address-cells")
}

pub fn size_cells<'a>(tree: Tree<'a>, node: usize) -> CellCount
    ensures { result ≡ count_at tree.entry.structure.now tree.entry.strings.now node size_cells }
{
    count_of(tree, node, b"#size-cells")
}

// What the cell properties of the node at a place say.
pub fn cells_of<'a>(tree: Tree<'a>, node: usize) -> Cells
    ensures address { result.address ≡ count_at tree.entry.structure.now tree.entry.strings.now node address_cells }
    ensures size { result.size ≡ count_at tree.entry.structure.now tree.entry.strings.now node size_cells }
{
    Cells {
        address: address_cells(tree, node),
        size: size_cells(tree, node),
    }
}
