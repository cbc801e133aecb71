// Replays a stream of trees on standard input, each with the text that other readers made of it, and says where ours
// differ. trees/README.md has the layout of the stream and of a text.
#![tactic(auto)]

use cells::{CellCount, Region};
use fdt::{Blocks, Token, Tree};
use numbers::Numbered;
use reservations::Reservation;
use std::io::Read;
use stream::Tally;

// The bytes that are held of the stream. The largest tree takes half of them, and its text is short. There is no heap,
// so a count of those held stands beside them, as the depth beside the nodes above and the length beside a path.
const SPACE: usize = 2097152;

// The two lengths at the start of a case, of 4 bytes each, are read as one number: the text's, this many times, and the
// blob's.
const LENGTHS: u64 = 0x1_0000_0000;

// A place that neither a text nor a block has: what was looked for is not there, or something before it differed. A number and
// no Option: the functions of a line hand it on unasked, since no text has a byte there.
const NONE: usize = 0xffff_ffff;

// A structure block up to which the checks are made that go over the tree once more for each node.
const SMALL: usize = 16384;

// The bytes of a path. The checks leave out a path that is longer.
const PATH: usize = 8192;

// A step of the walk: the next node and how many nodes stand above it; the end; or a place where no tree is. Three ways, so it is no Option.
#[derive(Clone, Copy)]
enum Next {
    Node(usize, usize),
    Done,
    Lost,
}

// The place after a byte, if a text has it there.
fn same_byte(text: &[u8], at: usize, x: u8) -> usize {
    if at < text.len() && text[at] == x {
        return at + 1;
    }
    NONE
}

// The place after some bytes, if a text has them there.
fn same_bytes<'a>(text: &'a [u8], at: usize, bytes: &'a [u8]) -> usize {
    let mut p = at;
    for x in bytes {
        p = same_byte(text, p, *x);
    }
    p
}

// The digit of a byte's lower half.
fn digit(x: u8) -> u8 {
    b"0123456789abcdef"[usize::from(x % 16)]
}

// The place after the digits of some bytes, two for each.
fn same_hex<'a>(text: &'a [u8], at: usize, bytes: &'a [u8]) -> usize {
    let mut p = at;
    for x in bytes {
        p = same_byte(text, p, digit(*x / 16));
        p = same_byte(text, p, digit(*x));
    }
    p
}

// The place after a number in 16 hexadecimal digits.
fn same_number(text: &[u8], at: usize, n: u64) -> usize {
    let mut digits = [0u8; 16];
    let k = io::hex(n, 16, &mut digits);
    same_bytes(text, at, &digits[..k])
}

// The same in as many decimal digits as it has.
fn same_decimal(text: &[u8], at: usize, n: u64) -> usize {
    let mut digits = [0u8; 20];
    let k = io::decimal(n, &mut digits);
    same_bytes(text, at, &digits[..k])
}

// Whether a text is whole at a place.
fn is_end(text: &[u8], at: usize) -> bool {
    at == text.len()
}

// The place after the line of a reservation.
fn same_reservation(text: &[u8], from: usize, entry: Region) -> usize {
    let a = same_bytes(text, from, b"rsv ");
    let b = same_number(text, a, entry.address);
    let c = same_byte(text, b, b' ');
    let d = same_number(text, c, entry.size);
    same_byte(text, d, b'\n')
}

// The place after the lines of the reservation block. An entry takes more than one byte, so there are fewer of them.
fn same_reservations<'a>(block: &'a [u8], text: &'a [u8]) -> usize {
    let mut p: usize = 0;
    for i in 0..block.len() {
        match reservations::reserved_entry(block, i) {
            Reservation::Entry(entry) => {
                p = same_reservation(text, p, entry);
            }
            Reservation::End | Reservation::Past => {
                return p;
            }
        }
    }
    p
}

// The place after the name of the node at a place.
fn content<'a>(tree: Tree<'a>, node: usize) -> usize {
    match fdt::token_at(tree, node) {
        Token::Begin(_, next) => next,
        _ => NONE,
    }
}

// The name of a property, by its start and its end.
fn property_name(strings: &[u8], a: usize, z: usize) -> &[u8] {
    words::part(strings, a, z.saturating_sub(a))
}

// The next property from a place on, past NOPs, or none: apart from nodes, whose answers it checks. A proved loop has to end, and no block
// has more tokens than bytes: so it is with the loops over properties and children too. Those over properties end in three ways, so an
// iterator for them would be longer than the two lines that they share.
fn property_from<'a>(tree: Tree<'a>, from: usize) -> usize {
    let mut at = from;
    for _ in 0..tree.structure.len() {
        match fdt::token_at(tree, at) {
            Token::Nop(next) => {
                at = next;
            }
            Token::Prop(_, _, _, _) => {
                return at;
            }
            _ => {
                return NONE;
            }
        }
    }
    NONE
}

// The place after a property.
fn property_end<'a>(tree: Tree<'a>, at: usize) -> usize {
    match fdt::token_at(tree, at) {
        Token::Prop(_, _, _, next) => next,
        _ => NONE,
    }
}

// The name of a property, or no bytes where no property is.
fn name_at<'a>(tree: Tree<'a>, at: usize) -> &'a [u8] {
    match fdt::token_at(tree, at) {
        Token::Prop(_, a, z, _) => property_name(tree.strings, a, z),
        _ => words::part(tree.strings, 0, 0),
    }
}

// The value of a property. Its length is read from the block, and so apart from what the reader makes of it.
fn value_at(structure: &[u8], at: usize) -> &[u8] {
    words::part(
        structure,
        stream::forward(structure, at, 12),
        words::be32(structure, stream::forward(structure, at, 4)),
    )
}

// The place after the line of a property.
fn same_property<'a>(tree: Tree<'a>, text: &'a [u8], from: usize, at: usize) -> usize {
    let a = same_bytes(text, from, b"prop ");
    let b = same_bytes(text, a, name_at(tree, at));
    let c = same_byte(text, b, b' ');
    let d = same_hex(text, c, value_at(tree.structure, at));
    same_byte(text, d, b'\n')
}

// The place after the lines of a node's properties.
fn same_properties<'a>(tree: Tree<'a>, text: &'a [u8], from: usize, node: usize) -> usize {
    let mut at = property_from(tree, content(tree, node));
    let mut p = from;
    for _ in 0..tree.structure.len() {
        if at == NONE {
            return p;
        }
        p = same_property(tree, text, p, at);
        at = property_from(tree, property_end(tree, at));
    }
    NONE
}

// The place after the lines of a node and its properties.
fn same_node<'a>(tree: Tree<'a>, text: &'a [u8], from: usize, node: usize, depth: usize) -> usize {
    let a = same_bytes(text, from, b"node ");
    let b = same_decimal(text, a, depth as u64);
    let c = same_byte(text, b, b' ');
    let d = same_bytes(text, c, nodes::name_of(tree, node));
    let e = same_byte(text, d, b'\n');
    same_properties(tree, text, e, node)
}

// The first property of a name of a node, or none: what nodes::getprop has to find.
fn first_named<'a>(tree: Tree<'a>, node: usize, name: &'a [u8]) -> usize {
    let mut at = property_from(tree, content(tree, node));
    for _ in 0..tree.structure.len() {
        if at == NONE {
            return NONE;
        }
        if name_at(tree, at) == name {
            return at;
        }
        at = property_from(tree, property_end(tree, at));
    }
    NONE
}

// Whether nodes::getprop finds the first property of a name, or none where there is none.
fn finds<'a>(tree: Tree<'a>, node: usize, name: &'a [u8]) -> bool {
    let place = first_named(tree, node, name);
    match nodes::getprop(tree, node, name) {
        Some(value) => {
            if place == NONE {
                return false;
            }
            if value.at != stream::forward(tree.structure, place, 12) {
                return false;
            }
            value.len == words::be32(tree.structure, stream::forward(tree.structure, place, 4))
        }
        None => place == NONE,
    }
}

// Some bytes without their last.
fn shorter(s: &[u8]) -> &[u8] {
    words::part(s, 0, s.len().saturating_sub(1))
}

// Whether a property is found by its name, in its node and in the node above, and by a name that lacks a letter.
fn finds_property<'a>(tree: Tree<'a>, node: usize, above: usize, at: usize) -> bool {
    let name = name_at(tree, at);
    if !finds(tree, node, name) {
        return false;
    }
    if !finds(tree, above, name) {
        return false;
    }
    if !finds(tree, node, shorter(name)) {
        return false;
    }
    // A property is no node, so it has no place in document order.
    if SMALL < tree.structure.len() {
        return true;
    }
    nodes::place_of(tree, at) == 0
}

// The same for all properties of a node.
fn finds_properties<'a>(tree: Tree<'a>, node: usize, above: usize) -> bool {
    let mut at = property_from(tree, content(tree, node));
    for _ in 0..tree.structure.len() {
        if at == NONE {
            return true;
        }
        if !finds_property(tree, node, above, at) {
            return false;
        }
        at = property_from(tree, property_end(tree, at));
    }
    false
}

// Whether a cell count is what the property at a place says, or that there is none.
fn counts(structure: &[u8], at: usize, found: CellCount) -> bool {
    let len = words::be32(structure, stream::forward(structure, at, 4));
    match found {
        CellCount::Stated(n) => {
            if at == NONE {
                return false;
            }
            if len != 4 {
                return false;
            }
            n == words::be32(structure, stream::forward(structure, at, 12))
        }
        CellCount::Absent => at == NONE,
        CellCount::Faulty => {
            if at == NONE {
                return false;
            }
            len != 4
        }
    }
}

// Whether both cell counts of a node are what its properties say.
fn has_cells<'a>(tree: Tree<'a>, node: usize) -> bool {
    let address = first_named(tree, node, b"#address-cells");
    if !counts(tree.structure, address, nodes::address_cells(tree, node)) {
        return false;
    }
    let size = first_named(tree, node, b"#size-cells");
    counts(tree.structure, size, nodes::size_cells(tree, node))
}

// The part of a name before its first `@`.
fn stem(name: &[u8]) -> &[u8] {
    match name.iter().position(|x| *x == b'@') {
        Some(i) => words::part(name, 0, i),
        None => name,
    }
}

// The name of a node, or its part before `@`. `whole` is asked here alone, so it is a bool and no closure.
fn step_of<'a>(tree: Tree<'a>, node: usize, whole: bool) -> &'a [u8] {
    let name = nodes::name_of(tree, node);
    if whole {
        return name;
    }
    stem(name)
}

// A place of nodes as one of these checks.
fn place(found: Option<usize>) -> usize {
    found.unwrap_or(NONE)
}

// Whether a name, or its part before `@`, is a step.
fn matches<'a>(name: &'a [u8], step: &'a [u8]) -> bool {
    name == step || stem(name) == step
}

// The first child that a step names, or none: what nodes::subnode has to find.
fn first_child<'a>(tree: Tree<'a>, node: usize, step: &'a [u8]) -> usize {
    let mut at = place(nodes::first_subnode(tree, node));
    for _ in 0..tree.structure.len() {
        if at == NONE {
            return NONE;
        }
        if matches(nodes::name_of(tree, at), step) {
            return at;
        }
        at = place(nodes::next_subnode(tree, at));
    }
    NONE
}

// Whether nodes::subnode finds that child.
fn finds_child<'a>(tree: Tree<'a>, node: usize, step: &'a [u8]) -> bool {
    let found = nodes::subnode(tree, node, step);
    place(found) == first_child(tree, node, step)
}

// Whether a child is found by its name, by its part before `@`, and by a name that lacks a letter.
fn finds_node<'a>(tree: Tree<'a>, above: usize, node: usize) -> bool {
    let name = nodes::name_of(tree, node);
    if !finds_child(tree, above, name) {
        return false;
    }
    if !finds_child(tree, above, stem(name)) {
        return false;
    }
    finds_child(tree, above, shorter(name))
}

// Puts a step behind the first `at` bytes of a path, and answers the path's length; none where it has no room, or the
// step holds a `/` and so is two.
fn append(path: &mut [u8; PATH], at: usize, step: &[u8]) -> usize {
    let mut p = put(path, at, b'/');
    for x in step {
        if *x == b'/' {
            return NONE;
        }
        p = put(path, p, *x);
    }
    p
}

// Puts a byte at a place of a path, and answers the place after it, or none where it has no room.
fn put(path: &mut [u8; PATH], at: usize, x: u8) -> usize {
    if at < PATH {
        path[at] = x;
        return at + 1;
    }
    NONE
}

// Of a node and those above it, the one at a depth, or none.
fn up(ups: &[usize; 32], depth: usize) -> usize {
    ups.get(depth).copied().unwrap_or(NONE)
}

// Writes the path to a node, whose ancestors and itself are `ups` up to its depth, and answers its length.
fn write_path<'a>(
    tree: Tree<'a>,
    ups: &[usize; 32],
    depth: usize,
    whole: bool,
    path: &mut [u8; PATH],
) -> usize {
    let mut len: usize = 0;
    for i in 1..=depth {
        len = append(path, len, step_of(tree, up(ups, i), whole));
    }
    len
}

// The node that such a path leads to, or none: what nodes::path_offset has to find. An empty step finds nothing.
fn follow<'a>(tree: Tree<'a>, ups: &[usize; 32], depth: usize, whole: bool) -> usize {
    let mut node = up(ups, 0);
    for i in 1..=depth {
        let step = step_of(tree, up(ups, i), whole);
        if step.len() == 0 {
            return NONE;
        }
        node = first_child(tree, node, step);
    }
    node
}

// Where a path leads, or none.
fn leads<'a>(tree: Tree<'a>, path: &'a [u8]) -> usize {
    place(nodes::path_offset(tree, path))
}

// Where a part of a path leads.
fn part_leads<'a>(tree: Tree<'a>, path: &'a [u8; PATH], from: usize, len: usize) -> usize {
    let bytes: &[u8] = path;
    leads(tree, words::part(bytes, from, len))
}

// Whether a path leads where it has to, and nowhere with a `/` behind it, or without the one before it.
fn finds_path<'a>(tree: Tree<'a>, ups: &[usize; 32], depth: usize, whole: bool) -> bool {
    let mut path = [0u8; PATH];
    let len = write_path(tree, ups, depth, whole, &mut path);
    let longer = put(&mut path, len, b'/');
    if longer == NONE {
        return true;
    }
    // A child of the root with the empty name: its path would be the root's.
    if len == 1 {
        return true;
    }
    let target = follow(tree, ups, depth, whole);
    if part_leads(tree, &path, 0, len) != target {
        return false;
    }
    if part_leads(tree, &path, 0, longer) != NONE {
        return false;
    }
    // An empty step: without its first `/` the path could be a good one.
    if target == NONE {
        return true;
    }
    part_leads(tree, &path, 1, len.saturating_sub(1)) == NONE
}

// What goes over the whole tree for each node, and so is left out of large ones. `Err` as check_node's.
fn check_found<'a>(
    tree: Tree<'a>,
    ups: &[usize; 32],
    depth: usize,
    nodes: usize,
) -> Result<(), u64> {
    let node = up(ups, depth);
    part_of(nodes::place_of(tree, node) == nodes, 4)?;
    if depth == 0 {
        return Ok(());
    }
    part_of(finds_node(tree, up(ups, depth - 1), node), 5)?;
    part_of(finds_path(tree, ups, depth, true), 5)?;
    part_of(finds_path(tree, ups, depth, false), 5)
}

// Looks a node over. `Err` is the part that differs: 3 a property, 4 the place in document order, 5 a child or a path, 6 the cells.
fn check_node<'a>(
    tree: Tree<'a>,
    ups: &[usize; 32],
    depth: usize,
    nodes: usize,
) -> Result<(), u64> {
    let node = up(ups, depth);
    let above = up(ups, depth.saturating_sub(1));
    part_of(finds_properties(tree, node, above), 3)?;
    part_of(has_cells(tree, node), 6)?;
    if SMALL < tree.structure.len() {
        return Ok(());
    }
    check_found(tree, ups, depth, nodes)
}

// The node after one that has no children: a sibling of it, or of the nearest node above it that has one.
fn onward<'a>(tree: Tree<'a>, ups: &[usize; 32], depth: usize) -> Next {
    for d in (1..=depth).rev() {
        if let Some(next) = nodes::next_subnode(tree, up(ups, d)) {
            return Next::Node(next, d);
        }
    }
    match nodes::next_subnode(tree, up(ups, 0)) {
        Some(_) => Next::Lost,
        None => Next::Done,
    }
}

// The next node in document order.
fn next_node<'a>(tree: Tree<'a>, ups: &[usize; 32], depth: usize) -> Next {
    match nodes::first_subnode(tree, up(ups, depth)) {
        Some(next) => {
            if depth < 31 {
                return Next::Node(next, depth + 1);
            }
            Next::Lost
        }
        None => onward(tree, ups, depth),
    }
}

// Notes the node at a depth.
fn set(ups: &mut [usize; 32], depth: usize, node: usize) {
    if depth < 32 {
        ups[depth] = node;
    }
}

// Walks a tree from its root on, beside its text from a place on. `Err` is the first part that differs.
fn walk<'a>(tree: Tree<'a>, text: &'a [u8], from: usize, root: usize) -> Result<(), u64> {
    let mut ups = [NONE; 32];
    let mut node = root;
    let mut depth: usize = 0;
    let mut p = from;
    for nodes in 0..4096 {
        set(&mut ups, depth, node);
        p = same_node(tree, text, p, node, depth);
        check_node(tree, &ups, depth, nodes)?;
        match next_node(tree, &ups, depth) {
            Next::Node(n, d) => {
                node = n;
                depth = d;
            }
            Next::Done => {
                return part_of(is_end(text, p), 2);
            }
            Next::Lost => {
                return Err(2);
            }
        }
    }
    Err(2)
}

// `Err` with the number of a part, where it is not the same.
fn part_of(same: bool, part: u64) -> Result<(), u64> {
    if same { Ok(()) } else { Err(part) }
}

// Looks an opened tree over beside the text that tells of it. `Err` is the first part that differs.
fn same_tree<'a>(blob: &'a [u8], text: &'a [u8], blocks: Blocks) -> Result<(), u64> {
    let tree = Tree {
        structure: words::part(blob, blocks.structure.at, blocks.structure.len),
        strings: words::part(blob, blocks.strings.at, blocks.strings.len),
    };
    let from = same_reservations(reservations::reservation_block(blob, blocks), text);
    part_of(leads(tree, b"") == NONE, 5)?;
    part_of(leads(tree, b"//") == NONE, 5)?;
    walk(tree, text, from, leads(tree, b"/"))
}

// Whether a text is that of a refusal.
fn is_refusal(text: &[u8], number: u8) -> bool {
    let a = same_bytes(text, 0, b"refused ");
    let b = same_decimal(text, a, u64::from(number));
    is_end(text, same_byte(text, b, b'\n'))
}

// Opens a tree. `Err` is the first part that differs: 1 what opening it answers, 2 its text, or as check_node says.
fn replay_tree<'a>(blob: &'a [u8], text: &'a [u8]) -> Result<(), u64> {
    let opened = fdt::open_tree(blob);
    let number = opened.number();
    match opened {
        Ok(None) => part_of(is_end(text, same_bytes(text, 0, b"no tree\n")), 1),
        Ok(Some(blocks)) => {
            part_of(number == 0, 1)?;
            same_tree(blob, text, blocks)
        }
        Err(_) => part_of(is_refusal(text, number), 1),
    }
}

// Takes the case at a place apart, and replays its tree.
fn replay_case(buf: &[u8], at: usize) -> Result<(), u64> {
    let lengths = stream::word(buf, at);
    let blob = stream::past(buf, at, 1);
    let n = lengths % LENGTHS;
    let text = stream::forward(buf, blob, n);
    replay_tree(
        words::part(buf, blob, n as usize),
        words::part(buf, text, (lengths / LENGTHS) as usize),
    )
}

// The place after a case.
fn case_end(buf: &[u8], at: usize) -> usize {
    let lengths = stream::word(buf, at);
    let text = stream::forward(buf, stream::past(buf, at, 1), lengths % LENGTHS);
    stream::forward(buf, text, lengths / LENGTHS)
}

// Whether a case is there as a whole. Its lengths are read only where they are.
fn is_whole(buf: &[u8], at: usize, have: usize) -> bool {
    if have < stream::past(buf, at, 1) {
        return false;
    }
    let end = case_end(buf, at);
    if buf.len() <= end {
        return false;
    }
    end <= have
}

// Replays case after case. A proved loop has to end, and nothing says that a stream does, so its turns are counted, up to a number that
// no run uses up. claims_replay has the same loop, and says why.
fn replay<R: Read, E: Eprint>(input: &mut R, told: &E, buf: &mut [u8; SPACE]) -> Tally {
    let mut tally = stream::fresh();
    let mut have: usize = 0;
    let mut at: usize = 0;
    for _ in 0..u64::MAX {
        if !is_whole(buf, at, have) {
            have = stream::refill(input, told, buf, at, have);
            at = 0;
            if have == 0 {
                return tally;
            }
            if !is_whole(buf, at, have) {
                tally.cut = true;
                return tally;
            }
        }
        tally = stream::counted(tally, replay_case(buf, at).err().unwrap_or(0));
        at = case_end(buf, at);
    }
    tally
}

fn main(rt: HostRuntime) -> std::io::Result<()> {
    let mut buf = [0u8; SPACE];
    let tally = replay(&mut rt.stdin(), &rt, &mut buf);
    stream::report(&rt, tally, b"tree")
}
