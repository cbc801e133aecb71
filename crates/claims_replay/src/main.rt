// Replays a stream of trees on standard input, each with the claims that the unchanged Rust made of it, and says where
// ours differ. oracle/README.md has the layout of a case.
#![tactic(auto)]

ghost use Rattle.memory.specs.Made.{Made};

use entry::Claim;
use fdt::{Blocks, Token, Tree};
use memory::MemoryMap;
use numbers::Numbered;
use std::io::{self, Read};
use stream::Tally;
use translation::{Sought, Translated};
use visit::Step;

// The bytes that are held of the stream, with a count beside them: there is no heap. A case has fewer.
const SPACE: usize = 131072;

// No tree takes so many steps: it has no more bytes, and almost every step goes over some of them.
const STEPS: u64 = 1048576;

// Where the parts of a case start: its registrations, the tree, the answer, the claims, the map, the translations, and
// what comes after the case.
#[derive(Clone, Copy)]
struct Parts {
    before: usize,
    tree: usize,
    answer: usize,
    claims: usize,
    map: usize,
    translations: usize,
    end: usize,
}

// So many bytes, and the zeros behind them.
fn padded(bytes: u64) -> u64 {
    if (SPACE as u64) < bytes {
        return bytes;
    }
    (bytes + 7) / 8 * 8
}

// Where the translation of a number stands, of those at a place: behind their count, of two numbers each.
fn translation_at(buf: &[u8], at: usize, number: u64) -> usize {
    stream::past(
        buf,
        stream::past(buf, stream::past(buf, at, 1), number),
        number,
    )
}

fn parts_of(buf: &[u8], at: usize) -> Parts {
    let before = stream::past(buf, at, 4);
    let tree = stream::past_threes(buf, before, stream::word(buf, at));
    let bytes = stream::nth(buf, at, 2);
    let answer = stream::forward(buf, tree, padded(bytes));
    let claims = stream::past(buf, answer, 1);
    let map = stream::past_threes(buf, claims, stream::nth(buf, at, 3));
    let translations = stream::past_threes(buf, stream::past(buf, map, 1), stream::word(buf, map));
    let end = translation_at(buf, translations, stream::word(buf, translations));
    Parts {
        before,
        tree,
        answer,
        claims,
        map,
        translations,
        end,
    }
}

// The place after a case.
fn end_of(buf: &[u8], at: usize) -> usize {
    parts_of(buf, at).end
}

// Whether a case is there as a whole, and its flag is 0 or 1.
fn is_whole(buf: &[u8], at: usize, have: usize) -> bool {
    let p = parts_of(buf, at);
    if have < p.end {
        return false;
    }
    if buf.len() <= p.end {
        return false;
    }
    stream::nth(buf, at, 1) <= 1
}

// The map that the tree's call finds: the registrations at a place, made one by one.
fn map_before(buf: &[u8], at: usize, count: u64) -> MemoryMap
    ensures { Made 4096 result }
{
    let mut held = MemoryMap::empty();
    for i in 0..count {
        let there = stream::past_threes(buf, at, i);
        let claim = Claim {
            base: stream::word(buf, there),
            size: stream::nth(buf, there, 1),
            kind: stream::nth(buf, there, 2),
        };
        let _ = held.register_in(claim);
    }
    held
}

// Whether a map holds the entries that stand at a place, in their order. replay has the same function: stream, which both
// use, knows no map.
fn same_map(buf: &[u8], at: usize, map: MemoryMap) -> bool {
    let n = map.size;
    if n as u64 != stream::word(buf, at) {
        return false;
    }
    if 512 < n {
        return false;
    }
    for (i, entry) in map.entries[..n].iter().enumerate() {
        let place = stream::past_threes(buf, stream::past(buf, at, 1), i as u64);
        if !stream::is_three(buf, place, entry.start, entry.end, entry.kind) {
            return false;
        }
    }
    true
}

// Whether a claim is that of a number at a place, where `count` of them stand.
fn is_claim(buf: &[u8], at: usize, count: u64, number: u64, claim: Claim) -> bool {
    if count <= number {
        return false;
    }
    let place = stream::past_threes(buf, at, number);
    stream::is_three(buf, place, claim.base, claim.size, claim.kind)
}

// Whether the claims of a tree's blocks are the `count` at a place, or their first `enough` are. A proved loop has to
// end, and a cursor does not show that it comes to an end, so there are so many steps and no more. The parameters are no
// record: each of the functions that lead here has others of them, so each would take it apart and make the next.
fn same_claims<'a>(
    buf: &'a [u8],
    at: usize,
    count: u64,
    enough: u64,
    tree: Tree<'a>,
    block: &'a [u8],
    arm: bool,
) -> bool {
    let mut cursor = visit::first_claim();
    let mut seen: u64 = 0;
    for _ in 0..STEPS {
        if seen == enough {
            return true;
        }
        match visit::next_claim(tree, block, arm, cursor) {
            Step::Claims(claim, next) => {
                if !is_claim(buf, at, count, seen, claim) {
                    return false;
                }
                seen += 1;
                cursor = next;
            }
            Step::On(next) => {
                cursor = next;
            }
            Step::End => {
                return seen == count;
            }
        }
    }
    false
}

// The same of an opened tree.
fn opened_claims<'a>(
    buf: &'a [u8],
    at: usize,
    count: u64,
    enough: u64,
    tree: &'a [u8],
    blocks: Blocks,
    arm: bool,
) -> bool {
    let opened = Tree {
        structure: words::part(tree, blocks.structure.at, blocks.structure.len),
        strings: words::part(tree, blocks.strings.at, blocks.strings.len),
    };
    let block = reservations::reservation_block(tree, blocks);
    same_claims(buf, at, count, enough, opened, block, arm)
}

// The same of a tree's bytes. What cannot be opened claims nothing.
fn tree_claims<'a>(
    buf: &'a [u8],
    at: usize,
    count: u64,
    enough: u64,
    tree: &'a [u8],
    arm: bool,
) -> bool {
    match fdt::open_tree(tree) {
        Ok(Some(blocks)) => opened_claims(buf, at, count, enough, tree, blocks, arm),
        Ok(None) | Err(_) => count == 0,
    }
}

// Whether an address and the number of nodes tried stand at a place; zeros stand for none.
fn is_translated(buf: &[u8], at: usize, found: Option<Translated>) -> bool {
    if stream::nth(buf, at, 1) != translation::number(found) as u64 {
        return false;
    }
    match found {
        Some(translated) => stream::word(buf, at) == translated.region.address,
        None => stream::word(buf, at) == 0,
    }
}

// The same of the first `reg` entry of a node.
fn same_translation<'a>(buf: &'a [u8], at: usize, tree: Tree<'a>, node: usize) -> bool {
    let found = translation::translate_mmio_address(tree, node, Sought::FirstReg);
    is_translated(buf, at, found)
}

// Whether the first `reg` entries of all nodes of a tree's blocks, the root first, are translated as it stands at a
// place. The nodes come in document order, as their tokens do. A proved loop has to end, so there are so many steps and no more.
fn same_translations<'a>(buf: &'a [u8], at: usize, tree: Tree<'a>) -> bool {
    let mut place: usize = 0;
    let mut seen: u64 = 0;
    for _ in 0..STEPS {
        match fdt::token_at(tree, place) {
            Token::Begin(_, next) => {
                let there = translation_at(buf, at, seen);
                if !same_translation(buf, there, tree, place) {
                    return false;
                }
                seen += 1;
                place = next;
            }
            Token::EndNode(next) | Token::Prop(_, _, _, next) | Token::Nop(next) => {
                place = next;
            }
            Token::Fin => {
                return seen == stream::word(buf, at);
            }
            Token::Bad => {
                return false;
            }
        }
    }
    false
}

// The same of a tree's bytes. What cannot be opened has no nodes.
fn tree_translations<'a>(buf: &'a [u8], at: usize, tree: &'a [u8]) -> bool {
    match fdt::open_tree(tree) {
        Ok(Some(blocks)) => {
            let opened = Tree {
                structure: words::part(tree, blocks.structure.at, blocks.structure.len),
                strings: words::part(tree, blocks.strings.at, blocks.strings.len),
            };
            same_translations(buf, at, opened)
        }
        Ok(None) | Err(_) => stream::word(buf, at) == 0,
    }
}

// Whether a tree claims what stands at a place, by the answer: all of it where that is 0, up to the refused claim where
// it is 2. A tree that is refused itself has no claims there, and ours are not looked at.
fn answered_claims<'a>(
    buf: &'a [u8],
    at: usize,
    count: u64,
    answer: u64,
    tree: &'a [u8],
    arm: bool,
) -> bool {
    if answer == 0 {
        return tree_claims(buf, at, count, u64::MAX, tree, arm);
    }
    if answer != 2 {
        return count == 0;
    }
    if count == 0 {
        return false;
    }
    tree_claims(buf, at, count, count, tree, arm)
}

// Makes the calls of the case at a place. `Err` is the first part that differs: 1 the answer, 2 a claim or the number
// of claims, 3 the map, 4 a translated address, the number of nodes tried, or the number of nodes.
fn replay_case(buf: &[u8], at: usize) -> Result<(), u64> {
    let p = parts_of(buf, at);
    let tree = words::part(buf, p.tree, stream::nth(buf, at, 2) as usize);
    let arm = stream::nth(buf, at, 1) == 1;
    let map = map_before(buf, p.before, stream::word(buf, at));
    let r = dtb::register_devicetree(map, tree, arm);
    let number = u64::from(r.answer.number());
    if number != stream::word(buf, p.answer) {
        return Err(1);
    }
    let count = stream::nth(buf, at, 3);
    if !answered_claims(buf, p.claims, count, number, tree, arm) {
        return Err(2);
    }
    if !same_map(buf, p.map, r.map) {
        return Err(3);
    }
    if !tree_translations(buf, p.translations, tree) {
        return Err(4);
    }
    Ok(())
}

// Replays case after case. A proved loop has to end, and nothing says that a stream does, so its turns are as many as
// no run uses up. trees has the same loop: one for both would be lent three functions, and be no shorter to read.
fn replay<R: Read, E: Eprint>(input: &mut R, told: &E, buf: &mut [u8; SPACE]) -> Tally {
    let mut tally = stream::fresh();
    let mut have: usize = 0;
    let mut at: usize = 0;
    for _ in 0..u64::MAX {
        if !is_whole(buf, at, have) {
            have = stream::refill(input, told, buf, at, have);
            at = 0;
            if have == 0 {
                return tally;
            }
            if !is_whole(buf, at, have) {
                tally.cut = true;
                return tally;
            }
        }
        tally = stream::counted(tally, replay_case(buf, at).err().unwrap_or(0));
        at = end_of(buf, at);
    }
    tally
}

fn main(rt: HostRuntime) -> io::Result<()> {
    let mut buf = [0u8; SPACE];
    let tally = replay(&mut rt.stdin(), &rt, &mut buf);
    stream::report(&rt, tally, b"case")
}
