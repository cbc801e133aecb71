// The tree's call: a tree's claims, judged and then registered in their order. The memory side of the kernel's src/dtb/mod.rs.
#![tactic(auto)]

ghost use Rattle.std.specs.Prelude.{◌≡◌};
ghost use Rattle.memory.specs.Map.{answered};
ghost use Rattle.memory.specs.Made.{Made};
ghost use Rattle.memory.specs.Run.{registered_all};
ghost use Rattle.reservations.specs.Reservations.{entries_of};
ghost use Rattle.subtree.specs.Subtree.{root_at};
ghost use Rattle.claims.specs.Claims.{claims_of};
ghost use Rattle.dtb.specs.Call.{tree_refusal_number, of_fault, of_value, settled_tree, tree_registered};

use claims::ValueFault;
use fdt::{Tree, TreeFault};
use memory::{MapRefusal, MemoryMap};
use numbers::Numbered;
use visit::Step;

// Why the tree's call is refused. Each case has its number in document 01, and as the number's enum has to be flat it repeats those of TreeFault
// and ValueFault.
#[derive(Clone, Copy)]
pub enum TreeRefusal {
    BadHeader = 4,
    OverLimit = 6,
    BadStructure = 5,
    UnreadableReg = 7,
    UnreadableRanges = 8,
    MapFull = 2,
}

impl Numbered for TreeRefusal {
    ghost number_of = { tree_refusal_number };

    fn number(self) -> u8 {
        self as u8
    }
}

impl From<TreeFault> for TreeRefusal {
    ghost from_gives = { λ fault refusal. refusal ≡ of_fault fault };

    fn from(fault: TreeFault) -> TreeRefusal {
        match fault {
            TreeFault::BadHeader => TreeRefusal::BadHeader,
            TreeFault::OverLimit => TreeRefusal::OverLimit,
            TreeFault::BadStructure => TreeRefusal::BadStructure,
        }
    }
}

impl From<ValueFault> for TreeRefusal {
    ghost from_gives = { λ fault refusal. refusal ≡ of_value fault };

    fn from(fault: ValueFault) -> TreeRefusal {
        match fault {
            ValueFault::UnreadableReg => TreeRefusal::UnreadableReg,
            ValueFault::UnreadableRanges => TreeRefusal::UnreadableRanges,
        }
    }
}

// A map by value after a tree. A refusal hands back the map as it came, so this is no Result. The map stands before the answer so that its
// copies stay aligned.
#[derive(Clone, Copy)]
pub struct TreeRegistered {
    pub map: MemoryMap,
    pub answer: Result<(), TreeRefusal>,
}

// Registers the claims of a tree in a lent map, in their order, until one is refused. What it had registered stays then, so this is a step
// of the call below and no call of its own.
fn register_claims_in<'a>(
    map: &mut MemoryMap,
    tree: Tree<'a>,
    block: &'a [u8],
    arm: bool,
) -> Result<(), MapRefusal>
    requires { Made 4096 map.old }
    ensures { answered map.new result ≡ registered_all 4096 map.old (claims_of arm (entries_of block.now) (root_at tree.entry.structure.now tree.entry.strings.now)) }
{
    let mut cursor = visit::first_claim();
    loop {
        match visit::next_claim(tree, block, arm, cursor) {
            Step::Claims(claim, next) => {
                map.register_in(claim)?;
                cursor = next;
            }
            Step::On(next) => {
                cursor = next;
            }
            Step::End => {
                return Ok(());
            }
        }
    }
}

// Registers the claims of a tree that was judged, or none of them.
fn register_judged<'a>(map: MemoryMap, tree: Tree<'a>, block: &'a [u8], arm: bool) -> TreeRegistered
    requires { Made 4096 map }
    ensures { result ≡ settled_tree map (registered_all 4096 map (claims_of arm (entries_of block.now) (root_at tree.entry.structure.now tree.entry.strings.now))) }
{
    let mut next = map;
    match register_claims_in(&mut next, tree, block, arm) {
        Ok(()) => TreeRegistered {
            map: next,
            answer: Ok(()),
        },
        Err(_) => TreeRegistered {
            map, // as it came
            answer: Err(TreeRefusal::MapFull),
        },
    }
}

// Registers what a tree claims, or refuses it and gives the map back as it came. 0 bytes are no tree.
pub fn register_devicetree(map: MemoryMap, tree: &[u8], arm: bool) -> TreeRegistered
    requires { Made 4096 map }
    ensures { result ≡ tree_registered 4096 map tree.now arm }
{
    let blocks = match fdt::open_tree(tree) {
        Ok(Some(blocks)) => blocks,
        Ok(None) => {
            return TreeRegistered {
                map,
                answer: Ok(()),
            };
        }
        Err(fault) => {
            return TreeRegistered {
                map,
                answer: Err(TreeRefusal::from(fault)),
            };
        }
    };
    let b = blocks.structure;
    let n = blocks.strings;
    let structure = words::part(tree, b.at, b.len);
    let strings = words::part(tree, n.at, n.len);
    let opened = Tree { structure, strings };
    match claims::judge(opened, arm) {
        Ok(()) => {
            let block = reservations::reservation_block(tree, blocks);
            register_judged(map, opened, block, arm)
        }
        Err(fault) => TreeRegistered {
            map,
            answer: Err(TreeRefusal::from(fault)),
        },
    }
}
