// String values of properties: up to their first zero byte.
#![tactic(auto)]

ghost use Rattle.std.specs.Prelude.{◌≡◌};
ghost use Rattle.text.specs.Strings.{string_at, contains};

use fdt::{Block, Tree};

// The string in a property of the node at a place: where it stands and how long it is; nothing where no zero byte ends it.
pub fn string_of<'a>(tree: Tree<'a>, node: usize, name: &'a [u8]) -> Option<Block>
    ensures { result ≡ string_at tree.entry.structure.now tree.entry.strings.now node name.now }
{
    let value = nodes::getprop(tree, node, name)?;
    let len = cells::text(words::part(tree.structure, value.at, value.len))?;
    Some(Block { at: value.at, len })
}

// Whether some part of a string is another. By its places, for `windows` takes no empty part.
pub fn holds<'a>(text: &'a [u8], part: &'a [u8]) -> bool
    ensures { result ≡ contains text.now part.now }
{
    if text.len() < part.len() {
        return false;
    }
    let last = text.len() - part.len();
    for i in 0..=last {
        if nodes::same(words::part(text, i, part.len()), part) {
            return true;
        }
    }
    false
}
