// The console that /chosen names, and where it lies.
#![tactic(auto)]

ghost use Rattle.std.specs.Prelude.{◌≡◌};
ghost use Rattle.nodes.specs.OnTree.{head_of};
ghost use Rattle.reading.specs.Values.{value_of};
ghost use Rattle.subtree.specs.Names.{aliases_name};
ghost use Rattle.subtree.specs.Subtree.{root_at, node_at, props_of, under_root};
ghost use Rattle.text.specs.Strings.{string_in};
ghost use Rattle.stdout.specs.Stdout.{aliased, named, stdout_in, uart_of};

use cells::Region;
use fdt::Tree;
use translation::Sought;

// The node that a name in /aliases stands for: its value is a path, of which nothing is cut.
fn alias_node<'a>(tree: Tree<'a>, root: usize, name: &'a [u8]) -> Option<usize>
    requires { node_at tree.structure.now tree.strings.now root ≡ root_at tree.structure.now tree.strings.now }
    ensures { result ≡ head_of (aliased (root_at tree.entry.structure.now tree.entry.strings.now) (string_in (value_of name.now (props_of (under_root aliases_name (root_at tree.entry.structure.now tree.entry.strings.now)))))) }
{
    let aliases = nodes::subnode(tree, root, b"aliases")?;
    let path = text::string_of(tree, aliases, name)?;
    nodes::path_offset(tree, words::part(tree.structure, path.at, path.len))
}

// The node of a name: a path where it begins with `/`, else an alias.
fn node_named<'a>(tree: Tree<'a>, root: usize, name: &'a [u8]) -> Option<usize>
    requires { node_at tree.structure.now tree.strings.now root ≡ root_at tree.structure.now tree.strings.now }
    ensures { result ≡ head_of (named (root_at tree.entry.structure.now tree.entry.strings.now) name.now) }
{
    if name.len() == 0 {
        return alias_node(tree, root, name);
    }
    if name[0] == b'/' {
        return nodes::path_offset(tree, name);
    }
    alias_node(tree, root, name)
}

// The stdout node.
pub fn diag_uart_node<'a>(tree: Tree<'a>) -> Option<usize>
    ensures { result ≡ head_of (stdout_in (root_at tree.entry.structure.now tree.entry.strings.now)) }
{
    let root = nodes::path_offset(tree, b"/")?;
    let chosen = nodes::subnode(tree, root, b"chosen")?;
    let path = text::string_of(tree, chosen, b"stdout-path")?;
    let value = words::part(tree.structure, path.at, path.len);
    let colon = words::byte_from(value, 0, b':');
    node_named(tree, root, words::part(value, 0, colon))
}

// The first registers of the stdout node, where it has `compatible`, translated.
pub fn diag_uart_range<'a>(tree: Tree<'a>) -> Option<Region>
    ensures { result ≡ uart_of (root_at tree.entry.structure.now tree.entry.strings.now) }
{
    let uart = diag_uart_node(tree)?;
    nodes::getprop(tree, uart, b"compatible")?;
    let found = translation::translate_mmio_address(tree, uart, Sought::FirstReg)?;
    Some(found.region)
}
