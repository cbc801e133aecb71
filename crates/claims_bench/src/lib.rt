// What `oracle bench` times of a tree's claims: a call that Rust and C can make.
#![tactic(auto)]

ghost use Rattle.std.specs.Prelude.{◌≡◌};
ghost use Rattle.memory.specs.Map.{blank};
ghost use Rattle.dtb.specs.Call.{tree_registered};

use memory::MemoryMap;

// Registers the claims of a tree in the empty map, and answers how many entries are held then.
#[unsafe(no_mangle)]
pub extern "C" fn bench_claims(tree: &[u8], arm: bool) -> usize
    ensures { result ≡ (tree_registered 4096 blank tree.now arm).map.size }
{
    let r = dtb::register_devicetree(MemoryMap::empty(), tree, arm);
    r.map.size
}
