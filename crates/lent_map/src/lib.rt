// A map that is lent for change: document 01, "afterwards also a map lent for change". The registration by value does the work.
#![tactic(auto)]

ghost use Rattle.std.specs.Prelude.{◌≡◌};
ghost use Rattle.entry.specs.Claim.{claim};
ghost use Rattle.memory.specs.Map.{registered};
ghost use Rattle.memory.specs.Made.{Made};

use memory::{MapRefusal, MemoryMap, Registered};

// Registers a range in a lent map by the number of its kind. A refusal leaves the map as it was. Base, size and kind are the Rust's three
// parameters. The form is document 01's: the lent map is split into its fields, and those of the map that comes back are stored one by one.
pub fn register(map: &mut MemoryMap, base: u64, size: u64, kind: u64) -> Result<(), MapRefusal>
    requires { Made 4096 map.old }
    ensures { (result ≡ (registered 4096 map.old (claim base size kind)).answer) × (map.new ≡ (registered 4096 map.old (claim base size kind)).map) }
{
    let entries = map.entries;
    let parts = MemoryMap {
        entries,
        size: map.size,
    };
    let r = parts.register(base, size, kind);
    let entries = r.map.entries;
    map.entries = entries;
    map.size = r.map.size;
    r.answer
}

// Registers a range through the lent form, for a caller that has its map by value.
pub fn register_by(mut map: MemoryMap, base: u64, size: u64, kind: u64) -> Registered
    requires { Made 4096 map }
    ensures { result ≡ registered 4096 map (claim base size kind) }
{
    let answer = register(&mut map, base, size, kind);
    Registered { map, answer }
}
