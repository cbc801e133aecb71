// What `oracle bench` times of our crates: calls that Rust and C can make.
#![tactic(auto)]

ghost use Rattle.std.specs.Prelude.{◌≡◌};
ghost use Rattle.entry.specs.Claim.{claim};
ghost use Rattle.memory.specs.Map.{map_of, blank, registered};
ghost use Rattle.memory.specs.Made.{Made};
ghost use Rattle.bootloader.specs.List.{listed};
ghost use Rattle.bench.specs.Timed.{BuildsFree, LateIs};

use entry::MemoryEntry;
use memory::MemoryMap;

// Registers a list in the empty map, and answers how many entries are held then.
#[unsafe(no_mangle)]
pub extern "C" fn bench_list(list: &[u8]) -> usize
    ensures { result ≡ (listed 4096 blank list.now).map.size }
{
    let r = bootloader::register_bootloader_areas(MemoryMap::empty(), list);
    r.map.size
}

// Registers one page by value, and answers how many entries are held then.
#[unsafe(no_mangle)]
pub extern "C" fn bench_register(
    entries: &[MemoryEntry; 512],
    size: usize,
    base: u64,
    kind: u64,
) -> usize
    requires { Made 4096 (map_of entries.now size) }
    ensures { result ≡ (registered 4096 (map_of entries.now size) (claim base 4096 kind)).map.size }
{
    let map = MemoryMap {
        entries: *entries,
        size,
    };
    let r = map.register(base, 4096, kind);
    r.map.size
}

// Builds the areas of a map without limits, and answers how many they are, or 0 where they do not fit.
#[unsafe(no_mangle)]
pub extern "C" fn bench_build(entries: &[MemoryEntry; 512], size: usize, slots: &mut [u64]) -> usize
    requires { Made 4096 (map_of entries.now size) }
    ensures { BuildsFree 4096 (map_of entries.now size) slots.old slots.new result }
{
    let map = MemoryMap {
        entries: *entries,
        size,
    };
    areas::build(map, None, None, slots).unwrap_or(0)
}

// A late claim of one page by value, and answers how many slots of the table are used then.
#[unsafe(no_mangle)]
pub extern "C" fn bench_late(
    entries: &[MemoryEntry; 512],
    size: usize,
    base: u64,
    kind: u64,
    slots: &mut [u64],
    count: usize,
) -> usize
    requires { Made 4096 (map_of entries.now size) }
    ensures { LateIs 4096 (map_of entries.now size) (claim base 4096 kind) count slots.old slots.new result }
{
    let map = MemoryMap {
        entries: *entries,
        size,
    };
    let r = late_claim::claim_late(map, base, 4096, kind, slots, count);
    r.count
}
