// The map where a caller lends it as plain numbers: for callers that know no MemoryMap. Request L3 of document 02: "a build that leaves its
// map in the caller's memory".
#![tactic(auto)]

ghost use Rattle.std.specs.Prelude.{◌≡◌};
ghost use Rattle.map_numbers.specs.Numbers.{map_in, numbers, numbers_of};

use entry::MemoryEntry;
use memory::MemoryMap;

// The map in the lent numbers, whatever they are.
pub fn load(memory: &[u64; 1537]) -> MemoryMap
    ensures { result ≡ map_in memory.now }
{
    let mut map = MemoryMap::empty();
    for i in 0..512usize {
        map.entries[i] = MemoryEntry {
            start: memory[i],
            end: memory[512 + i],
            kind: memory[1024 + i],
        };
    }
    map.size = memory[1536] as usize;
    map
}

// Puts some slots and their count into the lent numbers. That there are 512 is told of an array that is lent, and not of one in a struct.
fn put(memory: &mut [u64; 1537], entries: &[MemoryEntry; 512], size: usize)
    ensures { memory.new ≡ numbers entries.now size }
{
    for (i, entry) in entries.iter().enumerate() {
        memory[i] = entry.start;
        memory[512 + i] = entry.end;
        memory[1024 + i] = entry.kind;
    }
    memory[1536] = size as u64;
}

// Leaves a map in the lent numbers, all of them.
#[tactic(auto, unfolding(crate::specs::Numbers::numbers_of))]
pub fn store(memory: &mut [u64; 1537], map: MemoryMap)
    ensures { memory.new ≡ numbers_of map }
{
    put(memory, &map.entries, map.size);
}
