// What a map lists: its entries of one kind, or of every other, in the order in which it holds them.
// Each listing is a map of its own, where the Rust has an iterator.
#![tactic(auto)]

ghost use Rattle.std.specs.Prelude.{◌≡◌, true, false};
ghost use Rattle.entry.specs.Kind.{number_of};
ghost use Rattle.memory.specs.Made.{Made};
ghost use Rattle.listing.specs.Listing.{wants_kind, picked, first_of};

use entry::{BootloaderMemoryKind, MemoryEntry};
use memory::MemoryMap;

// Whether an entry's kind is the one asked for, or, where that one is not wanted, any other. `wanted` is a bool as in the definition.
fn is_wanted(kind: u64, wanted: bool, held: u64) -> bool
    ensures { result ≡ wants_kind kind wanted held }
{
    (held == kind) == wanted
}

// The held entries that are, or are not, of one kind, as a map of their own.
fn pick(map: MemoryMap, kind: u64, wanted: bool) -> MemoryMap
    requires { Made 4096 map }
    ensures { result ≡ picked kind wanted map }
{
    let mut out = MemoryMap::empty();
    for entry in &map.entries[..map.size] {
        if is_wanted(kind, wanted, entry.kind) {
            out.entries[out.size] = *entry;
            out.size += 1;
        }
    }
    out
}

pub fn free(map: MemoryMap) -> MemoryMap
    requires { Made 4096 map }
    ensures { result ≡ picked (number_of BootloaderMemoryKind.Free) true map }
{
    pick(map, BootloaderMemoryKind::Free.number(), true)
}

pub fn non_free(map: MemoryMap) -> MemoryMap
    requires { Made 4096 map }
    ensures { result ≡ picked (number_of BootloaderMemoryKind.Free) false map }
{
    pick(map, BootloaderMemoryKind::Free.number(), false)
}

pub fn devices(map: MemoryMap) -> MemoryMap
    requires { Made 4096 map }
    ensures { result ≡ picked (number_of BootloaderMemoryKind.Device) true map }
{
    pick(map, BootloaderMemoryKind::Device.number(), true)
}

pub fn identity_mapped(map: MemoryMap) -> MemoryMap
    requires { Made 4096 map }
    ensures { result ≡ picked (number_of BootloaderMemoryKind.IdentityMap) true map }
{
    pick(map, BootloaderMemoryKind::IdentityMap.number(), true)
}

// The first held entry of kind Kernel. With `find` in place of the loop, tried, the proof did not close.
pub fn kernel(map: MemoryMap) -> Option<MemoryEntry>
    requires { Made 4096 map }
    ensures { result ≡ first_of (number_of BootloaderMemoryKind.Kernel) map }
{
    for entry in &map.entries[..map.size] {
        if entry.kind == BootloaderMemoryKind::Kernel.number() {
            return Some(*entry);
        }
    }
    None
}
