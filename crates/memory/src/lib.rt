// The boot memory map, and what a registration does to it.
#![tactic(auto)]

ghost use Rattle.std.specs.Prelude.{◌≡◌, ◌≤◌};
ghost use Rattle.entry.specs.Kind.{number_of};
ghost use Rattle.entry.specs.Claim.{claim};
ghost use Rattle.memory.specs.Map.{blank, refusal_number, answered, absorb, inserted, registered};
ghost use Rattle.memory.specs.Made.{Made};
ghost use Rattle.memory.specs.Run.{registered_all, settled};

use entry::{BootloaderMemoryKind, Claim, MemoryEntry};
use numbers::Numbered;

// The map: 512 slots, of which the first `size` are held: an array with a count beside it, since nothing here has a heap. That a map is
// `Made` is asked by clauses and is no part of the type: `map_numbers::load` gives the map that any numbers are, and `Made` is said of
// every page size.
#[derive(Clone, Copy)]
pub struct MemoryMap {
    pub entries: [MemoryEntry; 512],
    pub size: usize,
}

// Why a registration is refused. Each case has its number in document 01.
#[derive(Clone, Copy)]
pub enum MapRefusal {
    UnknownKind = 1,
    MapFull = 2,
}

impl Numbered for MapRefusal {
    ghost number_of = { refusal_number };

    fn number(self) -> u8 {
        self as u8
    }
}

// A map by value after a registration. A refusal hands back the map as it came, so this is no Result. The map stands before the answer so
// that its copies stay aligned. A source with refusals of its own has a struct of its own: the definitions name each.
#[derive(Clone, Copy)]
pub struct Registered {
    pub map: MemoryMap,
    pub answer: Result<(), MapRefusal>,
}

// The union of a new entry and a held one, where the held one is of its kind and overlaps or touches it.
fn absorbed(new: MemoryEntry, held: MemoryEntry) -> Option<MemoryEntry>
    ensures { result ≡ absorb new held }
{
    // Most held entries are elsewhere, so that is asked first.
    let both = new.combine(held)?;
    if new.kind != held.kind {
        return None;
    }
    Some(both)
}

impl MemoryMap {
    // A map that holds nothing.
    pub fn empty() -> MemoryMap
        ensures { result ≡ blank }
    {
        let vacant = MemoryEntry {
            start: 0,
            end: 0,
            kind: 0,
        };
        MemoryMap {
            entries: [vacant; 512],
            size: 0,
        }
    }

    // A new entry absorbs each held entry of its kind that overlaps or touches it, and goes last.
    fn insert(&mut self, entry: MemoryEntry) -> Result<(), MapRefusal>
        requires { self.old.size ≤ 512 }
        ensures { answered self.new result ≡ inserted self.old entry }
    {
        let mut new = entry;
        // The held slots grow fewer on the way, so no `for` goes over them.
        let mut index: usize = 0;
        while index < self.size {
            match absorbed(new, self.entries[index]) {
                Some(both) => {
                    new = both;
                    self.size -= 1;
                    self.entries[index] = self.entries[self.size];
                }
                None => {
                    index += 1;
                }
            }
        }
        if 512 <= self.size {
            return Err(MapRefusal::MapFull);
        }
        self.entries[self.size] = new;
        self.size += 1;
        Ok(())
    }

    // Registers a range in a map that is lent. A source that registers many ranges works so, since a map by value is copied at each call.
    pub fn register_in(&mut self, claim: Claim) -> Result<(), MapRefusal>
        requires { Made 4096 self.old }
        ensures { answered self.new result ≡ registered 4096 self.old claim }
    {
        // One rule a line. Null is asked by its number: with one match on what the number says, tried, the proof of the last arm did not close.
        let Some(_) = entry::kind_of(claim.kind) else {
            return Err(MapRefusal::UnknownKind);
        };
        if claim.kind == BootloaderMemoryKind::Null.number() {
            return Ok(());
        }
        if claim.size == 0 {
            return Ok(());
        }
        let pages = entry::round(claim);
        if pages.end <= pages.start {
            return Ok(());
        }
        self.insert(pages)
    }

    // Registers one claim after the other in a lent map, until one is refused. What it had registered stays then: a source that is refused as
    // a whole is registered by the call below.
    pub fn register_all(&mut self, claims: &[Claim]) -> Result<(), MapRefusal>
        requires { Made 4096 self.old }
        ensures { answered self.new result ≡ registered_all 4096 self.old claims.now }
    {
        for claim in claims {
            self.register_in(*claim)?;
        }
        Ok(())
    }

    // Registers the claims of a source in a lent map, or none of them: a refusal leaves the map as it was.
    pub fn register_all_or_none(&mut self, claims: &[Claim]) -> Result<(), MapRefusal>
        requires { Made 4096 self.old }
        ensures { answered self.new result ≡ settled self.old (registered_all 4096 self.old claims.now) }
    {
        let mut next = *self;
        next.register_all(claims)?;
        *self = next;
        Ok(())
    }

    // Registers a range by the number of its kind. Here and below, base, size and kind are the Rust's three parameters.
    pub fn register(mut self, base: u64, size: u64, kind: u64) -> Registered
        requires { Made 4096 self }
        ensures { result ≡ registered 4096 self (claim base size kind) }
    {
        let answer = self.register_in(Claim { base, size, kind });
        Registered { map: self, answer }
    }
}

// Registers a range by its kind, as the kernel's own sources do: such a call is never refused for its kind.
pub fn register_memory_region(
    map: MemoryMap,
    base: u64,
    size: u64,
    kind: BootloaderMemoryKind,
) -> Registered
    requires { Made 4096 map }
    ensures { result ≡ registered 4096 map (claim base size (number_of kind)) }
{
    map.register(base, size, kind.number())
}

// The two calls for a source, on one whose third claim is of no kind (0x200), which document 01 answers with 1. What is held of the first two
// is its rounding: a Free range loses the pages that it has in part, and a reserved byte takes its page.
#[cfg(test)]
mod tests {
    use super::*;

    const SOURCE: [Claim; 4] = [
        Claim {
            base: 0x1001,
            size: 0x2fff,
            kind: 1,
        },
        Claim {
            base: 0x5001,
            size: 1,
            kind: 3,
        },
        Claim {
            base: 0x9000,
            size: 0x1000,
            kind: 0x200,
        },
        Claim {
            base: 0xd000,
            size: 0x1000,
            kind: 1,
        },
    ];

    // Whether just the first two are held.
    fn two_held(map: &MemoryMap) -> bool {
        let [first, second] = [map.entries[0], map.entries[1]];
        map.size == 2
            && [first.start, first.end, first.kind] == [0x2000, 0x4000, 1]
            && [second.start, second.end, second.kind] == [0x5000, 0x6000, 3]
    }

    // `Err` is the first part that differs: 1 the answer, 2 the map, 3 and 4 the same of the first two claims alone.
    #[test]
    fn all_stays_up_to_a_refusal() -> Result<(), u64> {
        let mut map = MemoryMap::empty();
        if map.register_all(&SOURCE).number() != 1 {
            return Err(1);
        }
        if !two_held(&map) {
            return Err(2);
        }
        let mut map = MemoryMap::empty();
        if map.register_all(&SOURCE[..2]).number() != 0 {
            return Err(3);
        }
        if !two_held(&map) {
            return Err(4);
        }
        Ok(())
    }

    // `Err` 1 and 2 are of the first two claims, which are done, and 3 and 4 of the fourth and the third, in this order, which are not.
    #[test]
    fn all_or_none_leaves_the_map_at_a_refusal() -> Result<(), u64> {
        let mut map = MemoryMap::empty();
        if map.register_all_or_none(&SOURCE[..2]).number() != 0 {
            return Err(1);
        }
        if !two_held(&map) {
            return Err(2);
        }
        if map.register_all_or_none(&[SOURCE[3], SOURCE[2]]).number() != 1 {
            return Err(3);
        }
        if !two_held(&map) {
            return Err(4);
        }
        Ok(())
    }
}
