// The seven kinds, an entry of the map, and the range that a registration covers once it is rounded.
#![tactic(auto)]

ghost use Rattle.std.specs.Prelude.{◌≡◌};
ghost use Rattle.entry.specs.Kind.{number_of, kind_of};
ghost use Rattle.entry.specs.Entry.{meet, join};
ghost use Rattle.entry.specs.Claim.{rounded};

#[derive(Clone, Copy)]
pub enum BootloaderMemoryKind {
    Null = 0,
    Free = 1,
    Reclaim = 2,
    Reserved = 3,
    Kernel = 0x100,
    Device = 0x101,
    IdentityMap = 0x102,
}

impl BootloaderMemoryKind {
    // The number by which lists, maps and reports name the kind.
    pub fn number(self) -> u64
        ensures { result ≡ number_of self }
    {
        self as u64
    }
}

// What a number says as a kind: one of the seven, or none of them.
pub fn kind_of(number: u64) -> Option<BootloaderMemoryKind>
    ensures { result ≡ kind_of number }
{
    match number {
        0 => Some(BootloaderMemoryKind::Null),
        1 => Some(BootloaderMemoryKind::Free),
        2 => Some(BootloaderMemoryKind::Reclaim),
        3 => Some(BootloaderMemoryKind::Reserved),
        0x100 => Some(BootloaderMemoryKind::Kernel),
        0x101 => Some(BootloaderMemoryKind::Device),
        0x102 => Some(BootloaderMemoryKind::IdentityMap),
        _ => None,
    }
}

// One registration: base, size and the number of a kind.
#[derive(Clone, Copy)]
pub struct Claim {
    pub base: u64,
    pub size: u64,
    pub kind: u64,
}

// The addresses from start up to, not including, end, and the number of their kind. Its layout is C's, so that an export can be lent entries.
#[repr(C)]
#[derive(Clone, Copy)]
pub struct MemoryEntry {
    pub start: u64,
    pub end: u64,
    pub kind: u64,
}

impl MemoryEntry {
    // What lies in both, of this entry's kind; nothing where that is empty.
    pub fn intersect(self, other: MemoryEntry) -> Option<MemoryEntry>
        ensures { result ≡ meet self other }
    {
        let start = self.start.max(other.start);
        let end = self.end.min(other.end);
        if start < end {
            return Some(MemoryEntry {
                start,
                end,
                kind: self.kind,
            });
        }
        None
    }

    // The least entry over both, of this entry's kind; nothing where there is a gap between them.
    pub fn combine(self, other: MemoryEntry) -> Option<MemoryEntry>
        ensures { result ≡ join self other }
    {
        if other.end < self.start {
            return None;
        }
        if self.end < other.start {
            return None;
        }
        let start = self.start.min(other.start);
        let end = self.end.max(other.end);
        Some(MemoryEntry {
            start,
            end,
            kind: self.kind,
        })
    }
}

// The pages of a range: a Free one keeps only its whole pages, any other kind takes every page that it reaches into.
pub fn round(claim: Claim) -> MemoryEntry
    ensures { result ≡ rounded 4096 claim }
{
    let base = claim.base;
    let last = page::saturating_add(base, claim.size);
    let kind = claim.kind;
    if kind == 1 {
        let start = page::align_up(base);
        let end = page::align_down(last);
        return MemoryEntry { start, end, kind };
    }
    let start = page::align_down(base);
    let end = page::align_up(last);
    MemoryEntry { start, end, kind }
}
