// The bootloader's list: 24 bytes an entry, registered whole or not at all.
#![tactic(auto)]

ghost use Rattle.std.specs.Prelude.{◌≡◌};
ghost use Rattle.memory.specs.Map.{answered};
ghost use Rattle.memory.specs.Made.{Made};
ghost use Rattle.memory.specs.Run.{registered_all};
ghost use Rattle.bootloader.specs.List.{claim_at, all_known, claims, listed};

use entry::Claim;
use memory::{MapRefusal, MemoryMap, Registered};

// Entry i of a list, by its index: so the definitions and their promise go through a list. Where the list has no such entry, each byte that
// is not there counts as 0, as in words, so that nothing is asked of i.
pub fn claim_at(list: &[u8], i: usize) -> Claim
    ensures { result ≡ claim_at list.now i }
{
    let at = i.saturating_mul(24);
    Claim {
        base: words::le64(list, at),
        size: words::le64(list, at.saturating_add(8)),
        kind: words::le64(list, at.saturating_add(16)),
    }
}

// Whether every entry of a list has one of the seven kinds. The kind alone is read: it is a third of the entry.
fn all_known(list: &[u8]) -> bool
    ensures { result ≡ all_known list.now }
{
    for i in 0..list.len() / 24 {
        let Some(_) = entry::kind_of(words::le64(list, i * 24 + 16)) else {
            return false;
        };
    }
    true
}

// Registers the entries of a list in a lent map, until one is refused. What it had registered stays then,
// so this is a step of the call below and no call of its own.
fn register_list_in(map: &mut MemoryMap, list: &[u8]) -> Result<(), MapRefusal>
    requires { Made 4096 map.old }
    ensures { answered map.new result ≡ registered_all 4096 map.old (claims list.now) }
{
    for i in 0..list.len() / 24 {
        map.register_in(claim_at(list, i))?;
    }
    Ok(())
}

// Registers every entry of the bootloader's list, or none of them.
pub fn register_bootloader_areas(map: MemoryMap, list: &[u8]) -> Registered
    requires { Made 4096 map }
    ensures { result ≡ listed 4096 map list.now }
{
    if !all_known(list) {
        return Registered {
            map,
            answer: Err(MapRefusal::UnknownKind),
        };
    }
    let mut next = map;
    let answer = register_list_in(&mut next, list);
    match answer {
        Ok(()) => Registered { map: next, answer },
        Err(_) => Registered {
            map, // as it came
            answer,
        },
    }
}
