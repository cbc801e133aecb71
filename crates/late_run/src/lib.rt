// Late claims one after the other, up to the first that is refused: request L3 of document 02, its program's claims.
#![tactic(auto)]

ghost use Rattle.std.specs.Prelude.{◌≡◌};
ghost use Rattle.memory.specs.Made.{Made};
ghost use Rattle.bootloader.specs.List.{claims};
ghost use Rattle.late_run.specs.Run.{late_all, ran, ran_in};

use late_claim::LateRefusal;
use memory::MemoryMap;
use numbers::Numbered;

// The map, and how many areas the table has, after the claims that are done; the answer of the first that is refused and its index,
// counted from 0, or done and how many there are. What the claims before a refusal did stands, so this is no Result. The map stands first so
// that its copies stay aligned.
#[derive(Clone, Copy)]
pub struct LateRun {
    pub map: MemoryMap,
    pub count: usize,
    pub index: usize,
    pub answer: Result<(), LateRefusal>,
}

// The same where the map is lent. No part of LateRun, since the definitions read each one's own fields.
#[derive(Clone, Copy)]
pub struct LateRunIn {
    pub count: usize,
    pub index: usize,
    pub answer: Result<(), LateRefusal>,
}

// The claims of a list, 24 bytes each, on a map that is lent, and on a table of which `count` slots are used. By index, since a refusal tells
// the index of its claim.
pub fn claim_all_in(map: &mut MemoryMap, slots: &mut [u64], count: usize, list: &[u8]) -> LateRunIn
    requires { Made 4096 map.old }
    ensures { ran_in result map.new slots.new ≡ late_all 4096 map.old count slots.old 0 (claims list.now) }
{
    let mut used = count;
    let n = list.len() / 24;
    for i in 0..n {
        let said = late_claim::claim_late_in(map, bootloader::claim_at(list, i), slots, used);
        used = said.unwrap_or(used);
        // By its number, 0 for done: a value, where a must-fail edit asks for another, and the arms of a match are names that the proof cites.
        let refused = said.number() != 0;
        if refused {
            return LateRunIn {
                count: used,
                index: i,
                answer: said.and(Ok(())),
            };
        }
    }
    LateRunIn {
        count: used,
        index: n,
        answer: Ok(()),
    }
}

// The same on a map by value.
pub fn claim_all(mut map: MemoryMap, slots: &mut [u64], count: usize, list: &[u8]) -> LateRun
    requires { Made 4096 map }
    ensures { ran result slots.new ≡ late_all 4096 map count slots.old 0 (claims list.now) }
{
    let r = claim_all_in(&mut map, slots, count, list);
    LateRun {
        map,
        count: r.count,
        index: r.index,
        answer: r.answer,
    }
}
