// A claim that comes when the area table is finished: it enters the map, and the table is edited where it stands. Request L3 of document 02.
#![tactic(auto)]

ghost use Rattle.std.specs.Prelude.{◌≡◌, cond};
ghost use Rattle.entry.specs.Claim.{claim};
ghost use Rattle.memory.specs.Run.{is_done};
ghost use Rattle.memory.specs.Made.{Made};
ghost use Rattle.late_claim.specs.Late.{late_refusal_number, judged, enter_of, late_of, after, after_in, Enters};

use entry::{BootloaderMemoryKind, Claim};
use memory::{MapRefusal, MemoryMap};
use numbers::Numbered;

// Why a late claim is refused, in the order in which this is checked. Each case has its number in document 02.
#[derive(Clone, Copy)]
pub enum LateRefusal {
    UnknownKind = 1,
    NotLate = 13,
    BadTable = 14,
    MapFull = 2,
    TooManyAreas = 3,
}

impl Numbered for LateRefusal {
    ghost number_of = { late_refusal_number };

    fn number(self) -> u8 {
        self as u8
    }
}

// The map, and how many areas the table has, after a late claim. A refusal hands back the map as it came, so this is no Result, and the count
// stands beside the answer, so that a caller reads it after a refusal too. The map stands first so that its copies stay aligned.
#[derive(Clone, Copy)]
pub struct Late {
    pub map: MemoryMap,
    pub count: usize,
    pub answer: Result<(), LateRefusal>,
}

// What is refused before the claim is looked at: its kind, and the table. Null and Free are the two least numbers, so one test asks both. The
// table is slots and a count, since C lends it so.
pub fn judge(kind: u64, slots: &[u64], count: usize) -> Result<(), LateRefusal>
    ensures { result ≡ judged 4096 kind count slots.now }
{
    let Some(_) = entry::kind_of(kind) else {
        return Err(LateRefusal::UnknownKind);
    };
    if kind <= BootloaderMemoryKind::Free.number() {
        return Err(LateRefusal::NotLate);
    }
    if !lent_table::good_table(slots, count) {
        return Err(LateRefusal::BadTable);
    }
    Ok(())
}

// Why a claim that no slot of the table is left for is refused: where the map has none left for it either, that comes first.
fn refused(registered: Result<(), MapRefusal>) -> LateRefusal
    ensures { result ≡ cond (is_done registered) LateRefusal.TooManyAreas LateRefusal.MapFull }
{
    match registered {
        Ok(()) => LateRefusal::TooManyAreas,
        Err(_) => LateRefusal::MapFull,
    }
}

// Enters a claim that was judged, in place, and gives the table's new count. Only a claim that no slot of the table is left for has the map
// copied, to tell 2 from 3.
fn enter_in(
    map: &mut MemoryMap,
    claim: Claim,
    slots: &mut [u64],
    count: usize,
) -> Result<usize, LateRefusal>
    requires { Enters 4096 map.old claim.kind count slots.old }
    ensures { after_in map.new count slots.new result ≡ enter_of 4096 map.old claim count slots.old }
{
    if claim.size == 0 {
        return Ok(count);
    }
    let pages = areas::span(entry::round(claim));
    if pages.hi <= pages.lo {
        return Ok(count);
    }
    if lent_table::crowded(slots, count, pages) {
        let mut trial = *map;
        return Err(refused(trial.register_in(claim)));
    }
    let Ok(()) = map.register_in(claim) else {
        return Err(LateRefusal::MapFull);
    };
    Ok(lent_table::edit(slots, count, pages))
}

// A late claim on a map that is lent, and on a table of which `count` slots are used: how many are then, or the refusal.
pub fn claim_late_in(
    map: &mut MemoryMap,
    claim: Claim,
    slots: &mut [u64],
    count: usize,
) -> Result<usize, LateRefusal>
    requires { Made 4096 map.old }
    ensures { after_in map.new count slots.new result ≡ late_of 4096 map.old claim count slots.old }
{
    judge(claim.kind, slots, count)?;
    enter_in(map, claim, slots, count)
}

// A late claim on a map by value. A refusal gives back the map and leaves every number of the slots. Base, size and kind are three parameters,
// as C calls it. The map is moved into what is handed back in one place: an arm of its own for each answer, tried, took the stack of one map more.
pub fn claim_late(
    mut map: MemoryMap,
    base: u64,
    size: u64,
    kind: u64,
    slots: &mut [u64],
    count: usize,
) -> Late
    requires { Made 4096 map }
    ensures { after result slots.new ≡ late_of 4096 map (claim base size kind) count slots.old }
{
    let (count, answer) = match claim_late_in(&mut map, Claim { base, size, kind }, slots, count) {
        Ok(n) => (n, Ok(())),
        Err(refusal) => (count, Err(refusal)),
    };
    Late { map, count, answer }
}
