// Replays a stream of cases on standard input, each with the answers of the unchanged Rust, and says where ours
// differ. oracle/README.md has the layout of a case.
#![tactic(auto)]

ghost use Rattle.std.specs.Prelude.{◌≤◌, ◌≡◌, length};
ghost use Rattle.memory.specs.Made.{Made};

use areas::AreasRefusal;
use entry::MemoryEntry;
use memory::{MemoryMap, Registered};
use numbers::Numbered;
use std::io::{self, Read};
use stream::Tally;

// The bytes that are held of the stream, with a count beside them: there is no heap. A case takes less than half of them.
const SPACE: usize = 262144;

// The numbers that can be lent to a build.
const SLOTS: usize = 2048;

// Where the parts of a case start: its registrations, their answers, the answer of the list, the three maps, the
// build, the five listings, and what comes after the case.
#[derive(Clone, Copy)]
struct Parts {
    claims: usize,
    answers: usize,
    listed: usize,
    first: usize,
    list: usize,
    all: usize,
    built: usize,
    free: usize,
    non_free: usize,
    devices: usize,
    identity_mapped: usize,
    kernel: usize,
    end: usize,
}

// The place after a map: its count, and its entries.
fn past_map(buf: &[u8], at: usize) -> usize {
    stream::past_threes(buf, stream::past(buf, at, 1), stream::word(buf, at))
}

fn parts_of(buf: &[u8], at: usize) -> Parts {
    let n = stream::word(buf, at);
    let claims = stream::past(buf, at, 8);
    let answers = stream::past_threes(buf, claims, n);
    let listed = stream::past(buf, answers, n);
    let first = stream::past(buf, listed, 1);
    let list = past_map(buf, first);
    let all = past_map(buf, list);
    let built = past_map(buf, all);
    let free = stream::past(buf, stream::past(buf, built, 2), stream::nth(buf, at, 7));
    let non_free = past_map(buf, free);
    let devices = past_map(buf, non_free);
    let identity_mapped = past_map(buf, devices);
    let kernel = past_map(buf, identity_mapped);
    let end = past_map(buf, kernel);
    Parts {
        claims,
        answers,
        listed,
        first,
        list,
        all,
        built,
        free,
        non_free,
        devices,
        identity_mapped,
        kernel,
        end,
    }
}

// Whether a case that ends at a place is there as a whole, and has such counts as the stream's maker gives.
fn is_whole(buf: &[u8], at: usize, end: usize, have: usize) -> bool {
    if have < end {
        return false;
    }
    if buf.len() <= end {
        return false;
    }
    if stream::word(buf, at) < stream::nth(buf, at, 1) {
        return false;
    }
    if 23 < stream::nth(buf, at, 2) {
        return false;
    }
    stream::nth(buf, at, 7) <= SLOTS as u64
}

// Makes the registration at a place. By value, so that this call is replayed too: claims_replay makes the one in a lent map.
fn register_at(buf: &[u8], at: usize, map: MemoryMap) -> Registered
    requires { Made 4096 map }
    ensures { Made 4096 result.map }
{
    let base = stream::word(buf, at);
    let size = stream::nth(buf, at, 1);
    let kind = stream::nth(buf, at, 2);
    map.register(base, size, kind)
}

// Makes the registrations from number `from` up to `to` one by one in a lent map, up to the first whose answer differs. Whether none does.
fn register_each(buf: &[u8], p: Parts, map: &mut MemoryMap, from: u64, to: u64) -> bool
    requires { Made 4096 map.old }
    ensures { Made 4096 map.new }
{
    for i in from..to {
        let r = register_at(buf, stream::past_threes(buf, p.claims, i), *map);
        *map = r.map;
        if u64::from(r.answer.number()) != stream::nth(buf, p.answers, i) {
            return false;
        }
    }
    true
}

// Hands the registrations from number `from` up to `to`, with the bytes of the tail, over as one list.
fn register_list(buf: &[u8], p: Parts, map: MemoryMap, from: u64, to: u64, tail: u64) -> Registered
    requires { Made 4096 map }
{
    let end = stream::forward(buf, stream::past_threes(buf, p.claims, to), tail).min(buf.len());
    let start = stream::past_threes(buf, p.claims, from).min(end);
    bootloader::register_bootloader_areas(map, &buf[start..end])
}

// Whether an entry is the one that stands at a place.
fn is_entry(buf: &[u8], at: usize, entry: MemoryEntry) -> bool {
    stream::is_three(buf, at, entry.start, entry.end, entry.kind)
}

// Whether a map holds the entries that stand at a place, in their order. claims_replay has the same function: stream, which
// both use, knows no map.
fn same_map(buf: &[u8], at: usize, map: MemoryMap) -> bool {
    let n = map.size;
    if n as u64 != stream::word(buf, at) {
        return false;
    }
    if 512 < n {
        return false;
    }
    for (i, entry) in map.entries[..n].iter().enumerate() {
        let there = stream::past_threes(buf, stream::past(buf, at, 1), i as u64);
        if !is_entry(buf, there, *entry) {
            return false;
        }
    }
    true
}

// A limit of a build. The stream has it as a flag and a number.
fn limit(flag: u64, at: u64) -> Option<u64> {
    (flag != 0).then_some(at)
}

// The numbers that a build is lent, each of another value.
fn untouched() -> [u64; SLOTS]
    ensures { 2048 ≡ length result }
{
    let mut slots = [0u64; SLOTS];
    for (i, slot) in slots.iter_mut().enumerate() {
        *slot = 0xa5a5_a5a5_a5a5_0000 + i as u64;
    }
    slots
}

// Whether the first `len` numbers are those at a place.
fn same_slots(buf: &[u8], at: usize, slots: &[u64; SLOTS], len: usize) -> bool {
    if SLOTS < len {
        return false;
    }
    for (i, slot) in slots[..len].iter().enumerate() {
        if *slot != stream::nth(buf, at, i as u64) {
            return false;
        }
    }
    true
}

// Builds into the first `len` numbers. The two limits stay apart, as areas::build takes them.
fn build(
    map: MemoryMap,
    low: Option<u64>,
    high: Option<u64>,
    slots: &mut [u64],
    len: usize,
) -> Result<usize, AreasRefusal>
    requires { Made 4096 map }
{
    let n = len.min(slots.len());
    areas::build(map, low, high, &mut slots[..n])
}

// Builds the areas of a map. `Err` is the part that differs.
fn replay_build(buf: &[u8], at: usize, p: Parts, map: MemoryMap) -> Result<(), u64>
    requires { Made 4096 map }
{
    let low = limit(stream::nth(buf, at, 3), stream::nth(buf, at, 4));
    let high = limit(stream::nth(buf, at, 5), stream::nth(buf, at, 6));
    let len = stream::nth(buf, at, 7) as usize;
    let mut slots = untouched();
    let built = build(map, low, high, &mut slots, len);
    if u64::from(built.number()) != stream::word(buf, p.built) {
        return Err(6);
    }
    if built.unwrap_or(0) as u64 != stream::nth(buf, p.built, 1) {
        return Err(6);
    }
    if !same_slots(buf, stream::past(buf, p.built, 2), &slots, len) {
        return Err(7);
    }
    Ok(())
}

// Whether an entry, or none, stands at a place.
fn same_entry(buf: &[u8], at: usize, found: Option<MemoryEntry>) -> bool {
    match found {
        Some(entry) => {
            stream::word(buf, at) == 1 && is_entry(buf, stream::past(buf, at, 1), entry)
        }
        None => stream::word(buf, at) == 0,
    }
}

// Whether a map lists what stands in a case.
fn same_listings(buf: &[u8], p: Parts, map: MemoryMap) -> bool
    requires { Made 4096 map }
{
    if !same_map(buf, p.free, listing::free(map)) {
        return false;
    }
    if !same_map(buf, p.non_free, listing::non_free(map)) {
        return false;
    }
    if !same_map(buf, p.devices, listing::devices(map)) {
        return false;
    }
    if !same_map(buf, p.identity_mapped, listing::identity_mapped(map)) {
        return false;
    }
    same_entry(buf, p.kernel, listing::kernel(map))
}

// Makes the calls of the case at a place. `Err` is the first part that differs: 1 a registration's answer, 2 the list's,
// 3 the map after the first registrations, 4 after the list, 5 after all, 6 the build's answer, 7 the areas,
// 8 a listing of the map after all.
fn replay_case(buf: &[u8], at: usize, p: Parts) -> Result<(), u64> {
    let n = stream::word(buf, at);
    let k = stream::nth(buf, at, 1);
    let mut held = MemoryMap::empty();
    if !register_each(buf, p, &mut held, 0, k) {
        return Err(1);
    }
    let mut all = held;
    if !register_each(buf, p, &mut all, k, n) {
        return Err(1);
    }
    let listed = register_list(buf, p, held, k, n, stream::nth(buf, at, 2));
    if u64::from(listed.answer.number()) != stream::word(buf, p.listed) {
        return Err(2);
    }
    if !same_map(buf, p.first, held) {
        return Err(3);
    }
    if !same_map(buf, p.list, listed.map) {
        return Err(4);
    }
    if !same_map(buf, p.all, all) {
        return Err(5);
    }
    replay_build(buf, at, p, all)?;
    if !same_listings(buf, p, all) {
        return Err(8);
    }
    Ok(())
}

// Replays case after case. A proved loop has to end, and nothing says that a stream does, so its turns are as many as no run uses up.
fn replay<R: Read, E: Eprint>(input: &mut R, told: &E, buf: &mut [u8; SPACE]) -> Tally {
    let mut tally = stream::fresh();
    let mut have = stream::refill(input, told, buf, 0, 0);
    let mut at: usize = 0;
    for _ in 0..u64::MAX {
        if SPACE / 2 < at {
            have = stream::refill(input, told, buf, at, have);
            at = 0;
        }
        if have <= at {
            return tally;
        }
        let p = parts_of(buf, at);
        if !is_whole(buf, at, p.end, have) {
            tally.cut = true;
            return tally;
        }
        tally = stream::counted(tally, replay_case(buf, at, p).err().unwrap_or(0));
        at = p.end;
    }
    tally
}

fn main(rt: HostRuntime) -> io::Result<()> {
    let mut buf = [0u8; SPACE];
    let tally = replay(&mut rt.stdin(), &rt, &mut buf);
    stream::report(&rt, tally, b"case")
}
