// Document 01's run-only case: 512 Free pages, every second one, and then one registration of each sort that
// a full map meets. Each line that is printed is compared with what the document says.
#![tactic(auto)]

ghost use Rattle.memory.specs.Made.{Made};

use memory::{MemoryMap, Registered};
use numbers::Numbered;
use std::io;

fn print_held<P: Print>(out: &P, map: MemoryMap) -> io::Result<()> {
    let held = map.size;
    println!(out; "{held} held")
}

// What a registration answers, and how many entries are held after it.
fn print_answer<P: Print>(out: &P, r: Registered) -> io::Result<()> {
    let answer = r.answer.number();
    print!(out; "answer {answer}, ")?;
    print_held(out, r.map)
}

// Every second page from 0 on, each Free, until 512 are asked for.
fn filled() -> MemoryMap
    ensures { Made 4096 result }
{
    let mut map = MemoryMap::empty();
    for i in 0..512u64 {
        map = map.register(i * 0x2000, 0x1000, 1).map;
    }
    map
}

fn main(rt: HostRuntime) -> io::Result<()> {
    let map = filled();
    print_held(&rt, map)?;
    // isolated
    print_answer(&rt, map.register(0x4000_0000, 0x1000, 1))?;
    // touching, of another kind
    print_answer(&rt, map.register(0x1000, 0x1000, 3))?;
    // bridging
    print_answer(&rt, map.register(0x1000, 0x1000, 1))
}
