// Prints the finished areas of a bootloader list that is given on standard input: the count, and each base and size;
// or the number of the refusal. A list has to be shorter than 65,536 bytes.
#![tactic(auto)]

ghost use Rattle.std.specs.Prelude.{◌≡◌, ◌≤◌, length};
ghost use Rattle.memory.specs.Made.{Made};

use memory::{MemoryMap, Registered};
use numbers::Numbered;
use std::io;
use std::process::ExitCode;

fn print_refusal<P: Print>(out: &P, number: u8) -> io::Result<()> {
    println!(out; "refused {number}")
}

// One line for each of the first n areas: numbers and a count, as areas::build leaves them.
fn print_areas<P: Print>(out: &P, slots: &[u64], n: usize) -> io::Result<()> {
    println!(out; "areas {n}")?;
    for slot in slots.chunks_exact(2).take(n) {
        let base = slot[0];
        let size = slot[1];
        println!(out; "{base:016x} {size:016x}")?;
    }
    Ok(())
}

// The list, registered in an empty map.
fn registered(list: &[u8]) -> Registered
    ensures { Made 4096 result.map }
{
    bootloader::register_bootloader_areas(MemoryMap::empty(), list)
}

// What becomes of a list: its areas, or the number of the refusal.
fn print_list<P: Print>(out: &P, list: &[u8]) -> io::Result<()> {
    let r = registered(list);
    if let Err(refusal) = r.answer {
        return print_refusal(out, refusal.number());
    }
    let mut slots = [0u64; 1024];
    match areas::build(r.map, None, None, &mut slots) {
        Ok(count) => print_areas(out, &slots, count),
        Err(refusal) => print_refusal(out, refusal.number()),
    }
}

fn main(rt: HostRuntime) -> io::Result<ExitCode> {
    let mut bytes = [0u8; 65536];
    let Ok(n) = standard::read_all(&mut rt.stdin(), &rt, &mut bytes) else {
        return Ok(ExitCode::FAILURE);
    };
    if 65536 <= n {
        println!(rt; "list too long")?;
    } else {
        print_list(&rt, &bytes[..n])?;
    }
    Ok(ExitCode::SUCCESS)
}
