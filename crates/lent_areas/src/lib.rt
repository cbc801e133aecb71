// The finished areas in a lent row of area records: document 01, "then a lent row of area records". The build in number slots does the work.
#![tactic(auto)]

ghost use Rattle.std.specs.Prelude.{◌≡◌, ◌<◌};
ghost use Rattle.memory.specs.Made.{Made};
ghost use Rattle.lent_areas.specs.Row.{area_at, BuildsRow};

use areas::AreasRefusal;
use memory::MemoryMap;

// One area of the finished table, as in the kernel's rmm.
#[derive(Clone, Copy)]
pub struct MemoryArea {
    pub base: u64,
    pub size: u64,
}

// Area i of a table's numbers, which are lent, so that no area costs a copy of them.
fn area_of(slots: &[u64; 1024], i: usize) -> MemoryArea
    requires { i < 512 }
    ensures { result ≡ area_at slots.now i }
{
    MemoryArea {
        base: slots[i + i],
        size: slots[i + i + 1],
    }
}

// The finished areas of a map into the lent row; the rest of the row stays, and where they are too many all of it does. Low and high are the
// Rust's two parameters.
pub fn build(
    row: &mut [MemoryArea],
    map: MemoryMap,
    low: Option<u64>,
    high: Option<u64>,
) -> Result<usize, AreasRefusal>
    requires { Made 4096 map }
    ensures { BuildsRow 4096 map low high row.old row.new result }
{
    let mut slots = [0u64; 1024];
    let n = areas::build(map, low, high, &mut slots)?;
    let answer = if row.len() < n {
        Err(AreasRefusal::TooManyAreas)
    } else {
        Ok(n)
    };
    // A refusal writes none: one loop for both, so that how many it writes is a value, where a must-fail edit has another.
    for i in 0..answer.unwrap_or(0) {
        row[i] = area_of(&slots, i);
    }
    answer
}

// A row by value, and what the build into it answers. A refusal hands back the row as it came, so this is no Result.
#[derive(Clone, Copy)]
pub struct Row {
    pub areas: [MemoryArea; 512],
    pub answer: Result<usize, AreasRefusal>,
}

// The same for a caller that hands its row over and gets it back: the row is lent from a local.
pub fn build_into(
    row: [MemoryArea; 512],
    map: MemoryMap,
    low: Option<u64>,
    high: Option<u64>,
) -> Row
    requires { Made 4096 map }
    ensures { BuildsRow 4096 map low high row result.areas result.answer }
{
    let mut areas = row;
    let answer = build(&mut areas, map, low, high);
    Row { areas, answer }
}
