// The whole build: an order file's registrations, from all its sources in their order, and the finished areas with their page sheet.
// The memory side of the kernel's src/startup/memory.rs.
#![tactic(auto)]

ghost use Rattle.std.specs.Prelude.{◌≡◌};
ghost use Rattle.memory.specs.Made.{Made};
ghost use Rattle.memory.specs.Run.{registered_all};
ghost use Rattle.startup.specs.Sources.{pair_claim, pair_claims};
ghost use Rattle.startup.specs.Verdict.{refusal_number, of_order, of_areas, of_tree, rejection, sources_of, ended_sources};
ghost use Rattle.startup.specs.Report.{Finishes, Reports};
ghost use Rattle.startup.specs.Start.{not_started, StartFinishes, Starts};

use areas::AreasRefusal;
use cells::Region;
use dtb::TreeRefusal;
use entry::{BootloaderMemoryKind, Claim};
use memory::{MapRefusal, MemoryMap};
use numbers::Numbered;
use order::{Order, OrderFault};
use sheet::PageSheet;

// Why an order file is refused, in the order in which this is checked. Each case has its number in document 01: numbers at cases want a flat
// enum, so the layers below have no case each, but are turned into these by the functions below.
#[derive(Clone, Copy)]
pub enum Refusal {
    BadOrder = 9,
    UnknownKind = 1,
    BadHeader = 4,
    OverLimit = 6,
    BadStructure = 5,
    UnreadableReg = 7,
    UnreadableRanges = 8,
    MapFull = 2,
    TooManyAreas = 3,
}

impl Numbered for Refusal {
    ghost number_of = { refusal_number };

    fn number(self) -> u8 {
        self as u8
    }
}

impl From<OrderFault> for Refusal {
    ghost from_gives = { λ fault refusal. refusal ≡ of_order fault };

    fn from(fault: OrderFault) -> Refusal {
        match fault {
            OrderFault::BadOrder => Refusal::BadOrder,
        }
    }
}

impl From<TreeRefusal> for Refusal {
    ghost from_gives = { λ tree refusal. refusal ≡ of_tree tree };

    fn from(tree: TreeRefusal) -> Refusal {
        match tree {
            TreeRefusal::BadHeader => Refusal::BadHeader,
            TreeRefusal::OverLimit => Refusal::OverLimit,
            TreeRefusal::BadStructure => Refusal::BadStructure,
            TreeRefusal::UnreadableReg => Refusal::UnreadableReg,
            TreeRefusal::UnreadableRanges => Refusal::UnreadableRanges,
            TreeRefusal::MapFull => Refusal::MapFull,
        }
    }
}

impl From<AreasRefusal> for Refusal {
    ghost from_gives = { λ areas refusal. refusal ≡ of_areas areas };

    fn from(areas: AreasRefusal) -> Refusal {
        match areas {
            AreasRefusal::TooManyAreas => Refusal::TooManyAreas,
        }
    }
}

// The map with all registrations of an order file, or the empty one beside the refusal: that it is empty then is promised, so this is no
// Result. The map stands first so that its copies stay aligned. It is a struct of its own since its definitions name it.
#[derive(Clone, Copy)]
pub struct Sources {
    pub map: MemoryMap,
    pub verdict: Result<(), Refusal>,
}

// What the whole build did: how many areas were written, with their page sheet.
#[derive(Clone, Copy)]
pub struct Summary {
    pub count: usize,
    pub sheet: PageSheet,
}

// The map with all registrations of an order file beside what the build answers, or the empty map beside a refusal, which wrote nothing: as
// in Sources, so this is no Result. The map stands first so that its copies stay aligned.
#[derive(Clone, Copy)]
pub struct Start {
    pub map: MemoryMap,
    pub report: Result<Summary, Refusal>,
}

// One of the five pairs, as a claim of its kind.
fn pair_claim(kind: BootloaderMemoryKind, pair: Region) -> Claim
    ensures { result ≡ pair_claim kind pair }
{
    Claim {
        base: pair.address,
        size: pair.size,
        kind: kind.number(),
    }
}

// The claims of the five pairs of an order file, in their order.
fn pair_claims(order: Order) -> [Claim; 5]
    ensures { result ≡ pair_claims order }
{
    let map = BootloaderMemoryKind::IdentityMap;
    [
        pair_claim(BootloaderMemoryKind::Kernel, order.kernel),
        pair_claim(map, order.env),
        pair_claim(map, order.hwdesc),
        pair_claim(map, order.bootstrap),
        pair_claim(map, order.stack),
    ]
}

// The empty map beside a refusal.
fn rejected(refusal: Refusal) -> Sources
    ensures { result ≡ rejection refusal }
{
    Sources {
        map: MemoryMap::empty(),
        verdict: Err(refusal),
    }
}

// The last of the sources: the five pairs.
fn register_pairs(mut map: MemoryMap, order: Order) -> Sources
    requires { Made 4096 map }
    ensures { result ≡ ended_sources (registered_all 4096 map (pair_claims order)) }
{
    let Ok(()) = map.register_all_or_none(&pair_claims(order)) else {
        return rejected(Refusal::MapFull);
    };
    Sources {
        map,
        verdict: Ok(()),
    }
}

// Registers what an order file's list, tree and pairs claim in the empty map. A list that overflows the map is only refused once the tree
// has been judged, since the tree's faults come before a full map.
pub fn register_memory_from_kernel_args(file: &[u8], order: Order) -> Sources
    ensures { result ≡ sources_of 4096 file.now order }
{
    let list = words::part(file, order.list.at, order.list.len);
    let tree = words::part(file, order.tree.at, order.tree.len);
    let listed = bootloader::register_bootloader_areas(MemoryMap::empty(), list);
    // By its number: a value, where a must-fail edit asks for the other refusal, and a pattern is a name that the proof cites.
    let unknown = listed.answer.number() == MapRefusal::UnknownKind.number();
    if unknown {
        return rejected(Refusal::UnknownKind);
    }
    let treed = dtb::register_devicetree(listed.map, tree, order.arm);
    if let Err(refusal) = treed.answer {
        return rejected(Refusal::from(refusal));
    }
    let Ok(()) = listed.answer else {
        return rejected(Refusal::MapFull); // of the list
    };
    register_pairs(treed.map, order)
}

// The finished areas of a map with their page sheet. The two limits stay apart, as in areas: the kernel's Rust has two parameters.
fn finish(
    map: MemoryMap,
    low: Option<u64>,
    high: Option<u64>,
    slots: &mut [u64],
) -> Result<Summary, Refusal>
    requires { Made 4096 map }
    ensures { Finishes 4096 map low high slots.old slots.new result }
{
    let count = areas::build(map, low, high, slots)?;
    let free = sheet::free_pages(map, low, high);
    let usable = sheet::usable_pages(slots, count);
    Ok(Summary {
        count,
        sheet: sheet::page_sheet(free, usable),
    })
}

// The empty map beside a refusal, that of the areas too: `rejected` does it for Sources, and each of the two structs has its own definitions.
fn not_started(refusal: Refusal) -> Start
    ensures { result ≡ not_started refusal }
{
    Start {
        map: MemoryMap::empty(),
        report: Err(refusal),
    }
}

// The map beside its finished areas, or the empty one where they are refused.
fn start_finished(map: MemoryMap, low: Option<u64>, high: Option<u64>, slots: &mut [u64]) -> Start
    requires { Made 4096 map }
    ensures { StartFinishes 4096 map low high slots.old slots.new result }
{
    match finish(map, low, high, slots) {
        Ok(summary) => Start {
            map,
            report: Ok(summary),
        },
        Err(refusal) => not_started(refusal),
    }
}

// Builds the area table of an order file in the lent slots, two numbers each, and hands out the map of all its registrations, so that more
// can be claimed. A refusal writes nothing, and the empty map stands beside it.
pub fn init_map(file: &[u8], slots: &mut [u64]) -> Start
    ensures { Starts 4096 file.now slots.old slots.new result }
{
    match order::read_order(file) {
        Err(fault) => not_started(Refusal::from(fault)),
        Ok(order) => {
            let sources = register_memory_from_kernel_args(file, order);
            match sources.verdict {
                Err(refusal) => not_started(refusal),
                Ok(()) => start_finished(sources.map, order.low, order.high, slots),
            }
        }
    }
}

// The same without the map.
pub fn init(file: &[u8], slots: &mut [u64]) -> Result<Summary, Refusal>
    ensures { Reports 4096 file.now slots.old slots.new result }
{
    init_map(file, slots).report
}
