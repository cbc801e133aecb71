// The order file's layout.
#![tactic(auto)]

ghost use Rattle.std.specs.Prelude.{◌≡◌, ◌≤◌, ◌<◌, length, eqb, ◌||◌};
ghost use Rattle.words.specs.Little.{eight};
ghost use Rattle.order.specs.Layout.{limit_by, pair_at, good_order, order_in, order_fault_number, order_of, file_end};

use cells::Region;
use fdt::Block;
use numbers::Numbered;

// What a station's order file says: the flags and limits, five ranges, and where its list and its tree stand.
#[derive(Clone, Copy)]
pub struct Order {
    pub arm: bool,
    pub low: Option<u64>,
    pub high: Option<u64>,
    pub kernel: Region,
    pub env: Region,
    pub hwdesc: Region,
    pub bootstrap: Region,
    pub stack: Region,
    pub list: Block,
    pub tree: Block,
}

// Why an order file is refused: it breaks its layout.
#[derive(Clone, Copy)]
pub enum OrderFault {
    BadOrder = 9,
}

impl Numbered for OrderFault {
    ghost number_of = { order_fault_number };

    fn number(self) -> u8 {
        self as u8
    }
}

// Whether the limit at a place is flagged, or else 0: a flag of its own says in the file which limits count.
fn limit_good(s: &[u8], flagged: bool, at: usize) -> bool
    ensures { result ≡ (flagged || eqb (eight s.now at) 0) }
{
    flagged || words::le64(s, at) == 0
}

// Whether the bytes keep the layout.
#[tactic(auto, unfolding(crate::specs::Layout::good_order))]
fn good_order(s: &[u8]) -> bool
    ensures { result ≡ good_order s.now }
{
    s.len() <= 65536
        && 112 <= s.len()
        && s[0] == b'G'
        && s[1] == b'B'
        && s[2] == b'O'
        && words::le16(s, 3) == 1
        && s[5] < 8
        && limit_good(s, s[5] / 2 % 2 == 1, 8)
        && limit_good(s, s[5] / 4 % 2 == 1, 16)
        && words::le32(s, 108) == 0
        && s.len() == 112 + words::le16(s, 6) * 24 + words::le32(s, 104)
}

// The limit at a place, missing where it is not flagged.
fn limit_by(s: &[u8], flagged: bool, at: usize) -> Option<u64>
    ensures { result ≡ limit_by flagged (eight s.now at) }
{
    flagged.then_some(words::le64(s, at))
}

// One of the five pairs.
fn pair_at(s: &[u8], i: usize) -> Region
    requires { i < 5 }
    ensures { result ≡ pair_at s.now i }
{
    Region {
        address: words::le64(s, 24 + i * 16),
        size: words::le64(s, 32 + i * 16),
    }
}

// What an order file that keeps the layout says.
fn order_in(s: &[u8]) -> Order
    requires { 112 ≤ length s.now }
    ensures { result ≡ order_in s.now }
{
    let flags = s[5];
    let list = words::le16(s, 6) * 24;
    Order {
        arm: flags % 2 == 1,
        low: limit_by(s, flags / 2 % 2 == 1, 8),
        high: limit_by(s, flags / 4 % 2 == 1, 16),
        kernel: pair_at(s, 0),
        env: pair_at(s, 1),
        hwdesc: pair_at(s, 2),
        bootstrap: pair_at(s, 3),
        stack: pair_at(s, 4),
        list: Block { at: 112, len: list },
        tree: Block {
            at: 112 + list,
            len: words::le32(s, 104),
        },
    }
}

// Reads an order file.
pub fn read_order(s: &[u8]) -> Result<Order, OrderFault>
    ensures { result ≡ order_of s.now }
{
    if !good_order(s) {
        return Err(OrderFault::BadOrder);
    }
    Ok(order_in(s))
}

// How many bytes at the start of the input are the order file, by its header, so that a caller can put something behind it.
pub fn file_end(input: &[u8]) -> usize
    ensures value { result ≡ file_end input.now }
    ensures upper_bound { result ≤ length input.now }
{
    if input.len() < 112 {
        return input.len();
    }
    let end = 112 + words::le16(input, 6) * 24 + words::le32(input, 104);
    if input.len() < end {
        return input.len();
    }
    end
}
