// Bytes put into a lent buffer: as they are, as big-endian numbers, zeros, last to first; and the end of a buffer turned round. What has no
// room from its place on is not put at all, so that no function here asks anything of its caller.
// A place is handed on as a number: a value that held the lent buffer and the place would be no shorter at a call.
#![tactic(auto)]

ghost use Rattle.std.specs.Prelude.{◌≡◌, ◌++◌, reverse, take, drop, replicate};
ghost use Rattle.pen.specs.Numbers.{bytes4, bytes8};
ghost use Rattle.pen.specs.Writing.{HasRoom, Put};

// Whether a buffer has room for n bytes from a place on. The three below that ask share no more than this and a sum: each fills in its way.
fn has_room(len: usize, at: usize, n: usize) -> bool
    ensures { HasRoom at n len result }
{
    at <= len && n <= len - at
}

// Puts some bytes at a place of the buffer, and answers the place behind them.
pub fn put(out: &mut [u8], at: usize, bytes: &[u8]) -> usize
    ensures { Put out.old at bytes.now out.new result }
{
    if !has_room(out.len(), at, bytes.len()) {
        return at;
    }
    let end = at + bytes.len();
    out[at..end].copy_from_slice(bytes);
    end
}

// The same, the last byte first.
pub fn put_turned(out: &mut [u8], at: usize, bytes: &[u8]) -> usize
    ensures { Put out.old at (reverse bytes.now) out.new result }
{
    if !has_room(out.len(), at, bytes.len()) {
        return at;
    }
    let end = at + bytes.len();
    let part = &mut out[at..end];
    part.copy_from_slice(bytes);
    part.reverse();
    end
}

// So many zero bytes.
pub fn put_zeros(out: &mut [u8], at: usize, n: usize) -> usize
    ensures { Put out.old at (replicate n 0) out.new result }
{
    if !has_room(out.len(), at, n) {
        return at;
    }
    let end = at + n;
    out[at..end].fill(0);
    end
}

// A number in four bytes; of a larger one the lowest four.
pub fn put32(out: &mut [u8], at: usize, w: usize) -> usize
    ensures { Put out.old at (bytes4 w) out.new result }
{
    let low = (w % 0x1_0000_0000) as u32;
    put(out, at, &low.to_be_bytes())
}

// A number in eight bytes.
pub fn put64(out: &mut [u8], at: usize, w: u64) -> usize
    ensures { Put out.old at (bytes8 w) out.new result }
{
    put(out, at, &w.to_be_bytes())
}

// Turns the bytes from a place on round: the last first.
pub fn turn_from(out: &mut [u8], from: usize)
    ensures { out.new ≡ take from out.old ++ reverse (drop from out.old) }
{
    if out.len() < from {
        return;
    }
    out[from..].reverse();
}
