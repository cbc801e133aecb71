// Numbers, strings and parts in a slice of bytes. Every place gets an answer: a byte past the end counts as 0.
#![tactic(auto)]

ghost use Rattle.std.specs.Prelude.{◌≡◌, get_or, length, ◌+◌, ◌≤◌, ◌<◌};
ghost use Rattle.words.specs.Bytes.{part_of, Word, Double, Finds};
ghost use Rattle.words.specs.Little.{Half, Quarter, Eight};

// The byte at a place.
fn byte(s: &[u8], at: usize) -> usize
    ensures { (result ≡ get_or s.now at 0) × (result < 256) }
{
    if at < s.len() {
        return usize::from(s[at]);
    }
    0
}

// The big-endian number in the four bytes at a place.
pub fn be32(s: &[u8], at: usize) -> usize
    ensures { Word s.now at result }
{
    if s.len() <= at {
        return 0;
    }
    let a = byte(s, at);
    let b = byte(s, at + 1);
    let c = byte(s, at + 2);
    let d = byte(s, at + 3);
    ((a * 256 + b) * 256 + c) * 256 + d
}

// The big-endian number in the eight bytes at a place.
pub fn be64(s: &[u8], at: usize) -> u64
    ensures { Double s.now at result }
{
    if s.len() <= at {
        return 0;
    }
    let high = be32(s, at) as u64;
    let low = be32(s, at + 4) as u64;
    high * 0x1_0000_0000 + low
}

// The little-endian number in the two bytes at a place. It, le32 and le64 are no one function over the width, nor are be32 and be64: each has a
// definition of its own, by which contracts above speak of it.
pub fn le16(s: &[u8], at: usize) -> usize
    ensures { Half s.now at result }
{
    if s.len() <= at {
        return 0;
    }
    let low = byte(s, at);
    let high = byte(s, at + 1);
    low + high * 256
}

// The little-endian number in the four bytes at a place.
pub fn le32(s: &[u8], at: usize) -> usize
    ensures { Quarter s.now at result }
{
    if s.len() <= at {
        return 0;
    }
    let low = le16(s, at);
    let high = le16(s, at + 2);
    low + high * 65536
}

// The little-endian number in eight bytes that are all there: with no test between them they are read at once.
fn le64_whole(s: &[u8], at: usize) -> u64
    requires { at + 8 ≤ length s.now }
    ensures { Eight s.now at result }
{
    u64::from_le_bytes([
        s[at],
        s[at + 1],
        s[at + 2],
        s[at + 3],
        s[at + 4],
        s[at + 5],
        s[at + 6],
        s[at + 7],
    ])
}

// The little-endian number in the eight bytes at a place.
pub fn le64(s: &[u8], at: usize) -> u64
    ensures { Eight s.now at result }
{
    if s.len() <= at {
        return 0;
    }
    if 8 <= s.len() - at {
        return le64_whole(s, at);
    }
    let low = le32(s, at) as u64;
    let high = le32(s, at + 4) as u64;
    low + high * 0x1_0000_0000
}

// The place of the first byte x at or after a place, or the end of the slice.
pub fn byte_from(s: &[u8], at: usize, x: u8) -> usize
    ensures { Finds x s.now at result }
{
    for i in at..s.len() {
        if s[i] == x {
            return i;
        }
    }
    at.max(s.len())
}

// A part of a slice, or the empty part where the slice does not have it whole.
pub fn part(s: &[u8], at: usize, len: usize) -> &[u8]
    ensures { result.now ≡ part_of s.now at len }
{
    if s.len() < len {
        return &s[0..0];
    }
    if s.len() - len < at {
        return &s[0..0];
    }
    let end = at + len;
    &s[at..end]
}
