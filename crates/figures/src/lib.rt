// Numbers as text, put into a lent buffer: decimal digits, 16 hex digits, and a word with a number behind it. What has no room from its
// place on is not put at all, so that no function here asks anything of its caller. A place is a number, as in pen.
#![tactic(auto)]

ghost use Rattle.figures.specs.Figures.{decimal_text, hex_text, Labelled};
ghost use Rattle.pen.specs.Writing.{Put};

// A number's decimal digits.
pub fn put_decimal(out: &mut [u8], at: usize, n: u64) -> usize
    ensures { Put out.old at (decimal_text n) out.new result }
{
    let mut digits = [0u8; 20];
    let k = io::decimal(n, &mut digits);
    pen::put(out, at, &digits[..k])
}

// A number's 16 hex digits.
pub fn put_hex(out: &mut [u8], at: usize, n: u64) -> usize
    ensures { Put out.old at (hex_text n) out.new result }
{
    let mut digits = [0u8; 16];
    let k = io::hex(n, 16, &mut digits);
    pen::put(out, at, &digits[..k])
}

// A word, and behind it a number's decimal digits: each of the two is put where there is room for it.
pub fn put_labelled(out: &mut [u8], at: usize, word: &[u8], n: u64) -> usize
    ensures { Labelled out.old at word.now n out.new result }
{
    let a = pen::put(out, at, word);
    put_decimal(out, a, n)
}
