// A writer of flattened trees into a lent buffer: request L1 of document 02. Each call changes the writer's place, and a refused one nothing.
// While it writes, the names grow down from the buffer's end, last byte first; finishing turns them round behind the structure. No call asks
// anything: every writer value, buffer, name and value gets an answer. A place in the buffer is a number, as in pen.
#![tactic(auto)]

ghost use Rattle.std.specs.Prelude.{◌≡◌, [], ◌∷◌, ◌++◌, reverse, ◌+◌, ◌≤◌, length};
ghost use Rattle.flattened.specs.Parts.{begins, property, ends, part_size, part_bytes};
ghost use Rattle.flattened.specs.Blob.{header};
ghost use Rattle.pen.specs.Numbers.{bytes4};
ghost use Rattle.pen.specs.Writing.{Writes};
ghost use Rattle.writer.specs.Writer.{reserve, write, finish, refusal_number, fresh, final_size, room_answer, answer_of};
ghost use Rattle.writer.specs.Calls.{outcome, wrote, finished};

use numbers::Numbered;

// Where a writer stands: the reservations, the bytes of the structure block and of the strings block, the open nodes, the nodes begun,
// whether a property may stand here, and whether it has finished.
#[derive(Clone, Copy)]
pub struct Writer {
    pub reserved: usize,
    pub structure: usize,
    pub strings: usize,
    pub depth: usize,
    pub nodes: usize,
    pub props: bool,
    pub done: bool,
}

// Why a call is refused, in the order in which this is checked. Each case has its number in document 02.
#[derive(Clone, Copy)]
pub enum WriteRefusal {
    OutOfTurn = 10,
    OverLimit = 6,
    NoRoom = 11,
}

impl Numbered for WriteRefusal {
    ghost number_of = { refusal_number };

    fn number(self) -> u8 {
        self as u8
    }
}

// Whether a blob of so many bytes is within the limit and the buffer.
#[tactic(auto, unfolding(crate::specs::Writer::room_answer))]
fn sized(size: usize, room: usize) -> Result<(), WriteRefusal>
    ensures { result ≡ room_answer size room }
{
    if 1048576 < size {
        return Err(WriteRefusal::OverLimit);
    }
    if room < size {
        return Err(WriteRefusal::NoRoom);
    }
    Ok(())
}

// The bytes of a node's begin: its name, its zero byte and padding.
fn put_begin(out: &mut [u8], at: usize, name: &[u8]) -> usize
    requires { at + part_size (begins name.now) ≤ length out.old }
    ensures { Writes out.old at (part_bytes 0 (begins name.now)) out.new result }
{
    let a = pen::put32(out, at, 1);
    let b = pen::put(out, a, name);
    pen::put_zeros(out, b, (name.len() + 4) / 4 * 4 - name.len())
}

// The bytes of a property whose name stands at a place of the strings block.
fn put_property(out: &mut [u8], at: usize, name: usize, value: &[u8]) -> usize
    requires { at + part_size (property [] value.now) ≤ length out.old }
    ensures { Writes out.old at (part_bytes name (property [] value.now)) out.new result }
{
    let a = pen::put32(out, at, 3);
    let b = pen::put32(out, a, value.len());
    let c = pen::put32(out, b, name);
    let d = pen::put(out, c, value);
    pen::put_zeros(out, d, (value.len() + 3) / 4 * 4 - value.len())
}

// A name with its zero byte, last byte first.
fn put_name(out: &mut [u8], at: usize, name: &[u8]) -> usize
    requires { at + (length name.now + 1) ≤ length out.old }
    ensures { Writes out.old at (reverse (name.now ++ (0 ∷ []))) out.new result }
{
    let a = pen::put_zeros(out, at, 1);
    pen::put_turned(out, a, name)
}

// The header of a blob with so many bytes of reservations, of structure and of strings.
fn put_header(out: &mut [u8], m: usize, b: usize, n: usize) -> usize
    requires { (40 ≤ length out.old) × (m + b + n ≤ 1048576) }
    ensures { Writes out.old 0 (header m b n) out.new result }
{
    let structure = 40 + m;
    let strings = 40 + m + b;
    let total = 40 + m + b + n;
    let p1 = pen::put32(out, 0, 0xd00dfeed);
    let p2 = pen::put32(out, p1, total);
    let p3 = pen::put32(out, p2, structure);
    let p4 = pen::put32(out, p3, strings);
    let p5 = pen::put32(out, p4, 40);
    let p6 = pen::put32(out, p5, 17);
    let p7 = pen::put32(out, p6, 16);
    let p8 = pen::put32(out, p7, 0);
    let p9 = pen::put32(out, p8, n);
    pen::put32(out, p9, b)
}

impl Writer {
    // A writer that has written nothing.
    pub fn start() -> Writer
        ensures { result ≡ fresh }
    {
        Writer {
            reserved: 0,
            structure: 0,
            strings: 0,
            depth: 0,
            nodes: 0,
            props: false,
            done: false,
        }
    }

    // Whether the blob, with so many bytes more than closing calls alone would finish, is within the limit and the buffer.
    fn room_for(self, more: usize, room: usize) -> Result<(), WriteRefusal>
        ensures { result ≡ room_answer (final_size self + more) room }
    {
        let limit = 1048576;
        if limit < self.reserved
            || limit < self.structure
            || limit < self.strings
            || limit < self.depth
            || limit < more
        {
            return Err(WriteRefusal::OverLimit);
        }
        let size = 40
            + 16 * (self.reserved + 1)
            + self.structure
            + 4 * self.depth
            + 4
            + self.strings
            + more;
        if self.nodes == 0 {
            return sized(size + 12, room);
        }
        sized(size, room)
    }
}

// What each call is answered: the tests of the definition, in its order; those of lengths only keep the sums small.
#[tactic(auto, using(crate::proofs::Sizes::longer), unfolding(crate::specs::Writer::answer_of, crate::specs::Writer::in_turn, crate::specs::Writer::in_limits))]
impl Writer {
    fn judge_reservation(self, address: u64, size: u64, room: usize) -> Result<(), WriteRefusal>
        ensures { result ≡ answer_of self (reserve address size) room }
    {
        if self.done || self.nodes != 0 || address == 0 && size == 0 {
            return Err(WriteRefusal::OutOfTurn);
        }
        self.room_for(16, room)
    }

    #[tactic(auto, using(crate::proofs::Sizes::begins_longer), unfolding(crate::specs::Writer::answer_of, crate::specs::Writer::in_turn, crate::specs::Writer::in_limits))]
    fn judge_begin(self, name: &[u8], room: usize) -> Result<(), WriteRefusal>
        ensures { result ≡ answer_of self (write (begins name.now)) room }
    {
        if self.done || words::byte_from(name, 0, 0) < name.len() {
            return Err(WriteRefusal::OutOfTurn);
        }
        if self.nodes == 0 {
            if self.depth != 0 || name.len() != 0 {
                return Err(WriteRefusal::OutOfTurn);
            }
            return self.room_for(0, room);
        }
        if self.depth == 0 {
            return Err(WriteRefusal::OutOfTurn);
        }
        if 32 <= self.depth || 4096 <= self.nodes || 1048576 < name.len() {
            return Err(WriteRefusal::OverLimit);
        }
        self.room_for(8 + (name.len() + 4) / 4 * 4, room)
    }

    fn judge_property<'a>(
        self,
        name: &'a [u8],
        value: &'a [u8],
        room: usize,
    ) -> Result<(), WriteRefusal>
        ensures { result ≡ answer_of self (write (property name.now value.now)) room }
    {
        if self.done || !self.props || words::byte_from(name, 0, 0) < name.len() {
            return Err(WriteRefusal::OutOfTurn);
        }
        if 1048576 < name.len() || 1048576 < value.len() {
            return Err(WriteRefusal::OverLimit);
        }
        self.room_for(12 + (value.len() + 3) / 4 * 4 + (name.len() + 1), room)
    }

    fn judge_end(self, room: usize) -> Result<(), WriteRefusal>
        ensures { result ≡ answer_of self (write ends) room }
    {
        if self.done || self.nodes == 0 || self.depth == 0 {
            return Err(WriteRefusal::OutOfTurn);
        }
        self.room_for(0, room)
    }

    fn judge_finish(self, room: usize) -> Result<(), WriteRefusal>
        ensures { result ≡ answer_of self finish room }
    {
        if self.done || self.nodes == 0 || self.depth != 0 {
            return Err(WriteRefusal::OutOfTurn);
        }
        self.room_for(0, room)
    }
}

impl Writer {
    // Writes a reservation entry.
    pub fn reservation(
        &mut self,
        out: &mut [u8],
        address: u64,
        size: u64,
    ) -> Result<(), WriteRefusal>
        ensures { wrote self.new result out.new ≡ outcome self.old (reserve address size) out.old }
    {
        self.judge_reservation(address, size, out.len())?;
        let a = pen::put64(out, 40 + 16 * self.reserved, address);
        pen::put64(out, a, size);
        self.reserved += 1;
        Ok(())
    }

    // Begins a node.
    pub fn begin_node(&mut self, out: &mut [u8], name: &[u8]) -> Result<(), WriteRefusal>
        ensures { wrote self.new result out.new ≡ outcome self.old (write (begins name.now)) out.old }
    {
        self.judge_begin(name, out.len())?;
        put_begin(out, 40 + 16 * (self.reserved + 1) + self.structure, name);
        self.structure += 4 + (name.len() + 1 + 3) / 4 * 4;
        self.depth += 1;
        self.nodes += 1;
        self.props = true;
        Ok(())
    }

    // Writes a property of the innermost open node.
    pub fn property<'a>(
        &mut self,
        out: &mut [u8],
        name: &'a [u8],
        value: &'a [u8],
    ) -> Result<(), WriteRefusal>
        ensures { wrote self.new result out.new ≡ outcome self.old (write (property name.now value.now)) out.old }
    {
        self.judge_property(name, value, out.len())?;
        put_property(
            out,
            40 + 16 * (self.reserved + 1) + self.structure,
            self.strings,
            value,
        );
        put_name(out, out.len() - self.strings - (name.len() + 1), name);
        self.structure += 12 + (value.len() + 3) / 4 * 4;
        self.strings += name.len() + 1;
        Ok(())
    }

    // Ends the innermost open node.
    pub fn end_node(&mut self, out: &mut [u8]) -> Result<(), WriteRefusal>
        ensures { wrote self.new result out.new ≡ outcome self.old (write ends) out.old }
    {
        self.judge_end(out.len())?;
        pen::put32(out, 40 + 16 * (self.reserved + 1) + self.structure, 2);
        self.structure += 4;
        self.depth -= 1;
        self.props = false;
        Ok(())
    }

    // Finishes the blob: the ends of the reservations and of the structure, the names, zeros past them, and the header. Tells how long it is.
    pub fn finish(&mut self, out: &mut [u8]) -> Result<usize, WriteRefusal>
        ensures { finished self.new result out.new ≡ outcome self.old finish out.old }
    {
        self.judge_finish(out.len())?;
        let m = 16 * (self.reserved + 1);
        let b = self.structure + 4;
        let end = 40 + m + self.structure + 4;
        let past = end + self.strings;
        pen::put_zeros(out, 40 + 16 * self.reserved, 16);
        pen::put32(out, 40 + m + self.structure, 9);
        pen::turn_from(out, end);
        pen::put_zeros(out, past, out.len() - past);
        put_header(out, m, b, self.strings);
        self.done = true;
        Ok(past)
    }
}
