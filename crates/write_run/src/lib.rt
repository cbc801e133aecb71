// Calls of the writer in bytes, one after the other, made up to the first that is refused: request L1 of document 02, its program. A call is
// a letter and what belongs to it, little-endian.
#![tactic(auto)]

ghost use Rattle.std.specs.Prelude.{◌≡◌, cond};
ghost use Rattle.writer.specs.Calls.{outcome, finished};
ghost use Rattle.write_run.specs.Input.{whole, read_at, call_of};
ghost use Rattle.write_run.specs.Run.{ran, ran_of};

use writer::{WriteRefusal, Writer};

// What stands at a place: a reservation entry with its address and size; a node that begins, with its name's place and length; a property
// with the places and lengths of its name and its value; the end of a node; or the finish.
#[derive(Clone, Copy)]
pub enum CallRead {
    Reservation(u64, u64),
    Begin(usize, usize),
    Property(usize, usize, usize, usize),
    End,
    Finish,
}

// That, and the place behind it.
#[derive(Clone, Copy)]
pub struct Read {
    pub next: usize,
    pub call: CallRead,
}

// What ends a run: no call stands here; a call is refused; or the input ends, and the blob is finished or not.
#[derive(Clone, Copy)]
pub enum Stop {
    NoCall,
    Refused(WriteRefusal),
    Finished,
    Unfinished,
}

// How long the finished blob is, or 0; the index of the call that stopped the run, counted from 0, or how many were made; and what
// stopped it. The length stands beside that, as in the definition `Run`.
#[derive(Clone, Copy)]
pub struct WriteRun {
    pub size: usize,
    pub index: usize,
    pub stop: Stop,
}

// A call that ends before a place, if the input has all of it.
#[tactic(auto, unfolding(crate::specs::Input::whole))]
fn whole_call(calls: &[u8], next: usize, call: CallRead) -> Option<Read>
    ensures { result ≡ whole calls.now next call }
{
    if calls.len() < next {
        return None;
    }
    Some(Read { next, call })
}

// The call at a place, if one stands there. The letters are those of the input's form.
#[tactic(auto, unfolding(crate::specs::Input::read_at, crate::specs::Input::by_letter))]
pub fn read_call(calls: &[u8], at: usize) -> Option<Read>
    ensures { result ≡ read_at calls.now at }
{
    if calls.len() <= at {
        return None;
    }
    match calls[at] {
        b'R' => {
            let address = words::le64(calls, at + 1);
            let size = words::le64(calls, at + 9);
            whole_call(calls, at + 17, CallRead::Reservation(address, size))
        }
        b'B' => {
            let n = words::le32(calls, at + 1);
            whole_call(calls, at + 5 + n, CallRead::Begin(at + 5, n))
        }
        b'P' => {
            let n = words::le32(calls, at + 1);
            let v = words::le32(calls, at + 5);
            let value = at + 9 + n;
            whole_call(calls, value + v, CallRead::Property(at + 9, n, value, v))
        }
        b'E' => whole_call(calls, at + 1, CallRead::End),
        b'F' => whole_call(calls, at + 1, CallRead::Finish),
        _ => None,
    }
}

// Makes a call that was read, and answers how long the blob is, which finishing tells; any other call tells 0, as in `outcome`.
// The call is matched and no closure, since it was read from the input.
fn make_call(
    calls: &[u8],
    call: CallRead,
    w: &mut Writer,
    out: &mut [u8],
) -> Result<usize, WriteRefusal>
    ensures { finished w.new result out.new ≡ outcome w.old (call_of calls.now call) out.old }
{
    match call {
        CallRead::Reservation(address, size) => {
            w.reservation(out, address, size)?;
            Ok(0)
        }
        CallRead::Begin(at, n) => {
            w.begin_node(out, words::part(calls, at, n))?;
            Ok(0)
        }
        CallRead::Property(at, n, value, v) => {
            w.property(out, words::part(calls, at, n), words::part(calls, value, v))?;
            Ok(0)
        }
        CallRead::End => {
            w.end_node(out)?;
            Ok(0)
        }
        CallRead::Finish => w.finish(out),
    }
}

// How a run ends where the input does.
fn end_of(done: bool) -> Stop
    ensures { result ≡ cond done Stop.Finished Stop.Unfinished }
{
    if done {
        return Stop::Finished;
    }
    Stop::Unfinished
}

// Makes the calls of an input one after the other, from a writer that has written nothing, up to the first that is refused, to where no
// call stands, or to the end.
pub fn write_calls(calls: &[u8], out: &mut [u8]) -> WriteRun
    ensures { ran result out.new ≡ ran_of calls.now out.old }
{
    let mut w = Writer::start();
    let mut size: usize = 0;
    let mut index: usize = 0;
    let mut at: usize = 0;
    // A `while`: calls are of varying length, and the reading of each tells where the next begins.
    while at < calls.len() {
        let Some(read) = read_call(calls, at) else {
            return WriteRun {
                size: 0,
                index,
                stop: Stop::NoCall,
            };
        };
        size = match make_call(calls, read.call, &mut w, out) {
            Ok(told) => told,
            Err(refusal) => {
                return WriteRun {
                    size: 0,
                    index,
                    stop: Stop::Refused(refusal),
                };
            }
        };
        at = read.next;
        index += 1;
    }
    WriteRun {
        size,
        index,
        stop: end_of(w.done),
    }
}
