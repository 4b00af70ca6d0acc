// The exits of a record: put in front, taken off the front, freed, and written. A message lies in its cell and a name in 28 bytes filled up with zeros,
// as the memory of a state is fixed and a C caller's; so a length stands beside, and no function here gives a text away.

ghost use Rattle.std.specs.Prelude.{◌<◌, suc};
ghost use Rattle.memory.specs.Link.{link, IsLink};
ghost use Rattle.state.specs.Lent.{Same};
ghost use Rattle.state.specs.Places.{Wrote};
ghost use Rattle.waitq.specs.Push.{cell_stores, head_stores};
ghost use Rattle.waitq.specs.PushCode.{PushAsks, PushDone};
ghost use Rattle.waitq.specs.WriteCode.{WriteAsks, MessageIn};
ghost use Rattle.waitq.specs.Take.{TakeAsks, TakeDone};
ghost use Rattle.waitq.specs.Clear.{ClearAsks, ClearDone};
ghost use Rattle.waitq.specs.Added.{AddAsks, AddDone};
ghost use Rattle.waitq.specs.PopCode.{Unlinked, PopAsks, PopDone};

use state::{Index, Link, State, field};

// What a cell holds but the bytes of its message: the pid of who exited, the next older exit, in whose wait queue it is, and how many bytes the
// message has, up to 127.
#[derive(Clone, Copy, Debug, PartialEq, Eq)]
struct Cell {
    pid: u64,
    next: Link,
    owner: Link,
    length: u8,
}

impl Cell {
    // Stores it as that of cell `c`.
    fn store(self, s: &mut State, c: Index)
        requires there { c < s.old.sizes.cells }
        requires next { IsLink self.next }
        requires owner { IsLink self.owner }
        ensures same { Same s.old s.new }
        ensures stored { Wrote s.old.sizes s.old.bytes.now s.new.bytes.now (cell_stores c self.pid (link self.next) (link self.owner) self.length) }
    {
        s.set(field::EXIT_PID, c, self.pid);
        s.set(field::CELL_NEXT, c, self.next);
        s.set(field::OWNER, c, self.owner);
        s.set(field::MESSAGE_LENGTH, c, self.length);
    }
}

// Stores the first exit of record `i`, and how many there are.
fn set_head(s: &mut State, i: Index, first: Link, nexits: u8)
    requires there { i < s.old.sizes.processes }
    requires first { IsLink first }
    ensures same { Same s.old s.new }
    ensures stored { Wrote s.old.sizes s.old.bytes.now s.new.bytes.now (head_stores i (link first) nexits) }
{
    s.set(field::EXITS, i, first);
    s.set(field::NEXITS, i, nexits);
}

// Puts the free cell `c`, whose message is written, in front of the exits of record `i`.
pub fn push(s: &mut State, i: Index, c: Index, pid: u64, length: u8)
    requires { PushAsks s.old.sizes s.old.bytes.now i c length }
    ensures same { Same s.old s.new }
    ensures pushed { PushDone s.old.sizes s.old.bytes.now s.new.bytes.now i c pid length }
{
    let next = s.get(field::EXITS, i);
    let nexits = s.get(field::NEXITS, i);
    let cell = Cell {
        pid,
        next,
        owner: Some(i),
        length,
    };
    cell.store(s, c);
    set_head(s, i, Some(c), nexits + 1);
}

// Frees cell `c`: the link to the next older exit that it held.
fn unlink(s: &mut State, c: Index) -> Link
    requires { c < s.old.sizes.cells }
    ensures same { Same s.old s.new }
    ensures unlinked { Unlinked s.old.sizes s.old.bytes.now s.new.bytes.now c (link result) }
    ensures fits { IsLink result }
{
    let next = s.get(field::CELL_NEXT, c);
    s.set(field::CELL_NEXT, c, None);
    s.set(field::OWNER, c, None);
    next
}

// Takes the newest exit off record `i`, which has one: its cell.
pub fn pop(s: &mut State, i: Index) -> Link
    requires { PopAsks s.old.sizes s.old.bytes.now i }
    ensures same { Same s.old s.new }
    ensures popped { PopDone s.old.sizes s.old.bytes.now s.new.bytes.now i (link result) }
{
    let c = s.get(field::EXITS, i)?;
    let nexits = s.get(field::NEXITS, i);
    let next = unlink(s, c);
    set_head(s, i, next, nexits - 1);
    Some(c)
}

// Takes the newest exit off record `i`, which has one, and marks its cell as free: its cell.
pub fn take(s: &mut State, i: Index) -> Link
    requires { TakeAsks s.old.sizes s.old.bytes.now i }
    ensures same { Same s.old s.new }
    ensures taken { TakeDone s.old.sizes s.old.bytes.now s.new.bytes.now i (link result) }
{
    // lent on as a state of this frame: no store to its bytes can then be one to its sizes (docs/DECISIONS.md, 78)
    let sizes = s.sizes;
    let bytes = &mut *s.bytes;
    let s = &mut State { bytes, sizes };
    let c = s.get(field::EXITS, i)?;
    free::drop_cell(s, c);
    pop(s, i)
}

// Takes every exit off record `i`: its cells are free.
pub fn take_all(s: &mut State, i: Index)
    requires { ClearAsks s.old.sizes s.old.bytes.now i }
    ensures same { Same s.old s.new }
    ensures cleared { ClearDone s.old.sizes s.old.bytes.now s.new.bytes.now i }
{
    let n = s.get(field::NEXITS, i);
    for taken in 0..n {
        take(s, i);
    }
}

// `name`, `pid` and `status` stay three parameters: `add` hands them on once, and a struct of them, with a loan in it, would be taken apart in the
// next function.

// Writes the message of an exit straight into cell `c`: its length.
pub fn write_message(s: &mut State, c: Index, name: [u8; 28], pid: u64, status: &[u8]) -> u8
    requires { WriteAsks s.old.sizes s.old.bytes.now c }
    ensures same { Same s.old s.new }
    ensures written { MessageIn s.old.sizes s.old.bytes.now s.new.bytes.now c name pid status.now result }
{
    let start = s.sizes.message_at(c);
    let end = start + 127;
    message::write_message(&mut s.bytes[start..end], &name, pid, status)
}

// Queues the exit of the child `pid` as the newest of record `i`, its message in the free cell of the highest number.
pub fn add(s: &mut State, i: Index, pid: u64, name: [u8; 28], status: &[u8])
    requires { AddAsks s.old.sizes s.old.bytes.now i }
    ensures same { Same s.old s.new }
    ensures added { AddDone s.old.sizes s.old.bytes.now s.new.bytes.now i pid name status.now }
{
    // lent on as a state of this frame: no store to its bytes can then be one to its sizes (docs/DECISIONS.md, 78)
    let sizes = s.sizes;
    let bytes = &mut *s.bytes;
    let s = &mut State { bytes, sizes };
    let Some(c) = free::find_cell(&s.view()) else {
        unreachable!()
    };
    free::use_cell(s, c);
    let length = write_message(s, c, name, pid, status);
    push(s, i, c, pid, length);
}
