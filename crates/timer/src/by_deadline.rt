// The one queue of timers, by deadline: those of the kernel, and each process's own. That the bytes hold a state stays a clause of each function:
// a step breaks it midway, and the invariant of a type holds at every store.

ghost use Rattle.memory.specs.Link.{link};
ghost use Rattle.state.specs.Lent.{Same};
ghost use Rattle.timer.specs.Del.{TimerAsks, Deleted};
ghost use Rattle.timer.specs.Add.{QueueAsks, QueuedAt, Added};
ghost use Rattle.timer.specs.Pop.{PopAsks};
ghost use Rattle.timer.specs.Due.{PoppedDue};
ghost use Rattle.timer.specs.Readd.{ReaddAsks, Readded};
ghost use Rattle.timer.specs.Queued.{IsQueued};
ghost use Rattle.timer.specs.Only.{Owing};

use state::{Index, Link, State, View, field};

// Takes timer `t` off the queue, if it is queued.
#[inline(always)]
pub fn del(s: &mut State, t: Index)
    requires { TimerAsks s.old.sizes s.old.bytes.now t }
    ensures same { Same s.old s.new }
    ensures deleted { Deleted s.old.sizes s.old.bytes.now s.new.bytes.now t }
{
    timers::remove(s, t);
}

// Queues timer `t`, which is off the queue, by its deadline.
#[inline(always)]
fn enqueue(s: &mut State, t: Index, deadline: u64)
    requires { QueueAsks s.old.sizes s.old.bytes.now t }
    ensures same { Same s.old s.new }
    ensures queued { QueuedAt s.old.sizes s.old.bytes.now s.new.bytes.now t deadline }
{
    timers::insert(s, t, deadline);
}

// Queues timer `t` at a deadline, moving it if it is queued.
pub fn add(s: &mut State, t: Index, deadline: u64)
    requires { TimerAsks s.old.sizes s.old.bytes.now t }
    ensures same { Same s.old s.new }
    ensures added { Added s.old.sizes s.old.bytes.now s.new.bytes.now t deadline }
{
    // lent on as a state of this frame: no store to its bytes can then be one to its sizes (docs/DECISIONS.md, 78)
    let sizes = s.sizes;
    let bytes = &mut *s.bytes;
    let s = &mut State { bytes, sizes };
    del(s, t);
    enqueue(s, t, deadline);
}

// Takes timer `t`, the head, off the queue.
#[inline(always)]
fn pop(s: &mut State, t: Index)
    requires { PopAsks s.old.sizes s.old.bytes.now t }
    ensures same { Same s.old s.new }
    ensures deleted { Deleted s.old.sizes s.old.bytes.now s.new.bytes.now t }
{
    timers::take_out(s, None, t);
}

// Takes the head off the queue where its deadline is at or before a reading of the clock: the timer that was the head.
#[inline(always)]
pub fn pop_due(s: &mut State, reading: u64) -> Link
    requires { Owing s.old.sizes s.old.bytes.now }
    ensures same { Same s.old s.new }
    ensures popped { PoppedDue s.old.sizes s.old.bytes.now s.new.bytes.now reading (link result) }
{
    let t = s.get(field::TIMER_HEAD, 0)?;
    if reading < s.get(field::DEADLINE, t) {
        return None;
    }
    pop(s, t);
    Some(t)
}

// Queues timer `t`, which fired, at its deadline plus its period. A timer without a period, as a process's own, stays off the queue.
#[inline(always)]
pub fn readd(s: &mut State, t: Index)
    requires { ReaddAsks s.old.sizes s.old.bytes.now t }
    ensures same { Same s.old s.new }
    ensures readded { Readded s.old.sizes s.old.bytes.now s.new.bytes.now t }
{
    if s.sizes.timers <= t {
        return;
    }
    // 0 is no period in the field that C callers read: an `Option` made of it would be taken apart in the next line
    let period = s.get(field::PERIOD, t);
    if period == 0 {
        return;
    }
    let deadline = s.get(field::DEADLINE, t);
    enqueue(s, t, deadline + period);
}

// Whether timer `t` is queued.
pub fn is_queued(v: &View, t: Index) -> bool
    requires { TimerAsks v.now.sizes v.now.bytes.now t }
    ensures { IsQueued v.now.sizes v.now.bytes.now t result }
{
    timers::is_queued(v, t)
}
