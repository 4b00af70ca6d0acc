// Queues of processes, first in first out, linked through the field `next` of their records: the run queue, and the waiters of each lock.
#![tactic(auto)]

ghost use Rattle.state.specs.Lent.{Same};
ghost use Rattle.state.specs.Regions.{slot_of};
ghost use Rattle.memory.specs.Link.{link, IsLink};
ghost use Rattle.queue.specs.Ends.{ends, popped, taken};
ghost use Rattle.queue.specs.Held.{HeldAsks, Held, HeldStored};
ghost use Rattle.queue.specs.Field.{PushAtAsks, PushedAt, PopAtAsks, PoppedAt};
ghost use Rattle.queue.specs.List.{IsEmpty};
ghost use Rattle.queue.specs.Push.{PushAsks, PushDone};
ghost use Rattle.queue.specs.Pop.{PopAsks, PopDone};

use state::field::{self, Field};
use state::{Count, Index, Link, State};

// `asleep` counts the sleepers; the functions here leave it as it is. For the waiters of a lock, `head` and `tail` are the lock's.
// Links are numbers of records in the lent bytes, and no boxes: the memory is fixed, and a C caller's.
#[derive(Clone, Copy, Debug, PartialEq, Eq)]
pub struct RunQueue {
    pub head: Link,
    pub tail: Link,
    pub asleep: Count,
}

// The fields that hold the first and the last of a queue. It derives only these: the names of fields are neither printed nor compared.
#[derive(Clone, Copy)]
pub struct Fields {
    pub head: Field<Link>,
    pub tail: Field<Link>,
}

impl Fields {
    // The queue as the fields of record `i` hold it.
    pub fn load(self, s: &State, i: Index) -> RunQueue
        requires { HeldAsks s.now.sizes s.now.bytes.now (slot_of self.head 2) (slot_of self.tail 2) i }
        ensures { Held s.now.sizes s.now.bytes.now (slot_of self.head 2) (slot_of self.tail 2) i (ends result) }
    {
        RunQueue {
            head: s.get(self.head, i),
            tail: s.get(self.tail, i),
            asleep: s.get(field::ASLEEP_COUNT, 0),
        }
    }

    // Stores the first and the last of the queue in the fields of record `i`.
    pub fn store(self, s: &mut State, i: Index, q: RunQueue)
        requires reach { HeldAsks s.old.sizes s.old.bytes.now (slot_of self.head 2) (slot_of self.tail 2) i }
        requires head { IsLink q.head }
        requires tail { IsLink q.tail }
        ensures same { Same s.old s.new }
        ensures stored { HeldStored s.old.sizes s.old.bytes.now s.new.bytes.now (slot_of self.head 2) (slot_of self.tail 2) i (ends q) }
    {
        s.set(self.head, i, q.head);
        s.set(self.tail, i, q.tail);
    }

    // Puts process `i` last in the queue of record `at`.
    pub fn push(self, s: &mut State, at: Index, i: Index)
        requires { PushAtAsks s.old.sizes s.old.bytes.now (slot_of self.head 2) (slot_of self.tail 2) at i }
        ensures same { Same s.old s.new }
        ensures done { PushedAt s.old.sizes s.old.bytes.now s.new.bytes.now (slot_of self.head 2) (slot_of self.tail 2) at i }
    {
        let mut q = self.load(s, at);
        push(&mut q, s, i);
        self.store(s, at, q);
    }

    // Takes the first process off the queue of record `at`: none where nobody is in it.
    pub fn pop(self, s: &mut State, at: Index) -> Option<Index>
        requires { PopAtAsks s.old.sizes s.old.bytes.now (slot_of self.head 2) (slot_of self.tail 2) at }
        ensures same { Same s.old s.new }
        ensures done { PoppedAt s.old.sizes s.old.bytes.now s.new.bytes.now (slot_of self.head 2) (slot_of self.tail 2) at (link result) }
    {
        let mut q = self.load(s, at);
        let first = pop(&mut q, s)?;
        self.store(s, at, q);
        Some(first)
    }
}

// Is nobody in the queue?
pub fn is_empty(q: RunQueue) -> bool
    ensures { IsEmpty result (ends q) }
{
    q.head.is_none()
}

// The queue with process `i` last.
fn with_last(q: RunQueue, s: &mut State, i: Index) -> RunQueue
    requires { PushAsks s.old.sizes s.old.bytes.now (ends q) i }
    ensures same { Same s.old s.new }
    ensures done { PushDone s.old.sizes s.old.bytes.now s.new.bytes.now (ends q) i (ends result) }
{
    s.set(field::NEXT, i, None);
    let Some(last) = q.tail else {
        return RunQueue {
            head: Some(i),
            tail: Some(i),
            ..q
        };
    };
    s.set(field::NEXT, last, Some(i));
    RunQueue { tail: Some(i), ..q }
}

// The first process of the queue, and the queue without it: none where nobody is in it.
fn without_first(q: RunQueue, s: &mut State) -> Option<(Index, RunQueue)>
    requires { PopAsks s.old.sizes s.old.bytes.now (ends q) }
    ensures same { Same s.old s.new }
    ensures done { PopDone s.old.sizes s.old.bytes.now s.new.bytes.now (ends q) (taken q result) }
{
    let first = q.head?;
    let next = s.get(field::NEXT, first);
    s.set(field::NEXT, first, None);
    Some((
        first,
        RunQueue {
            head: next,
            tail: next.and(q.tail),
            ..q
        },
    ))
}

// Puts process `i` last.
pub fn push(q: &mut RunQueue, s: &mut State, i: Index)
    requires { PushAsks s.old.sizes s.old.bytes.now (ends q.old) i }
    ensures same { Same s.old s.new }
    ensures done { PushDone s.old.sizes s.old.bytes.now s.new.bytes.now (ends q.old) i (ends q.new) }
{
    *q = with_last(*q, s, i);
}

// Takes the first process off: none where nobody is in the queue.
pub fn pop(q: &mut RunQueue, s: &mut State) -> Option<Index>
    requires { PopAsks s.old.sizes s.old.bytes.now (ends q.old) }
    ensures same { Same s.old s.new }
    ensures done { PopDone s.old.sizes s.old.bytes.now s.new.bytes.now (ends q.old) (popped (link result) (ends q.new)) }
{
    let (first, rest) = without_first(*q, s)?;
    *q = rest;
    Some(first)
}
