// Locks in the lent state: held or free, with a queue of those who wait.
#![tactic(auto)]

ghost use Rattle.std.specs.Prelude.{◌≡◌, ◌<◌};
ghost use Rattle.std.specs.Int.{from_bool};
ghost use Rattle.machine.specs.Machine.{lock};
ghost use Rattle.memory.specs.Link.{link};
ghost use Rattle.layout.specs.Table.{slot};
ghost use Rattle.state.specs.Places.{PutIn};
ghost use Rattle.holds.specs.Did.{machine_in};
ghost use Rattle.state.specs.Lent.{Same};
ghost use Rattle.qlock.specs.Queue.{EnqueueAsks, Enqueued, LockAsks, Dequeued};
ghost use Rattle.qlock.specs.Hold.{Tried, HandAsks, Handed, GivenUp, was_held, link_given};

use queue::Fields;
use state::{Index, Link, ProcState, State, field};

// A lock's fields that hold its waiters.
const WAITERS: Fields = Fields {
    head: field::LOCK_HEAD,
    tail: field::LOCK_TAIL,
};

// Whether lock `q` is held: its field is a number, 0 for a free lock, as C callers read it.
fn is_held(s: &State, q: Index) -> bool
    requires { LockAsks s.now.sizes s.now.bytes.now q }
    ensures { result ≡ (lock (machine_in s.now.sizes s.now.bytes.now) q).held }
{
    s.get(field::HELD, q) != 0
}

// Lock `q` is held or free.
fn set_held(s: &mut State, q: Index, held: bool)
    requires { q < s.old.sizes.locks }
    ensures same { Same s.old s.new }
    ensures put { PutIn s.old.sizes s.old.bytes.now s.new.bytes.now (slot 4 0 2) q (from_bool held) }
{
    s.set(field::HELD, q, u16::from(held));
}

// Puts process `i` last in the queue of lock `q`.
pub fn enqueue(s: &mut State, q: Index, i: Index)
    requires { EnqueueAsks s.old.sizes s.old.bytes.now q i }
    ensures same { Same s.old s.new }
    ensures done { Enqueued s.old.sizes s.old.bytes.now s.new.bytes.now q i }
{
    dat::more_asleep(s);
    WAITERS.push(s, q, i);
    s.set(field::STATE_OF, i, ProcState::Asleep.number());
}

// Takes the first off the queue of lock `q`: none where nobody waits.
fn dequeue(s: &mut State, q: Index) -> Option<Index>
    requires { LockAsks s.old.sizes s.old.bytes.now q }
    ensures same { Same s.old s.new }
    ensures done { Dequeued s.old.sizes s.old.bytes.now s.new.bytes.now q (link result) }
{
    WAITERS.pop(s, q)
}

// Takes lock `q` where it is free: was it?
pub fn canqlock(s: &mut State, q: Index) -> bool
    requires { LockAsks s.old.sizes s.old.bytes.now q }
    ensures same { Same s.old s.new }
    ensures done { Tried s.old.sizes s.old.bytes.now s.new.bytes.now q result }
{
    let free = !is_held(s, q);
    if free {
        set_held(s, q, true);
    }
    free
}

// Hands lock `q` to the first who waits for it, or frees it: to whom, none for nobody.
pub fn qunlock(s: &mut State, q: Index) -> Link
    requires { HandAsks s.old.sizes s.old.bytes.now q }
    ensures same { Same s.old s.new }
    ensures done { Handed s.old.sizes s.old.bytes.now s.new.bytes.now q (link result) }
{
    let Some(i) = dequeue(s, q) else {
        set_held(s, q, false);
        return None;
    };
    dat::awaken(s, i);
    Some(i)
}

// `qunlock` of a lock that is held. One that is not is left as it is: none.
pub fn give_up(s: &mut State, q: Index) -> Option<Link>
    requires { HandAsks s.old.sizes s.old.bytes.now q }
    ensures same { Same s.old s.new }
    ensures done { GivenUp s.old.sizes s.old.bytes.now s.new.bytes.now q (was_held result) (link_given result) }
{
    if !is_held(s, q) {
        return None;
    }
    Some(qunlock(s, q))
}
