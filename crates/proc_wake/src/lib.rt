// The steps that leave who runs as it is and need nobody to run: wakeup, canqlock, qunlock, cond, due.
// `Well` stays a clause: a step breaks it midway, and a type's invariant would be owed at every store.
#![tactic(auto)]

ghost use Rattle.std.specs.Prelude.{Ok};
ghost use Rattle.machine.specs.Step.{wakeup, canqlock, qunlock, due};
ghost use Rattle.state.specs.Lent.{Same};
ghost use Rattle.outcome.specs.Stepped.{Well};
ghost use Rattle.outcome.specs.Took.{Took};
ghost use Rattle.proc_wake.specs.Steps.{RendezAsks, LockAsked, CondTook};

use outcome::{Refusal, Reply};
use state::{Index, State, View};

// Wakes the process asleep on Rendez `r`.
pub fn wakeup(s: &mut State, r: Index) -> Reply
    requires { RendezAsks s.old.sizes s.old.bytes.now r }
    ensures same { Same s.old s.new }
    ensures done { Took s.old.sizes s.old.bytes.now s.new.bytes.now (wakeup r) (Ok result) }
{
    Reply::from(dat::wakeup(s, r).is_some())
}

// Takes lock `q` only if it is free.
pub fn canqlock(s: &mut State, q: Index) -> Reply
    requires { LockAsked s.old.sizes s.old.bytes.now q }
    ensures same { Same s.old s.new }
    ensures done { Took s.old.sizes s.old.bytes.now s.new.bytes.now (canqlock q) (Ok result) }
{
    Reply::from(qlock::canqlock(s, q))
}

// Gives lock `q` up, to the first who waits for it; one that is not held is refused.
pub fn qunlock(s: &mut State, q: Index) -> Result<Reply, Refusal>
    requires { LockAsked s.old.sizes s.old.bytes.now q }
    ensures same { Same s.old s.new }
    ensures done { Took s.old.sizes s.old.bytes.now s.new.bytes.now (qunlock q) result }
{
    match qlock::give_up(s, q) {
        None => Err(Refusal::NotLocked),
        Some(_) => Ok(Reply::Done),
    }
}

// Condition `c` becomes true or false.
pub fn cond(s: &mut State, c: u8, v: bool) -> Reply
    requires { Well s.old.sizes s.old.bytes.now }
    ensures same { Same s.old s.new }
    ensures done { CondTook s.old.sizes s.old.bytes.now s.new.bytes.now c v (Ok result) }
{
    clockwork::conditions::set(s, c, v);
    Reply::Done
}

// Has the running process used its quantum while another is ready?
pub fn due(v: &View) -> Reply
    requires { Well v.now.sizes v.now.bytes.now }
    ensures { Took v.now.sizes v.now.bytes.now v.now.bytes.now due (Ok result) }
{
    Reply::from(clockwork::quantum::preempt_due(v))
}
