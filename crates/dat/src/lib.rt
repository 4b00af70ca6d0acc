// The places of processes in the lent state: the run queue, who runs, Rendez and the own waitr.
#![tactic(auto)]

ghost use Rattle.memory.specs.Link.{link};
ghost use Rattle.state.specs.Lent.{Same};
ghost use Rattle.dat.specs.Run.{ReadyAsks, Readied, NextAsks, NextTaken};
ghost use Rattle.dat.specs.Asleep.{MoreAsks, More, AwakenAsks, Awakened};
ghost use Rattle.dat.specs.Rendez.{WakeAsks, Woke, SleepAsks, Slept};
ghost use Rattle.dat.specs.Own.{StopAsks, Stopped, RunAsks, Ran, CallAsks, Called};
ghost use Rattle.dat.specs.Waitr.{WaitAsks, Waited, OwnAsks, OnWaitr, WokeOwn};

use queue::Fields;
use record::Resume;
use state::{CallKind, Index, ProcState, State, field};

// The header's fields that hold the run queue.
const RUN: Fields = Fields {
    head: field::RUN_HEAD,
    tail: field::RUN_TAIL,
};

// Queues process `i` to run.
pub fn ready(s: &mut State, i: Index)
    requires { ReadyAsks s.old.sizes s.old.bytes.now i }
    ensures same { Same s.old s.new }
    ensures done { Readied s.old.sizes s.old.bytes.now s.new.bytes.now i }
{
    RUN.push(s, 0, i);
    s.set(field::STATE_OF, i, ProcState::Ready.number());
}

// Takes the first process off the run queue: none where nobody is ready.
pub fn next_ready(s: &mut State) -> Option<Index>
    requires { NextAsks s.old.sizes s.old.bytes.now }
    ensures same { Same s.old s.new }
    ensures done { NextTaken s.old.sizes s.old.bytes.now s.new.bytes.now (link result) }
{
    RUN.pop(s, 0)
}

// One more is asleep.
pub fn more_asleep(s: &mut State)
    requires { MoreAsks s.old.sizes s.old.bytes.now }
    ensures same { Same s.old s.new }
    ensures done { More s.old.sizes s.old.bytes.now s.new.bytes.now }
{
    let n = s.get(field::ASLEEP_COUNT, 0);
    s.set(field::ASLEEP_COUNT, 0, n + 1);
}

// Makes process `i`, asleep or waiting for a lock and taken off there, ready: one fewer is asleep.
pub fn awaken(s: &mut State, i: Index)
    requires { AwakenAsks s.old.sizes s.old.bytes.now i }
    ensures same { Same s.old s.new }
    ensures done { Awakened s.old.sizes s.old.bytes.now s.new.bytes.now i }
{
    let n = s.get(field::ASLEEP_COUNT, 0);
    s.set(field::ASLEEP_COUNT, 0, n - 1);
    ready(s, i);
}

// Wakes the process asleep on Rendez `r`: none where nobody is.
pub fn wakeup(s: &mut State, r: Index) -> Option<Index>
    requires { WakeAsks s.old.sizes s.old.bytes.now r }
    ensures same { Same s.old s.new }
    ensures done { Woke s.old.sizes s.old.bytes.now s.new.bytes.now r (link result) }
{
    let i = s.get(field::SLEEPER_OF, r)?;
    s.set(field::SLEEPER_OF, r, None);
    awaken(s, i);
    Some(i)
}

// `sleep_on` and `wait_on` share only the count and the state: a function of both would leave a process asleep in no place, of which no
// definition speaks.

// Puts process `i` asleep on Rendez `r`.
pub fn sleep_on(s: &mut State, i: Index, r: Index)
    requires { SleepAsks s.old.sizes s.old.bytes.now i r }
    ensures same { Same s.old s.new }
    ensures done { Slept s.old.sizes s.old.bytes.now s.new.bytes.now i r }
{
    more_asleep(s);
    s.set(field::SLEEPER_OF, r, Some(i));
    s.set(field::STATE_OF, i, ProcState::Asleep.number());
}

// Nobody runs: whoever ran is taken off.
pub fn stop(s: &mut State)
    requires { StopAsks s.old.sizes s.old.bytes.now }
    ensures same { Same s.old s.new }
    ensures done { Stopped s.old.sizes s.old.bytes.now s.new.bytes.now }
{
    s.set(field::UP, 0, None);
}

// Process `i` runs.
pub fn set_up(s: &mut State, i: Index)
    requires { RunAsks s.old.sizes s.old.bytes.now i }
    ensures same { Same s.old s.new }
    ensures done { Ran s.old.sizes s.old.bytes.now s.new.bytes.now i }
{
    s.set(field::UP, 0, Some(i));
    s.set(field::STATE_OF, i, ProcState::Running.number());
}

// Where the call of process `i` goes on.
pub fn set_resume(s: &mut State, i: Index, r: Resume)
    requires { CallAsks s.old.sizes s.old.bytes.now i r }
    ensures same { Same s.old s.new }
    ensures done { Called s.old.sizes s.old.bytes.now s.new.bytes.now i r }
{
    r.store(s, i);
}

// Puts process `i` asleep on its own waitr.
pub fn wait_on(s: &mut State, i: Index)
    requires { WaitAsks s.old.sizes s.old.bytes.now i }
    ensures same { Same s.old s.new }
    ensures done { Waited s.old.sizes s.old.bytes.now s.new.bytes.now i }
{
    more_asleep(s);
    let asleep = ProcState::Asleep;
    s.set(field::STATE_OF, i, asleep.number());
}

// Is process `i` asleep on its own waitr?
fn on_waitr(s: &State, i: Index) -> bool
    requires { OwnAsks s.now.sizes s.now.bytes.now i }
    ensures { OnWaitr s.now.sizes s.now.bytes.now i result }
{
    s.get(field::STATE_OF, i) == ProcState::Asleep.number()
        && s.get(field::RESUME_KIND, i) == CallKind::Wait.number()
}

// What wakes a process on a Rendez is the Rendez's link to it, and on its own waitr its own state and call: `wakeup` and `wake_waitr` share
// `awaken`.

// Wakes process `i` where it is asleep on its own waitr: was it?
pub fn wake_waitr(s: &mut State, i: Index) -> bool
    requires { OwnAsks s.old.sizes s.old.bytes.now i }
    ensures same { Same s.old s.new }
    ensures done { WokeOwn s.old.sizes s.old.bytes.now s.new.bytes.now i result }
{
    let asleep = on_waitr(s, i);
    if asleep {
        s.set(field::STATE_OF, i, ProcState::Ready.number());
        awaken(s, i);
    }
    asleep
}
