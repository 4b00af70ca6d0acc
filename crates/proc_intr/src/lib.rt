// `intr`: every timer that is due at a reading of the clock fires, as timer.rs does at an interrupt.
// `Well` stays a clause: a step breaks it midway, and a type's invariant would be owed at every store.
#![tactic(auto)]

ghost use Rattle.machine.specs.Step.{intr};
ghost use Rattle.state.specs.Lent.{Same};
ghost use Rattle.outcome.specs.Stepped.{Well};
ghost use Rattle.proc_intr.specs.Twakeup.{TwakeupAsks, DidTwakeup};
ghost use Rattle.proc_intr.specs.Callback.{WhoseIs, CallbackAsks, DidCallback};
ghost use Rattle.proc_intr.specs.Fire.{FireAsks, Fired};
ghost use Rattle.proc_intr.specs.Due.{DueAsks, FiredDue};
ghost use Rattle.proc_intr.specs.Interrupt.{Interrupted};
ghost use Rattle.outcome.specs.Took.{Took};

use outcome::{Refusal, Reply};
use record::Resume;
use state::{Index, State, field};

// After how many firings, each time, `interrupt` says that it seems stuck.
const STUCK_LOOPS: u64 = 20_000;

// Wakes whoever is on the Rendez that the `tsleep` of process `i` names; other calls name none.
fn twakeup(s: &mut State, i: Index)
    requires { TwakeupAsks s.old.sizes s.old.bytes.now i }
    ensures same { Same s.old s.new }
    ensures done { DidTwakeup s.old.sizes s.old.bytes.now s.new.bytes.now i }
{
    let call = Resume::load(&s.view(), i);
    let Resume::Tsleep { rendez, .. } = call else {
        return;
    };
    dat::wakeup(s, rendez);
}

// Whose a timer is: the clock's, which ticks, the kernel's, which wakes its Rendez, or that of a process's `tsleep`.
#[derive(Clone, Copy, Debug, PartialEq, Eq)]
enum Whose {
    Clock,
    Kernel,
    Process(Index),
}

impl Whose {
    // Timer `t`, of so many kernel timers: 0 is the clock's, and behind the kernel's each process has one.
    fn of(kernel: Index, t: Index) -> Self
        ensures { WhoseIs kernel t result }
    {
        if t == 0 {
            Whose::Clock
        } else if t < kernel {
            Whose::Kernel
        } else {
            Whose::Process(t - kernel)
        }
    }
}

// What timer `t` does: the clock's adds a tick, a kernel timer wakes its Rendez, and a process's that of its `tsleep`.
fn callback(s: &mut State, t: Index)
    requires { CallbackAsks s.old.sizes s.old.bytes.now t }
    ensures same { Same s.old s.new }
    ensures done { DidCallback s.old.sizes s.old.bytes.now s.new.bytes.now t }
{
    match Whose::of(s.sizes.timers, t) {
        Whose::Clock => clockwork::time::tick(s),
        Whose::Kernel => {
            let r = s.get(field::TIMER_RENDEZ, t);
            dat::wakeup(s, r);
        }
        Whose::Process(i) => twakeup(s, i),
    }
}

// Timer `t`, taken off the queue, fires: it does what it does, and a periodic one returns.
fn fire(s: &mut State, t: Index)
    requires { FireAsks s.old.sizes s.old.bytes.now t }
    ensures same { Same s.old s.new }
    ensures done { Fired s.old.sizes s.old.bytes.now s.new.bytes.now t }
{
    callback(s, t);
    timer::by_deadline::readd(s, t);
}

// Fires the head of the queue while it is due, and counts the firings.
#[inline(always)]
fn fire_due(s: &mut State, reading: u64) -> u64
    requires { DueAsks s.old.sizes s.old.bytes.now reading }
    ensures same { Same s.old s.new }
    ensures done { Interrupted s.old.sizes s.old.bytes.now s.new.bytes.now reading result }
{
    let mut fired = 0;
    while let Some(t) = timer::by_deadline::pop_due(s, reading) {
        fire(s, t);
        fired += 1;
    }
    fired
}

// Fires the head of the queue while it is due, and counts the firings.
pub fn interrupt(s: &mut State, reading: u64) -> u64
    requires { DueAsks s.old.sizes s.old.bytes.now reading }
    ensures same { Same s.old s.new }
    ensures done { Interrupted s.old.sizes s.old.bytes.now s.new.bytes.now reading result }
{
    // lent on as a state of this frame: no store to its bytes can then be one to its sizes (docs/DECISIONS.md, 78)
    let sizes = s.sizes;
    let bytes = &mut *s.bytes;
    fire_due(&mut State { bytes, sizes }, reading)
}

// An interrupt at a reading of the clock, which is not before the last one.
pub fn intr(s: &mut State, reading: u64) -> Result<Reply, Refusal>
    requires { Well s.old.sizes s.old.bytes.now }
    ensures same { Same s.old s.new }
    ensures done { Took s.old.sizes s.old.bytes.now s.new.bytes.now (intr reading) result }
{
    if clockwork::time::bad_now(&s.view(), reading) {
        return Err(Refusal::BadReading);
    }
    clockwork::time::set_now(s, reading);
    let timers = interrupt(s, reading);
    Ok(Reply::Fired {
        timers,
        stuck: timers / STUCK_LOOPS,
    })
}
