// The steps by which the running process gives up the CPU: yield, sleep, qlock.
// `Well` stays a clause: a step breaks it midway, and a type's invariant would be owed at every store.
// `in_interrupt` is the step's mark and not the state's: each step asks it once, so a struct of both would be made and taken apart at once.
// A Rendez and a condition come from a step's fields and go into a `Resume`: a struct of both would be a third form of the two.
#![tactic(auto)]

ghost use Rattle.std.specs.Prelude.{false};
ghost use Rattle.state.specs.Lent.{Same};
ghost use Rattle.outcome.specs.Stepped.{Well};
ghost use Rattle.proc_sleep.specs.Yield.{Yielded};
ghost use Rattle.proc_sleep.specs.Suspend.{SuspendAsks, Suspended};
ghost use Rattle.proc_sleep.specs.Sleep.{OffAsks, FellAsleep, FalseAsks, SleepStepAsks, SleepTook};
ghost use Rattle.proc_sleep.specs.Qlock.{QueueAsks, Queued, QlockAsks, QlockTook};

use outcome::{Refusal, Reply};
use record::Resume;
use state::{Index, State, field};

// The running process goes last in the run queue.
pub fn yield_now(s: &mut State, in_interrupt: bool) -> Result<Reply, Refusal>
    requires { Well s.old.sizes s.old.bytes.now }
    ensures same { Same s.old s.new }
    ensures done { Yielded s.old.sizes s.old.bytes.now s.new.bytes.now in_interrupt result }
{
    let i = outcome::running(&s.view(), in_interrupt)?;
    dat::stop(s);
    dat::ready(s, i);
    Ok(Reply::Done)
}

// The running process `i` leaves the CPU in the middle of a call, which goes on at `resume`. Who calls it puts `i` where it waits.
pub fn suspend(s: &mut State, i: Index, resume: Resume)
    requires { SuspendAsks s.old.sizes s.old.bytes.now i resume }
    ensures same { Same s.old s.new }
    ensures done { Suspended s.old.sizes s.old.bytes.now s.new.bytes.now i resume }
{
    dat::stop(s);
    dat::set_resume(s, i, resume);
}

// The running process `i` goes asleep on Rendez `r`, its call to go on at `resume`.
pub fn fall_asleep(s: &mut State, i: Index, r: Index, resume: Resume)
    requires { OffAsks s.old.sizes s.old.bytes.now i r resume }
    ensures same { Same s.old s.new }
    ensures done { FellAsleep s.old.sizes s.old.bytes.now s.new.bytes.now i r resume }
{
    suspend(s, i, resume);
    dat::sleep_on(s, i, r);
}

// Sleeps on Rendez `r` while condition `c` is false.
// No one function with `proc_timer::sleep_for`: here who runs is asked for after the Rendez, there before the clock and the timer.
fn sleep_false(s: &mut State, r: Index, c: u8) -> Result<Reply, Refusal>
    requires { FalseAsks s.old.sizes s.old.bytes.now r c }
    ensures same { Same s.old s.new }
    ensures done { SleepTook s.old.sizes s.old.bytes.now s.new.bytes.now false r c result }
{
    if s.get(field::SLEEPER_OF, r).is_some() {
        return Err(Refusal::RendezTaken);
    }
    let i = outcome::up(&s.view())?;
    fall_asleep(
        s,
        i,
        r,
        Resume::Sleep {
            rendez: r,
            condition: c,
        },
    );
    Ok(Reply::Asleep)
}

// Sleeps on Rendez `r` until condition `c` holds.
pub fn sleep(s: &mut State, in_interrupt: bool, r: Index, c: u8) -> Result<Reply, Refusal>
    requires { SleepStepAsks s.old.sizes s.old.bytes.now r }
    ensures same { Same s.old s.new }
    ensures done { SleepTook s.old.sizes s.old.bytes.now s.new.bytes.now in_interrupt r c result }
{
    if in_interrupt {
        return Err(Refusal::InInterrupt);
    }
    if clockwork::conditions::holds(&s.view(), c) {
        return Ok(Reply::Done);
    }
    sleep_false(s, r, c)
}

// The running process `i` waits for lock `q`, last.
fn wait_for(s: &mut State, i: Index, q: Index)
    requires { QueueAsks s.old.sizes s.old.bytes.now i q }
    ensures same { Same s.old s.new }
    ensures done { Queued s.old.sizes s.old.bytes.now s.new.bytes.now i q }
{
    suspend(s, i, Resume::Qlock { lock: q });
    qlock::enqueue(s, q, i);
}

// Takes lock `q`, or waits for it.
pub fn qlock(s: &mut State, in_interrupt: bool, q: Index) -> Result<Reply, Refusal>
    requires { QlockAsks s.old.sizes s.old.bytes.now q }
    ensures same { Same s.old s.new }
    ensures done { QlockTook s.old.sizes s.old.bytes.now s.new.bytes.now in_interrupt q result }
{
    if qlock::canqlock(s, q) {
        return Ok(Reply::Done);
    }
    let i = outcome::running(&s.view(), in_interrupt)?;
    wait_for(s, i, q);
    Ok(Reply::Asleep)
}
