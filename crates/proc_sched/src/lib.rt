// One turn of the scheduler: the first of the run queue is dispatched, and goes on where its call left off.
// `Limbo`, a process off the run queue and in no other place, stays a clause: a type's invariant would be owed at every store.
// `in_interrupt` is the step's mark and not the state's: `sched` asks it once, so a struct of both would be made and taken apart at once.
// The C interface lends the buffer for a child's message beside the state: so the two go apart.
// A Rendez with its condition comes out of a `Resume`, a process's call out of its record: a struct of either would be made and taken apart.
#![tactic(auto)]

ghost use Rattle.std.specs.Prelude.{false, Ok};
ghost use Rattle.state.specs.Lent.{Same};
ghost use Rattle.proc_sched.specs.Limbo.{Limbo, Dispatched, RunsOn, AgainAsks, SleptAgain};
ghost use Rattle.proc_sched.specs.Check.{CheckAsks, Checked, TimedOut, Ends, TsleepAsks, TsleepChecked};
ghost use Rattle.proc_sched.specs.Go.{GoAsks, WentOn};
ghost use Rattle.proc_sched.specs.Taken.{TakenAsks, Taken, TakenAgainAsks, TakenAgain};
ghost use Rattle.proc_sched.specs.Turn.{TurnAsks, Turned};
ghost use Rattle.proc_sched.specs.Sched.{RestAsks, Rested, FirstAsks, SchedAsks, SchedTook};
ghost use Rattle.proc_sched.specs.Waits.{WaitCheckAsks, WaitFinished, WaitChecked, FinishAsks};

use outcome::{Refusal, Reply};
use record::Resume;
use state::{Index, State, View, field};

// Process `i`, taken off the run queue, runs: its call has returned.
fn dispatch(s: &mut State, i: Index)
    requires { Limbo s.old.sizes s.old.bytes.now i }
    ensures same { Same s.old s.new }
    ensures done { Dispatched s.old.sizes s.old.bytes.now s.new.bytes.now i }
{
    dat::set_resume(s, i, Resume::Nothing);
    dat::set_up(s, i);
}

// The same, with the answer that it runs.
fn run_on(s: &mut State, i: Index) -> Reply
    requires { Limbo s.old.sizes s.old.bytes.now i }
    ensures same { Same s.old s.new }
    ensures done { RunsOn s.old.sizes s.old.bytes.now s.new.bytes.now i (Ok result) }
{
    let pid = s.get(field::PID, i);
    dispatch(s, i);
    Reply::Run { pid }
}

// Process `i` sleeps on Rendez `r` again.
fn sleep_again(s: &mut State, i: Index, r: Index) -> Reply
    requires { AgainAsks s.old.sizes s.old.bytes.now i r }
    ensures same { Same s.old s.new }
    ensures done { SleptAgain s.old.sizes s.old.bytes.now s.new.bytes.now i r (Ok result) }
{
    dat::sleep_on(s, i, r);
    Reply::Asleep
}

// Process `i`, woken from a `sleep` on Rendez `r`, looks at condition `c` again.
fn check_sleep(s: &mut State, i: Index, r: Index, c: u8) -> Reply
    requires { CheckAsks s.old.sizes s.old.bytes.now i r c }
    ensures same { Same s.old s.new }
    ensures done { Checked s.old.sizes s.old.bytes.now s.new.bytes.now i r c (Ok result) }
{
    if clockwork::conditions::holds(&s.view(), c) {
        return run_on(s, i);
    }
    sleep_again(s, i, r)
}

// The `tsleep` of process `i` returns: its timer is removed, and it runs.
fn return_tsleep(s: &mut State, i: Index) -> Reply
    requires { Limbo s.old.sizes s.old.bytes.now i }
    ensures same { Same s.old s.new }
    ensures done { TimedOut s.old.sizes s.old.bytes.now s.new.bytes.now i (Ok result) }
{
    let own = s.sizes.timers + i;
    timer::by_deadline::del(s, own);
    run_on(s, i)
}

// Whether the `tsleep` of process `i` ends: its timer has fired, or condition `c` holds.
fn ends(v: &View, i: Index, c: u8) -> bool
    requires { Limbo v.now.sizes v.now.bytes.now i }
    ensures { Ends v.now.sizes v.now.bytes.now i c result }
{
    let own = v.sizes.timers + i;
    !timer::by_deadline::is_queued(v, own) || clockwork::conditions::holds(v, c)
}

// The same as `check_sleep` for a `tsleep`; one function of both would ask which of them it is, since a `sleep` has no timer.
fn check_tsleep(s: &mut State, i: Index, r: Index, c: u8) -> Reply
    requires { TsleepAsks s.old.sizes s.old.bytes.now i r c }
    ensures same { Same s.old s.new }
    ensures done { TsleepChecked s.old.sizes s.old.bytes.now s.new.bytes.now i r c (Ok result) }
{
    if ends(&s.view(), i, c) {
        return return_tsleep(s, i);
    }
    sleep_again(s, i, r)
}

// The `wait` of process `i` returns with the newest exit, and it runs.
fn finish_wait(s: &mut State, i: Index, buffer: &mut [u8]) -> Reply
    requires { FinishAsks s.old.sizes s.old.bytes.now i buffer.old }
    ensures same { Same s.old s.new }
    ensures done { WaitFinished s.old.sizes s.old.bytes.now s.new.bytes.now i buffer.old buffer.new (Ok result) }
{
    let pid = s.get(field::PID, i);
    let child = proc_wait::take_child(s, i, buffer);
    dispatch(s, i);
    Reply::RunChild {
        pid,
        child: child.pid,
        length: child.length,
    }
}

// Process `i`, woken from a `wait`, looks for an exit; without one it sleeps on its waitr again.
fn check_wait(s: &mut State, i: Index, buffer: &mut [u8]) -> Reply
    requires { WaitCheckAsks s.old.sizes s.old.bytes.now i buffer.old }
    ensures same { Same s.old s.new }
    ensures done { WaitChecked s.old.sizes s.old.bytes.now s.new.bytes.now i buffer.old buffer.new (Ok result) }
{
    let nexits = s.get(field::NEXITS, i);
    if nexits == 0 {
        dat::wait_on(s, i);
        return Reply::Asleep;
    }
    finish_wait(s, i, buffer)
}

// Process `i` goes on where its call `c` left off.
fn go_on(s: &mut State, i: Index, c: Resume, buffer: &mut [u8]) -> Reply
    requires { GoAsks s.old.sizes s.old.bytes.now i c buffer.old }
    ensures same { Same s.old s.new }
    ensures done { WentOn s.old.sizes s.old.bytes.now s.new.bytes.now i c buffer.old buffer.new (Ok result) }
{
    match c {
        Resume::Nothing => run_on(s, i),
        Resume::Sleep { rendez, condition } => check_sleep(s, i, rendez, condition),
        Resume::Tsleep { rendez, condition } => check_tsleep(s, i, rendez, condition),
        Resume::Qlock { lock: _ } => run_on(s, i),
        Resume::Wait => check_wait(s, i, buffer),
    }
}

// Whether somebody is asleep on Rendez `r` while condition `c` is false.
fn taken(v: &View, r: Index, c: u8) -> bool
    requires { TakenAsks v.now.sizes v.now.bytes.now r }
    ensures { Taken v.now.sizes v.now.bytes.now r c result }
{
    !clockwork::conditions::holds(v, c) && v.get(field::SLEEPER_OF, r).is_some()
}

// Whether process `i` would go on, at its call `c`, to sleep where another is asleep.
fn taken_again(v: &View, i: Index, c: Resume) -> bool
    requires { TakenAgainAsks v.now.sizes v.now.bytes.now i c }
    ensures { TakenAgain v.now.sizes v.now.bytes.now i c result }
{
    match c {
        Resume::Nothing => false,
        Resume::Sleep { rendez, condition } => taken(v, rendez, condition),
        Resume::Tsleep { rendez, condition } => {
            let own = v.sizes.timers + i;
            let queued = timer::by_deadline::is_queued(v, own);
            queued && taken(v, rendez, condition)
        }
        Resume::Qlock { lock: _ } => false,
        Resume::Wait => false,
    }
}

// One turn: process `i`, the first in line, is taken off, gets its quantum and goes on at its call `c`.
fn turn(s: &mut State, i: Index, c: Resume, buffer: &mut [u8]) -> Reply
    requires { TurnAsks s.old.sizes s.old.bytes.now i c buffer.old }
    ensures same { Same s.old s.new }
    ensures done { Turned s.old.sizes s.old.bytes.now s.new.bytes.now buffer.old buffer.new (Ok result) }
{
    let _ = dat::next_ready(s);
    clockwork::quantum::set_end(s, i);
    go_on(s, i, c, buffer)
}

// Nobody is ready: idle while somebody is asleep.
fn rest(v: &View) -> Reply
    requires { RestAsks v.now.sizes v.now.bytes.now }
    ensures { Rested v.now.sizes v.now.bytes.now (Ok result) }
{
    let asleep = v.get(field::ASLEEP_COUNT, 0);
    if asleep == 0 {
        return Reply::End;
    }
    Reply::Idle
}

// Process `i`, the first in line, has its turn unless it would sleep where another is asleep.
fn sched_first(s: &mut State, i: Index, buffer: &mut [u8]) -> Result<Reply, Refusal>
    requires { FirstAsks s.old.sizes s.old.bytes.now i buffer.old }
    ensures same { Same s.old s.new }
    ensures done { SchedTook s.old.sizes s.old.bytes.now s.new.bytes.now false buffer.old buffer.new result }
{
    let v = s.view();
    let c = Resume::load(&v, i);
    if taken_again(&v, i, c) {
        return Err(Refusal::RendezTaken);
    }
    Ok(turn(s, i, c, buffer))
}

// One turn of the scheduler, while nobody runs.
pub fn sched(s: &mut State, in_interrupt: bool, buffer: &mut [u8]) -> Result<Reply, Refusal>
    requires { SchedAsks s.old.sizes s.old.bytes.now buffer.old }
    ensures same { Same s.old s.new }
    ensures done { SchedTook s.old.sizes s.old.bytes.now s.new.bytes.now in_interrupt buffer.old buffer.new result }
{
    if in_interrupt {
        return Err(Refusal::InInterrupt);
    }
    if s.get(field::UP, 0).is_some() {
        return Err(Refusal::OneRuns);
    }
    let Some(i) = s.get(field::RUN_HEAD, 0) else {
        return Ok(rest(&s.view()));
    };
    sched_first(s, i, buffer)
}
