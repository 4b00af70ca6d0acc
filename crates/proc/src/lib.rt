// Any one of the nineteen steps, on a state that is known to be well formed.
// `Well` stays a clause: a step breaks it midway, and a type's invariant holds at every store.
// `in_interrupt` goes beside the state: it is the step's mark, and only the steps that ask for it take it.
#![tactic(auto)]

ghost use Rattle.std.specs.Prelude.{IfOk, IfErr};
ghost use Rattle.machine.specs.Bytes.{decode};
ghost use Rattle.machine.specs.Step.{start, rfork, name, sleep, wakeup, qlock, canqlock, qunlock, cond, tdel};
ghost use Rattle.decode.specs.Means.{tsleep_of, tadd_of, step_of};
ghost use Rattle.state.specs.Lent.{Same};
ghost use Rattle.outcome.specs.Stepped.{Well};
ghost use Rattle.outcome.specs.Took.{Took};
ghost use Rattle.proc.specs.Ranges.{Within, Beyond, Truth, IsKernel, NotKernel, Lasting};
ghost use Rattle.proc.specs.Plain.{Plain};
ghost use Rattle.proc.specs.Arms.{CallAsks};
ghost use Rattle.proc.specs.Taken.{Taken};

use clock::Duration;
use decode::{Call, Decoded, TaddFields, TsleepFields};
use outcome::{Refusal, Reply};
use proc_start::Making;
use proc_timer::Kind;
use state::{Index, State};

// The shortest message buffer that a step takes.
const SHORTEST: usize = 127;

// The number that a field gives to one of `n`.
fn below(field: u64, n: u16) -> Result<Index, Refusal>
    ensures ok { IfOk result (Within n field) }
    ensures err { IfErr result (Beyond n field) }
{
    match Index::try_from(field) {
        Ok(i) if i < n => Ok(i),
        _ => Err(Refusal::NoSuchStep),
    }
}

// The same of a kernel timer other than timer 0.
fn kernel_timer(field: u64, n: u16) -> Result<Index, Refusal>
    ensures ok { IfOk result (IsKernel n field) }
    ensures err { IfErr result (NotKernel n field) }
{
    if field < 1 {
        return Err(Refusal::NoSuchStep);
    }
    below(field, n)
}

// The number of a condition.
fn condition_of(field: u64) -> Result<u8, Refusal>
    ensures ok { IfOk result (Within 256 field) }
    ensures err { IfErr result (Beyond 256 field) }
{
    u8::try_from(field).map_err(|_| Refusal::NoSuchStep)
}

// What a condition becomes: 0 false, 1 true.
fn truth_of(field: u64) -> Result<bool, Refusal>
    ensures ok { IfOk result (Truth field) }
    ensures err { IfErr result (Beyond 2 field) }
{
    match field {
        0 => Ok(false),
        1 => Ok(true),
        _ => Err(Refusal::NoSuchStep),
    }
}

// A length of time, whose nanoseconds are below a whole second.
fn duration_of(secs: u64, nanos: u64) -> Result<Duration, Refusal>
    ensures ok { IfOk result (Lasting secs nanos) }
    ensures err { IfErr result (Beyond 1000000000 nanos) }
{
    let Ok(nanos) = u32::try_from(nanos) else {
        return Err(Refusal::NoSuchStep);
    };
    let d = Duration { secs, nanos };
    if d.valid() {
        Ok(d)
    } else {
        Err(Refusal::NoSuchStep)
    }
}

// newproc and ready.
fn start(s: &mut State, in_interrupt: bool, how: u64) -> Result<Reply, Refusal>
    requires { Well s.old.sizes s.old.bytes.now }
    ensures same { Same s.old s.new }
    ensures done { Plain s.old.sizes s.old.bytes.now s.new.bytes.now in_interrupt (start how) result }
{
    if how > 2 {
        return Err(Refusal::NoSuchStep);
    }
    let how = Making::try_from(how)?;
    proc_start::start(s, in_interrupt, how)
}

// fork(2).
fn rfork(s: &mut State, in_interrupt: bool, flags: u64, how: u64) -> Result<Reply, Refusal>
    requires { Well s.old.sizes s.old.bytes.now }
    ensures same { Same s.old s.new }
    ensures done { Plain s.old.sizes s.old.bytes.now s.new.bytes.now in_interrupt (rfork flags how) result }
{
    let Ok(flags) = u32::try_from(flags) else {
        return Err(Refusal::NoSuchStep);
    };
    let how = Making::try_from(how)?;
    proc_fork::rfork(s, in_interrupt, flags, how)
}

// The running process gets a name.
fn name(s: &mut State, in_interrupt: bool, bytes: &[u8]) -> Result<Reply, Refusal>
    requires { Well s.old.sizes s.old.bytes.now }
    ensures same { Same s.old s.new }
    ensures done { Plain s.old.sizes s.old.bytes.now s.new.bytes.now in_interrupt (name bytes.now) result }
{
    if bytes.len() > 28 {
        return Err(Refusal::NoSuchStep);
    }
    proc_fork::name(s, in_interrupt, bytes)
}

// The running process sleeps on a Rendez while a condition is false.
fn sleep(s: &mut State, in_interrupt: bool, rendez: u64, condition: u64) -> Result<Reply, Refusal>
    requires { Well s.old.sizes s.old.bytes.now }
    ensures same { Same s.old s.new }
    ensures done { Plain s.old.sizes s.old.bytes.now s.new.bytes.now in_interrupt (sleep rendez condition) result }
{
    let r = below(rendez, s.sizes.rendez)?;
    let c = condition_of(condition)?;
    proc_sleep::sleep(s, in_interrupt, r, c)
}

// The same, and no longer than a duration.
fn tsleep(s: &mut State, in_interrupt: bool, asked: TsleepFields) -> Result<Reply, Refusal>
    requires { Well s.old.sizes s.old.bytes.now }
    ensures same { Same s.old s.new }
    ensures done { Plain s.old.sizes s.old.bytes.now s.new.bytes.now in_interrupt (tsleep_of asked) result }
{
    let r = below(asked.rendez, s.sizes.rendez)?;
    let c = condition_of(asked.condition)?;
    let d = duration_of(asked.seconds, asked.nanoseconds)?;
    proc_timer::tsleep(s, in_interrupt, r, c, d, asked.reading)
}

// Wakes whoever sleeps on a Rendez.
fn wakeup(s: &mut State, rendez: u64) -> Result<Reply, Refusal>
    requires { Well s.old.sizes s.old.bytes.now }
    ensures same { Same s.old s.new }
    ensures done { Took s.old.sizes s.old.bytes.now s.new.bytes.now (wakeup rendez) result }
{
    let r = below(rendez, s.sizes.rendez)?;
    Ok(proc_wake::wakeup(s, r))
}

// Takes a lock, or queues the running process for it.
fn qlock(s: &mut State, in_interrupt: bool, lock: u64) -> Result<Reply, Refusal>
    requires { Well s.old.sizes s.old.bytes.now }
    ensures same { Same s.old s.new }
    ensures done { Plain s.old.sizes s.old.bytes.now s.new.bytes.now in_interrupt (qlock lock) result }
{
    let q = below(lock, s.sizes.locks)?;
    proc_sleep::qlock(s, in_interrupt, q)
}

// Takes a lock where it is free.
fn canqlock(s: &mut State, lock: u64) -> Result<Reply, Refusal>
    requires { Well s.old.sizes s.old.bytes.now }
    ensures same { Same s.old s.new }
    ensures done { Took s.old.sizes s.old.bytes.now s.new.bytes.now (canqlock lock) result }
{
    let q = below(lock, s.sizes.locks)?;
    Ok(proc_wake::canqlock(s, q))
}

// Hands a lock over to its first waiter, or frees it.
fn qunlock(s: &mut State, lock: u64) -> Result<Reply, Refusal>
    requires { Well s.old.sizes s.old.bytes.now }
    ensures same { Same s.old s.new }
    ensures done { Took s.old.sizes s.old.bytes.now s.new.bytes.now (qunlock lock) result }
{
    let q = below(lock, s.sizes.locks)?;
    proc_wake::qunlock(s, q)
}

// Sets a condition.
fn cond(s: &mut State, condition: u64, value: u64) -> Result<Reply, Refusal>
    requires { Well s.old.sizes s.old.bytes.now }
    ensures same { Same s.old s.new }
    ensures done { Took s.old.sizes s.old.bytes.now s.new.bytes.now (cond condition value) result }
{
    let c = condition_of(condition)?;
    let v = truth_of(value)?;
    Ok(proc_wake::cond(s, c, v))
}

// Adds a kernel timer.
fn tadd(s: &mut State, asked: TaddFields) -> Result<Reply, Refusal>
    requires { Well s.old.sizes s.old.bytes.now }
    ensures same { Same s.old s.new }
    ensures done { Took s.old.sizes s.old.bytes.now s.new.bytes.now (tadd_of asked) result }
{
    let t = kernel_timer(asked.timer, s.sizes.timers)?;
    let kind = Kind::try_from(asked.kind)?;
    let d = duration_of(asked.seconds, asked.nanoseconds)?;
    let r = below(asked.rendez, s.sizes.rendez)?;
    proc_timer::tadd(s, t, kind, d, r, asked.reading)
}

// Takes a kernel timer off the queue.
fn tdel(s: &mut State, timer: u64) -> Result<Reply, Refusal>
    requires { Well s.old.sizes s.old.bytes.now }
    ensures same { Same s.old s.new }
    ensures done { Took s.old.sizes s.old.bytes.now s.new.bytes.now (tdel timer) result }
{
    let t = kernel_timer(timer, s.sizes.timers)?;
    Ok(proc_timer::tdel(s, t))
}

// Takes a step that was read from bytes; where there is none, it refuses that. A message that it tells is at the front of `message`.
pub fn take_call(
    s: &mut State,
    decoded: Option<Decoded>,
    message: &mut [u8],
) -> Result<Reply, Refusal>
    requires { CallAsks s.old.sizes s.old.bytes.now message.old }
    ensures same { Same s.old s.new }
    ensures done { Taken s.old.sizes s.old.bytes.now s.new.bytes.now (step_of decoded.entry) message.old message.new result }
{
    let Some(step) = decoded else {
        return Err(Refusal::NoSuchStep);
    };
    let in_interrupt = step.marked;
    match step.call {
        Call::Start { how } => start(s, in_interrupt, how),
        Call::Rfork { flags, how } => rfork(s, in_interrupt, flags, how),
        Call::Name { bytes } => name(s, in_interrupt, bytes),
        Call::Sched => proc_sched::sched(s, in_interrupt, message),
        Call::Yield => proc_sleep::yield_now(s, in_interrupt),
        Call::Sleep { rendez, condition } => sleep(s, in_interrupt, rendez, condition),
        Call::Tsleep { asked } => tsleep(s, in_interrupt, asked),
        Call::Wakeup { rendez } => wakeup(s, rendez),
        Call::Qlock { lock } => qlock(s, in_interrupt, lock),
        Call::Canqlock { lock } => canqlock(s, lock),
        Call::Qunlock { lock } => qunlock(s, lock),
        Call::Cond { condition, value } => cond(s, condition, value),
        Call::Clock { reading } => proc_timer::clock(s, reading),
        Call::Tadd { asked } => tadd(s, asked),
        Call::Tdel { timer } => tdel(s, timer),
        Call::Intr { reading } => proc_intr::intr(s, reading),
        Call::Due => Ok(proc_wake::due(&s.view())),
        Call::Exit { status } => proc_exit::exit(s, in_interrupt, status),
        Call::Wait => proc_wait::wait(s, in_interrupt, message),
    }
}

// Takes the step that the bytes `b` are. A message that it tells is at the front of `message`.
pub fn take(s: &mut State, b: &[u8], message: &mut [u8]) -> Result<Reply, Refusal>
    requires { Well s.old.sizes s.old.bytes.now }
    ensures same { Same s.old s.new }
    ensures done { Taken s.old.sizes s.old.bytes.now s.new.bytes.now (decode b.now) message.old message.new result }
{
    if message.len() < SHORTEST {
        return Err(Refusal::NoSuchStep);
    }
    take_call(s, decode::decode(b), message)
}
