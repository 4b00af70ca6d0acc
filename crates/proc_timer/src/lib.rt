// The steps of timers and the clock: tdel, clock, tadd, tsleep.
// `Well` stays a clause: a step breaks it midway, and a type's invariant would be owed at every store.
// `in_interrupt` is the step's mark and not the state's: `tsleep` asks it once, so a struct of both would be made and taken apart at once.
// A Rendez and a condition come from a step's fields and go into a `Resume`: a struct of both would be a third form of the two.
#![tactic(auto)]

ghost use Rattle.std.specs.Prelude.{◌≡◌, false, ◌<◌, Ok, IfOk, IfErr, MatchResult};
ghost use Rattle.machine.specs.Step.{tdel, clock};
ghost use Rattle.state.specs.Lent.{Same};
ghost use Rattle.outcome.specs.declared.Refusal.TheVariants.{NoSuchStep};
ghost use Rattle.outcome.specs.Stepped.{Well};
ghost use Rattle.outcome.specs.Took.{Took};
ghost use Rattle.proc_timer.specs.Del.{KernelAsks};
ghost use Rattle.proc_timer.specs.After.{AfterAsks, AddedAfter};
ghost use Rattle.proc_timer.specs.Kinds.{kind_number};
ghost use Rattle.proc_timer.specs.Counting.{TooShort, DeadlineFor, NotCounted};
ghost use Rattle.proc_timer.specs.Set.{Period, SetAsks, SetAfter};
ghost use Rattle.proc_timer.specs.Add.{TaddAsks, Tadded};
ghost use Rattle.proc_timer.specs.Own.{UpAsks, Returned, UntilAsks, SleepsUntil};
ghost use Rattle.proc_timer.specs.For.{ForAsks, SleptFor};
ghost use Rattle.proc_timer.specs.Tsleep.{TsleepAsks, RunningAsks, Tslept};

use clock::Duration;
use outcome::{Refusal, Reply};
use record::Resume;
use state::{Index, State, View, field};

// The limit of counts, 2^63 - 1.
const MOST_COUNTS: u64 = 9_223_372_036_854_775_807;

// The shortest period, 100 µs, in nanoseconds.
const MIN_PERIOD: u32 = 100_000;

// A relative timer fires once; a periodic one returns each time that it has fired.
#[derive(Clone, Copy, Debug, PartialEq, Eq)]
pub enum Kind {
    Relative,
    Periodic,
}

// The kinds by the numbers that `tadd` gives them (docs/STEPS.md). No such step where the number is over 1.
impl TryFrom<u64> for Kind {
    type Error = Refusal;

    ghost try_from_gives = { λ n r. MatchResult r (λ k. kind_number k ≡ n) (λ e. (e ≡ NoSuchStep) × (1 < n)) };

    fn try_from(n: u64) -> Result<Self, Refusal> {
        match n {
            0 => Ok(Kind::Relative),
            1 => Ok(Kind::Periodic),
            _ => Err(Refusal::NoSuchStep),
        }
    }
}

// Takes kernel timer `t` off the queue.
#[tactic(auto, using(crate::specs::Del::taken_off))]
pub fn tdel(s: &mut State, t: Index) -> Reply
    requires { KernelAsks s.old.sizes s.old.bytes.now t }
    ensures same { Same s.old s.new }
    ensures done { Took s.old.sizes s.old.bytes.now s.new.bytes.now (tdel t) (Ok result) }
{
    timer::by_deadline::del(s, t);
    Reply::Done
}

// A deadline: so many counts after a reading of the clock.
#[derive(Clone, Copy, Debug, PartialEq, Eq)]
struct Deadline {
    reading: u64,
    counts: u64,
}

// The clock was read: queues timer `t` with a deadline after the reading, moving it if it is queued.
fn add_after(s: &mut State, t: Index, at: Deadline)
    requires { AfterAsks s.old.sizes s.old.bytes.now t at.reading at.counts }
    ensures same { Same s.old s.new }
    ensures done { AddedAfter s.old.sizes s.old.bytes.now s.new.bytes.now t at.reading at.counts }
{
    // lent on as a state of this frame: no store to its bytes can then be one to its sizes (docs/DECISIONS.md, 78)
    let sizes = s.sizes;
    let bytes = &mut *s.bytes;
    let s = &mut State { bytes, sizes };
    clockwork::time::set_now(s, at.reading);
    timer::by_deadline::add(s, t, at.reading + at.counts);
}

// Adds timer 0, which ticks.
pub fn clock(s: &mut State, reading: u64) -> Result<Reply, Refusal>
    requires { Well s.old.sizes s.old.bytes.now }
    ensures same { Same s.old s.new }
    ensures done { Took s.old.sizes s.old.bytes.now s.new.bytes.now (clock reading) result }
{
    if clockwork::time::bad_now(&s.view(), reading) {
        return Err(Refusal::BadReading);
    }
    let counts = s.get(field::PERIOD, 0);
    add_after(s, 0, Deadline { reading, counts });
    Ok(Reply::Done)
}

// Is a duration too short for a timer of a kind: no time at all, or too short a period?
#[tactic(auto, using(crate::specs::Counting::short))]
fn too_short(kind: Kind, d: Duration) -> bool
    ensures { TooShort (kind_number kind) d result }
{
    match kind {
        Kind::Relative => d.is_zero(),
        Kind::Periodic => d.shorter_than(Duration {
            secs: 0,
            nanos: MIN_PERIOD,
        }),
    }
}

// When a timer of a kind fires that is set for a duration at a reading of the clock, or why the two are refused.
#[tactic(auto, using(crate::specs::Counting::counting))]
fn deadline_of(v: &View, kind: Kind, d: Duration, reading: u64) -> Result<Deadline, Refusal>
    requires { Well v.now.sizes v.now.bytes.now }
    ensures ok { IfOk result (DeadlineFor v.now.sizes v.now.bytes.now (kind_number kind) d reading) }
    ensures err { IfErr result (NotCounted v.now.sizes v.now.bytes.now (kind_number kind) d reading) }
{
    if too_short(kind, d) {
        return Err(Refusal::ShortDuration);
    }
    if clockwork::time::bad_now(v, reading) {
        return Err(Refusal::BadReading);
    }
    let counts = d.to_counts(v.sizes.hz);
    if MOST_COUNTS < counts {
        return Err(Refusal::TooManyCounts);
    }
    Ok(Deadline { reading, counts })
}

// The period of a timer of a kind that fires after so many counts: 0 where it fires once.
// A number and no Option, since the state's field holds it so.
#[tactic(auto, using(crate::specs::Set::periods))]
fn period_of(kind: Kind, counts: u64) -> u64
    ensures { Period (kind_number kind) counts result }
{
    match kind {
        Kind::Relative => 0,
        Kind::Periodic => counts,
    }
}

// Sets what kernel timer `t` does, and queues it with a deadline.
#[inline(always)]
fn set_after(s: &mut State, t: Index, kind: Kind, r: Index, at: Deadline)
    requires { SetAsks s.old.sizes s.old.bytes.now t r at.reading at.counts }
    ensures same { Same s.old s.new }
    ensures done { SetAfter s.old.sizes s.old.bytes.now s.new.bytes.now t (kind_number kind) r at.reading at.counts }
{
    clockwork::time::set_timer(s, t, period_of(kind, at.counts), r);
    add_after(s, t, at);
}

// Adds kernel timer `t` to wake Rendez `r`.
#[inline(always)]
pub fn tadd(
    s: &mut State,
    t: Index,
    kind: Kind,
    d: Duration,
    r: Index,
    reading: u64,
) -> Result<Reply, Refusal>
    requires { TaddAsks s.old.sizes s.old.bytes.now t d r }
    ensures same { Same s.old s.new }
    ensures done { Tadded s.old.sizes s.old.bytes.now s.new.bytes.now t (kind_number kind) d r reading result }
{
    let at = deadline_of(&s.view(), kind, d, reading)?;
    set_after(s, t, kind, r, at);
    Ok(Reply::Done)
}

// The call of process `i`, which runs, returns at a reading of the clock: its own timer is off.
fn return_at(s: &mut State, i: Index, reading: u64)
    requires { UpAsks s.old.sizes s.old.bytes.now i }
    ensures same { Same s.old s.new }
    ensures done { Returned s.old.sizes s.old.bytes.now s.new.bytes.now i reading }
{
    let own = s.sizes.timers + i;
    clockwork::time::set_now(s, reading);
    timer::by_deadline::del(s, own);
}

// Process `i`, which runs, goes asleep on Rendez `r`, its own timer queued with a deadline.
fn sleep_until(s: &mut State, i: Index, r: Index, c: u8, at: Deadline)
    requires { UntilAsks s.old.sizes s.old.bytes.now i r at.reading at.counts }
    ensures same { Same s.old s.new }
    ensures done { SleepsUntil s.old.sizes s.old.bytes.now s.new.bytes.now i r c at.reading at.counts }
{
    let own = s.sizes.timers + i;
    add_after(s, own, at);
    proc_sleep::fall_asleep(
        s,
        i,
        r,
        Resume::Tsleep {
            rendez: r,
            condition: c,
        },
    );
}

// Process `i`, which runs, returns where condition `c` holds, and else sleeps on Rendez `r` until the deadline at most.
fn sleep_for(s: &mut State, i: Index, r: Index, c: u8, at: Deadline) -> Result<Reply, Refusal>
    requires { ForAsks s.old.sizes s.old.bytes.now i r at.reading at.counts }
    ensures same { Same s.old s.new }
    ensures done { SleptFor s.old.sizes s.old.bytes.now s.new.bytes.now i r c at.reading at.counts result }
{
    if clockwork::conditions::holds(&s.view(), c) {
        return_at(s, i, at.reading);
        return Ok(Reply::Done);
    }
    if s.get(field::SLEEPER_OF, r).is_some() {
        return Err(Refusal::RendezTaken);
    }
    sleep_until(s, i, r, c, at);
    Ok(Reply::Asleep)
}

// Process `i`, which runs, sleeps on Rendez `r` until condition `c` holds or the duration has passed.
fn sleep_timed(
    s: &mut State,
    i: Index,
    r: Index,
    c: u8,
    d: Duration,
    reading: u64,
) -> Result<Reply, Refusal>
    requires { RunningAsks s.old.sizes s.old.bytes.now i r d }
    ensures same { Same s.old s.new }
    ensures done { Tslept s.old.sizes s.old.bytes.now s.new.bytes.now false r c d reading result }
{
    let at = deadline_of(&s.view(), Kind::Relative, d, reading)?;
    sleep_for(s, i, r, c, at)
}

// The running process sleeps on Rendez `r` until condition `c` holds or the duration has passed.
pub fn tsleep(
    s: &mut State,
    in_interrupt: bool,
    r: Index,
    c: u8,
    d: Duration,
    reading: u64,
) -> Result<Reply, Refusal>
    requires { TsleepAsks s.old.sizes s.old.bytes.now r d }
    ensures same { Same s.old s.new }
    ensures done { Tslept s.old.sizes s.old.bytes.now s.new.bytes.now in_interrupt r c d reading result }
{
    let i = outcome::running(&s.view(), in_interrupt)?;
    sleep_timed(s, i, r, c, d, reading)
}
