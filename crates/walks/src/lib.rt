// Walks and counts of the check: the timers, the exits, and the living by age.
// Each walk is a loop of its own: what it asks of a record depends on the one before it, so a common walk would take a closure that keeps
// the last deadline, or the last record with its pid, and would be no plainer.
#![tactic(auto)]

ghost use Rattle.std.specs.Prelude.{◌≡◌, ◌+◌, ◌<◌, ◌≤◌, ℕ, IsTrue, ◌↔◌};
ghost use Rattle.state.specs.Abs.{is_set};
ghost use Rattle.state.specs.Places.{sizes_in, cell_in};
ghost use Rattle.state.specs.Regions.{slot_of};
ghost use Rattle.rules.specs.Code.{mem_in};
ghost use Rattle.rules.specs.Facts.{count_below, TimerOk, ExitsOk};
ghost use Rattle.walks.specs.Counts.{Asks};
ghost use Rattle.walks.specs.Timers.{PeriodOk, TickOk};
ghost use Rattle.walks.specs.TimerQueue.{TimerCounts};
ghost use Rattle.walks.specs.AllExits.{ExitsHere, AllExits};
ghost use Rattle.walks.specs.Ages.{AgeCounts};
ghost use Rattle.walks.specs.Queues.{TimerFacts, ExitFacts, AgeFacts, QueueFacts};

use memory::Number;
use rules::Checked;
use state::field::{self, Field};
use state::{CallKind, Count, Index};

// Of how many of the first `n` records a field is not 0.
pub fn count_set<T: Number + Drop>(v: &Checked, f: Field<T>, n: Index) -> Count
    requires { Asks v.now.sizes (slot_of f T.width) n }
    ensures { result ≡ count_below n (λ i. is_set (cell_in v.now.sizes v.now.bytes.now (slot_of f T.width) i)) }
{
    let mut count = 0;
    for i in 0..n {
        if v.get(f, i).value() != 0 {
            count += 1;
        }
    }
    count
}

// Is a period none, or no shorter than 100 µs? 0 is for none: the layout gives the number, and it is compared as a number.
fn period_ok(hz: u32, p: u64) -> bool
    ensures { IsTrue result ↔ PeriodOk hz p }
{
    let shortest = clock::Duration {
        secs: 0,
        nanos: 100_000,
    };
    p == 0 || shortest.to_counts(hz) <= p
}

// Is the period of timer 0 10 ms, and where it is queued, is its deadline after the last tick? Whether a timer is queued is 1 or 0, here and
// below: the layout gives the number, and it is compared as a number.
fn tick_ok(v: &Checked) -> bool
    ensures { IsTrue result ↔ TickOk v.now.sizes v.now.bytes.now }
{
    let ten = clock::Duration {
        secs: 0,
        nanos: 10_000_000,
    };
    v.get(field::PERIOD, 0) == ten.to_counts(v.sizes.hz)
        && (v.get(field::IS_QUEUED, 0) != 1 || v.get(field::TICKS, 0) < v.get(field::DEADLINE, 0))
}

// Is kernel timer `t` in order?
fn kernel_ok(v: &Checked, t: Index) -> bool
    requires { t < v.now.sizes.timers }
    ensures { IsTrue result ↔ TimerOk (sizes_in v.now.sizes) (mem_in v.now.sizes v.now.bytes.now) t }
{
    period_ok(v.sizes.hz, v.get(field::PERIOD, t)) && (t != 0 || tick_ok(v))
}

// Is `t`, a process's own timer, in order: queued only while the process is in a `tsleep`? The pid 0 is for a free record, here and below: the
// layout gives the number, and others are compared with it as numbers.
fn own_ok(v: &Checked, t: Index) -> bool
    requires above { v.now.sizes.timers ≤ t }
    requires below { t < v.now.sizes.timers + v.now.sizes.processes }
    ensures { IsTrue result ↔ TimerOk (sizes_in v.now.sizes) (mem_in v.now.sizes v.now.bytes.now) t }
{
    let i = t - v.sizes.timers;
    v.get(field::IS_QUEUED, t) != 1
        || (v.get(field::PID, i) != 0 && v.get(field::RESUME_KIND, i) == CallKind::Tsleep.number())
}

// Is timer `t` in order?
pub fn timer_ok(v: &Checked, t: Index) -> bool
    requires { t < v.now.sizes.timers + v.now.sizes.processes }
    ensures { IsTrue result ↔ TimerOk (sizes_in v.now.sizes) (mem_in v.now.sizes v.now.bytes.now) t }
{
    if t < v.sizes.timers {
        kernel_ok(v, t)
    } else {
        own_ok(v, t)
    }
}

// Is every timer in order?
pub fn timers_ok(v: &Checked) -> bool
    ensures { IsTrue result
        ↔ ((t : ℕ) → t < v.now.sizes.timers + v.now.sizes.processes → TimerOk (sizes_in v.now.sizes) (mem_in v.now.sizes v.now.bytes.now) t) }
{
    (0..v.sizes.timers + v.sizes.processes).all(|t| timer_ok(v, t))
}

// Do the links of the timer queue end, are all in it queued, and do they stand by deadline? Then how many they are.
pub fn timer_queue_ok(v: &Checked) -> Option<Count>
    ensures { TimerCounts v.now.sizes v.now.bytes.now result }
{
    let most = v.sizes.timers + v.sizes.processes;
    let mut at = v.get(field::TIMER_HEAD, 0);
    let mut n = 0;
    let mut last = 0;
    while let Some(t) = at {
        if n == most {
            return None;
        }
        if v.get(field::IS_QUEUED, t) != 1 {
            return None;
        }
        let due = v.get(field::DEADLINE, t);
        if due < last {
            return None;
        }
        last = due;
        at = v.get(field::TIMER_NEXT, t);
        n += 1;
    }
    Some(n)
}

// Are the exits of record `i` as many cells as it says, each of which names it as its owner? It leaves its loop where it finds a fault: links are
// no iterator, so there is no `all` of them.
pub fn exits_ok(v: &Checked, i: Index) -> bool
    requires { i < v.now.sizes.processes }
    ensures { IsTrue result ↔ ExitsOk (sizes_in v.now.sizes) (mem_in v.now.sizes v.now.bytes.now) i }
{
    let v = *v;
    // As a number: two options took longer to compare.
    let me = Some(i).value();
    let n = v.get(field::NEXITS, i);
    let mut at = v.get(field::EXITS, i);
    let mut k = 0;
    while let Some(c) = at {
        if k == n {
            return false;
        }
        if v.get(field::OWNER, c).value() != me {
            return false;
        }
        at = v.get(field::CELL_NEXT, c);
        k += 1;
    }
    k == n
}

// How many exits record `i` has, none where it is free. Where it is used and its exits are not in order, there is no answer.
fn exits_of(v: &Checked, i: Index) -> Option<u32>
    requires { i < v.now.sizes.processes }
    ensures { ExitsHere v.now.sizes v.now.bytes.now i result }
{
    if v.get(field::PID, i) == 0 {
        return Some(0);
    }
    if !exits_ok(v, i) {
        return None;
    }
    Some(u32::from(v.get(field::NEXITS, i)))
}

// Are the exits of every used record in order? Then how many they are together.
pub fn all_exits_ok(v: &Checked) -> Option<u32>
    ensures { AllExits v.now.sizes v.now.bytes.now result }
{
    let v = *v;
    let mut n = 0;
    for i in 0..v.sizes.processes {
        n += exits_of(&v, i)?;
    }
    Some(n)
}

// Do the links of the living by age run both ways, are all of them used, and do their pids rise? Then how many they are.
pub fn ages_ok(v: &Checked) -> Option<Count>
    ensures { AgeCounts v.now.sizes v.now.bytes.now result }
{
    let mut at = v.get(field::OLDEST, 0);
    let mut last = None;
    let mut pid = 0;
    let mut n = 0;
    while let Some(i) = at {
        if n == v.sizes.processes {
            return None;
        }
        if v.get(field::OLDER, i) != last {
            return None;
        }
        let p = v.get(field::PID, i);
        if p <= pid {
            return None;
        }
        last = at;
        pid = p;
        at = v.get(field::YOUNGER, i);
        n += 1;
    }
    if last == v.get(field::YOUNGEST, 0) {
        Some(n)
    } else {
        None
    }
}

// Are the timers in order, and are those in their queue all that are queued? Here and in the two below the records are counted only where the walk
// had an answer.
pub fn timer_facts(v: &Checked) -> bool
    ensures { IsTrue result ↔ TimerFacts (sizes_in v.now.sizes) (mem_in v.now.sizes v.now.bytes.now) }
{
    timers_ok(v)
        && match timer_queue_ok(v) {
            None => false,
            Some(n) => n == count_set(v, field::IS_QUEUED, v.sizes.timers + v.sizes.processes),
        }
}

// Are the exits in order, and are their cells all that have an owner?
pub fn exit_facts(v: &Checked) -> bool
    ensures { IsTrue result ↔ ExitFacts (sizes_in v.now.sizes) (mem_in v.now.sizes v.now.bytes.now) }
{
    match all_exits_ok(v) {
        None => false,
        Some(n) => n == u32::from(count_set(v, field::OWNER, v.sizes.cells)),
    }
}

// Are the living by age in order, and are they all the records that are used?
pub fn age_facts(v: &Checked) -> bool
    ensures { IsTrue result ↔ AgeFacts (sizes_in v.now.sizes) (mem_in v.now.sizes v.now.bytes.now) }
{
    match ages_ok(v) {
        None => false,
        Some(n) => n == count_set(v, field::PID, v.sizes.processes),
    }
}

// Are the timers, the exits and the living by age in order?
pub fn queues_ok(v: &Checked) -> bool
    ensures { IsTrue result ↔ QueueFacts (sizes_in v.now.sizes) (mem_in v.now.sizes v.now.bytes.now) }
{
    timer_facts(v) && (exit_facts(v) && age_facts(v))
}
