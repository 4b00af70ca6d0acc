// Whether what the bytes say of the header, the records, the run queue and the locks is right: each function decides one fact.
#![tactic(auto)]

ghost use Rattle.std.specs.Prelude.{◌≡◌, ℕ, suc, ◌<◌, ◌≤◌, ◌↔◌, IsTrue};
ghost use Rattle.memory.specs.Link.{link};
ghost use Rattle.state.specs.Fields as fields;
ghost use Rattle.state.specs.Places.{sizes_in, mem_in};
ghost use Rattle.rules.specs.Facts.{HeaderOk, CallOk, BlankAt, UnlinkedAt, OrphanAt, UsedOk, RecordOk, SleepsHere, RendezOk, UpOk, WaitsHere, count_below, is_asleep, is_queueing};
ghost use Rattle.scan.specs.Records.{SleepFits, SleeperOk};
ghost use Rattle.scan.specs.Tallies.{Tally, Counted};
ghost use Rattle.scan.specs.Lines.{Member, LineWalked};
ghost use Rattle.scan.specs.Queues.{RunWalked, HeldOk, LockWalked};
ghost use Rattle.scan.specs.Locks.{LocksOk, Unmet};
ghost use Rattle.scan.specs.All.{QueuesOk, ProcessesOk};

use rules::Checked;
use state::{CallKind, Count, Index, Link, ProcState, field};

// Do two links lead to the same record, or both to none?
fn same(a: Link, b: Link) -> bool
    ensures { IsTrue result ↔ (link a ≡ link b) }
{
    a == b
}

// Does a link lead to record `i`?
fn leads_to(to: Link, i: Index) -> bool
    ensures { IsTrue result ↔ (link to ≡ suc i) }
{
    same(to, Some(i))
}

// Are the header's numbers in range?
pub fn header_ok(v: &Checked) -> bool
    ensures { IsTrue result ↔ HeaderOk (mem_in v.now.sizes v.now.bytes.now) }
{
    let last = v.get(field::LAST_NOW, 0);
    v.get(field::NEXT_PID, 0) != 0
        && (last <= 2_251_799_813_685_247 && v.get(field::TICKS, 0) <= last)
}

// Is the Rendez of the call of record `i`, a `sleep` or `tsleep`, in range, and does it name who is asleep?
fn sleep_ok(v: &Checked, i: Index) -> bool
    requires { i < v.now.sizes.processes }
    ensures { IsTrue result ↔ SleepFits (sizes_in v.now.sizes) (mem_in v.now.sizes v.now.bytes.now) i }
{
    let object = v.get(field::RESUME_OBJECT, i);
    object < v.sizes.rendez
        && (v.get(field::STATE_OF, i) != ProcState::Asleep.number()
            || leads_to(v.get(field::SLEEPER_OF, object), i))
}

// Does where the call of record `i` goes on fit its state?
pub fn call_ok(v: &Checked, i: Index) -> bool
    requires { i < v.now.sizes.processes }
    ensures { IsTrue result ↔ CallOk (sizes_in v.now.sizes) (mem_in v.now.sizes v.now.bytes.now) i }
{
    let state = v.get(field::STATE_OF, i);
    let kind = v.get(field::RESUME_KIND, i);
    if state == ProcState::Running.number() {
        return kind == CallKind::Nothing.number() && leads_to(v.get(field::UP, 0), i);
    }
    match CallKind::of(kind) {
        Some(CallKind::Nothing) => state != ProcState::Asleep.number(),
        Some(CallKind::Sleep | CallKind::Tsleep) => sleep_ok(v, i),
        Some(CallKind::Qlock) => v.get(field::RESUME_OBJECT, i) < v.sizes.locks,
        Some(CallKind::Wait) | None => true,
    }
}

// Does the call of record `i` hold 0 for what it does not have?
fn blank_ok(v: &Checked, i: Index) -> bool
    requires { i < v.now.sizes.processes }
    ensures { IsTrue result ↔ BlankAt (mem_in v.now.sizes v.now.bytes.now) i }
{
    match CallKind::of(v.get(field::RESUME_KIND, i)) {
        Some(CallKind::Sleep | CallKind::Tsleep) => true,
        Some(CallKind::Qlock) => v.get(field::RESUME_CONDITION, i) == 0,
        Some(CallKind::Nothing | CallKind::Wait) | None => {
            v.get(field::RESUME_CONDITION, i) == 0 && v.get(field::RESUME_OBJECT, i) == 0
        }
    }
}

// Does record `i` name no parent's record where it has no parent? 0 is for none: the layout gives the number, and it is compared as a number.
fn orphan_ok(v: &Checked, i: Index) -> bool
    requires { i < v.now.sizes.processes }
    ensures { IsTrue result ↔ OrphanAt (mem_in v.now.sizes v.now.bytes.now) i }
{
    v.get(field::PARENT, i) != 0 || v.get(field::PARENT_AT, i).is_none()
}

// Is the link of record `i` none where it has none?
fn link_ok(v: &Checked, i: Index) -> bool
    requires { i < v.now.sizes.processes }
    ensures { IsTrue result ↔ UnlinkedAt (mem_in v.now.sizes v.now.bytes.now) i }
{
    v.get(field::NEXT, i).is_none()
        || match ProcState::of(v.get(field::STATE_OF, i)) {
            Some(ProcState::Ready) => true,
            Some(ProcState::Asleep) => v.get(field::RESUME_KIND, i) == CallKind::Qlock.number(),
            Some(ProcState::Free | ProcState::Running) | None => false,
        }
}

// Are the numbers of the process in record `i` in range?
pub fn used_ok(v: &Checked, i: Index) -> bool
    requires { i < v.now.sizes.processes }
    ensures { IsTrue result ↔ UsedOk (sizes_in v.now.sizes) (mem_in v.now.sizes v.now.bytes.now) i }
{
    let pid = v.get(field::PID, i);
    let ticks = v.get(field::TICKS, 0);
    v.get(field::STATE_OF, i) != ProcState::Free.number()
        && (pid < v.get(field::NEXT_PID, 0)
            && (v.get(field::PARENT, i) < pid
                && (v.get(field::QUANTUM_END, i).saturating_sub(ticks) <= 10
                    && (call_ok(v, i) && (blank_ok(v, i) && orphan_ok(v, i))))))
}

// Is record `i` right by itself? The pid 0 is for a free record: the layout gives the number, and others are compared with it as numbers.
pub fn record_ok(v: &Checked, i: Index) -> bool
    requires { i < v.now.sizes.processes }
    ensures { IsTrue result ↔ RecordOk (sizes_in v.now.sizes) (mem_in v.now.sizes v.now.bytes.now) i }
{
    link_ok(v, i)
        && match v.get(field::PID, i) {
            0 => v.get(field::STATE_OF, i) == ProcState::Free.number(),
            _ => used_ok(v, i),
        }
}

// Is each record right by itself?
pub fn records_ok(v: &Checked) -> bool
    ensures { IsTrue result ↔ ((i : ℕ) → i < v.now.sizes.processes → RecordOk (sizes_in v.now.sizes) (mem_in v.now.sizes v.now.bytes.now) i) }
{
    (0..v.sizes.processes).all(|i| record_ok(v, i))
}

// Does record `i` sleep on Rendez `r`?
fn sleeps_here(v: &Checked, r: Index, i: Index) -> bool
    requires { i < v.now.sizes.processes }
    ensures { IsTrue result ↔ SleepsHere (mem_in v.now.sizes v.now.bytes.now) r i }
{
    let kind = v.get(field::RESUME_KIND, i);
    v.get(field::STATE_OF, i) == ProcState::Asleep.number()
        && ((kind == CallKind::Sleep.number() || kind == CallKind::Tsleep.number())
            && v.get(field::RESUME_OBJECT, i) == r)
}

// Is who is said to sleep on Rendez `r` asleep on it?
fn sleeper_ok(v: &Checked, r: Index) -> bool
    requires { r < v.now.sizes.rendez }
    ensures { IsTrue result ↔ SleeperOk (mem_in v.now.sizes v.now.bytes.now) r }
{
    match v.get(field::SLEEPER_OF, r) {
        None => true,
        Some(i) => sleeps_here(v, r, i),
    }
}

// Is who is said to sleep on a Rendez asleep on it?
pub fn rendez_ok(v: &Checked) -> bool
    ensures { IsTrue result ↔ ((r : ℕ) → r < v.now.sizes.rendez → RendezOk (mem_in v.now.sizes v.now.bytes.now) r) }
{
    (0..v.sizes.rendez).all(|r| sleeper_ok(v, r))
}

// Is who is said to run running? Beside `sleeper_ok`: one function of both would take a closure that may be called only where the record is there.
pub fn up_ok(v: &Checked) -> bool
    ensures { IsTrue result ↔ UpOk (mem_in v.now.sizes v.now.bytes.now) }
{
    match v.get(field::UP, 0) {
        None => true,
        Some(i) => v.get(field::STATE_OF, i) == ProcState::Running.number(),
    }
}

// How many records are ready, asleep, and asleep for a lock.
#[derive(Clone, Copy, Debug, PartialEq, Eq)]
pub struct Counts {
    pub ready: Count,
    pub asleep: Count,
    pub queueing: Count,
}

// Is record `i` asleep for a lock? Both fields are read before either is tested: the count of all records is then made several at a time.
fn queueing_at(v: &Checked, i: Index) -> bool
    requires { i < v.now.sizes.processes }
    ensures { result ≡ is_queueing (mem_in v.now.sizes v.now.bytes.now) i }
{
    let state = v.get(field::STATE_OF, i);
    let kind = v.get(field::RESUME_KIND, i);
    state == ProcState::Asleep.number() && kind == CallKind::Qlock.number()
}

// 1 where a test holds, and 0 where it does not.
fn tally(test: bool) -> Count
    ensures { Tally test result }
{
    Count::from(test)
}

// Counts the records that are ready, asleep, and asleep for a lock.
pub fn count_states(v: &Checked) -> Counts
    ensures { Counted v.now.sizes (mem_in v.now.sizes v.now.bytes.now) result }
{
    let mut ready: Count = 0;
    let mut asleep: Count = 0;
    let mut queueing: Count = 0;
    for i in 0..v.sizes.processes {
        let state = v.get(field::STATE_OF, i);
        ready += tally(state == ProcState::Ready.number());
        asleep += tally(state == ProcState::Asleep.number());
        queueing += tally(queueing_at(v, i));
    }
    Counts {
        ready,
        asleep,
        queueing,
    }
}

// A queue: the run queue, or the waiters for a lock.
#[derive(Clone, Copy, Debug, PartialEq, Eq)]
enum Line {
    Run,
    Lock(Index),
}

// Does record `i` wait for lock `q`? Beside `sleeps_here`: one function of both would take a test of kinds, and be no plainer.
fn waits_here(v: &Checked, q: Index, i: Index) -> bool
    requires { i < v.now.sizes.processes }
    ensures { IsTrue result ↔ WaitsHere (mem_in v.now.sizes v.now.bytes.now) q i }
{
    v.get(field::STATE_OF, i) == ProcState::Asleep.number()
        && (v.get(field::RESUME_KIND, i) == CallKind::Qlock.number()
            && v.get(field::RESUME_OBJECT, i) == q)
}

// May record `i` stand in this queue?
fn member_ok(v: &Checked, line: Line, i: Index) -> bool
    requires { i < v.now.sizes.processes }
    ensures { IsTrue result ↔ Member (mem_in v.now.sizes v.now.bytes.now) line i }
{
    match line {
        Line::Run => v.get(field::STATE_OF, i) == ProcState::Ready.number(),
        Line::Lock(q) => waits_here(v, q, i),
    }
}

// Do the links from `head` to `tail` spell a queue of at most `most` records that may stand in it? Where they do, how many stand in it.
// A walk of its own: those of timers and of ages compare each that they meet with the one before it.
fn line_ok(v: &Checked, line: Line, head: Link, tail: Link, most: Count) -> Option<Count>
    requires { link head ≤ v.now.sizes.processes }
    ensures { LineWalked v.now.sizes.processes (mem_in v.now.sizes v.now.bytes.now) line most (link head) (link tail) result }
{
    let mut at = head;
    let mut last: Link = None;
    let mut n: Count = 0;
    while let Some(i) = at {
        if n == most {
            return None;
        }
        if !member_ok(v, line, i) {
            return None;
        }
        last = at;
        at = v.get(field::NEXT, i);
        n += 1;
    }
    if same(last, tail) { Some(n) } else { None }
}

// Is the run queue right? Where it is, how many stand in it.
pub fn run_ok(v: &Checked) -> Option<Count>
    ensures { RunWalked v.now.sizes (mem_in v.now.sizes v.now.bytes.now) result }
{
    let head = v.get(field::RUN_HEAD, 0);
    let tail = v.get(field::RUN_TAIL, 0);
    line_ok(v, Line::Run, head, tail, v.sizes.processes)
}

// Does nobody wait for lock `q` where it is not held? One expression, as in `orphan_ok`, of other fields of other types. The field is 0 or 1: the
// layout gives the number, and it is compared as a number.
fn held_ok(v: &Checked, q: Index) -> bool
    requires { q < v.now.sizes.locks }
    ensures { IsTrue result ↔ HeldOk (mem_in v.now.sizes v.now.bytes.now) q }
{
    v.get(field::HELD, q) != 0 || v.get(field::LOCK_HEAD, q).is_none()
}

// Is lock `q` right, with at most `left` waiters? Where it is, how many wait. No more than `left` are visited. Beside `run_ok`: the walk is
// shared, and where its two ends stand is all that is left.
pub fn lock_ok(v: &Checked, q: Index, left: Count) -> Option<Count>
    requires { q < v.now.sizes.locks }
    ensures { LockWalked v.now.sizes (mem_in v.now.sizes v.now.bytes.now) q left result }
{
    if !held_ok(v, q) {
        return None;
    }
    let head = v.get(field::LOCK_HEAD, q);
    let tail = v.get(field::LOCK_TAIL, q);
    line_ok(v, Line::Lock(q), head, tail, left)
}

// Is each lock right, with at most `queueing` waiters in all? Where they are, how many of so many do not wait.
fn unmet(v: &Checked, queueing: Count) -> Option<Count>
    ensures { Unmet v.now.sizes (mem_in v.now.sizes v.now.bytes.now) queueing result }
{
    let mut left = queueing;
    for q in 0..v.sizes.locks {
        let count = lock_ok(v, q, left)?;
        left -= count;
    }
    Some(left)
}

// Is each lock right, and do `queueing` records wait in all?
pub fn locks_ok(v: &Checked, queueing: Count) -> bool
    ensures { IsTrue result ↔ LocksOk (sizes_in v.now.sizes) (mem_in v.now.sizes v.now.bytes.now) queueing }
{
    unmet(v, queueing) == Some(0)
}

// Is the number of the sleepers that the header has right? The caller has counted them.
pub fn asleep_ok(v: &Checked, asleep: Count) -> bool
    requires { asleep ≡ count_below v.now.sizes.processes (is_asleep (mem_in v.now.sizes v.now.bytes.now)) }
    ensures { IsTrue result ↔ (mem_in v.now.sizes v.now.bytes.now fields.asleep_count 0 ≡ count_below v.now.sizes.processes (is_asleep (mem_in v.now.sizes v.now.bytes.now))) }
{
    v.get(field::ASLEEP_COUNT, 0) == asleep
}

// Do the queues hold all who are ready or wait for a lock, and is the number of the sleepers right?
pub fn queues_ok(v: &Checked) -> bool
    ensures { IsTrue result ↔ QueuesOk (sizes_in v.now.sizes) (mem_in v.now.sizes v.now.bytes.now) }
{
    let counts = count_states(v);
    match run_ok(v) {
        None => false,
        Some(n) => n == counts.ready
            && (locks_ok(v, counts.queueing) && asleep_ok(v, counts.asleep)),
    }
}

// Is what the bytes say of the processes, the Rendez and the locks right?
pub fn processes_ok(v: &Checked) -> bool
    ensures { IsTrue result ↔ ProcessesOk (sizes_in v.now.sizes) (mem_in v.now.sizes v.now.bytes.now) }
{
    header_ok(v) && (records_ok(v) && (rendez_ok(v) && (up_ok(v) && queues_ok(v))))
}
