// Process records in the lent state: one is taken for a new process, changed, and freed.
#![tactic(auto)]

ghost use Rattle.std.specs.Prelude.{◌≡◌};
ghost use Rattle.memory.specs.Link.{link};
ghost use Rattle.state.specs.Lent.{Same};
ghost use Rattle.records.specs.Pid.{NextPidAsks, PidTaken};
ghost use Rattle.records.specs.OccupyCode.{OccupyAsks, Occupied};
ghost use Rattle.records.specs.New.{newborn};
ghost use Rattle.records.specs.Alloc.{AllocAsks, Allocated};
ghost use Rattle.records.specs.ReleaseCode.{ReleaseAsks, Released};
ghost use Rattle.records.specs.Own.{LivingAsks};
ghost use Rattle.records.specs.Nchild.{NchildSet};
ghost use Rattle.records.specs.Rename.{NameAsks, NameSet};

use record::{Proc, Resume};
use state::{Count, Index, ProcState, State, field};

// The next pid at which no process is made any more, 2^64 - 1.
pub const PIDS_END: u64 = 18_446_744_073_709_551_615;

// Takes the next pid, which rises by one.
pub fn next_pid(s: &mut State) -> u64
    requires { NextPidAsks s.old.sizes s.old.bytes.now }
    ensures same { Same s.old s.new }
    ensures done { PidTaken s.old.sizes s.old.bytes.now s.new.bytes.now result }
{
    let pid = s.get(field::NEXT_PID, 0);
    s.set(field::NEXT_PID, 0, pid + 1);
    pid
}

// The record of a new process: the parent, the link to it and the name are those of `p`, the links those of `old`. It is in no place yet,
// and marked ready.
fn newborn(old: Proc, p: Proc, pid: u64) -> Proc
    ensures { result ≡ newborn old.next old.older old.younger p pid }
{
    let text = p.text;
    Proc {
        pid,
        parent: p.parent,
        quantum_end: 0,
        parent_at: p.parent_at,
        nchild: 0,
        exits: None,
        nexits: 0,
        state: ProcState::Ready.number(),
        resume: Resume::Nothing,
        text,
        ..old
    }
}

// Gives the free record `i` to a new process, the youngest.
fn occupy(s: &mut State, i: Index, p: Proc, pid: u64)
    requires { OccupyAsks s.old.sizes s.old.bytes.now i p pid }
    ensures same { Same s.old s.new }
    ensures done { Occupied s.old.sizes s.old.bytes.now s.new.bytes.now i p pid }
{
    free::use_record(s, i);
    ages::age_in(s, i);
    let old = Proc::load(&s.view(), i);
    newborn(old, p, pid).store(s, i);
}

// A new process takes the free record of the highest number and the next pid; its parent, the link to it and its name are those of `p`.
// Which record, none where no record is free.
pub fn alloc(s: &mut State, p: Proc) -> Option<Index>
    requires { AllocAsks s.old.sizes s.old.bytes.now p }
    ensures same { Same s.old s.new }
    ensures done { Allocated s.old.sizes s.old.bytes.now s.new.bytes.now p (link result) }
{
    // lent on as a state of this frame: no store to its bytes can then be one to its sizes (docs/DECISIONS.md, 78)
    let sizes = s.sizes;
    let bytes = &mut *s.bytes;
    let s = &mut State { bytes, sizes };
    let i = free::find_record(&s.view())?;
    let pid = next_pid(s);
    occupy(s, i, p, pid);
    Some(i)
}

// Frees the record of process `i`, which is in no place and has no exits.
pub fn release(s: &mut State, i: Index)
    requires { ReleaseAsks s.old.sizes s.old.bytes.now i }
    ensures same { Same s.old s.new }
    ensures done { Released s.old.sizes s.old.bytes.now s.new.bytes.now i }
{
    // lent on as a state of this frame: no store to its bytes can then be one to its sizes (docs/DECISIONS.md, 78)
    let sizes = s.sizes;
    let bytes = &mut *s.bytes;
    let s = &mut State { bytes, sizes };
    ages::age_out(s, i);
    free::drop_record(s, i);
    s.set(field::PID, i, 0);
    s.set(field::STATE_OF, i, ProcState::Free.number());
}

// Process `i` has `n` living children.
pub fn set_nchild(s: &mut State, i: Index, n: Count)
    requires { LivingAsks s.old.sizes s.old.bytes.now i }
    ensures same { Same s.old s.new }
    ensures done { NchildSet s.old.sizes s.old.bytes.now s.new.bytes.now i n }
{
    s.set(field::NCHILD, i, n);
}

// Process `i` has the name `text`.
pub fn set_name(s: &mut State, i: Index, text: [u8; 28])
    requires { NameAsks s.old.sizes s.old.bytes.now i text }
    ensures same { Same s.old s.new }
    ensures done { NameSet s.old.sizes s.old.bytes.now s.new.bytes.now i text }
{
    record::name::store(s, i, text);
}
