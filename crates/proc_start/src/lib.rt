// The step that makes a process with no parent.
#![tactic(auto)]

ghost use Rattle.std.specs.Prelude.{◌≡◌, ◌≤◌, ◌<◌, IfOk, IfErr, MatchResult};
ghost use Rattle.state.specs.Lent.{Same};
ghost use Rattle.outcome.specs.declared.Refusal.TheVariants.{NoSuchStep, NoVmem};
ghost use Rattle.outcome.specs.Stepped.{Well};
ghost use Rattle.proc_start.specs.Making.{number};
ghost use Rattle.proc_start.specs.Room.{Room, NoRoom};
ghost use Rattle.proc_start.specs.Begin.{BeginAsks, Begun};
ghost use Rattle.proc_start.specs.Start.{Orphan, StartAsks, Started};

use outcome::{Refusal, Reply};
use record::{Proc, Resume};
use state::{ProcState, State, View, field};

// How the making of a process ends, by the numbers that `start` and `rfork` give it (docs/STEPS.md). All but the first end it with ENOVMEM.
#[derive(Clone, Copy, Debug, PartialEq, Eq)]
pub enum Making {
    // It works.
    Works = 0,
    // No address space.
    NoSpace = 1,
    // No stack.
    NoStack = 2,
    // The copy of a page fails: of `rfork` alone, and a pid is used up.
    NoCopy = 3,
}

impl Making {
    // ENOVMEM but where it works.
    pub fn made(self) -> Result<(), Refusal>
        ensures ok { IfOk result (λ u. number self ≡ 0) }
        ensures err { IfErr result (λ e. (e ≡ NoVmem) × (1 ≤ number self)) }
    {
        match self {
            Making::Works => Ok(()),
            Making::NoSpace | Making::NoStack | Making::NoCopy => Err(Refusal::NoVmem),
        }
    }
}

// No such step where the number is over 3.
impl TryFrom<u64> for Making {
    type Error = Refusal;

    ghost try_from_gives = { λ n r. MatchResult r (λ m. number m ≡ n) (λ e. (e ≡ NoSuchStep) × (3 < n)) };

    fn try_from(n: u64) -> Result<Self, Refusal> {
        match n {
            0 => Ok(Making::Works),
            1 => Ok(Making::NoSpace),
            2 => Ok(Making::NoStack),
            3 => Ok(Making::NoCopy),
            _ => Err(Refusal::NoSuchStep),
        }
    }
}

// A new process's record: no parent, no name. The name is an array of zeros, as the fixed memory of a state has it.
fn newproc() -> Proc
    ensures { Orphan result }
{
    let text = [0u8; 28];
    Proc {
        pid: 0,
        parent: 0,
        quantum_end: 0,
        next: None,
        older: None,
        younger: None,
        parent_at: None,
        nchild: 0,
        exits: None,
        nexits: 0,
        state: ProcState::Free.number(),
        resume: Resume::Nothing,
        text,
    }
}

// A new process with the name and the parent of `p` is made, and is ready; there is a free record and a pid.
pub fn begin(s: &mut State, p: Proc)
    requires { BeginAsks s.old.sizes s.old.bytes.now p }
    ensures same { Same s.old s.new }
    ensures done { Begun s.old.sizes s.old.bytes.now s.new.bytes.now p }
{
    // lent on as a state of this frame: no store to its bytes can then be one to its sizes (docs/DECISIONS.md, 78)
    let sizes = s.sizes;
    let bytes = &mut *s.bytes;
    let s = &mut State { bytes, sizes };
    let Some(i) = records::alloc(s, p) else {
        unreachable!()
    };
    dat::ready(s, i);
}

// The pid that the next process gets; refused where no record is free for it, and else where no pid is left.
pub fn new_pid(v: &View) -> Result<u64, Refusal>
    requires { Well v.now.sizes v.now.bytes.now }
    ensures ok { IfOk result (Room v.now.sizes v.now.bytes.now) }
    ensures err { IfErr result (NoRoom v.now.sizes v.now.bytes.now) }
{
    if free::find_record(v).is_none() {
        return Err(Refusal::NoFreeRecord);
    }
    let pid = v.get(field::NEXT_PID, 0);
    if pid == records::PIDS_END {
        return Err(Refusal::NoPidLeft);
    }
    Ok(pid)
}

// Makes a process. Whether an interrupt is being served stands beside the state: it is of this step, and the lent bytes do not say it.
pub fn start(s: &mut State, in_interrupt: bool, how: Making) -> Result<Reply, Refusal>
    requires { StartAsks s.old.sizes s.old.bytes.now how }
    ensures same { Same s.old s.new }
    ensures done { Started s.old.sizes s.old.bytes.now s.new.bytes.now in_interrupt (number how) result }
{
    if in_interrupt {
        return Err(Refusal::InInterrupt);
    }
    let pid = new_pid(&s.view())?;
    how.made()?;
    begin(s, newproc());
    Ok(Reply::Pid { pid })
}
