// The step by which a process goes, and its parent is told.
// `in_interrupt` is the step's mark and not the state's: `exit` asks it once, so a struct of both would be made and taken apart at once.
#![tactic(auto)]

ghost use Rattle.std.specs.Prelude.{false};
ghost use Rattle.memory.specs.Link.{link};
ghost use Rattle.state.specs.Lent.{Same};
ghost use Rattle.waitq.specs.Added.{AddAsks};
ghost use Rattle.proc_exit.specs.Cell.{NoCellAsks, NoCellIs};
ghost use Rattle.proc_exit.specs.Depart.{DepartAsks, Departed};
ghost use Rattle.proc_exit.specs.Exit.{PexitAsks, ExitAsks, Exited};
ghost use Rattle.proc_exit.specs.Leave.{LeaveAsks, Left};
ghost use Rattle.proc_exit.specs.Tell.{QueuedExit, TellAsks, ToldParent};

use outcome::{Refusal, Reply};
use record::Proc;
use state::{Index, State, View, field};

// The running process `i` goes: it runs no more, and its cells and its record are free.
fn leave(s: &mut State, i: Index)
    requires { LeaveAsks s.old.sizes s.old.bytes.now i }
    ensures same { Same s.old s.new }
    ensures done { Left s.old.sizes s.old.bytes.now s.new.bytes.now i }
{
    waitq::exits::take_all(s, i);
    dat::stop(s);
    records::release(s, i);
}

// A child that exits, as its parent is told of it.
// The name is the state's own, in fixed memory: 28 bytes, filled up with zeros.
#[derive(Clone, Copy, Debug, PartialEq, Eq)]
struct Child<'a> {
    pid: u64,
    text: [u8; 28],
    status: &'a [u8],
}

// Queues the exit of a child at process `j`, which has room and is woken where it waits for one.
fn queue_exit(s: &mut State, j: Index, child: &Child)
    requires { AddAsks s.old.sizes s.old.bytes.now j }
    ensures same { Same s.old s.new }
    ensures done { QueuedExit s.old.sizes s.old.bytes.now s.new.bytes.now j child.now.pid child.now.text child.now.status.now }
{
    waitq::exits::add(s, j, child.pid, child.text, child.status);
    dat::wake_waitr(s, j);
}

// The living process `j` is told that its child has gone: it has one child less; below 128 exits this one is queued.
fn tell_parent(s: &mut State, j: Index, child: &Child)
    requires { TellAsks s.old.sizes s.old.bytes.now j }
    ensures same { Same s.old s.new }
    ensures done { ToldParent s.old.sizes s.old.bytes.now s.new.bytes.now j child.now.pid child.now.text child.now.status.now }
{
    let nchild = s.get(field::NCHILD, j);
    let nexits = s.get(field::NEXITS, j);
    records::set_nchild(s, j, nchild - 1);
    if nexits < 128 {
        queue_exit(s, j, child);
    }
}

// Whether the exit of process `i` is due a message to its living parent and no cell is free for it; its own cells are free once it goes.
fn no_cell(v: &View, i: Index, parent: Option<Index>) -> bool
    requires { NoCellAsks v.now.sizes v.now.bytes.now i (link parent) }
    ensures { NoCellIs v.now.sizes v.now.bytes.now i result }
{
    let Some(j) = parent else {
        return false;
    };
    v.get(field::NEXITS, j) < 128 && (free::find_cell(v).is_none() && v.get(field::NEXITS, i) == 0)
}

// The running process `i` goes, and its living parent, where it has one, is told: its pid.
fn depart(s: &mut State, i: Index, parent: Option<Index>, status: &[u8]) -> u64
    requires { DepartAsks s.old.sizes s.old.bytes.now i (link parent) }
    ensures same { Same s.old s.new }
    ensures done { Departed s.old.sizes s.old.bytes.now s.new.bytes.now i status.now result }
{
    let p = Proc::load(&s.view(), i);
    leave(s, i);
    if let Some(j) = parent {
        let Proc { pid, text, .. } = p;
        tell_parent(s, j, &Child { pid, text, status });
    }
    p.pid
}

// The running process `i` exits.
fn pexit(s: &mut State, i: Index, status: &[u8]) -> Result<Reply, Refusal>
    requires { PexitAsks s.old.sizes s.old.bytes.now i status.now }
    ensures same { Same s.old s.new }
    ensures done { Exited s.old.sizes s.old.bytes.now s.new.bytes.now false status.now result }
{
    let parent = ages::find_parent(&s.view(), i);
    if no_cell(&s.view(), i, parent) {
        return Err(Refusal::NoFreeCell);
    }
    let pid = depart(s, i, parent, status);
    Ok(Reply::Exit { pid })
}

// Exits with the status given.
pub fn exit(s: &mut State, in_interrupt: bool, status: &[u8]) -> Result<Reply, Refusal>
    requires { ExitAsks s.old.sizes s.old.bytes.now }
    ensures same { Same s.old s.new }
    ensures done { Exited s.old.sizes s.old.bytes.now s.new.bytes.now in_interrupt status.now result }
{
    let i = outcome::running(&s.view(), in_interrupt)?;
    pexit(s, i, status)
}
