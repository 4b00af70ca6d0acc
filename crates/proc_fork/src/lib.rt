// The steps of a running process that name it, and that make its child.
#![tactic(auto)]

mod flags;

ghost use Rattle.std.specs.Prelude.{true, false, ◌≤◌, ◌<◌, length};
ghost use Rattle.state.specs.Lent.{Same};
ghost use Rattle.outcome.specs.Stepped.{Well};
ghost use Rattle.proc_start.specs.Making.{number};
ghost use Rattle.proc_fork.specs.Pad.{Padded};
ghost use Rattle.proc_fork.specs.Name.{NameStepAsks, NameTook};
ghost use Rattle.proc_fork.specs.Child.{ChildOf, ForkAsks, Forked, AdoptAsks, Adopted};
ghost use Rattle.proc_fork.specs.Make.{SpendAsks, Spent, MakeAsks, RforkTook};

use flags::{Flag, Flags};
use outcome::{Refusal, Reply};
use proc_start::Making;
use record::Proc;
use state::{Index, Link, State};

// The bytes of a name, zero-filled, in an array: the fixed memory of a state has it so.
fn padded(bytes: &[u8]) -> [u8; 28]
    requires { length bytes.now ≤ 28 }
    ensures { Padded bytes.now result }
{
    let mut text = [0u8; 28];
    text[..bytes.len()].copy_from_slice(bytes);
    text
}

// The running process has the name `bytes`. Whether an interrupt is being served stands beside the state, here and in `rfork`: it is of this
// step, and the lent bytes do not say it.
pub fn name(s: &mut State, in_interrupt: bool, bytes: &[u8]) -> Result<Reply, Refusal>
    requires { NameStepAsks s.old.sizes s.old.bytes.now bytes.now }
    ensures same { Same s.old s.new }
    ensures done { NameTook s.old.sizes s.old.bytes.now s.new.bytes.now in_interrupt bytes.now result }
{
    let i = outcome::running(&s.view(), in_interrupt)?;
    records::set_name(s, i, padded(bytes));
    Ok(Reply::Done)
}

// The record of a new process with the name of `p`, and with a parent and the link to it.
fn child_of(p: Proc, parent: u64, parent_at: Link) -> Proc
    ensures { ChildOf p parent parent_at result }
{
    Proc {
        parent,
        parent_at,
        ..p
    }
}

// Makes a process with the name of `p` a child of process `i`, whose record `p` is: its exit goes to `i`, and it counts as one of the
// living children of `i` until then. Its record.
fn adopt(s: &mut State, i: Index, p: Proc) -> Proc
    requires { AdoptAsks s.old.sizes s.old.bytes.now i p }
    ensures same { Same s.old s.new }
    ensures done { Adopted s.old.sizes s.old.bytes.now s.new.bytes.now i p result }
{
    records::set_nchild(s, i, p.nchild + 1);
    child_of(p, p.pid, Some(i))
}

// The running process `i` has a child: where `off`, one that is dissociated from it, and else one that counts as one of its living
// children.
fn fork(s: &mut State, i: Index, off: bool)
    requires { ForkAsks s.old.sizes s.old.bytes.now i }
    ensures same { Same s.old s.new }
    ensures done { Forked s.old.sizes s.old.bytes.now s.new.bytes.now i off }
{
    let p = Proc::load(&s.view(), i);
    let child = if off {
        child_of(p, 0, None)
    } else {
        adopt(s, i, p)
    };
    proc_start::begin(s, child);
}

// A pid is spent where the copy of a page fails.
fn spend(s: &mut State, how: Making)
    requires { SpendAsks s.old.sizes s.old.bytes.now }
    ensures same { Same s.old s.new }
    ensures done { Spent s.old.sizes s.old.bytes.now s.new.bytes.now (number how) }
{
    if let Making::NoCopy = how {
        records::next_pid(s);
    }
}

// The running process `i` makes a process.
fn make(s: &mut State, flags: Flags, how: Making, i: Index) -> Result<Reply, Refusal>
    requires { MakeAsks s.old.sizes s.old.bytes.now flags.0 (number how) i }
    ensures same { Same s.old s.new }
    ensures done { RforkTook s.old.sizes s.old.bytes.now s.new.bytes.now false flags.0 (number how) result }
{
    let pid = proc_start::new_pid(&s.view())?;
    spend(s, how);
    how.made()?;
    fork(s, i, flags.contains(Flag::Rfnowait));
    Ok(Reply::Pid { pid })
}

// With RFPROC the running process makes a process; without it, nothing changes.
pub fn rfork(s: &mut State, in_interrupt: bool, flags: u32, how: Making) -> Result<Reply, Refusal>
    requires { Well s.old.sizes s.old.bytes.now }
    ensures same { Same s.old s.new }
    ensures done { RforkTook s.old.sizes s.old.bytes.now s.new.bytes.now in_interrupt flags (number how) result }
{
    if in_interrupt {
        return Err(Refusal::InInterrupt);
    }
    let flags = Flags(flags);
    if flags.are_bad() {
        return Err(Refusal::BadArg);
    }
    let i = outcome::up(&s.view())?;
    if flags.contains(Flag::Rfproc) {
        return make(s, flags, how, i);
    }
    // Pid 0 is fork(2)'s own answer where no process is made, and what the caller in C is to get.
    Ok(Reply::Pid { pid: 0 })
}
