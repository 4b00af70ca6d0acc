// The step by which a process waits for a child's exit.
// The C interface lends the buffer for a child's message beside the state: so the two go apart, and an answer has the message's length.
// `in_interrupt` is the step's mark and not the state's: `wait` asks it once, so a struct of both would be made and taken apart at once.
#![tactic(auto)]

ghost use Rattle.std.specs.Prelude.{false};
ghost use Rattle.state.specs.Lent.{Same};
ghost use Rattle.proc_wait.specs.Copy.{CopyAsks, Copied};
ghost use Rattle.proc_wait.specs.Sleep.{AloneAsks, WentAsleep};
ghost use Rattle.proc_wait.specs.Wait.{ChildAsks, TookChild, PwaitAsks, WaitStepAsks, WaitTook};

use outcome::{Refusal, Reply};
use record::Resume;
use state::{Index, State, View, field};
use waitq::WaitState;

// Copies the message of cell `c` to the front of `buffer`: its length.
pub fn copy_message(v: &View, c: Index, buffer: &mut [u8]) -> u8
    requires { CopyAsks v.now.sizes v.now.bytes.now c buffer.old }
    ensures { Copied v.now.sizes v.now.bytes.now c buffer.old buffer.new result }
{
    let at = v.sizes.message_at(c);
    let length = v.get(field::MESSAGE_LENGTH, c);
    let n = usize::from(length);
    for j in 0..n {
        buffer[j] = v.bytes[at + j];
    }
    length
}

// The running process `i` goes asleep on its own waitr.
fn wait_asleep(s: &mut State, i: Index)
    requires { AloneAsks s.old.sizes s.old.bytes.now i }
    ensures same { Same s.old s.new }
    ensures done { WentAsleep s.old.sizes s.old.bytes.now s.new.bytes.now i }
{
    proc_sleep::suspend(s, i, Resume::Wait);
    dat::wait_on(s, i);
}

// A child that has exited: its pid, and how long its message is.
#[derive(Clone, Copy, Debug, PartialEq, Eq)]
pub struct Gone {
    pub pid: u64,
    pub length: u8,
}

// Takes the newest exit of record `i`, which has one: its message goes to the front of `buffer`.
pub fn take_child(s: &mut State, i: Index, buffer: &mut [u8]) -> Gone
    requires { ChildAsks s.old.sizes s.old.bytes.now i buffer.old }
    ensures same { Same s.old s.new }
    ensures done { TookChild s.old.sizes s.old.bytes.now s.new.bytes.now i buffer.old buffer.new result }
{
    let Some(cell) = s.get(field::EXITS, i) else {
        unreachable!()
    };
    let pid = s.get(field::EXIT_PID, cell);
    let length = copy_message(&s.view(), cell, buffer);
    waitq::exits::take(s, i);
    Gone { pid, length }
}

// Waits for a child of the running process `i`: the newest exit, or asleep until there is one.
fn pwait(s: &mut State, i: Index, buffer: &mut [u8]) -> Result<Reply, Refusal>
    requires { PwaitAsks s.old.sizes s.old.bytes.now i buffer.old }
    ensures same { Same s.old s.new }
    ensures done { WaitTook s.old.sizes s.old.bytes.now s.new.bytes.now false buffer.old buffer.new result }
{
    let w = WaitState::of(&s.view(), i);
    match w {
        WaitState::InUse => Err(Refusal::InUse),
        WaitState::NoChild => Err(Refusal::NoChild),
        WaitState::Take => {
            let child = take_child(s, i, buffer);
            Ok(Reply::Child {
                pid: child.pid,
                length: child.length,
            })
        }
        WaitState::Sleep => {
            wait_asleep(s, i);
            Ok(Reply::Asleep)
        }
    }
}

// Waits for any child to exit.
pub fn wait(s: &mut State, in_interrupt: bool, buffer: &mut [u8]) -> Result<Reply, Refusal>
    requires { WaitStepAsks s.old.sizes s.old.bytes.now buffer.old }
    ensures same { Same s.old s.new }
    ensures done { WaitTook s.old.sizes s.old.bytes.now s.new.bytes.now in_interrupt buffer.old buffer.new result }
{
    let i = outcome::running(&s.view(), in_interrupt)?;
    pwait(s, i, buffer)
}
