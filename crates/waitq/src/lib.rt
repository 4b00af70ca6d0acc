// The wait queue of a process: its children's exits, newest first, each in a message cell.
#![tactic(auto)]

pub mod exits;

ghost use Rattle.waitq.specs.WaitCode.{WaitAsks, WaitIs};

use state::{CallKind, Index, View, field};

// A wait record, as a `wait` meets it: in use, since its process has one that has not returned; no child lives and no exit is there; an exit
// to take; none, so that the caller sleeps. The first two stay cases, and no `Err`: they are those of the machine's record, and the one match of
// its caller, which has an arm for each, names the refusals.
#[derive(Clone, Copy, Debug, PartialEq, Eq)]
pub enum WaitState {
    InUse,
    NoChild,
    Take,
    Sleep,
}

impl WaitState {
    // What a `wait` of record `i` meets.
    pub fn of(v: &View, i: Index) -> WaitState
        requires { WaitAsks v.now.sizes v.now.bytes.now i }
        ensures { WaitIs v.now.sizes v.now.bytes.now i result }
    {
        if v.get(field::RESUME_KIND, i) == CallKind::Wait.number() {
            return WaitState::InUse;
        }
        let nexits = v.get(field::NEXITS, i);
        if 0 < nexits {
            return WaitState::Take;
        }
        let nchild = v.get(field::NCHILD, i);
        if nchild == 0 {
            return WaitState::NoChild;
        }
        WaitState::Sleep
    }
}
