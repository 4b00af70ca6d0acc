// What a step answers, why one is refused, and who runs.
#![tactic(auto)]

ghost use Rattle.std.specs.Prelude.{◌≡◌, false, IfOk, IfErr};
ghost use Rattle.outcome.specs.Means.{number};
ghost use Rattle.rules.specs.Code.{Long};
ghost use Rattle.outcome.specs.Running.{IsRunning, NotRunning};

use state::{Index, View, field};

// Why a step is refused; a case's value is its number in docs/MACHINE.md, "Refusals". The four that r9 returns as errors have its
// names.
#[derive(Clone, Copy, Debug, PartialEq, Eq)]
pub enum Refusal {
    // The state is not well formed, or short.
    NotWellFormed = 1,
    // No such step, a field out of range, or a message buffer under 127 bytes.
    NoSuchStep = 2,
    // The step is marked as taken in interrupt context, and is none that may be.
    InInterrupt = 3,
    // No process runs, and the step is of the one that does.
    NoneRuns = 4,
    // The condition is false, and another process is asleep on the Rendez.
    RendezTaken = 5,
    // The lock that is given up is not held.
    NotLocked = 6,
    // No time at all, or a period under 100 µs.
    ShortDuration = 7,
    // A reading of the clock below the last accepted one, or over 2^51 - 1.
    BadReading = 8,
    // Counts over 2^63 - 1.
    TooManyCounts = 9,
    // EBADARG: bad flags.
    BadArg = 10,
    // ENOVMEM: no memory for the process.
    NoVmem = 11,
    // No free record for a process to be made.
    NoFreeRecord = 12,
    // No free cell for a message that is due.
    NoFreeCell = 13,
    // EINUSE: the process's wait has not returned.
    InUse = 14,
    // ENOCHILD: no living child, and no exit queued.
    NoChild = 15,
    // The next pid is 2^64 - 1.
    NoPidLeft = 16,
    // A process runs.
    OneRuns = 17,
}

impl Refusal {
    // The number that the table of refusals gives it, from 1 to 17: the cast gives a case's value, which no conversion of std does.
    pub fn number(self) -> u8
        ensures { result ≡ number self }
    {
        self as u8
    }
}

// Numbers of processes and timers are as the listing prints them; a message is as long as `length` says, at the front of the message buffer,
// which is a C caller's, so that an answer holds no bytes and no loan of them.
#[derive(Clone, Copy, Debug, PartialEq, Eq)]
pub enum Reply {
    Pid { pid: u64 },
    Run { pid: u64 },
    RunChild { pid: u64, child: u64, length: u8 },
    Done,
    Asleep,
    Yes,
    No,
    Fired { timers: u64, stuck: u64 },
    Exit { pid: u64 },
    Child { pid: u64, length: u8 },
    Idle,
    End,
}

// The answer to a question.
impl From<bool> for Reply {
    ghost use Rattle.std.specs.Prelude.{◌≡◌};
    ghost use Rattle.outcome.specs.Answer.{yes_no};

    ghost from_gives = { λ yes r. r ≡ yes_no yes };

    fn from(yes: bool) -> Reply {
        if yes { Reply::Yes } else { Reply::No }
    }
}

// The record of the process that runs.
pub fn up(v: &View) -> Result<Index, Refusal>
    requires { Long v.now.sizes v.now.bytes.now }
    ensures ok { IfOk result (IsRunning v.now.sizes v.now.bytes.now false) }
    ensures err { IfErr result (NotRunning v.now.sizes v.now.bytes.now false) }
{
    v.get(field::UP, 0).ok_or(Refusal::NoneRuns)
}

// The record of the process that runs, for a step that is not taken in interrupt context.
pub fn running(v: &View, in_interrupt: bool) -> Result<Index, Refusal>
    requires { Long v.now.sizes v.now.bytes.now }
    ensures ok { IfOk result (IsRunning v.now.sizes v.now.bytes.now in_interrupt) }
    ensures err { IfErr result (NotRunning v.now.sizes v.now.bytes.now in_interrupt) }
{
    if in_interrupt {
        return Err(Refusal::InInterrupt);
    }
    up(v)
}
