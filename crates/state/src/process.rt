// What a process record says of its process, as numbers of a byte: its state, and the kind of the call that it is in.

ghost use Rattle.std.specs.Prelude.{◌≡◌, ◌<◌, IfSome, IfNone};
ghost use Rattle.state.specs.Process.{state_number, call_number};

// Where a process is in its life; a case's value is its number in docs/STATE.md.
#[derive(Clone, Copy, Debug, PartialEq, Eq)]
pub enum ProcState {
    // The record has no process.
    Free = 0,
    // It runs.
    Running = 1,
    // It is in the run queue.
    Ready = 2,
    // It sleeps on a Rendez or its own waitr, or waits for a lock.
    Asleep = 3,
}

// The kinds of calls that a switched-out process goes on with; a case's value is its number in docs/STATE.md.
#[derive(Clone, Copy, Debug, PartialEq, Eq)]
pub enum CallKind {
    // None.
    Nothing = 0,
    // A `sleep`.
    Sleep = 1,
    // A `tsleep`.
    Tsleep = 2,
    // A `qlock`.
    Qlock = 3,
    // A `wait`.
    Wait = 4,
}

impl ProcState {
    // Its number.
    pub fn number(self) -> u8
        ensures { result ≡ state_number self }
    {
        self as u8
    }

    // The state with a number, from 0 to 3.
    pub fn of(n: u8) -> Option<ProcState>
        ensures some { IfSome result (λ s. state_number s ≡ n) }
        ensures none { IfNone result (3 < n) }
    {
        match n {
            0 => Some(ProcState::Free),
            1 => Some(ProcState::Running),
            2 => Some(ProcState::Ready),
            3 => Some(ProcState::Asleep),
            _ => None,
        }
    }
}

impl CallKind {
    // Its number.
    pub fn number(self) -> u8
        ensures { result ≡ call_number self }
    {
        self as u8
    }

    // The kind with a number, from 0 to 4.
    pub fn of(n: u8) -> Option<CallKind>
        ensures some { IfSome result (λ k. call_number k ≡ n) }
        ensures none { IfNone result (4 < n) }
    {
        match n {
            0 => Some(CallKind::Nothing),
            1 => Some(CallKind::Sleep),
            2 => Some(CallKind::Tsleep),
            3 => Some(CallKind::Qlock),
            4 => Some(CallKind::Wait),
            _ => None,
        }
    }
}
