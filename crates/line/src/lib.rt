// One step of the input of `steps`: it is taken, and its line of the listing is written.
#![tactic(auto)]

ghost use Rattle.std.specs.Prelude.{◌≡◌};
ghost use Rattle.line.specs.Line.{LineAsks, StepAsks, line_most, LineTook, LineTaken};
ghost use Rattle.machine.specs.Bytes.{decode};
ghost use Rattle.machine.specs.Parse.{parse_line};
ghost use Rattle.state.specs.Lent.{Same};

use decode::Call;
use outcome::Refusal;
use print::Out;
use state::{Sizes, State};

// The room for the bytes of a step, and for a message.
pub const STEP_SIZE: usize = 4_128;

pub const MESSAGE_SIZE: usize = 127;

// A machine's state, and room for the bytes of a step and for a message: what stands there between steps is free.
#[derive(Drop)]
pub struct Machine<'a> {
    pub state: State<'a>,
    pub step: [u8; STEP_SIZE],
    pub message: [u8; MESSAGE_SIZE],
}

// The most bytes of a line.
pub fn most(z: Sizes) -> usize
    ensures { result ≡ line_most z }
{
    4266 + 21 * usize::from(z.processes)
}

// Takes the step that the bytes `b` are, and writes its line, the `n`-th.
pub fn take_step(s: &mut State, n: u64, b: &[u8], message: &mut [u8], out: &mut Out)
    requires { StepAsks s.old.sizes s.old.bytes.now b.now message.old out.old.bytes.now out.old.used }
    ensures same { Same s.old s.new }
    ensures took { LineTook s.old.sizes s.old.bytes.now s.new.bytes.now n (decode b.now) message.old message.new out.old.bytes.now out.old.used out.new.bytes.now out.new.used }
    ensures out { out.new.bytes.ghost_name ≡ out.old.bytes.ghost_name }
{
    let Some(step) = decode::decode(b) else {
        out.line(n, Err(Refusal::NoSuchStep), message, &s.view());
        return;
    };
    let reply = proc::take_call(s, Some(step), message);
    match step.call {
        Call::Exit { status } => out.line(n, reply, status, &s.view()),
        _ => out.line(n, reply, message, &s.view()),
    }
}

impl Machine<'_> {
    // Takes the step of a line, and writes its line of the listing, the `n`-th.
    pub fn take_line(&mut self, n: u64, line: &[u8], out: &mut Out)
        requires { LineAsks self.old.state.sizes self.old.state.bytes.now out.old.bytes.now out.old.used }
        ensures same { Same self.old.state self.new.state }
        ensures taken { LineTaken self.old.state.sizes self.old.state.bytes.now self.new.state.bytes.now n (parse_line line.now) self.old.step self.new.step self.old.message self.new.message out.old.bytes.now out.old.used out.new.bytes.now out.new.used }
        ensures out { out.new.bytes.ghost_name ≡ out.old.bytes.ghost_name }
    {
        let k = parse::parse(line, &mut self.step).unwrap_or(0);
        take_step(&mut self.state, n, &self.step[..k], &mut self.message, out);
    }
}
