// A line of the listing, written into a lent buffer: step, answer, running pid or 0, run queue or -, asleep, ticks.
#![tactic(auto)]

ghost use Rattle.std.specs.Prelude.{◌≡◌, ◌∷◌, [], ◌++◌, ◌+◌, ◌≤◌, length, Result, Ok, Err};
ghost use Rattle.machine.specs.Message.{decimal};
ghost use Rattle.machine.specs.Outcome as machine;
ghost use Rattle.machine.specs.Print.{print_answer, print_reply};
ghost use Rattle.print.specs.Put.{Room, Put};
ghost use Rattle.print.specs.Width.{Wide};
ghost use Rattle.print.specs.Decimal.{Fronted};
ghost use Rattle.print.specs.Reply.{with_text, ReplyAsks, Replied};
ghost use Rattle.print.specs.Pids.{PidAsks, PidPut, UpAsks, UpPut};
ghost use Rattle.print.specs.Rest.{RestAsks, RestPut};
ghost use Rattle.print.specs.Queue.{QueueAsks, QueuePut};
ghost use Rattle.print.specs.Line.{CountsAsks, CountsPut, FieldsAsks, FieldsPut, LineAsks, Printed, RefusedAsks, RefusedPrinted};

use outcome::{Refusal, Reply};
use state::{Index, View, field};

// A lent buffer that is written from its front on: so many bytes of it are used.
// By methods and not by `write!`, which takes text, while a status is any bytes, and answers a Result, while there is always room.
// Each method asks for the room that it needs: how much that is depends on the call, so no invariant of the type says it.
#[derive(Drop)]
pub struct Out<'a> {
    pub bytes: &'a mut [u8],
    pub used: usize,
}

// How many digits `n` has.
fn width(n: u64) -> usize
    ensures { Wide n result }
{
    let most = n / 10;
    let mut p: u64 = 1;
    let mut k: usize = 1;
    while p <= most {
        p *= 10;
        k += 1;
    }
    k
}

// Writes the digits of `n` at the front, from the last to the first; how many they are.
// In place and not by `message::Digits`, whose bytes are then copied: tried, and a number of one or two digits took two to six times as long.
fn put_digits(out: &mut [u8], n: u64) -> usize
    requires { 20 ≤ length out.old }
    ensures { Fronted out.old n out.new result }
{
    let k = width(n);
    let mut i = k;
    let mut m = n;
    while 10 <= m {
        i -= 1;
        out[i] = b'0' + (m % 10) as u8;
        m /= 10;
    }
    out[0] = b'0' + m as u8;
    k
}

impl Out<'_> {
    // Writes a text.
    pub fn text(&mut self, text: &[u8])
        requires { Room (length text.now) self.old.bytes.now self.old.used }
        ensures put { Put (length text.now) self.old.bytes.now self.old.used text.now self.new.bytes.now self.new.used }
        ensures name { self.new.bytes.ghost_name ≡ self.old.bytes.ghost_name }
    {
        let end = self.used + text.len();
        self.bytes[self.used..end].copy_from_slice(text);
        self.used = end;
    }

    // Writes `n` in decimal.
    fn decimal(&mut self, n: u64)
        requires { Room 20 self.old.bytes.now self.old.used }
        ensures put { Put 20 self.old.bytes.now self.old.used (decimal n) self.new.bytes.now self.new.used }
        ensures name { self.new.bytes.ghost_name ≡ self.old.bytes.ghost_name }
    {
        self.used += put_digits(&mut self.bytes[self.used..], n);
    }

    // Writes a word and a number.
    fn number(&mut self, word: &[u8], n: u64)
        requires { Room (length word.now + 20) self.old.bytes.now self.old.used }
        ensures put { Put (length word.now + 20) self.old.bytes.now self.old.used (word.now ++ decimal n) self.new.bytes.now self.new.used }
        ensures name { self.new.bytes.ghost_name ≡ self.old.bytes.ghost_name }
    {
        self.text(word);
        self.decimal(n);
    }

    // Writes a word, a number, a space and a text.
    fn with_text(&mut self, word: &[u8], n: u64, text: &[u8])
        requires { Room (length word.now + 20 + 1 + length text.now) self.old.bytes.now self.old.used }
        ensures put { Put (length word.now + 20 + 1 + length text.now) self.old.bytes.now self.old.used (with_text word.now n text.now) self.new.bytes.now self.new.used }
        ensures name { self.new.bytes.ghost_name ≡ self.old.bytes.ghost_name }
    {
        self.number(word, n);
        self.text(b" ");
        self.text(text);
    }

    // Writes `run`, a pid, `child`, the child's pid and its message.
    fn run_child(&mut self, pid: u64, child: u64, text: &[u8])
        requires { Room (52 + length text.now) self.old.bytes.now self.old.used }
        ensures put { Put (52 + length text.now) self.old.bytes.now self.old.used (print_answer (machine.Answer.run_child pid child text.now)) self.new.bytes.now self.new.used }
        ensures name { self.new.bytes.ghost_name ≡ self.old.bytes.ghost_name }
    {
        self.number(b"run ", pid);
        self.with_text(b" child ", child, text);
    }

    // Writes `fired`, how many timers, and how many stuck.
    fn fired(&mut self, timers: u64, stuck: u64)
        requires { Room 47 self.old.bytes.now self.old.used }
        ensures put { Put 47 self.old.bytes.now self.old.used (print_answer (machine.Answer.fired timers stuck)) self.new.bytes.now self.new.used }
        ensures name { self.new.bytes.ghost_name ≡ self.old.bytes.ghost_name }
    {
        self.number(b"fired ", timers);
        self.number(b" ", stuck);
    }

    // Writes an answer.
    fn answer(&mut self, answer: Reply, text: &[u8])
        requires { ReplyAsks self.old.bytes.now self.old.used (Ok answer) text.now }
        ensures put { Replied self.old.bytes.now self.old.used (Ok answer) text.now self.new.bytes.now self.new.used }
        ensures name { self.new.bytes.ghost_name ≡ self.old.bytes.ghost_name }
    {
        match answer {
            Reply::Pid { pid } => self.number(b"pid ", pid),
            Reply::Run { pid } => self.number(b"run ", pid),
            Reply::RunChild { pid, child, length } => {
                self.run_child(pid, child, &text[..usize::from(length)])
            },
            Reply::Done => self.text(b"done"),
            Reply::Asleep => self.text(b"asleep"),
            Reply::Yes => self.text(b"yes"),
            Reply::No => self.text(b"no"),
            Reply::Fired { timers, stuck } => self.fired(timers, stuck),
            Reply::Exit { pid } => self.with_text(b"exit ", pid, text),
            Reply::Child { pid, length } => self.with_text(
                b"child ",
                pid,
                &text[..usize::from(length)],
            ),
            Reply::Idle => self.text(b"idle"),
            Reply::End => self.text(b"end"),
        }
    }

    // Writes `refused` and a number.
    fn refused(&mut self, number: u8)
        requires { Room 28 self.old.bytes.now self.old.used }
        ensures put { Put 28 self.old.bytes.now self.old.used (print_reply (machine.refused number)) self.new.bytes.now self.new.used }
        ensures name { self.new.bytes.ghost_name ≡ self.old.bytes.ghost_name }
    {
        self.number(b"refused ", u64::from(number));
    }

    // Writes an answer, or the number of a refusal.
    fn reply(&mut self, reply: Result<Reply, Refusal>, text: &[u8])
        requires { ReplyAsks self.old.bytes.now self.old.used reply text.now }
        ensures put { Replied self.old.bytes.now self.old.used reply text.now self.new.bytes.now self.new.used }
        ensures name { self.new.bytes.ghost_name ≡ self.old.bytes.ghost_name }
    {
        match reply {
            Ok(answer) => self.answer(answer, text),
            Err(refusal) => self.refused(refusal.number()),
        }
    }

    // Writes the pid of process `i`.
    fn pid(&mut self, v: &View, i: Index)
        requires { PidAsks v.now.sizes v.now.bytes.now i self.old.bytes.now self.old.used }
        ensures put { PidPut v.now.sizes v.now.bytes.now i self.old.bytes.now self.old.used self.new.bytes.now self.new.used }
        ensures name { self.new.bytes.ghost_name ≡ self.old.bytes.ghost_name }
    {
        self.decimal(v.get(field::PID, i));
    }

    // Writes the running pid, or 0.
    fn up(&mut self, v: &View)
        requires { UpAsks v.now.sizes v.now.bytes.now self.old.bytes.now self.old.used }
        ensures put { UpPut v.now.sizes v.now.bytes.now self.old.bytes.now self.old.used self.new.bytes.now self.new.used }
        ensures name { self.new.bytes.ghost_name ≡ self.old.bytes.ghost_name }
    {
        match v.get(field::UP, 0) {
            None => self.text(b"0"),
            Some(i) => self.pid(v, i),
        }
    }

    // Writes the run queue behind process `i`: a comma and a pid for each.
    fn rest(&mut self, v: &View, i: Index)
        requires { RestAsks v.now.sizes v.now.bytes.now i self.old.bytes.now self.old.used }
        ensures put { RestPut v.now.sizes v.now.bytes.now i self.old.bytes.now self.old.used self.new.bytes.now self.new.used }
        ensures name { self.new.bytes.ghost_name ≡ self.old.bytes.ghost_name }
    {
        let mut at = v.get(field::NEXT, i);
        while let Some(j) = at {
            self.text(b",");
            self.pid(v, j);
            at = v.get(field::NEXT, j);
        }
    }

    // Writes the run queue, or -.
    fn queue(&mut self, v: &View)
        requires { QueueAsks v.now.sizes v.now.bytes.now self.old.bytes.now self.old.used }
        ensures put { QueuePut v.now.sizes v.now.bytes.now self.old.bytes.now self.old.used self.new.bytes.now self.new.used }
        ensures name { self.new.bytes.ghost_name ≡ self.old.bytes.ghost_name }
    {
        match v.get(field::RUN_HEAD, 0) {
            None => self.text(b"-"),
            Some(i) => {
                self.pid(v, i);
                self.rest(v, i);
            },
        }
    }

    // Writes how many are asleep, and the ticks.
    fn counts(&mut self, v: &View)
        requires { CountsAsks v.now.sizes v.now.bytes.now self.old.bytes.now self.old.used }
        ensures put { CountsPut v.now.sizes v.now.bytes.now self.old.bytes.now self.old.used self.new.bytes.now self.new.used }
        ensures name { self.new.bytes.ghost_name ≡ self.old.bytes.ghost_name }
    {
        self.decimal(u64::from(v.get(field::ASLEEP_COUNT, 0)));
        self.number(b";", v.get(field::TICKS, 0));
        self.text(b"\n");
    }

    // Writes who runs, the run queue, how many are asleep, and the ticks.
    fn fields(&mut self, v: &View)
        requires { FieldsAsks v.now.sizes v.now.bytes.now self.old.bytes.now self.old.used }
        ensures put { FieldsPut v.now.sizes v.now.bytes.now self.old.bytes.now self.old.used self.new.bytes.now self.new.used }
        ensures name { self.new.bytes.ghost_name ≡ self.old.bytes.ghost_name }
    {
        self.up(v);
        self.text(b";");
        self.queue(v);
        self.text(b";");
        self.counts(v);
    }

    // Writes the line of step `n`, which is answered by `reply`. `text` is the status of an exit, and the message buffer of any other answer.
    pub fn line(&mut self, n: u64, reply: Result<Reply, Refusal>, text: &[u8], v: &View)
        requires { LineAsks v.now.sizes v.now.bytes.now reply text.now self.old.bytes.now self.old.used }
        ensures put { Printed v.now.sizes v.now.bytes.now n reply text.now self.old.bytes.now self.old.used self.new.bytes.now self.new.used }
        ensures name { self.new.bytes.ghost_name ≡ self.old.bytes.ghost_name }
    {
        self.decimal(n);
        self.text(b";");
        self.reply(reply, text);
        self.text(b";");
        self.fields(v);
    }

    // Writes the line of step `n`, which is refused with any number, also one that the table of refusals does not have.
    pub fn refused_line(&mut self, n: u64, number: u8, v: &View)
        requires { RefusedAsks v.now.sizes v.now.bytes.now self.old.bytes.now self.old.used }
        ensures put { RefusedPrinted v.now.sizes v.now.bytes.now n number self.old.bytes.now self.old.used self.new.bytes.now self.new.used }
        ensures name { self.new.bytes.ghost_name ≡ self.old.bytes.ghost_name }
    {
        self.decimal(n);
        self.text(b";");
        self.refused(number);
        self.text(b";");
        self.fields(v);
    }
}
