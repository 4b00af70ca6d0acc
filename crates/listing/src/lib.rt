// The listing of an input that comes in chunks.
#![tactic(auto)]

ghost use Rattle.std.specs.Prelude.{◌≡◌, ◌≤◌, ◌==◌, length, IfSome, IfNone, position};
ghost use Rattle.listing.specs.Fed.{fed};
ghost use Rattle.listing.specs.Pieces.{LineEnd};
ghost use Rattle.listing.specs.Held.{Kept};
ghost use Rattle.listing.specs.Feed.{FeedAsks, FeedEnds};
ghost use Rattle.listing.specs.Rest.{IsRest, passed, SplitLine};
ghost use Rattle.listing.specs.Turn.{TurnAsks, Turned, TextAsks, TextTook};
ghost use Rattle.listing.specs.Finish.{FinishAsks, Finished};
ghost use Rattle.listing.specs.Start.{state_size, Started};
ghost use Rattle.machine.specs.Listing.{header};
ghost use Rattle.print.specs.Put.{Room, Put};
ghost use Rattle.state.specs.Lent.{Same};

use line::Machine;
use print::Out;
use state::Sizes;

// How many bytes a state of the sizes of `steps` takes.
pub const STATE_SIZE: usize = 47_888;

// The room for the line begun: one byte more than the longest step has.
pub const HELD_SIZE: usize = 4_097;

// A listing under way: the machine, the line begun, of which so many bytes are held, and the number of the next step.
#[derive(Drop)]
pub struct Listing<'a> {
    pub machine: Machine<'a>,
    // no Vec: it could be out of memory at any line
    pub held: [u8; HELD_SIZE],
    pub have: usize,
    pub number: u64,
}

// The place of the first line end.
fn newline(text: &[u8]) -> Option<usize>
    ensures { result ≡ position (λ b. b == 10) text.now }
{
    text.iter().position(|b| *b == b'\n')
}

// The first line of a chunk, without its line end, and what is behind it. None: no line ends in the chunk.
fn split_line(chunk: &[u8]) -> Option<(&[u8], &[u8])>
    ensures line { IfSome result (λ p. SplitLine chunk.now p.0.now p.1.now) }
    ensures none { IfNone result (LineEnd chunk.now 0 (length chunk.now)) }
{
    match newline(chunk) {
        Some(i) => Some((&chunk[..i], &chunk[i + 1..])),
        None => None,
    }
}

// Keeps `text` behind the first `have` bytes of `held`, as far as there is room; how many bytes are held then.
fn keep(held: &mut [u8], have: usize, text: &[u8]) -> usize
    requires { have ≤ length held.old }
    ensures { Kept held.old have text.now held.new result }
{
    let n = text.len().min(held.len() - have);
    let end = have + n;
    held[have..end].copy_from_slice(&text[..n]);
    end
}

impl Listing<'_> {
    // Takes the line that ends with `text`: in place, where none of it is held.
    fn take_text(&mut self, text: &[u8], out: &mut Out)
        requires { TextAsks self.old.machine.state.sizes self.old.machine.state.bytes.now self.old.held self.old.have out.old.bytes.now out.old.used }
        ensures took { TextTook self.old.machine.state.sizes self.old.machine.state.bytes.now self.new.machine.state.bytes.now self.old.number self.old.held self.old.have text.now out.old.bytes.now out.old.used out.new.bytes.now out.new.used }
        ensures number { self.new.number ≡ self.old.number }
        ensures held { length self.new.held ≡ length self.old.held }
        ensures same { Same self.old.machine.state self.new.machine.state }
        ensures out { out.new.bytes.ghost_name ≡ out.old.bytes.ghost_name }
    {
        if self.have == 0 {
            self.machine.take_line(self.number, text, out);
        } else {
            let have = keep(&mut self.held, self.have, text);
            self.machine.take_line(self.number, &self.held[..have], out);
        }
    }

    // Takes the first line of the chunk, or holds the chunk, where no line ends in it; what is left of it.
    fn turn<'a>(&mut self, chunk: &'a [u8], out: &mut Out) -> &'a [u8]
        requires { TurnAsks self.old.machine.state.sizes self.old.machine.state.bytes.now chunk.now self.old.held out.old.bytes.now (fed 0 self.old.have self.old.number out.old.used) }
        ensures turned { Turned self.old.machine.state.sizes chunk.now self.old.machine.state.bytes.now self.old.held out.old.bytes.now (fed 0 self.old.have self.old.number out.old.used) self.new.machine.state.bytes.now self.new.held out.new.bytes.now (fed (passed chunk.now result.now) self.new.have self.new.number out.new.used) }
        ensures rest { IsRest chunk.now result.now }
        ensures held { length self.new.held ≡ length self.old.held }
        ensures same { Same self.old.machine.state self.new.machine.state }
        ensures out { out.new.bytes.ghost_name ≡ out.old.bytes.ghost_name }
    {
        match split_line(chunk) {
            Some((text, rest)) => {
                self.take_text(text, out);
                self.have = 0;
                self.number += 1;
                rest
            },
            None => {
                self.have = keep(&mut self.held, self.have, chunk);
                b""
            },
        }
    }

    // Takes lines of the chunk until it is used up or `out` has no room for another; what is left of it. A line that the chunk does not
    // end is held for the next one.
    pub fn feed<'a>(&mut self, chunk: &'a [u8], out: &mut Out) -> &'a [u8]
        requires { FeedAsks self.old.machine.state.sizes self.old.machine.state.bytes.now chunk.now self.old.held out.old.bytes.now (fed 0 self.old.have self.old.number out.old.used) }
        ensures ends { FeedEnds self.old.machine.state.sizes chunk.now self.old.machine.state.bytes.now self.old.held out.old.bytes.now (fed 0 self.old.have self.old.number out.old.used) self.new.machine.state.bytes.now self.new.held out.new.bytes.now (fed (passed chunk.now result.now) self.new.have self.new.number out.new.used) }
        ensures rest { IsRest chunk.now result.now }
        ensures held { length self.new.held ≡ length self.old.held }
        ensures same { Same self.old.machine.state self.new.machine.state }
        ensures out { out.new.bytes.ghost_name ≡ out.old.bytes.ghost_name }
    {
        let mut rest = chunk;
        while !rest.is_empty() {
            if out.bytes.len() - out.used < line::most(self.machine.state.sizes) {
                return rest;
            }
            rest = self.turn(rest, out);
        }
        rest
    }

    // Takes the line begun, where there is one: the last, without its line end.
    pub fn finish(&mut self, out: &mut Out)
        requires { FinishAsks self.old.machine.state.sizes self.old.machine.state.bytes.now self.old.held out.old.bytes.now (fed 0 self.old.have self.old.number out.old.used) }
        ensures finished { Finished self.old.machine.state.sizes self.old.machine.state.bytes.now self.old.held out.old.bytes.now (fed 0 self.old.have self.old.number out.old.used) self.new.machine.state.bytes.now out.new.bytes.now out.new.used }
        ensures held { self.new.held ≡ self.old.held }
        ensures have { self.new.have ≡ self.old.have }
        ensures number { self.new.number ≡ self.old.number }
        ensures same { Same self.old.machine.state self.new.machine.state }
        ensures out { out.new.bytes.ghost_name ≡ out.old.bytes.ghost_name }
    {
        if self.have != 0 {
            self.machine
                .take_line(self.number, &self.held[..self.have], out);
        }
    }
}

// Writes the first line of the listing.
pub fn begin(out: &mut Out)
    requires { Room 34 out.old.bytes.now out.old.used }
    ensures put { Put 34 out.old.bytes.now out.old.used header out.new.bytes.now out.new.used }
    ensures out { out.new.bytes.ghost_name ≡ out.old.bytes.ghost_name }
{
    out.text(b"step;answer;up;queue;asleep;ticks\n");
}

// The sizes of `steps`.
const SIZES: Sizes = Sizes {
    processes: 16,
    rendez: 16,
    locks: 16,
    timers: 16,
    cells: 256,
    hz: 1_000_000,
};

// Makes a fresh state of the sizes of `steps` in the front of `s`.
pub fn start(s: &mut [u8]) -> Sizes
    requires { state_size ≤ length s.old }
    ensures { Started s.old s.new result }
{
    let z = SIZES;
    // the number that C callers get, here 0: the sizes are in range, and `s` is long enough
    make::make(
        s,
        u64::from(z.processes),
        u64::from(z.rendez),
        u64::from(z.locks),
        u64::from(z.timers),
        u64::from(z.cells),
        u64::from(z.hz),
    );
    z
}
