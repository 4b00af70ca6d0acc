// The steps for callers in C and Rust, on whatever bytes.
#![tactic(auto)]

ghost use Rattle.std.specs.Prelude.{◌≡◌};
ghost use Rattle.step.specs.Words.{lent, the_words, WordsAre};
ghost use Rattle.step.specs.Exported.{Replied, Exported};

use outcome::{Refusal, Reply};
use state::State;

// The numbers that stand for answers: all above those of the refusals, which stand for themselves. They are C's (include/huiabunk.h), and so are
// the words of an answer.
pub const DONE: u64 = 32;

pub const ASLEEP: u64 = 33;

pub const YES: u64 = 34;

pub const NO: u64 = 35;

pub const IDLE: u64 = 36;

pub const END: u64 = 37;

pub const PID: u64 = 38;

pub const RUN: u64 = 39;

pub const RUN_CHILD: u64 = 40;

pub const FIRED: u64 = 41;

pub const EXIT: u64 = 42;

pub const CHILD: u64 = 43;

// An answer in words: what it is, its numbers in the order of the listing, and how long its message is.
#[derive(Clone, Copy, Debug, PartialEq, Eq)]
pub struct Words {
    pub number: u64,
    pub first: u64,
    pub second: u64,
    pub length: u64,
}

fn in_words(number: u64, first: u64, second: u64, length: u64) -> Words
    ensures { result ≡ the_words number first second length }
{
    Words {
        number,
        first,
        second,
        length,
    }
}

impl Words {
    // A refusal in words: its number alone, any number, also one that the table of refusals does not have.
    pub fn refused(number: u8) -> Words
        ensures { result ≡ the_words number 0 0 0 }
    {
        in_words(u64::from(number), 0, 0, 0)
    }
}

// An answer in words; of a refusal there is its number alone.
impl From<Result<Reply, Refusal>> for Words {
    ghost from_gives = { WordsAre };

    #[tactic(auto, using(crate::specs::Words::words_are))]
    fn from(r: Result<Reply, Refusal>) -> Words {
        match r {
            Ok(Reply::Pid { pid }) => in_words(PID, pid, 0, 0),
            Ok(Reply::Run { pid }) => in_words(RUN, pid, 0, 0),
            Ok(Reply::RunChild { pid, child, length }) => {
                in_words(RUN_CHILD, pid, child, length as u64)
            }
            Ok(Reply::Done) => in_words(DONE, 0, 0, 0),
            Ok(Reply::Asleep) => in_words(ASLEEP, 0, 0, 0),
            Ok(Reply::Yes) => in_words(YES, 0, 0, 0),
            Ok(Reply::No) => in_words(NO, 0, 0, 0),
            Ok(Reply::Fired { timers, stuck }) => in_words(FIRED, timers, stuck, 0),
            Ok(Reply::Exit { pid }) => in_words(EXIT, pid, 0, 0),
            Ok(Reply::Child { pid, length }) => in_words(CHILD, pid, 0, length as u64),
            Ok(Reply::Idle) => in_words(IDLE, 0, 0, 0),
            Ok(Reply::End) => in_words(END, 0, 0, 0),
            Err(refusal) => Words::refused(refusal.number()),
        }
    }
}

// Takes the step that the bytes `b` are, where `s` is well formed.
#[tactic(auto, using(crate::specs::Exported::checked_long, crate::specs::Exported::checked_fits, crate::specs::Exported::checked_well, crate::specs::Exported::replied_taken, crate::specs::Exported::replied_no))]
fn reply_to(s: &mut [u8], b: &[u8], message: &mut [u8]) -> Result<Reply, Refusal>
    ensures { Replied s.old s.new b.now message.old message.new result }
{
    let formed = verify::check(s);
    if formed {
        let sizes = verify::load_sizes(s);
        return proc::take(&mut State { bytes: s, sizes }, b, message);
    }
    Err(Refusal::NotWellFormed)
}

// Takes one step: `s` a state, `b` the step's bytes, `message` for the exit message that a wait tells. Any bytes, any lengths.
// Answers the number of the refusal, below 32, or of the answer; then `first`, `second` and `length` are its words.
// C reads them in three lent numbers here, and in a record after `run`: so of a refusal each leaves them in its own way.
#[tactic(auto, using(crate::specs::Exported::exported_answer))]
pub fn step(
    s: &mut [u8],
    b: &[u8],
    message: &mut [u8],
    first: &mut u64,
    second: &mut u64,
    length: &mut u64,
) -> u64
    ensures { Exported s.old s.new b.now message.old message.new (lent first.old second.old length.old) (lent first.new second.new length.new) result }
{
    let reply = reply_to(s, b, message);
    let w = Words::from(reply);
    if w.number >= DONE {
        *first = w.first;
        *second = w.second;
        *length = w.length;
    }
    w.number
}
