// Runs of steps for callers in C and Rust: many steps on a state that is checked once.
#![tactic(auto)]

ghost use Rattle.std.specs.Prelude.{◌≡◌, ◌≤◌, length, [], ◌∷◌, MatchOption};
ghost use Rattle.state.specs.Lent.{Same};
ghost use Rattle.step.specs.After.{WellIn};
ghost use Rattle.run.specs.Ran.{steps_in, Ran};
ghost use Rattle.run.specs.Record.{Written};
ghost use Rattle.run.specs.One.{OneAsks, OneDone};
ghost use Rattle.run.specs.Loop.{AllRefused};

use memory::Number;
use outcome::Refusal;
use state::State;
use step::Words;

// How long the record of an answer is: four words of 8 bytes, and the message buffer.
const RECORD: usize = 160;

// The first step in `steps`, which stands behind its length, and what is behind it; none where no whole step is there.
fn split_step(steps: &[u8]) -> Option<(&[u8], &[u8])>
    ensures { MatchOption result (steps_in steps.now ≡ []) (λ p. steps_in steps.now ≡ p.0.now ∷ steps_in p.1.now) }
{
    let (head, rest) = steps.split_at_checked(4)?;
    let length = u32::load(head, 0) as usize;
    rest.split_at_checked(length)
}

// Puts an answer in words into its record: of a refusal the number alone. The words and their places are C's (include/huiabunk.h).
fn write_words(r: &mut [u8], w: Words)
    requires { 32 ≤ length r.old }
    ensures { Written r.old r.new w }
{
    w.number.store(r, 0);
    if w.number < step::DONE {
        return;
    }
    w.first.store(r, 8);
    w.second.store(r, 16);
    w.length.store(r, 24);
}

// Takes the step that the bytes `b` are. Its answer goes into the record `r`, which has the message buffer behind its words.
fn run_one(s: &mut State, b: &[u8], r: &mut [u8])
    requires { OneAsks s.old.sizes s.old.bytes.now r.old }
    ensures same { Same s.old s.new }
    ensures done { OneDone s.old.sizes s.old.bytes.now s.new.bytes.now b.now r.old r.new }
{
    let reply = proc::take(s, b, &mut r[32..]);
    write_words(r, Words::from(reply));
}

// The steps and the records for their answers go beside one another, as C lends them.
// The two loops go over the records by their place, since std does not say what a loop over `chunks_exact_mut` wrote. They are two, since what a
// lent slice in an `Option<State>` holds in the end is not known to a proof: one loop over that was tried.

// Takes the steps in `steps`, where `s` is well formed.
fn run_formed(s: &mut State, steps: &[u8], answers: &mut [u8]) -> u64
    requires { WellIn s.old.sizes s.old.bytes.now }
    ensures same { Same s.old s.new }
    ensures done { Ran (steps_in steps.now) s.old.bytes.now s.new.bytes.now answers.old answers.new result }
{
    let records = answers.len() / RECORD;
    let mut left = steps;
    for i in 0..records {
        let Some((b, behind)) = split_step(left) else {
            return i as u64;
        };
        let at = RECORD * i;
        run_one(s, b, &mut answers[at..at + RECORD]);
        left = behind;
    }
    records as u64
}

// Refuses the steps in `steps`, on a state that is not well formed.
fn refuse_all(steps: &[u8], answers: &mut [u8]) -> u64
    ensures { AllRefused steps.now answers.old answers.new result }
{
    let refused = Words::from(Err(Refusal::NotWellFormed));
    let records = answers.len() / RECORD;
    let mut left = steps;
    for i in 0..records {
        let Some((_, behind)) = split_step(left) else {
            return i as u64;
        };
        let at = RECORD * i;
        write_words(&mut answers[at..at + RECORD], refused);
        left = behind;
    }
    records as u64
}

// Takes the steps in `steps`, one after another, on a state that is checked once. Each is a 32-bit little-endian length and that many step
// bytes. Answer i is the 160 bytes of `answers` from 160 * i on: number, first, second, length, of 8 bytes each, and 128 bytes that are the
// message buffer of that step; of a refusal the number alone is written. The run ends before the first step that is not whole, or for which
// no 160 bytes are left. Any bytes, any lengths. Answers how many steps it took.
#[tactic(auto, using(step::specs::Exported::checked_long, step::specs::Exported::checked_fits, step::specs::Exported::checked_in, crate::specs::Loop::ran_refused))]
pub fn run(s: &mut [u8], steps: &[u8], answers: &mut [u8]) -> u64
    ensures { Ran (steps_in steps.now) s.old s.new answers.old answers.new result }
{
    let formed = verify::check(s);
    if formed {
        let sizes = verify::load_sizes(s);
        return run_formed(&mut State { bytes: s, sizes }, steps, answers);
    }
    refuse_all(steps, answers)
}
