// `run` of the crate run for C callers, by its name (include/huiabunk.h).
// In a library the names would not be exported, so each function stands here once more, with the same clauses, and calls the library's.
#![tactic(auto)]

ghost use Rattle.run.specs.Ran.{steps_in, Ran};

// Takes the steps in `steps`, one after another, on a state that is checked once. Each is a 32-bit little-endian length and that many step
// bytes. Answer i is the 160 bytes of `answers` from 160 * i on: number, first, second, length, of 8 bytes each, and 128 bytes that are the
// message buffer of that step; of a refusal the number alone is written. The run ends before the first step that is not whole, or for which
// no 160 bytes are left. Any bytes, any lengths. Answers how many steps it took.
#[unsafe(no_mangle)]
pub extern "C" fn run(s: &mut [u8], steps: &[u8], answers: &mut [u8]) -> u64
    ensures { Ran (steps_in steps.now) s.old s.new answers.old answers.new result }
{
    run::run(s, steps, answers)
}
