// `step` of the crate step for C callers, by its name (include/huiabunk.h).
// In a library the names would not be exported, so each function stands here once more, with the same clauses, and calls the library's.
#![tactic(auto)]

ghost use Rattle.step.specs.Words.{lent};
ghost use Rattle.step.specs.Exported.{Exported};

// Takes one step: `s` a state, `b` the step's bytes, `message` for the exit message that a wait tells. Any bytes, any lengths.
// Answers the number of the refusal, below 32, or of the answer; then `first`, `second` and `length` are its words.
#[unsafe(no_mangle)]
pub extern "C" fn step(
    s: &mut [u8],
    b: &[u8],
    message: &mut [u8],
    first: &mut u64,
    second: &mut u64,
    length: &mut u64,
) -> u64
    ensures { Exported s.old s.new b.now message.old message.new (lent first.old second.old length.old) (lent first.new second.new length.new) result }
{
    step::step(s, b, message, first, second, length)
}
