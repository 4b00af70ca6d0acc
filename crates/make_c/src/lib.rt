// `size` and `make` of the crate make for C callers, by their names (include/huiabunk.h).
// In a library the names would not be exported, so each function stands here once more, with the same clauses, and calls the library's.
#![tactic(auto)]

ghost use Rattle.make.specs.Answers.{Sized, MakeAnswers};

// How many bytes a state of these sizes takes, or 2 where one is out of range.
#[unsafe(no_mangle)]
pub extern "C" fn size(p: u64, r: u64, q: u64, k: u64, c: u64) -> u64
    ensures { Sized p r q k c result }
{
    make::size(p, r, q, k, c)
}

// Makes a fresh state in the front of `s`: 0 where it is made, 2 where a size is out of range, and then 1
// where `s` is too short; nothing is written in either case.
#[unsafe(no_mangle)]
pub extern "C" fn make(s: &mut [u8], p: u64, r: u64, q: u64, k: u64, c: u64, hz: u64) -> u64
    ensures { MakeAnswers p r q k c hz s.old s.new result }
{
    make::make(s, p, r, q, k, c, hz)
}
