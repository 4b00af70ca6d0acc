// `check` of the crate verify for C callers, by its name (include/huiabunk.h).
// In a library the names would not be exported, so each function stands here once more, with the same clauses, and calls the library's.
#![tactic(auto)]

ghost use Rattle.state.specs.WellFormed.{WellFormed};
ghost use Rattle.rules.specs.Code.{Decides};

// Is `s` a well-formed state? Any bytes, any length; nothing is written.
#[unsafe(no_mangle)]
pub extern "C" fn check(s: &[u8]) -> bool
    ensures { Decides result (WellFormed s.now) }
{
    verify::check(s)
}
