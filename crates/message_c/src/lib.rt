// `exit_message` of the crate message for C callers, by its name (include/huiabunk.h).
// In a library the names would not be exported, so each function stands here once more, with the same clauses, and calls the library's.
#![tactic(auto)]

ghost use Rattle.message.specs.Called.{MessageAnswers};

// For C callers: writes the message of an exit at the front of `cell`, and leaves the bytes behind it. The answer is the
// message's length, 0 to 127, or 258, nothing written, where `cell` is under 127 bytes or `name` over 28.
#[unsafe(no_mangle)]
pub extern "C" fn exit_message(cell: &mut [u8], name: &[u8], pid: u64, status: &[u8]) -> u64
    ensures { MessageAnswers cell.old cell.new name.now pid status.now result }
{
    message::exit_message(cell, name, pid, status)
}
