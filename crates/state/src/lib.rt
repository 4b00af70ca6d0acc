// The lent state: where its fields lie, and how they are read and written.
#![tactic(auto)]

mod access;
pub mod field;
mod lent;
mod process;

pub use lent::{State, View};
pub use process::{CallKind, ProcState};

// Numbers of records, and links to them.
pub type Index = u16;
// How many processes, or timers.
pub type Count = u16;
// A link to a record.
pub type Link = Option<Index>;

// How many records each region has, and the clock's frequency.
#[derive(Clone, Copy, Debug, PartialEq, Eq)]
pub struct Sizes {
    pub processes: Index,
    pub rendez: Index,
    pub locks: Index,
    pub timers: Index,
    pub cells: Index,
    pub hz: u32,
}
