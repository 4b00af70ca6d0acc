// Ticks, readings of the clock, what timers do, quanta and conditions on the lent state. That the bytes hold one stays a clause of each function:
// a step breaks it midway, and the invariant of a type holds at every store.
#![tactic(auto)]

pub mod conditions;
pub mod quantum;
pub mod time;

// The last reading of the clock that is accepted, 2^51 - 1.
pub const MOST_NOW: u64 = 2_251_799_813_685_247;
