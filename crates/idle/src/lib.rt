// Whether what is free has nothing: the records, the cells, and the timers that are off the queue.
#![tactic(auto)]

ghost use Rattle.std.specs.Prelude.{ℕ, ◌+◌, ◌<◌, ◌↔◌, IsTrue};
ghost use Rattle.state.specs.Places.{sizes_in, mem_in};
ghost use Rattle.rules.specs.Facts.{IdleOk};
ghost use Rattle.idle.specs.Idle.{RecordIdle, CellIdle, TimerIdle};

use rules::Checked;
use state::{Index, field};

// Has record `i`, where it is free, no neighbours in age and no exits? The pid 0 is for a free record: the layout gives the number, and it is
// compared as a number.
fn record_ok(v: &Checked, i: Index) -> bool
    requires { i < v.now.sizes.processes }
    ensures { IsTrue result ↔ RecordIdle (mem_in v.now.sizes v.now.bytes.now) i }
{
    v.get(field::PID, i) != 0
        || v.get(field::OLDER, i).is_none()
            && v.get(field::YOUNGER, i).is_none()
            && v.get(field::EXITS, i).is_none()
            && v.get(field::NEXITS, i) == 0
}

// Has each free record nothing?
fn records_ok(v: &Checked) -> bool
    ensures { IsTrue result ↔ ((i : ℕ) → i < v.now.sizes.processes → RecordIdle (mem_in v.now.sizes v.now.bytes.now) i) }
{
    (0..v.sizes.processes).all(|i| record_ok(v, i))
}

// Has cell `c`, where it is free, no link? One expression, as in `timer_ok`, of other fields of other types.
fn cell_ok(v: &Checked, c: Index) -> bool
    requires { c < v.now.sizes.cells }
    ensures { IsTrue result ↔ CellIdle (mem_in v.now.sizes v.now.bytes.now) c }
{
    v.get(field::OWNER, c).is_some() || v.get(field::CELL_NEXT, c).is_none()
}

// Has each free cell no link?
fn cells_ok(v: &Checked) -> bool
    ensures { IsTrue result ↔ ((c : ℕ) → c < v.now.sizes.cells → CellIdle (mem_in v.now.sizes v.now.bytes.now) c) }
{
    (0..v.sizes.cells).all(|c| cell_ok(v, c))
}

// Has timer `t`, where it is off the queue, no link? Whether it is queued is 1 or 0: the layout gives the number, and it is compared as a number.
fn timer_ok(v: &Checked, t: Index) -> bool
    requires { t < v.now.sizes.timers + v.now.sizes.processes }
    ensures { IsTrue result ↔ TimerIdle (mem_in v.now.sizes v.now.bytes.now) t }
{
    v.get(field::IS_QUEUED, t) != 0 || v.get(field::TIMER_NEXT, t).is_none()
}

// Has each timer that is off the queue no link?
fn timers_ok(v: &Checked) -> bool
    ensures { IsTrue result ↔ ((t : ℕ) → t < v.now.sizes.timers + v.now.sizes.processes → TimerIdle (mem_in v.now.sizes v.now.bytes.now) t) }
{
    let n = v.sizes.timers + v.sizes.processes;
    (0..n).all(|t| timer_ok(v, t))
}

// Has all that is free nothing?
pub fn idle_ok(v: &Checked) -> bool
    ensures { IsTrue result ↔ IdleOk (sizes_in v.now.sizes) (mem_in v.now.sizes v.now.bytes.now) }
{
    records_ok(v) && (cells_ok(v) && timers_ok(v))
}
