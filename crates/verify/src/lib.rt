// Whether bytes are a well-formed state.
#![tactic(auto)]

ghost use Rattle.std.specs.Prelude.{◌≡◌, ◌≤◌, length, IsTrue, ◌↔◌};
ghost use Rattle.state.specs.Places.{sizes_in};
ghost use Rattle.state.specs.WellFormed.{WellFormed};
ghost use Rattle.rules.specs.Code.{Decides};
ghost use Rattle.machine.specs.Good.{SizesInRange};
ghost use Rattle.verify.specs.Ways.{SizesRead, Marks, FactsIn, CheckedIn};

use memory::Number;
use rules::Checked;
use state::{Index, Sizes, View, field};

// How many bytes the header takes.
const HEADER_BYTES: usize = 80;

// The sizes that the header names, each from its own place. They are read from the slice itself, since a `View` has its sizes already.
pub fn load_sizes(s: &[u8]) -> Sizes
    requires { 80 ≤ length s.now }
    ensures { SizesRead s.now result }
{
    Sizes {
        processes: u16::load(s, 16),
        rendez: u16::load(s, 18),
        locks: u16::load(s, 20),
        timers: u16::load(s, 22),
        cells: u16::load(s, 24),
        hz: u32::load(s, 12),
    }
}

// Is `n` from 1 to `most`?
fn fits(n: Index, most: Index) -> bool
    ensures { IsTrue result ↔ (1 ≤ n) × (n ≤ most) }
{
    (1..=most).contains(&n)
}

// Are the sizes in range? `make` asks the same of numbers of 64 bits that C hands it, and makes sizes of them: neither test serves the other.
fn sizes_ok(z: Sizes) -> bool
    ensures { IsTrue result ↔ SizesInRange (sizes_in z) }
{
    fits(z.processes, 4096)
        && (fits(z.rendez, 4096)
            && (fits(z.locks, 4096)
                && (fits(z.timers, 4096) && (fits(z.cells, 65000) && 1 <= z.hz))))
}

// Are the mark and the layout's number right?
fn marks_ok(v: &View) -> bool
    ensures { IsTrue result ↔ Marks v.now.sizes v.now.bytes.now }
{
    v.get(field::MARK, 0) == 5_426_368_344_079_553_864 && v.get(field::LAYOUT_NUMBER, 0) == 1
}

// Do the facts hold of a state in range?
fn facts_ok(v: &Checked) -> bool
    ensures { IsTrue result ↔ FactsIn v.now.sizes v.now.bytes.now }
{
    scan::processes_ok(v)
        && (walks::queues_ok(v) && (kin::kin_ok(v) && (idle::idle_ok(v) && index::index_ok(v))))
}

// Is what is long enough for its sizes a state of them? That they are in range stays a clause: a type for it would be a third one beside `View` and
// `Checked`.
fn state_ok(v: &View) -> bool
    requires { SizesInRange (sizes_in v.now.sizes) }
    ensures { IsTrue result ↔ CheckedIn v.now.sizes v.now.bytes.now }
{
    marks_ok(v)
        && match bounds::checked(v) {
            Some(c) => facts_ok(&c),
            None => false,
        }
}

// Is `s` a well-formed state? Any bytes, any length; nothing is written.
pub fn check(s: &[u8]) -> bool
    ensures { Decides result (WellFormed s.now) }
{
    if s.len() < HEADER_BYTES {
        return false;
    }
    let z = load_sizes(s);
    sizes_ok(z) && (z.total() <= s.len() && state_ok(&View { bytes: s, sizes: z }))
}
