// Whether every field of a state is in range.
#![tactic(auto)]

ghost use Rattle.std.specs.Prelude.{◌≡◌, ◌≤◌, ◌↔◌, IsTrue, IsSome, IfSome};
ghost use Rattle.machine.specs.Good.{SizesInRange};
ghost use Rattle.state.specs.Places.{sizes_in};
ghost use Rattle.state.specs.Regions.{slot_of};
ghost use Rattle.rules.specs.Code.{Long};
ghost use Rattle.bounds.specs.Column.{Asks, column_at, Within, WithinFrom};
ghost use Rattle.bounds.specs.Groups.{All, heads, ends, links, states, locks, timers, cells};
ghost use Rattle.bounds.specs.InRange.{StateIn, Groups};

use memory::Number;
use rules::Checked;
use state::field::{self, Field};
use state::{CallKind, Index, ProcState, Sizes, View};

// Is a field at most `most` in each record from `from` on and below `to`? All are read, with no way out before the last: so no read waits for the
// test before it. Tried as one `all` of the column too, which took twice as long as one such `for` of it.
#[inline(always)]
fn part_within<T: Number>(v: &View, f: Field<T>, from: Index, to: Index, most: u64) -> bool
    requires asks { Asks v.now.sizes v.now.bytes.now (slot_of f T.width) to }
    requires order { from ≤ to }
    ensures { IsTrue result ↔ WithinFrom v.now.sizes v.now.bytes.now (column_at (slot_of f T.width) to most) from }
{
    let v = *v;
    let mut fits = true;
    for i in from..to {
        fits &= v.get(f, i).value() <= most;
    }
    fits
}

// Is a field at most `most` in each of the first `n` records? Tested by blocks of eight records and then the rest, up to the first block with one out
// of range. Inlined with the test of a block, so that a field that is a constant costs no match, and eight records no loop.
#[inline(always)]
fn within<T: Number>(v: &View, f: Field<T>, n: Index, most: u64) -> bool
    requires { Asks v.now.sizes v.now.bytes.now (slot_of f T.width) n }
    ensures { IsTrue result ↔ Within v.now.sizes v.now.bytes.now (column_at (slot_of f T.width) n most) }
{
    for block in 0..n / 8 {
        if !part_within(v, f, block * 8, block * 8 + 8, most) {
            return false;
        }
    }
    part_within(v, f, n / 8 * 8, n, most)
}

// The header's links to who runs, to the run queue and to the timer queue. This and the six below are a list each, and no table: fields of
// different types stand in them. That the sizes are in range stays a clause: a type for it would be a third one beside `View` and `Checked`.
#[tactic(auto, unfolding(crate::specs::Groups::All))]
fn heads_within(v: &View) -> bool
    requires { SizesInRange (sizes_in v.now.sizes) }
    ensures { IsTrue result ↔ All v.now.sizes v.now.bytes.now (heads v.now.sizes) }
{
    let p = u64::from(v.sizes.processes);
    let t = u64::from(v.sizes.timers) + p;
    within(v, field::UP, 1, p)
        && (within(v, field::RUN_HEAD, 1, p)
            && (within(v, field::RUN_TAIL, 1, p) && within(v, field::TIMER_HEAD, 1, t)))
}

// The header's links to the living by age.
#[tactic(auto, unfolding(crate::specs::Groups::All))]
fn ends_within(v: &View) -> bool
    requires { SizesInRange (sizes_in v.now.sizes) }
    ensures { IsTrue result ↔ All v.now.sizes v.now.bytes.now (ends v.now.sizes) }
{
    let p = u64::from(v.sizes.processes);
    within(v, field::OLDEST, 1, p) && within(v, field::YOUNGEST, 1, p)
}

// The links of the process records.
#[tactic(auto, unfolding(crate::specs::Groups::All))]
fn links_within(v: &View) -> bool
    requires { SizesInRange (sizes_in v.now.sizes) }
    ensures { IsTrue result ↔ All v.now.sizes v.now.bytes.now (links v.now.sizes) }
{
    let n = v.sizes.processes;
    let p = u64::from(n);
    within(v, field::NEXT, n, p)
        && (within(v, field::OLDER, n, p)
            && (within(v, field::YOUNGER, n, p) && within(v, field::PARENT_AT, n, p)))
}

// Their exits, and where they stand.
#[tactic(auto, unfolding(crate::specs::Groups::All))]
fn states_within(v: &View) -> bool
    requires { SizesInRange (sizes_in v.now.sizes) }
    ensures { IsTrue result ↔ All v.now.sizes v.now.bytes.now (states v.now.sizes) }
{
    let n = v.sizes.processes;
    let last_state = u64::from(ProcState::Asleep.number());
    let last_kind = u64::from(CallKind::Wait.number());
    let c = u64::from(v.sizes.cells);
    within(v, field::EXITS, n, c)
        && (within(v, field::NEXITS, n, 128)
            && (within(v, field::STATE_OF, n, last_state)
                && within(v, field::RESUME_KIND, n, last_kind)))
}

// Rendez and locks.
#[tactic(auto, unfolding(crate::specs::Groups::All))]
fn locks_within(v: &View) -> bool
    requires { SizesInRange (sizes_in v.now.sizes) }
    ensures { IsTrue result ↔ All v.now.sizes v.now.bytes.now (locks v.now.sizes) }
{
    let p = u64::from(v.sizes.processes);
    let q = v.sizes.locks;
    within(v, field::SLEEPER_OF, v.sizes.rendez, p)
        && (within(v, field::HELD, q, 1)
            && (within(v, field::LOCK_HEAD, q, p) && within(v, field::LOCK_TAIL, q, p)))
}

// Timers.
#[tactic(auto, unfolding(crate::specs::Groups::All))]
fn timers_within(v: &View) -> bool
    requires { SizesInRange (sizes_in v.now.sizes) }
    ensures { IsTrue result ↔ All v.now.sizes v.now.bytes.now (timers v.now.sizes) }
{
    let n = v.sizes.timers + v.sizes.processes;
    let t = u64::from(n);
    let r = u64::from(v.sizes.rendez) - 1;
    within(v, field::PERIOD, n, 9_223_372_036_854_775_807)
        && (within(v, field::TIMER_RENDEZ, n, r)
            && (within(v, field::TIMER_NEXT, n, t) && within(v, field::IS_QUEUED, n, 1)))
}

// Message cells, and the conditions.
#[tactic(auto, unfolding(crate::specs::Groups::All))]
fn cells_within(v: &View) -> bool
    requires { SizesInRange (sizes_in v.now.sizes) }
    ensures { IsTrue result ↔ All v.now.sizes v.now.bytes.now (cells v.now.sizes) }
{
    let n = v.sizes.cells;
    let p = u64::from(v.sizes.processes);
    within(v, field::CELL_NEXT, n, u64::from(n))
        && (within(v, field::OWNER, n, p)
            && (within(v, field::MESSAGE_LENGTH, n, 127)
                && within(v, field::CONDITION_BIT, 256, 1)))
}

// Is each group of fields in range?
fn groups_within(v: &View) -> bool
    requires { SizesInRange (sizes_in v.now.sizes) }
    ensures { IsTrue result ↔ Groups v.now.sizes v.now.bytes.now }
{
    heads_within(v)
        && (ends_within(v)
            && (links_within(v)
                && (states_within(v)
                    && (locks_within(v) && (timers_within(v) && cells_within(v))))))
}

// Is every field of these bytes in range? A function of the slice itself, since its bytes are then known to be bytes.
fn bytes_within(s: &[u8], z: Sizes) -> bool
    requires { Long z s.now }
    ensures { IsTrue result ↔ StateIn z s.now }
{
    groups_within(&View { bytes: s, sizes: z })
}

// Is every field in range?
pub fn in_range(v: &View) -> bool
    requires { SizesInRange (sizes_in v.now.sizes) }
    ensures { IsTrue result ↔ StateIn v.now.sizes v.now.bytes.now }
{
    bytes_within(v.bytes, v.sizes)
}

// The state with every field in range; none where some field is not.
pub fn checked<'a>(v: &View<'a>) -> Option<Checked<'a>>
    requires { SizesInRange (sizes_in v.now.sizes) }
    ensures exact { IsSome result ↔ StateIn v.now.sizes v.now.bytes.now }
    ensures same { IfSome result (λ c. (c.bytes.now ≡ v.now.bytes.now) × (c.sizes ≡ v.now.sizes)) }
{
    if in_range(v) {
        Some(Checked {
            bytes: v.bytes,
            sizes: v.sizes,
        })
    } else {
        None
    }
}
