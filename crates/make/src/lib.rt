// How many bytes a state takes, and how a fresh one is made.
#![tactic(auto)]

ghost use Rattle.std.specs.Prelude.{◌≡◌};
ghost use Rattle.make.specs.Fresh.{fresh_bytes, fresh_stores};
ghost use Rattle.make.specs.Code.{UpTo, SizesFor};
ghost use Rattle.state.specs.Places.{sizes_in, Wrote};
ghost use Rattle.state.specs.Lent.{Same};
ghost use Rattle.machine.specs.Good.{SizesInRange};
ghost use Rattle.make.specs.Answers.{Sized, MakeAnswers};

use state::{Index, Sizes, State, field};

// The first eight bytes, which spell HUIABUNK.
const MARK_VALUE: u64 = 5_426_368_344_079_553_864;

// Writes what a fresh state holds beside zeros: the mark and the layout's number, the sizes, the first pid, and the
// period of timer 0, 10 ms. That the sizes are in range is a clause, here and in `fill`: a `State` may have any.
fn put_header(s: &mut State)
    requires { SizesInRange (sizes_in s.old.sizes) }
    ensures same { Same s.old s.new }
    ensures stored { Wrote s.old.sizes s.old.bytes.now s.new.bytes.now (fresh_stores (sizes_in s.old.sizes)) }
{
    let z = s.sizes;
    let tick = clock::Duration {
        secs: 0,
        nanos: 10_000_000,
    };
    s.set(field::MARK, 0, MARK_VALUE);
    s.set(field::LAYOUT_NUMBER, 0, 1);
    s.set(field::HZ, 0, z.hz);
    s.set(field::SIZE_PROCESSES, 0, z.processes);
    s.set(field::SIZE_RENDEZ, 0, z.rendez);
    s.set(field::SIZE_LOCKS, 0, z.locks);
    s.set(field::SIZE_TIMERS, 0, z.timers);
    s.set(field::SIZE_CELLS, 0, z.cells);
    s.set(field::NEXT_PID, 0, 1);
    s.set(field::PERIOD, 0, tick.to_counts(z.hz));
}

// Makes a fresh state: its bytes are 0, and then what it holds is written.
fn fill(s: &mut State)
    requires { SizesInRange (sizes_in s.old.sizes) }
    ensures same { Same s.old s.new }
    ensures fresh { s.new.bytes.now ≡ fresh_bytes (sizes_in s.old.sizes) s.old.bytes.now }
{
    let n = s.sizes.total();
    s.bytes[..n].fill(0);
    put_header(s);
}

// The number `v` of records, where it is from 1 to `most`.
fn up_to(most: Index, v: u64) -> Option<Index>
    ensures { UpTo most v result }
{
    let n = Index::try_from(v).ok()?;
    (1..=most).contains(&n).then_some(n)
}

// The frequency `v`, where it is one.
fn frequency(v: u64) -> Option<u32>
    ensures { UpTo 4294967295 v result }
{
    let n = u32::try_from(v).ok()?;
    (n != 0).then_some(n)
}

// The sizes, as the state holds them, where they are in range. The numbers come one by one from C, and are together from here on.
#[tactic(auto, unfolding(crate::specs::Fresh::sizes_fit, crate::specs::Fresh::counts_fit))]
fn sizes_of(p: u64, r: u64, q: u64, k: u64, c: u64, hz: u64) -> Option<Sizes>
    ensures { SizesFor p r q k c hz result }
{
    Some(Sizes {
        processes: up_to(4096, p)?,
        rendez: up_to(4096, r)?,
        locks: up_to(4096, q)?,
        timers: up_to(4096, k)?,
        cells: up_to(65_000, c)?,
        hz: frequency(hz)?,
    })
}

// How many bytes a state of these sizes takes, or 2 where one is out of range: the number that C callers are answered. The cast loses nothing, and
// there is no `From` between the two types.
pub fn size(p: u64, r: u64, q: u64, k: u64, c: u64) -> u64
    ensures { Sized p r q k c result }
{
    match sizes_of(p, r, q, k, c, 1) {
        None => 2,
        Some(sizes) => sizes.total() as u64,
    }
}

// Makes a fresh state in the front of `s`: 0 where it is made, 2 where a size is out of range, and then 1
// where `s` is too short; nothing is written in either case. These are the numbers that C callers are answered.
pub fn make(s: &mut [u8], p: u64, r: u64, q: u64, k: u64, c: u64, hz: u64) -> u64
    ensures { MakeAnswers p r q k c hz s.old s.new result }
{
    let Some(sizes) = sizes_of(p, r, q, k, c, hz) else {
        return 2;
    };
    if s.len() < sizes.total() {
        return 1;
    }
    fill(&mut State { bytes: s, sizes });
    0
}
