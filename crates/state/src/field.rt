// The fields of layout 1, as docs/STATE.md lists them: in which region, at which byte of a record, and what stands there.

ghost use Rattle.std.specs.Prelude.{◌≡◌, ◌≤◌};
ghost use Rattle.layout.specs.Table.{stride};
ghost use Rattle.state.specs.Fields.{layout1};
ghost use Rattle.state.specs.Regions.{region_number};

use crate::Link;
use std::marker::PhantomData;

// The regions, in the order in which they lie in a state.
#[derive(Clone, Copy, Debug, PartialEq, Eq)]
pub enum Region {
    Header,
    Process,
    Name,
    Rendez,
    Lock,
    Timer,
    Cell,
    Message,
    Condition,
    RecordWord,
    CellWord,
    FullWord,
    TimerLink,
}

impl Region {
    // How many bytes a record of the region takes.
    #[inline(always)]
    pub fn stride(self) -> usize
        ensures value { result ≡ stride layout1 (region_number self) }
        ensures small { result ≤ 80 }
    {
        match self {
            Region::Header => 80,
            Region::Process => 48,
            Region::Name => 1,
            Region::Rendez => 2,
            Region::Lock => 6,
            Region::Timer => 24,
            Region::Cell => 16,
            Region::Message => 1,
            Region::Condition => 1,
            Region::RecordWord => 8,
            Region::CellWord => 8,
            Region::FullWord => 8,
            Region::TimerLink => 2,
        }
    }
}

// A field: the region whose records have it, the byte of a record at which it begins, and the type of what stands there.
#[derive(Clone, Copy, Debug, PartialEq, Eq)]
pub struct Field<T>(pub Region, pub u8, pub PhantomData<T>);

// The header: tells a state of this kind from other bytes.
pub const MARK: Field<u64> = Field(Region::Header, 0, PhantomData);

// Which layout this is.
pub const LAYOUT_NUMBER: Field<u32> = Field(Region::Header, 8, PhantomData);

// The frequency.
pub const HZ: Field<u32> = Field(Region::Header, 12, PhantomData);

// P.
pub const SIZE_PROCESSES: Field<u16> = Field(Region::Header, 16, PhantomData);

// R.
pub const SIZE_RENDEZ: Field<u16> = Field(Region::Header, 18, PhantomData);

// Q.
pub const SIZE_LOCKS: Field<u16> = Field(Region::Header, 20, PhantomData);

// K.
pub const SIZE_TIMERS: Field<u16> = Field(Region::Header, 22, PhantomData);

// C.
pub const SIZE_CELLS: Field<u16> = Field(Region::Header, 24, PhantomData);

// Who runs.
pub const UP: Field<Link> = Field(Region::Header, 26, PhantomData);

// The run queue: first.
pub const RUN_HEAD: Field<Link> = Field(Region::Header, 28, PhantomData);

// Last.
pub const RUN_TAIL: Field<Link> = Field(Region::Header, 30, PhantomData);

// How many are asleep.
pub const ASLEEP_COUNT: Field<u16> = Field(Region::Header, 32, PhantomData);

// The timer queue: first.
pub const TIMER_HEAD: Field<Link> = Field(Region::Header, 34, PhantomData);

// The living by age: first.
pub const OLDEST: Field<Link> = Field(Region::Header, 36, PhantomData);

// Last.
pub const YOUNGEST: Field<Link> = Field(Region::Header, 38, PhantomData);

// The next pid.
pub const NEXT_PID: Field<u64> = Field(Region::Header, 40, PhantomData);

// Ticks since the clock was started.
pub const TICKS: Field<u64> = Field(Region::Header, 48, PhantomData);

// The last accepted reading of the clock.
pub const LAST_NOW: Field<u64> = Field(Region::Header, 56, PhantomData);

// A bit for each record word that is full.
pub const FULL_RECORDS: Field<u64> = Field(Region::Header, 64, PhantomData);

// A bit for each full word that is full.
pub const FULL_CELLS: Field<u64> = Field(Region::Header, 72, PhantomData);

// Process records: 0 in a free record.
pub const PID: Field<u64> = Field(Region::Process, 0, PhantomData);

// The parent's pid, 0 for none.
pub const PARENT: Field<u64> = Field(Region::Process, 8, PhantomData);

// The tick at which its quantum runs out.
pub const QUANTUM_END: Field<u64> = Field(Region::Process, 16, PhantomData);

// The next in the run queue or in a lock's queue.
pub const NEXT: Field<Link> = Field(Region::Process, 24, PhantomData);

// The next older of the living.
pub const OLDER: Field<Link> = Field(Region::Process, 26, PhantomData);

// The next younger.
pub const YOUNGER: Field<Link> = Field(Region::Process, 28, PhantomData);

// The record that the parent had.
pub const PARENT_AT: Field<Link> = Field(Region::Process, 30, PhantomData);

// Living children.
pub const NCHILD: Field<u16> = Field(Region::Process, 32, PhantomData);

// The newest exit in the wait queue.
pub const EXITS: Field<Link> = Field(Region::Process, 34, PhantomData);

// How many exits.
pub const NEXITS: Field<u8> = Field(Region::Process, 36, PhantomData);

// 0 free, 1 running, 2 ready, 3 asleep.
pub const STATE_OF: Field<u8> = Field(Region::Process, 37, PhantomData);

// 0 nothing, 1 sleep, 2 tsleep, 3 qlock, 4 wait.
pub const RESUME_KIND: Field<u8> = Field(Region::Process, 38, PhantomData);

// The condition of a sleep or tsleep.
pub const RESUME_CONDITION: Field<u8> = Field(Region::Process, 39, PhantomData);

// The Rendez of a sleep or tsleep, the lock of a qlock.
pub const RESUME_OBJECT: Field<u16> = Field(Region::Process, 40, PhantomData);

// Rendez: who sleeps on the Rendez.
pub const SLEEPER_OF: Field<Link> = Field(Region::Rendez, 0, PhantomData);

// Locks: whether the lock is held.
pub const HELD: Field<u16> = Field(Region::Lock, 0, PhantomData);

// Its waiters: first.
pub const LOCK_HEAD: Field<Link> = Field(Region::Lock, 2, PhantomData);

// Last.
pub const LOCK_TAIL: Field<Link> = Field(Region::Lock, 4, PhantomData);

// Timers: the count at which it is due.
pub const DEADLINE: Field<u64> = Field(Region::Timer, 0, PhantomData);

// In counts, 0: fires once.
pub const PERIOD: Field<u64> = Field(Region::Timer, 8, PhantomData);

// The Rendez it wakes.
pub const TIMER_RENDEZ: Field<u16> = Field(Region::Timer, 16, PhantomData);

// Whether it is queued.
pub const IS_QUEUED: Field<u8> = Field(Region::Timer, 20, PhantomData);

// Message cells: the exited child's pid.
pub const EXIT_PID: Field<u64> = Field(Region::Cell, 0, PhantomData);

// The next older exit.
pub const CELL_NEXT: Field<Link> = Field(Region::Cell, 8, PhantomData);

// In whose wait queue, none: a free cell.
pub const OWNER: Field<Link> = Field(Region::Cell, 10, PhantomData);

// How many bytes of the message.
pub const MESSAGE_LENGTH: Field<u8> = Field(Region::Cell, 12, PhantomData);

// Conditions: whether it holds.
pub const CONDITION_BIT: Field<u8> = Field(Region::Condition, 0, PhantomData);

// Words of bits: a bit for each record that is in use.
pub const USED_RECORDS: Field<u64> = Field(Region::RecordWord, 0, PhantomData);

// A bit for each cell that is in use.
pub const USED_CELLS: Field<u64> = Field(Region::CellWord, 0, PhantomData);

// A bit for each cell word that is full.
pub const FULL_CELL_WORDS: Field<u64> = Field(Region::FullWord, 0, PhantomData);

// The timers' links: the next in the timer queue.
pub const TIMER_NEXT: Field<Link> = Field(Region::TimerLink, 0, PhantomData);
