// Where the fields of a lent state lie, and how they are read and written.

ghost use Rattle.std.specs.Prelude.{◌≡◌, ◌+◌, ◌*◌, ◌<◌};
ghost use Rattle.state.specs.Places.{start_in, place_in, total_in, cell_in, ReachIn, PutIn};
ghost use Rattle.state.specs.Regions.{region_number, slot_of};
ghost use Rattle.state.specs.Lent.{Same};

use crate::field::{Field, Region};
use crate::lent::{State, View};
use crate::{Index, Sizes};
use memory::Number;

impl Sizes {
    // Where a region starts, in bytes from the state's first. Inlined, so that a field that is a constant costs no match.
    #[inline(always)]
    #[tactic(auto, unfolding(layout::specs::Table::start))]
    pub fn start_of(self, region: Region) -> usize
        ensures value { result ≡ start_in self (region_number region) }
        ensures small { result < 33554432 }
    {
        let p = usize::from(self.processes);
        let r = usize::from(self.rendez);
        let q = usize::from(self.locks);
        let t = usize::from(self.timers) + p;
        let c = usize::from(self.cells);
        match region {
            Region::Header => 0,
            Region::Process => 80,
            Region::Name => 80 + 48 * p,
            Region::Rendez => 80 + 76 * p,
            Region::Lock => 80 + 76 * p + 2 * r,
            Region::Timer => 80 + 76 * p + 2 * r + 6 * q,
            Region::Cell => 80 + 76 * p + 2 * r + 6 * q + 24 * t,
            Region::Message => 80 + 76 * p + 2 * r + 6 * q + 24 * t + 16 * c,
            Region::Condition => 80 + 76 * p + 2 * r + 6 * q + 24 * t + 143 * c,
            Region::RecordWord => 336 + 76 * p + 2 * r + 6 * q + 24 * t + 143 * c,
            Region::CellWord => 848 + 76 * p + 2 * r + 6 * q + 24 * t + 143 * c,
            Region::FullWord => 8976 + 76 * p + 2 * r + 6 * q + 24 * t + 143 * c,
            Region::TimerLink => 9104 + 76 * p + 2 * r + 6 * q + 24 * t + 143 * c,
        }
    }

    // How many bytes a state of these sizes takes.
    #[tactic(auto, unfolding(layout::specs::Table::start))]
    pub fn total(self) -> usize
        ensures value { result ≡ total_in self }
        ensures small { result < 33554432 }
    {
        let t = usize::from(self.timers) + usize::from(self.processes);
        self.start_of(Region::TimerLink) + 2 * t
    }

    // Where a field lies of record `i`.
    #[inline(always)]
    fn place_of<T>(self, f: Field<T>, i: Index) -> usize
        ensures value { result ≡ place_in self (slot_of f 0) i }
        ensures small { result < 67108864 }
    {
        self.start_of(f.0) + usize::from(i) * f.0.stride() + usize::from(f.1)
    }

    // Where the name of record `i` begins.
    pub fn name_at(self, i: Index) -> usize
        ensures value { result ≡ start_in self 2 + i * 28 }
        ensures small { result < 67108864 }
    {
        self.start_of(Region::Name) + usize::from(i) * 28
    }

    // Where the message of cell `c` begins.
    pub fn message_at(self, c: Index) -> usize
        ensures value { result ≡ start_in self 7 + c * 127 }
        ensures small { result < 67108864 }
    {
        self.start_of(Region::Message) + usize::from(c) * 127
    }
}

impl View<'_> {
    // A field of record `i`.
    pub fn get<T: Number>(&self, f: Field<T>, i: Index) -> T
        requires { ReachIn self.now.sizes self.now.bytes.now (slot_of f T.width) i }
        ensures value { T.number result ≡ cell_in self.now.sizes self.now.bytes.now (slot_of f T.width) i }
        ensures fits { T.fits result }
    {
        T::load(self.bytes, self.sizes.place_of(f, i))
    }
}

impl State<'_> {
    // The same bytes, to be read.
    pub fn view(&self) -> View<'_>
        ensures bytes { result.bytes.now ≡ self.now.bytes.now }
        ensures sizes { result.sizes ≡ self.now.sizes }
    {
        View {
            bytes: self.bytes,
            sizes: self.sizes,
        }
    }

    // A field of record `i`.
    pub fn get<T: Number>(&self, f: Field<T>, i: Index) -> T
        requires { ReachIn self.now.sizes self.now.bytes.now (slot_of f T.width) i }
        ensures value { T.number result ≡ cell_in self.now.sizes self.now.bytes.now (slot_of f T.width) i }
        ensures fits { T.fits result }
    {
        self.view().get(f, i)
    }

    // Stores a field of record `i`.
    pub fn set<T: Number>(&mut self, f: Field<T>, i: Index, v: T)
        requires reach { ReachIn self.old.sizes self.old.bytes.now (slot_of f T.width) i }
        requires fits { T.fits v }
        ensures same { Same self.old self.new }
        ensures put { PutIn self.old.sizes self.old.bytes.now self.new.bytes.now (slot_of f T.width) i (T.number v) }
    {
        let at = self.sizes.place_of(f, i);
        v.store(self.bytes, at);
    }
}
