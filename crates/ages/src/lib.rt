// The living processes by age, the oldest first, linked both ways, and the living parent of a process. Links are numbers of records in the lent
// bytes, and no boxes: the memory is fixed, and a C caller's.
#![tactic(auto)]

ghost use Rattle.memory.specs.Link.{link, IsLink};
ghost use Rattle.state.specs.Regions.{slot_of};
ghost use Rattle.state.specs.Lent.{Same};
ghost use Rattle.ages.specs.Way.{WayAsks, Tied};
ghost use Rattle.ages.specs.Kept.{LivingIn};
ghost use Rattle.ages.specs.In.{AgeInAsks, AgedIn};
ghost use Rattle.ages.specs.Out.{AgedOut};
ghost use Rattle.ages.specs.Parent.{ParentFound};

use state::field::{self, Field};
use state::{Index, Link, State, View};

// One way through the living: the field that links a record to the next, and the header's that links to the first. It derives only these: the
// names of fields are neither printed nor compared.
#[derive(Clone, Copy)]
struct Way {
    next: Field<Link>,
    first: Field<Link>,
}

const TO_YOUNGER: Way = Way {
    next: field::YOUNGER,
    first: field::OLDEST,
};

const TO_OLDER: Way = Way {
    next: field::OLDER,
    first: field::YOUNGEST,
};

// The next of record `i` is cleared, and that of record `at` becomes `next`; the first does where `at` is none.
#[inline(always)]
fn tie(s: &mut State, way: Way, at: Link, next: Link, i: Index)
    requires reach { WayAsks s.old.sizes s.old.bytes.now (slot_of way.next 2) (slot_of way.first 2) at i }
    requires fits { IsLink next }
    ensures same { Same s.old s.new }
    ensures tied { Tied s.old.sizes s.old.bytes.now s.new.bytes.now (slot_of way.next 2) (slot_of way.first 2) (link at) (link next) i }
{
    s.set(way.next, i, None);
    let Some(before) = at else {
        s.set(way.first, 0, next);
        return;
    };
    s.set(way.next, before, next);
}

// Record `i` becomes the youngest.
pub fn age_in(s: &mut State, i: Index)
    requires { AgeInAsks s.old.sizes s.old.bytes.now i }
    ensures same { Same s.old s.new }
    ensures done { AgedIn s.old.sizes s.old.bytes.now s.new.bytes.now i }
{
    let last = s.get(field::YOUNGEST, 0);
    s.set(field::OLDER, i, last);
    tie(s, TO_YOUNGER, last, Some(i), i);
    s.set(field::YOUNGEST, 0, Some(i));
}

// Record `i` is taken out from between its neighbours.
pub fn age_out(s: &mut State, i: Index)
    requires { LivingIn s.old.sizes s.old.bytes.now i }
    ensures same { Same s.old s.new }
    ensures done { AgedOut s.old.sizes s.old.bytes.now s.new.bytes.now i }
{
    let older = s.get(field::OLDER, i);
    let younger = s.get(field::YOUNGER, i);
    tie(s, TO_YOUNGER, older, younger, i);
    tie(s, TO_OLDER, younger, older, i);
}

// The living parent of process `i`, none where it has none. The record that the parent had may have another process now, so its pid is
// compared. `kin` makes this test on bytes that may be no state, of free records too, and promises no more than a link; here it is the machine's.
pub fn find_parent(s: &View, i: Index) -> Option<Index>
    requires { LivingIn s.now.sizes s.now.bytes.now i }
    ensures { ParentFound s.now.sizes s.now.bytes.now i (link result) }
{
    // 0 is no parent in the field that C callers read: an `Option` made of it would be taken apart in the next line
    let parent = s.get(field::PARENT, i);
    if parent == 0 {
        return None;
    }
    let j = s.get(field::PARENT_AT, i)?;
    if s.get(field::PID, j) == parent {
        Some(j)
    } else {
        None
    }
}
