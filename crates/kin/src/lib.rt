// Whether the records agree on who is whose parent.
#![tactic(auto)]

ghost use Rattle.std.specs.Prelude.{◌≡◌, ◌<◌, ◌≤◌, ℕ, length, take, IsTrue, ◌↔◌};
ghost use Rattle.memory.specs.Link.{link};
ghost use Rattle.state.specs.Places.{sizes_in};
ghost use Rattle.rules.specs.Code.{mem_in};
ghost use Rattle.kin.specs.Age.{Aged};
ghost use Rattle.kin.specs.Link.{kin_link};
ghost use Rattle.kin.specs.Living.{Filled, ParentOk};
ghost use Rattle.kin.specs.Count.{Counted};
ghost use Rattle.kin.specs.Kin.{CountAsks, Children, KinFacts};

use rules::Checked;
use state::{Count, Index, Link, field};

// Puts the pids of the living into the array, the oldest first: how many there are. An array of the caller's, since no library has a heap.
fn fill_pids(v: &Checked, pids: &mut [u64]) -> usize
    requires aged { Aged (sizes_in v.now.sizes) (mem_in v.now.sizes v.now.bytes.now) }
    requires size { length pids.old ≡ 4096 }
    ensures size { result ≤ length pids.new }
    ensures filled { Filled (sizes_in v.now.sizes) (mem_in v.now.sizes v.now.bytes.now) (take result pids.new) }
{
    let v = *v;
    let mut at = v.get(field::OLDEST, 0);
    let mut n = 0;
    while let Some(i) = at {
        pids[n] = v.get(field::PID, i);
        at = v.get(field::YOUNGER, i);
        n += 1;
    }
    n
}

// The record of the living parent of record `i`. Beside `find_parent` of `ages`, which is asked only of one that lives. The pid 0 is for a free
// record, and the parent 0 for none, here and below: the layout gives the numbers, and they are compared as numbers.
fn parent_of(v: &Checked, i: Index) -> Link
    requires { i < v.now.sizes.processes }
    ensures value { link result ≡ kin_link (mem_in v.now.sizes v.now.bytes.now) i }
    ensures small { link result ≤ 4096 }
{
    if v.get(field::PID, i) == 0 {
        return None;
    }
    let parent = v.get(field::PARENT, i);
    if parent == 0 {
        return None;
    }
    let at = v.get(field::PARENT_AT, i)?;
    let pid = v.get(field::PID, at);
    if pid == parent { Some(at) } else { None }
}

// Does record `i` name its parent rightly, if it is used? The pids are those of the living.
fn parent_ok(v: &Checked, pids: &[u64], i: Index) -> bool
    requires aged { Aged (sizes_in v.now.sizes) (mem_in v.now.sizes v.now.bytes.now) }
    requires filled { Filled (sizes_in v.now.sizes) (mem_in v.now.sizes v.now.bytes.now) pids.now }
    requires index { i < v.now.sizes.processes }
    ensures { IsTrue result ↔ ParentOk (sizes_in v.now.sizes) (mem_in v.now.sizes v.now.bytes.now) i }
{
    let parent = v.get(field::PARENT, i);
    v.get(field::PID, i) == 0
        || (parent == 0 || (parent_of(v, i).is_some() || pids.binary_search(&parent).is_err()))
}

// Does each used record name its parent rightly?
fn parents_ok(v: &Checked) -> bool
    requires { Aged (sizes_in v.now.sizes) (mem_in v.now.sizes v.now.bytes.now) }
    ensures { IsTrue result ↔ ((i : ℕ) → i < v.now.sizes.processes → ParentOk (sizes_in v.now.sizes) (mem_in v.now.sizes v.now.bytes.now) i) }
{
    let v = *v;
    let mut pids = [0; 4096];
    let n = fill_pids(&v, &mut pids);
    let pids = &pids[..n];
    (0..v.sizes.processes).all(|i| parent_ok(&v, pids, i))
}

// Counts the children of each record, in an array of the caller's, since no library has a heap.
fn count_children(v: &Checked, children: &mut [Count])
    requires { CountAsks children.old }
    ensures { Counted (mem_in v.now.sizes v.now.bytes.now) v.now.sizes.processes children.new }
{
    let v = *v;
    for i in 0..v.sizes.processes {
        if let Some(j) = parent_of(&v, i) {
            children[usize::from(j)] += 1;
        }
    }
}

// Has record `j`, if it is used, as many children as were counted?
fn child_count_ok(v: &Checked, children: &[Count], j: Index) -> bool
    requires counted { Counted (mem_in v.now.sizes v.now.bytes.now) v.now.sizes.processes children.now }
    requires index { j < v.now.sizes.processes }
    ensures { IsTrue result ↔ Children (sizes_in v.now.sizes) (mem_in v.now.sizes v.now.bytes.now) j }
{
    v.get(field::PID, j) == 0 || v.get(field::NCHILD, j) == children[usize::from(j)]
}

// Has each used record as many children as name it?
fn child_counts_ok(v: &Checked) -> bool
    ensures { IsTrue result ↔ ((j : ℕ) → j < v.now.sizes.processes → Children (sizes_in v.now.sizes) (mem_in v.now.sizes v.now.bytes.now) j) }
{
    let v = *v;
    let mut children = [0; 4096];
    count_children(&v, &mut children);
    (0..v.sizes.processes).all(|j| child_count_ok(&v, &children, j))
}

// Do the records agree on who is whose parent, and on how many children each has? Where nobody lives they do, and no array is filled.
pub fn kin_ok(v: &Checked) -> bool
    requires { Aged (sizes_in v.now.sizes) (mem_in v.now.sizes v.now.bytes.now) }
    ensures { IsTrue result ↔ KinFacts (sizes_in v.now.sizes) (mem_in v.now.sizes v.now.bytes.now) }
{
    v.get(field::OLDEST, 0).is_none() || (parents_ok(v) && child_counts_ok(v))
}
