// The timer queue: timers by deadline, linked from the header's first link. Links are numbers of records in the lent bytes, and no boxes: the
// memory is fixed, and a C caller's.
#![tactic(auto)]

ghost use Rattle.std.specs.Prelude.{◌≡◌, ◌<◌, ◌≤◌};
ghost use Rattle.std.specs.Int.{from_bool};
ghost use Rattle.memory.specs.Link.{link};
ghost use Rattle.layout.specs.Table.{slot};
ghost use Rattle.state.specs.Fields as fields;
ghost use Rattle.state.specs.Abs.{is_set};
ghost use Rattle.state.specs.Lent.{Same};
ghost use Rattle.state.specs.Places.{mem_in, PutIn, Wrote};
ghost use Rattle.timers.specs.Find.{timers_in, TimersIn, Found, DeadlineOf, NextOf};
ghost use Rattle.timers.specs.Read.{Origin, ReadAsks};
ghost use Rattle.timers.specs.Behind.{link_behind, behind_store};
ghost use Rattle.timers.specs.Insert.{link_stores, LinkAsks, InsertAsks, Inserted};
ghost use Rattle.timers.specs.Seek.{Sought};
ghost use Rattle.timers.specs.Remove.{out_stores, remove_stores, RemoveAsks, Removed};

use memory::Number;
use state::field::{Field, Region};
use state::{Index, Link, Sizes, State, View, field};
use std::marker::PhantomData;

// The bytes of a timer's record, and of its link to the next one.
const STRIDE: usize = 24;

const LINK: usize = 2;

// `field::TIMER_HEAD` and `TIMER_NEXT` as the numbers that their links are. Here a link goes from one field to another as its number: made an
// `Option` between the load and the store, a timer added at the head and removed takes up to twice the time.
const FIRST: Field<u16> = Field(Region::Header, 34, PhantomData);

const NEXT: Field<u16> = Field(Region::TimerLink, 0, PhantomData);

// A walk reads two fields at each turn, by the numbers that links are: where their records begin stands before the loop, and the four functions
// here are a line each. `View::get` would look both regions up again at each turn, and have no record for link 0.

// Where the record of link 0 would lie, were there one: that of link n lies n records further on.
fn records(z: Sizes) -> usize
    ensures { Origin z 5 24 result }
{
    z.start_of(Region::Timer) - STRIDE
}

// The same of the links.
fn links(z: Sizes) -> usize
    ensures { Origin z 12 2 result }
{
    z.start_of(Region::TimerLink) - LINK
}

// The deadline in the record of a link; any number for link 0.
fn deadline_at(v: &View, from: usize, link: usize) -> u64
    requires { ReadAsks v.now.sizes v.now.bytes.now 5 24 from link }
    ensures { DeadlineOf (mem_in v.now.sizes v.now.bytes.now) link result }
{
    u64::load(v.bytes, from + link * STRIDE)
}

// The link behind a link; any number for link 0.
fn next_at(v: &View, from: usize, link: usize) -> usize
    requires { ReadAsks v.now.sizes v.now.bytes.now 12 2 from link }
    ensures { NextOf (mem_in v.now.sizes v.now.bytes.now) link result }
{
    u16::load(v.bytes, from + link * LINK) as usize
}

// The number of the queue's first link.
fn first(v: &View) -> usize
    requires { TimersIn v.now.sizes v.now.bytes.now }
    ensures { result ≡ mem_in v.now.sizes v.now.bytes.now fields.timer_head 0 }
{
    usize::from(v.get(FIRST, 0))
}

// The link that a number says: 0 is none, i + 1 leads to timer i.
fn link_of(n: usize) -> Link
    requires { n ≤ 65535 }
    ensures { link result ≡ n }
{
    if n == 0 { None } else { Some((n - 1) as Index) }
}

// `walk_before` and `walk_link` are two loops, since they stop by another test, at another place: before the timer that is looked at, and at the
// one that is passed. A function of both would take the test as a closure, whose contract would be the loop's invariant again.

// The number of the link behind which a timer with this deadline goes: at the end, or before the first later timer.
// Links are numbers here, and the loop ends by `break`, since an `Option` takes a fifth more time from link to link.
fn walk_before(v: &View, deadline: u64) -> usize
    requires { TimersIn v.now.sizes v.now.bytes.now }
    ensures { Found v.now.sizes (mem_in v.now.sizes v.now.bytes.now) deadline result }
{
    let from = records(v.sizes);
    let nexts = links(v.sizes);
    let mut prev: usize = 0;
    let mut link = first(v);
    let mut key = deadline_at(v, from, link);
    let at = loop {
        if link == 0 {
            break prev;
        }
        if deadline < key {
            break prev;
        }
        prev = link;
        link = next_at(v, nexts, link);
        key = deadline_at(v, from, link);
    };
    at
}

// The link behind which a timer with this deadline goes, none for the front: at the end, or before the first later timer.
pub fn find_before(v: &View, deadline: u64) -> Link
    requires { TimersIn v.now.sizes v.now.bytes.now }
    ensures { Found v.now.sizes (mem_in v.now.sizes v.now.bytes.now) deadline (link result) }
{
    link_of(walk_before(v, deadline))
}

// The number of the link behind a link, the queue's first for none.
fn behind(s: &State, at: Link) -> u16
    requires { link at ≤ timers_in s.now.sizes }
    ensures { result ≡ link_behind (mem_in s.now.sizes s.now.bytes.now) (link at) }
{
    match at {
        None => s.get(FIRST, 0),
        Some(p) => s.get(NEXT, p),
    }
}

// Stores the link of the number `to` behind a link, as the queue's first for none.
fn set_behind(s: &mut State, at: Link, to: u16)
    requires range { link at ≤ timers_in s.old.sizes }
    ensures same { Same s.old s.new }
    ensures stored { Wrote s.old.sizes s.old.bytes.now s.new.bytes.now (behind_store (link at) to) }
{
    match at {
        None => s.set(FIRST, 0, to),
        Some(p) => s.set(NEXT, p, to),
    }
}

// Links timer `t` in behind the link `at`, none for the front.
fn link_in(s: &mut State, at: Link, t: Index)
    requires { LinkAsks s.old.sizes s.old.bytes.now (link at) t }
    ensures same { Same s.old s.new }
    ensures stored { Wrote s.old.sizes s.old.bytes.now s.new.bytes.now (link_stores (mem_in s.old.sizes s.old.bytes.now) (link at) t) }
{
    let next = behind(s, at);
    s.set(NEXT, t, next);
    set_behind(s, at, t + 1);
}

// Whether timer `t` is queued: the field is a number, 1 or 0, as C callers read it.
pub fn is_queued(v: &View, t: Index) -> bool
    requires { t < timers_in v.now.sizes }
    ensures { result ≡ is_set (mem_in v.now.sizes v.now.bytes.now fields.is_queued t) }
{
    v.get(field::IS_QUEUED, t) != 0
}

// Timer `t` is queued or not.
fn set_queued(s: &mut State, t: Index, queued: bool)
    requires { t < timers_in s.old.sizes }
    ensures same { Same s.old s.new }
    ensures put { PutIn s.old.sizes s.old.bytes.now s.new.bytes.now (slot 5 20 1) t (from_bool queued) }
{
    s.set(field::IS_QUEUED, t, u8::from(queued));
}

// Queues timer `t` by its deadline, after any timer with the same.
#[inline(always)]
pub fn insert(s: &mut State, t: Index, deadline: u64)
    requires { InsertAsks s.old.sizes s.old.bytes.now t }
    ensures same { Same s.old s.new }
    ensures inserted { Inserted s.old.sizes s.old.bytes.now s.new.bytes.now t deadline }
{
    // lent on as a state of this frame: no store to its bytes can then be one to its sizes (docs/DECISIONS.md, 78)
    let sizes = s.sizes;
    let bytes = &mut *s.bytes;
    let s = &mut State { bytes, sizes };
    let at = find_before(&s.view(), deadline);
    link_in(s, at, t);
    s.set(field::DEADLINE, t, deadline);
    set_queued(s, t, true);
}

// The number of the link to the timer before `t`: at the end, or where the next is `t`. Links are numbers, as in `walk_before`.
fn walk_link(v: &View, t: Index) -> usize
    requires { TimersIn v.now.sizes v.now.bytes.now }
    ensures { Sought v.now.sizes (mem_in v.now.sizes v.now.bytes.now) t result }
{
    let nexts = links(v.sizes);
    let mine = t as usize + 1;
    let mut link = first(v);
    if link == 0 {
        return 0;
    }
    if link == mine {
        return 0;
    }
    let at = loop {
        let next = next_at(v, nexts, link);
        if next == 0 {
            break link;
        }
        if next == mine {
            break link;
        }
        link = next;
    };
    at
}

// The link to the timer before `t`, none for the front: at the end, or where the next is `t`.
fn find_link(v: &View, t: Index) -> Link
    requires { TimersIn v.now.sizes v.now.bytes.now }
    ensures { Sought v.now.sizes (mem_in v.now.sizes v.now.bytes.now) t (link result) }
{
    link_of(walk_link(v, t))
}

// Takes timer `t` out from behind the link `at`, none for the front.
fn link_out(s: &mut State, at: Link, t: Index)
    requires { LinkAsks s.old.sizes s.old.bytes.now (link at) t }
    ensures same { Same s.old s.new }
    ensures stored { Wrote s.old.sizes s.old.bytes.now s.new.bytes.now (out_stores (mem_in s.old.sizes s.old.bytes.now) (link at) t) }
{
    let next = s.get(NEXT, t);
    set_behind(s, at, next);
    s.set(NEXT, t, 0);
}

// Takes timer `t` off the queue, from behind the link `at`, none for the front.
#[inline(always)]
pub fn take_out(s: &mut State, at: Link, t: Index)
    requires { LinkAsks s.old.sizes s.old.bytes.now (link at) t }
    ensures same { Same s.old s.new }
    ensures stored { Wrote s.old.sizes s.old.bytes.now s.new.bytes.now (remove_stores (mem_in s.old.sizes s.old.bytes.now) 1 (link at) t) }
{
    link_out(s, at, t);
    set_queued(s, t, false);
}

// Takes timer `t` off the queue, if it is queued.
#[inline(always)]
pub fn remove(s: &mut State, t: Index)
    requires { RemoveAsks s.old.sizes s.old.bytes.now t }
    ensures same { Same s.old s.new }
    ensures removed { Removed s.old.sizes s.old.bytes.now s.new.bytes.now t }
{
    // lent on as a state of this frame: no store to its bytes can then be one to its sizes (docs/DECISIONS.md, 78)
    let sizes = s.sizes;
    let bytes = &mut *s.bytes;
    let s = &mut State { bytes, sizes };
    let v = s.view();
    if !is_queued(&v, t) {
        return;
    }
    let at = find_link(&v, t);
    take_out(s, at, t);
}
