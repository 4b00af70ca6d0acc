// A process record by value: loaded whole from the state, and stored whole.
#![tactic(auto)]

pub mod name;

ghost use Rattle.std.specs.Prelude.{is_some, ◌≡◌, ◌+◌, ◌*◌, ◌<◌, ◌≤◌};
ghost use Rattle.std.specs.Option.{unwrap_or};
ghost use Rattle.record.specs.Resumes.{number_of, object_of, condition_of, resume_is};
ghost use Rattle.state.specs.Process.{call_number};
ghost use Rattle.state.specs.WellFormed.{has_object, has_condition};
ghost use Rattle.state.specs.Places.{Wrote};
ghost use Rattle.state.specs.Lent.{Same};
ghost use Rattle.record.specs.Stores.{LinksFit, id_stores, tie_stores, count_stores, resume_stores, number_stores, record_stores};
ghost use Rattle.record.specs.Loads.{Loaded, ResumeLoaded};

use state::{CallKind, Count, Index, Link, State, View, field};

// Where a switched-out call goes on. That it goes on nowhere is a case, as in the machine and in the numbers of docs/STATE.md: an Option would
// have to be made from that number, and turned into it again.
#[derive(Clone, Copy, Debug, PartialEq, Eq)]
pub enum Resume {
    Nothing,
    Sleep { rendez: Index, condition: u8 },
    Tsleep { rendez: Index, condition: u8 },
    Qlock { lock: Index },
    Wait,
}

// A process record. The name is twenty-eight bytes, zero-filled: the state that is lent has fixed memory, and no heap. `state` is the number of
// a `ProcState` as the byte has it, since a record is loaded and stored whatever the byte says.
#[derive(Clone, Copy, Debug, PartialEq, Eq)]
pub struct Proc {
    pub pid: u64,
    pub parent: u64,
    pub quantum_end: u64,
    pub next: Link,
    pub older: Link,
    pub younger: Link,
    pub parent_at: Link,
    pub nchild: Count,
    pub exits: Link,
    pub nexits: u8,
    pub state: u8,
    pub resume: Resume,
    pub text: [u8; 28],
}

impl Resume {
    // The case of the kind with a number, and the object and the condition that it has. A number that no kind has says `Nothing`.
    pub fn of(kind: u8, object: Index, condition: u8) -> Resume
        ensures { resume_is kind object condition result }
    {
        match CallKind::of(kind) {
            Some(CallKind::Sleep) => Resume::Sleep {
                rendez: object,
                condition,
            },
            Some(CallKind::Tsleep) => Resume::Tsleep {
                rendez: object,
                condition,
            },
            Some(CallKind::Qlock) => Resume::Qlock { lock: object },
            Some(CallKind::Wait) => Resume::Wait,
            Some(CallKind::Nothing) => Resume::Nothing,
            None => Resume::Nothing,
        }
    }

    // The kind of a case.
    pub fn kind(self) -> CallKind
        ensures { call_number result ≡ number_of self }
    {
        match self {
            Resume::Nothing => CallKind::Nothing,
            Resume::Sleep { .. } => CallKind::Sleep,
            Resume::Tsleep { .. } => CallKind::Tsleep,
            Resume::Qlock { .. } => CallKind::Qlock,
            Resume::Wait => CallKind::Wait,
        }
    }

    // The Rendez or the lock of a case that has one.
    pub fn object(self) -> Option<Index>
        ensures value { unwrap_or result 0 ≡ object_of self }
        ensures there { is_some result ≡ has_object (number_of self) }
    {
        match self {
            Resume::Nothing | Resume::Wait => None,
            Resume::Sleep { rendez, .. } | Resume::Tsleep { rendez, .. } => Some(rendez),
            Resume::Qlock { lock } => Some(lock),
        }
    }

    // The condition of a case that has one.
    pub fn condition(self) -> Option<u8>
        ensures value { unwrap_or result 0 ≡ condition_of self }
        ensures there { is_some result ≡ has_condition (number_of self) }
    {
        match self {
            Resume::Sleep { condition, .. } | Resume::Tsleep { condition, .. } => Some(condition),
            Resume::Nothing | Resume::Qlock { .. } | Resume::Wait => None,
        }
    }

    // The call of record `i`.
    pub fn load(v: &View, i: Index) -> Resume
        requires { i < v.now.sizes.processes }
        ensures { ResumeLoaded v.now.sizes v.now.bytes.now i result }
    {
        Resume::of(
            v.get(field::RESUME_KIND, i),
            v.get(field::RESUME_OBJECT, i),
            v.get(field::RESUME_CONDITION, i),
        )
    }

    // Stores where the call of record `i` goes on. What its case does not have is stored as 0.
    pub fn store(self, s: &mut State, i: Index)
        requires { i < s.old.sizes.processes }
        ensures same { Same s.old s.new }
        ensures stored { Wrote s.old.sizes s.old.bytes.now s.new.bytes.now (resume_stores i self) }
    {
        s.set(field::RESUME_KIND, i, self.kind().number());
        s.set(field::RESUME_OBJECT, i, self.object().unwrap_or(0));
        s.set(field::RESUME_CONDITION, i, self.condition().unwrap_or(0));
    }
}

impl Proc {
    // Record `i`, whole.
    pub fn load(v: &View, i: Index) -> Proc
        requires { i < v.now.sizes.processes }
        ensures loaded { Loaded v.now.sizes v.now.bytes.now i result }
        ensures fit { LinksFit result }
    {
        let text = name::load(v, i);
        Proc {
            pid: v.get(field::PID, i),
            parent: v.get(field::PARENT, i),
            quantum_end: v.get(field::QUANTUM_END, i),
            next: v.get(field::NEXT, i),
            older: v.get(field::OLDER, i),
            younger: v.get(field::YOUNGER, i),
            parent_at: v.get(field::PARENT_AT, i),
            nchild: v.get(field::NCHILD, i),
            exits: v.get(field::EXITS, i),
            nexits: v.get(field::NEXITS, i),
            state: v.get(field::STATE_OF, i),
            resume: Resume::load(v, i),
            text,
        }
    }

    // Stores the pid, the parent's pid and the end of the quantum.
    fn store_ids(self, s: &mut State, i: Index)
        requires { i < s.old.sizes.processes }
        ensures same { Same s.old s.new }
        ensures stored { Wrote s.old.sizes s.old.bytes.now s.new.bytes.now (id_stores i self) }
    {
        s.set(field::PID, i, self.pid);
        s.set(field::PARENT, i, self.parent);
        s.set(field::QUANTUM_END, i, self.quantum_end);
    }

    // Stores the links. Four stores, each of a field of its own: a loop over pairs of a field and a link would be no plainer.
    fn store_ties(self, s: &mut State, i: Index)
        requires index { i < s.old.sizes.processes }
        requires fit { LinksFit self }
        ensures same { Same s.old s.new }
        ensures stored { Wrote s.old.sizes s.old.bytes.now s.new.bytes.now (tie_stores i self) }
    {
        s.set(field::NEXT, i, self.next);
        s.set(field::OLDER, i, self.older);
        s.set(field::YOUNGER, i, self.younger);
        s.set(field::PARENT_AT, i, self.parent_at);
    }

    // Stores the counts of children and exits, and the state: fields of three types, so that no loop is over them.
    fn store_counts(self, s: &mut State, i: Index)
        requires index { i < s.old.sizes.processes }
        requires fit { LinksFit self }
        ensures same { Same s.old s.new }
        ensures stored { Wrote s.old.sizes s.old.bytes.now s.new.bytes.now (count_stores i self) }
    {
        s.set(field::NCHILD, i, self.nchild);
        s.set(field::EXITS, i, self.exits);
        s.set(field::NEXITS, i, self.nexits);
        s.set(field::STATE_OF, i, self.state);
    }

    // Stores the numbers of a record.
    fn store_numbers(self, s: &mut State, i: Index)
        requires index { i < s.old.sizes.processes }
        requires fit { LinksFit self }
        ensures same { Same s.old s.new }
        ensures stored { Wrote s.old.sizes s.old.bytes.now s.new.bytes.now (number_stores i self) }
    {
        self.store_ids(s, i);
        self.store_ties(s, i);
        self.store_counts(s, i);
    }

    // Stores record `i`, whole.
    pub fn store(self, s: &mut State, i: Index)
        requires index { i < s.old.sizes.processes }
        requires fit { LinksFit self }
        ensures same { Same s.old s.new }
        ensures stored { Wrote s.old.sizes s.old.bytes.now s.new.bytes.now (record_stores i self) }
    {
        self.store_numbers(s, i);
        self.resume.store(s, i);
        name::store(s, i, self.text);
    }
}
