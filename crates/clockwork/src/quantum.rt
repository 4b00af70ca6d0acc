// The quantum of a process: how long it runs before another has its turn.

ghost use Rattle.state.specs.Lent.{Same};
ghost use Rattle.state.specs.Places.{mem_in};
ghost use Rattle.timer.specs.Only.{Owing};
ghost use Rattle.timer.specs.Del.{machine_in};
ghost use Rattle.clockwork.specs.Stores.{Became};
ghost use Rattle.clockwork.specs.Quantum.{quantum_stores, dispatched, QuantumAsks};
ghost use Rattle.clockwork.specs.Preempt.{PreemptDue};

use state::{Index, State, View, field};

// The quantum of record `i`, which is dispatched, ends ten ticks from now.
pub fn set_end(s: &mut State, i: Index)
    requires { QuantumAsks s.old.sizes s.old.bytes.now i }
    ensures same { Same s.old s.new }
    ensures became { Became s.old.sizes s.old.bytes.now s.new.bytes.now (quantum_stores (mem_in s.old.sizes s.old.bytes.now) i) (dispatched i (machine_in s.old.sizes s.old.bytes.now)) }
{
    let ticks = s.get(field::TICKS, 0);
    s.set(field::QUANTUM_END, i, ticks + 10);
}

// Whether the process that runs should yield: its quantum is over, and another is ready.
pub fn preempt_due(v: &View) -> bool
    requires { Owing v.now.sizes v.now.bytes.now }
    ensures { PreemptDue v.now.sizes v.now.bytes.now result }
{
    match v.get(field::UP, 0) {
        None => false,
        Some(i) => {
            let end = v.get(field::QUANTUM_END, i);
            end <= v.get(field::TICKS, 0) && v.get(field::RUN_HEAD, 0).is_some()
        }
    }
}
