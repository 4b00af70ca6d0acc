// Conditions: what sleepers wait for. The field of one is a byte, 1 or 0, as C callers read it: a `bool` here, and a number there alone.

ghost use Rattle.machine.specs.Update.{with_condition};
ghost use Rattle.state.specs.Lent.{Same};
ghost use Rattle.timer.specs.Only.{Owing};
ghost use Rattle.timer.specs.Del.{machine_in};
ghost use Rattle.clockwork.specs.Stores.{Became};
ghost use Rattle.clockwork.specs.Conditions.{Condition, condition_stores};

use state::{Index, State, View, field};

// Whether condition `c` is true.
pub fn holds(v: &View, c: u8) -> bool
    requires { Owing v.now.sizes v.now.bytes.now }
    ensures { Condition v.now.sizes v.now.bytes.now c result }
{
    v.get(field::CONDITION_BIT, Index::from(c)) != 0
}

// Makes condition `c` true or false.
pub fn set(s: &mut State, c: u8, v: bool)
    requires { Owing s.old.sizes s.old.bytes.now }
    ensures same { Same s.old s.new }
    ensures became { Became s.old.sizes s.old.bytes.now s.new.bytes.now (condition_stores c v) (with_condition c v (machine_in s.old.sizes s.old.bytes.now)) }
{
    s.set(field::CONDITION_BIT, Index::from(c), u8::from(v));
}
