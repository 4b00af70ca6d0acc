// Ticks of the clock, its readings, and what timers do.

ghost use Rattle.machine.specs.Update.{with_last_now, with_setting};
ghost use Rattle.state.specs.Lent.{Same};
ghost use Rattle.state.specs.Places.{mem_in};
ghost use Rattle.timer.specs.Only.{Owing};
ghost use Rattle.timer.specs.Del.{machine_in};
ghost use Rattle.clockwork.specs.Stores.{Became};
ghost use Rattle.clockwork.specs.Clock.{Ticks, tick_stores, ticked, TickAsks, now_stores};
ghost use Rattle.clockwork.specs.Reading.{BadNow};
ghost use Rattle.clockwork.specs.Settings.{setting_stores, setting_of, SettingAsks};

use crate::MOST_NOW;
use state::{Index, State, View, field};

// Clock ticks.
pub fn ticks(v: &View) -> u64
    requires { Owing v.now.sizes v.now.bytes.now }
    ensures { Ticks v.now.sizes v.now.bytes.now result }
{
    v.get(field::TICKS, 0)
}

// One tick of the clock.
pub fn tick(s: &mut State)
    requires { TickAsks s.old.sizes s.old.bytes.now }
    ensures same { Same s.old s.new }
    ensures became { Became s.old.sizes s.old.bytes.now s.new.bytes.now (tick_stores (mem_in s.old.sizes s.old.bytes.now)) (ticked (machine_in s.old.sizes s.old.bytes.now)) }
{
    let ticks = s.get(field::TICKS, 0);
    s.set(field::TICKS, 0, ticks + 1);
}

// Is a reading of the clock refused: below the last one, or over the limit?
pub fn bad_now(v: &View, reading: u64) -> bool
    ensures { BadNow v.now.sizes v.now.bytes.now reading result }
{
    reading < v.get(field::LAST_NOW, 0) || MOST_NOW < reading
}

// The clock was read.
pub fn set_now(s: &mut State, reading: u64)
    requires { Owing s.old.sizes s.old.bytes.now }
    ensures same { Same s.old s.new }
    ensures became { Became s.old.sizes s.old.bytes.now s.new.bytes.now (now_stores reading) (with_last_now reading (machine_in s.old.sizes s.old.bytes.now)) }
{
    s.set(field::LAST_NOW, 0, reading);
}

// What kernel timer `t` does: its period in counts, 0 where it fires once, and the Rendez it wakes. The 0 is the step's and the field's, as C callers
// have it: an `Option` between the two would be made of the one and taken apart for the other.
pub fn set_timer(s: &mut State, t: Index, period: u64, rendez: Index)
    requires { SettingAsks s.old.sizes s.old.bytes.now t period rendez }
    ensures same { Same s.old s.new }
    ensures became { Became s.old.sizes s.old.bytes.now s.new.bytes.now (setting_stores t period rendez) (with_setting t (setting_of period rendez) (machine_in s.old.sizes s.old.bytes.now)) }
{
    s.set(field::PERIOD, t, period);
    s.set(field::TIMER_RENDEZ, t, rendez);
}
