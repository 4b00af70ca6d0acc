// The name of a process: twenty-eight bytes, zero-filled.

ghost use Rattle.std.specs.Prelude.{◌*◌, ◌<◌};
ghost use Rattle.state.specs.Places.{Wrote};
ghost use Rattle.state.specs.Lent.{Same};
ghost use Rattle.record.specs.Stores.{name_stores};
ghost use Rattle.record.specs.Loads.{Named};

use state::{Index, State, View};

// The name of record `i`.
pub fn load(v: &View, i: Index) -> [u8; 28]
    requires { i < v.now.sizes.processes }
    ensures { Named v.now.sizes v.now.bytes.now i result }
{
    let at = v.sizes.name_at(i);
    let mut text = [0u8; 28];
    text.copy_from_slice(&v.bytes[at..at + 28]);
    text
}

// Stores the name of record `i`.
pub fn store(s: &mut State, i: Index, text: [u8; 28])
    requires { i < s.old.sizes.processes }
    ensures same { Same s.old s.new }
    ensures stored { Wrote s.old.sizes s.old.bytes.now s.new.bytes.now (name_stores (28 * i) text) }
{
    let at = s.sizes.name_at(i);
    s.bytes[at..at + 28].copy_from_slice(&text);
}
