// The lent bytes of a state with their sizes: read by a `View`, read and written by a `State`. The records in them are linked by their
// numbers: the C interface lends fixed memory, and the library has no heap.

ghost use Rattle.std.specs.Prelude.{◌≤◌, length};
ghost use Rattle.state.specs.Places.{total_in};

use crate::Sizes;

// A state to be read. The bytes are at least those of a state of these sizes.
#[derive(Clone, Copy, Debug, PartialEq, Eq)]
pub struct View<'a> {
    pub bytes: &'a [u8],
    pub sizes: Sizes,
    pub ghost long: { total_in sizes ≤ length bytes.now },
}

// A state to be read and written. The bytes are at least those of a state of these sizes. It has no `PartialEq`, since a `&mut` slice has
// none.
#[derive(Drop, Debug)]
pub struct State<'a> {
    pub bytes: &'a mut [u8],
    pub sizes: Sizes,
    pub ghost long: { total_in sizes ≤ length bytes.now },
}
