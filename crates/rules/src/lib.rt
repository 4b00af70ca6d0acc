// When bytes are a well-formed state, as facts that a loop can decide; and a state that is read once every field was found in range.
#![tactic(auto)]

ghost use Rattle.std.specs.Prelude.{◌≡◌};
ghost use Rattle.state.specs.Places.{cell_in, ReachIn};
ghost use Rattle.state.specs.Regions.{slot_of};
ghost use Rattle.rules.specs.Code.{Whole};

use memory::Number;
use state::field::Field;
use state::{Index, Sizes, View};

// A state to be read. The bytes are at least those of a state of these sizes, the sizes are in range, and so is every field.
#[derive(Clone, Copy, Debug, PartialEq, Eq)]
pub struct Checked<'a> {
    pub bytes: &'a [u8],
    pub sizes: Sizes,
    pub ghost whole: { ∥ Whole sizes bytes.now ∥₁ },
}

impl Checked<'_> {
    // The same bytes, of which no more is known than that they are long enough.
    pub fn view(&self) -> View<'_>
        ensures bytes { result.bytes.now ≡ self.now.bytes.now }
        ensures sizes { result.sizes ≡ self.now.sizes }
    {
        View {
            bytes: self.bytes,
            sizes: self.sizes,
        }
    }

    // A field of record `i`. Beside `View::get`, since `view().get(..)` at each place would be no plainer.
    pub fn get<T: Number>(&self, f: Field<T>, i: Index) -> T
        requires { ReachIn self.now.sizes self.now.bytes.now (slot_of f T.width) i }
        ensures value { T.number result ≡ cell_in self.now.sizes self.now.bytes.now (slot_of f T.width) i }
        ensures fits { T.fits result }
    {
        self.view().get(f, i)
    }
}
