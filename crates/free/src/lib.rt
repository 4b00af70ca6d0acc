// Which process records and message cells are free, found and marked by words of bits: no function here looks at all records or cells. They are
// numbers of places in the lent bytes, and no boxes: the memory is fixed, and a C caller's.
#![tactic(auto)]

ghost use Rattle.std.specs.Prelude.{◌≡◌, ◌-◌, ◌<◌, IfSome, IfNone};
ghost use Rattle.memory.specs.Link.{link};
ghost use Rattle.state.specs.Lent.{Same};
ghost use Rattle.state.specs.Regions.{region_number};
ghost use Rattle.state.specs.Fields.{pid, owner};
ghost use Rattle.state.specs.Places.{mem_in};
ghost use Rattle.free.specs.Asks.{RecordsIn, CellsIn};
ghost use Rattle.free.specs.FindRecord.{RecordFound};
ghost use Rattle.free.specs.FindCell.{CellFound};
ghost use Rattle.free.specs.UseRecord.{UseRecordAsks, UseRecordDone, DropRecordAsks, DropRecordDone};
ghost use Rattle.free.specs.UseCell.{UseCellAsks, UseCellDone, DropCellAsks, DropCellDone};
ghost use Rattle.free.specs.Bit.{FirstClear, SetAsks, SetDone, ClearAsks, ClearDone};

use state::field::{self, Field};
use state::{Index, State, View};

// The lowest clear bit of a word, none where it is full. The count of bits, a u32, is at most 64: the cast loses nothing.
fn first_clear(word: u64) -> Option<Index>
    ensures some { IfSome result (λ b. FirstClear word b × (b < 64)) }
    ensures none { IfNone result (FirstClear word 64) }
{
    let b = word.trailing_ones();
    if b < 64 { Some(b as Index) } else { None }
}

// Sets bit `b` of word `w` of a field. Is the word full now? `clear_bit` asks whether it was, so one function for both would have both bodies.
fn set_bit(s: &mut State, words: Field<u64>, w: Index, b: Index) -> bool
    requires { SetAsks s.old.sizes s.old.bytes.now (region_number words.0) words.1 w b }
    ensures same { Same s.old s.new }
    ensures done { SetDone s.old.sizes s.old.bytes.now s.new.bytes.now (region_number words.0) words.1 w b result }
{
    let old = s.get(words, w);
    let new = old + (1u64 << b);
    s.set(words, w, new);
    new == u64::MAX
}

// Clears bit `b` of word `w` of a field. Was the word full?
fn clear_bit(s: &mut State, words: Field<u64>, w: Index, b: Index) -> bool
    requires { ClearAsks s.old.sizes s.old.bytes.now (region_number words.0) words.1 w b }
    ensures same { Same s.old s.new }
    ensures done { ClearDone s.old.sizes s.old.bytes.now s.new.bytes.now (region_number words.0) words.1 w b result }
{
    let old = s.get(words, w);
    s.set(words, w, old - (1u64 << b));
    old == u64::MAX
}

// The number `k` from the last of `n`, none past the first.
fn from_last(n: Index, k: Index) -> Option<Index>
    ensures { link result ≡ n - k }
{
    if k < n { Some(n - 1 - k) } else { None }
}

// The free record of the highest number, none where no record is free.
pub fn find_record(s: &View) -> Option<Index>
    requires { RecordsIn s.now.sizes s.now.bytes.now (mem_in s.now.sizes s.now.bytes.now pid) }
    ensures { RecordFound s.now.sizes s.now.bytes.now (link result) }
{
    let w = first_clear(s.get(field::FULL_RECORDS, 0))?;
    let b = first_clear(s.get(field::USED_RECORDS, w))?;
    from_last(s.sizes.processes, 64 * w + b)
}

// A record's bit has words on two levels and a cell's on three, and a bit that is set goes up where a word gets full, one that is cleared where
// it was: one function for records and cells, or for both ways, would be a loop over levels with a flag, and no plainer than the ifs here.

// Marks record `i` as in use.
pub fn use_record(s: &mut State, i: Index)
    requires { UseRecordAsks s.old.sizes s.old.bytes.now i }
    ensures same { Same s.old s.new }
    ensures done { UseRecordDone s.old.sizes s.old.bytes.now s.new.bytes.now i }
{
    let k = s.sizes.processes - 1 - i;
    let w = k / 64;
    let full = set_bit(s, field::USED_RECORDS, w, k % 64);
    if full {
        set_bit(s, field::FULL_RECORDS, 0, w);
    }
}

// Marks record `i` as free.
pub fn drop_record(s: &mut State, i: Index)
    requires { DropRecordAsks s.old.sizes s.old.bytes.now i }
    ensures same { Same s.old s.new }
    ensures done { DropRecordDone s.old.sizes s.old.bytes.now s.new.bytes.now i }
{
    let k = s.sizes.processes - 1 - i;
    let w = k / 64;
    let full = clear_bit(s, field::USED_RECORDS, w, k % 64);
    if full {
        clear_bit(s, field::FULL_RECORDS, 0, w);
    }
}

// The free cell of the highest number, none where no cell is free.
pub fn find_cell(s: &View) -> Option<Index>
    requires { CellsIn s.now.sizes s.now.bytes.now (mem_in s.now.sizes s.now.bytes.now owner) }
    ensures { CellFound s.now.sizes s.now.bytes.now (link result) }
{
    let v = first_clear(s.get(field::FULL_CELLS, 0))?;
    let b = first_clear(s.get(field::FULL_CELL_WORDS, v))?;
    let w = 64 * v + b;
    let c = first_clear(s.get(field::USED_CELLS, w))?;
    from_last(s.sizes.cells, 64 * w + c)
}

// Marks cell `i` as in use.
pub fn use_cell(s: &mut State, i: Index)
    requires { UseCellAsks s.old.sizes s.old.bytes.now i }
    ensures same { Same s.old s.new }
    ensures done { UseCellDone s.old.sizes s.old.bytes.now s.new.bytes.now i }
{
    let k = s.sizes.cells - 1 - i;
    let w = k / 64;
    let full = set_bit(s, field::USED_CELLS, w, k % 64);
    if full {
        let above = set_bit(s, field::FULL_CELL_WORDS, w / 64, w % 64);
        if above {
            set_bit(s, field::FULL_CELLS, 0, w / 64);
        }
    }
}

// Marks cell `i` as free.
pub fn drop_cell(s: &mut State, i: Index)
    requires { DropCellAsks s.old.sizes s.old.bytes.now i }
    ensures same { Same s.old s.new }
    ensures done { DropCellDone s.old.sizes s.old.bytes.now s.new.bytes.now i }
{
    let k = s.sizes.cells - 1 - i;
    let w = k / 64;
    let full = clear_bit(s, field::USED_CELLS, w, k % 64);
    if full {
        let above = clear_bit(s, field::FULL_CELL_WORDS, w / 64, w % 64);
        if above {
            clear_bit(s, field::FULL_CELLS, 0, w / 64);
        }
    }
}
