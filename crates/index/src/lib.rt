// Whether the words that say which records and cells are in use are right.
#![tactic(auto)]

ghost use Rattle.std.specs.Prelude.{◌≡◌, ◌+◌, ◌<◌, ◌≤◌, Bool, ℕ, IsTrue, ◌↔◌};
ghost use Rattle.layout.specs.Table.{slot};
ghost use Rattle.state.specs.Places.{cell_in, ReachIn};
ghost use Rattle.state.specs.Regions.{slot_of};
ghost use Rattle.state.specs.WellFormed.{bits, in_use};
ghost use Rattle.index.specs.Bits.{used_bit, WordsFor, Span};
ghost use Rattle.index.specs.Words.{Asks, WordsAsk, UsedWord, UsedWords, FullWords, full_word, FullAsk, FullAsks, FullIn, IndexIn};

use memory::Number;
use rules::Checked;
use state::field::{self, Field};
use state::{Index, View};

// How many words have a bit for each of `n` records, or cells.
fn words_for(n: Index) -> Index
    requires { 1 ≤ n }
    ensures words { WordsFor n result }
    ensures small { result ≤ 1024 }
{
    (n - 1) / 64 + 1
}

// How many of the `n` numbers from `base` on are below `end`.
fn span(end: Index, base: Index, n: Index) -> Index
    ensures { Span end base n result }
{
    end.saturating_sub(base).min(n)
}

// The word whose bit `k`, for each `k` below `n`, is set where `bit(k)` is true. The highest comes first: a shift by `k` took longer.
fn word_of<F: Fn(Index) -> bool>(n: Index, bit: F) -> u64
    requires small { n ≤ 64 }
    requires tested { (k : ℕ) → k < n → F.pre bit k }
    ensures { (f : ℕ → Bool) → ((k : ℕ) (t : Bool) → k < n → F.post bit k t → t ≡ f k) → result ≡ bits f n }
{
    let mut word = 0;
    for j in 0..n {
        word *= 2;
        if bit(n - 1 - j) {
            word += 1;
        }
    }
    word
}

// Is the record, or cell, `k` from the last in use? It is where its field is not 0. The field is an argument, so that there are `n` records of it
// is a clause, here and below.
fn is_used<T: Number + Drop>(v: &View, of: Field<T>, n: Index, k: Index) -> bool
    requires reach { Asks v.now.sizes v.now.bytes.now (slot_of of T.width) n }
    requires below { k < n }
    ensures { result ≡ used_bit n (cell_in v.now.sizes v.now.bytes.now (slot_of of T.width)) k }
{
    v.get(of, n - 1 - k).value() != 0
}

// The word `w` of the records, or cells, in use.
fn used_word<T: Number + Drop>(v: &View, of: Field<T>, n: Index, w: Index) -> u64
    requires reach { Asks v.now.sizes v.now.bytes.now (slot_of of T.width) n }
    requires small { w < 1024 }
    ensures { result ≡ in_use n (cell_in v.now.sizes v.now.bytes.now (slot_of of T.width)) w 64 }
{
    let v = *v;
    word_of(span(n, 64 * w, 64), |b| is_used(&v, of, n, 64 * w + b))
}

// The word of which of the `count` words from `base` on are full, in a region of whose words only the first `n` may be.
fn full_word(v: &View, words: Field<u64>, n: Index, base: Index, count: Index) -> u64
    requires reach { FullAsk v.now.sizes v.now.bytes.now (slot_of words 8) n }
    requires small { count ≤ 64 }
    ensures { result ≡ full_word v.now.sizes v.now.bytes.now (slot_of words 8) base count }
{
    let v = *v;
    word_of(span(n, base, count), |b| v.get(words, base + b) == u64::MAX)
}

// Is word `w` of the words right that say which of `n` records, or cells, are in use?
fn used_word_ok<T: Number + Drop>(
    v: &View,
    words: Field<u64>,
    of: Field<T>,
    n: Index,
    w: Index,
) -> bool
    requires word { ReachIn v.now.sizes v.now.bytes.now (slot_of words 8) w }
    requires reach { Asks v.now.sizes v.now.bytes.now (slot_of of T.width) n }
    requires small { w < 1024 }
    ensures { IsTrue result ↔ UsedWord v.now.sizes v.now.bytes.now (slot_of words 8) (slot_of of T.width) n w }
{
    v.get(words, w) == used_word(v, of, n, w)
}

// Are the `all` words right that say which of `n` records, or cells, are in use? Those past the last are 0.
fn used_ok<T: Number + Drop>(
    v: &View,
    words: Field<u64>,
    all: Index,
    of: Field<T>,
    n: Index,
) -> bool
    requires words { WordsAsk v.now.sizes v.now.bytes.now (slot_of words 8) all n }
    requires reach { Asks v.now.sizes v.now.bytes.now (slot_of of T.width) n }
    ensures { IsTrue result ↔ UsedWords v.now.sizes v.now.bytes.now (slot_of words 8) all (slot_of of T.width) n }
{
    let v = *v;
    let end = words_for(n);
    (0..end).all(|w| used_word_ok(&v, words, of, n, w)) && (end..all).all(|w| v.get(words, w) == 0)
}

// Are the words right that say which words of the cells in use are full, of which only the first `n` may be?
fn full_words_ok(v: &View, n: Index) -> bool
    requires { FullAsk v.now.sizes v.now.bytes.now (slot 10 0 8) n }
    ensures { IsTrue result ↔ FullWords v.now.sizes v.now.bytes.now }
{
    let v = *v;
    (0..16).all(|w| v.get(field::FULL_CELL_WORDS, w)
        == full_word(&v, field::USED_CELLS, n, 64 * w, 64))
}

// Are the words right that say which words are full, where those of the records and cells in use are right?
fn full_ok(v: &View) -> bool
    requires { FullAsks v.now.sizes v.now.bytes.now }
    ensures { IsTrue result ↔ FullIn v.now.sizes v.now.bytes.now }
{
    let records = words_for(v.sizes.processes);
    let cells = words_for(v.sizes.cells);
    v.get(field::FULL_RECORDS, 0) == full_word(v, field::USED_RECORDS, records, 0, 64)
        && (v.get(field::FULL_CELLS, 0) == full_word(v, field::FULL_CELL_WORDS, 16, 0, 16)
            && full_words_ok(v, cells))
}

// Are all these words right?
pub fn index_ok(v: &Checked) -> bool
    ensures { IsTrue result ↔ IndexIn v.now.sizes v.now.bytes.now }
{
    let v = v.view();
    used_ok(&v, field::USED_RECORDS, 64, field::PID, v.sizes.processes)
        && (used_ok(&v, field::USED_CELLS, 1016, field::OWNER, v.sizes.cells) && full_ok(&v))
}
