// A line of the input of `steps` to the bytes of its step.
#![tactic(auto)]

ghost use Rattle.std.specs.Prelude.{◌≡◌, ◌≢◌, ◌∷◌, ◌+◌, ◌*◌, ◌≤◌, ◌<◌, ◌==◌, length, drop, IfSome, IfNone, IsTrue, MatchOption, ◌↔◌, position};
ghost use Rattle.std.proofs.Math.Option.{none, some};
ghost use Rattle.machine.specs.Step.{kinds};
ghost use Rattle.machine.specs.Parse.{first_word, after_space, fields_in, number, step_with, parse_body, parse_line};
ghost use Rattle.parse.specs.declared.Kind.{Kind};
ghost use Rattle.parse.specs.Kinds.{number as number_of, word_of, form_of, IsOfForm};
ghost use Rattle.parse.specs.Words.{rest_of};
ghost use Rattle.parse.specs.Fields.{exactly};
ghost use Rattle.parse.specs.Puts.{number_bytes, text_bytes, Put, Stored, TextAsks};
ghost use Rattle.parse.specs.Parsed.{bit, Asks, IsParsed};

use memory::Number;

// The most bytes of a line that is a step.
const LINE_MOST: usize = 4_096;

// The most bytes of a kind's word: those of `canqlock`.
const WORD_MOST: usize = 8;

// The kinds of step, with the number of each.
#[derive(Clone, Copy, Debug, PartialEq, Eq)]
enum Kind {
    Start = 1,
    Rfork = 2,
    Name = 3,
    Sched = 4,
    Yield = 5,
    Sleep = 6,
    Tsleep = 7,
    Wakeup = 8,
    Qlock = 9,
    Canqlock = 10,
    Qunlock = 11,
    Cond = 12,
    Clock = 13,
    Tadd = 14,
    Tdel = 15,
    Intr = 16,
    Due = 17,
    Exit = 18,
    Wait = 19,
}

// What a step has behind its word: so many numbers, or a byte string.
#[derive(Clone, Copy, Debug, PartialEq, Eq)]
enum Fields {
    Numbers(usize),
    Bytes,
}

// What a step's bytes begin with: its kind, and whether its line is marked.
#[derive(Clone, Copy, Debug, PartialEq, Eq)]
struct Head {
    kind: Kind,
    marked: bool,
}

impl Kind {
    // The kind whose word this is.
    #[tactic(auto, using(std::proofs::lemmas::Slice::Eq::text_from_reads))]
    fn named(word: &[u8]) -> Option<Kind>
        ensures found { IfSome result (λ k. word.now ≡ word_of k) }
        ensures none { IfNone result ((k : Kind) → word.now ≢ word_of k) }
    {
        match word {
            b"start" => Some(Kind::Start),
            b"rfork" => Some(Kind::Rfork),
            b"name" => Some(Kind::Name),
            b"sched" => Some(Kind::Sched),
            b"yield" => Some(Kind::Yield),
            b"sleep" => Some(Kind::Sleep),
            b"tsleep" => Some(Kind::Tsleep),
            b"wakeup" => Some(Kind::Wakeup),
            b"qlock" => Some(Kind::Qlock),
            b"canqlock" => Some(Kind::Canqlock),
            b"qunlock" => Some(Kind::Qunlock),
            b"cond" => Some(Kind::Cond),
            b"clock" => Some(Kind::Clock),
            b"tadd" => Some(Kind::Tadd),
            b"tdel" => Some(Kind::Tdel),
            b"intr" => Some(Kind::Intr),
            b"due" => Some(Kind::Due),
            b"exit" => Some(Kind::Exit),
            b"wait" => Some(Kind::Wait),
            _ => None,
        }
    }

    // What a step of this kind has behind its word.
    #[tactic(auto, unfolding(crate::specs::Kinds::form_of, machine::specs::Step::kinds))]
    fn fields(self) -> Fields
        ensures { IsOfForm result (form_of kinds (number_of self)) }
    {
        match self {
            Kind::Sched | Kind::Yield | Kind::Due | Kind::Wait => Fields::Numbers(0),
            Kind::Start => Fields::Numbers(1),
            Kind::Wakeup | Kind::Qlock | Kind::Canqlock | Kind::Qunlock => Fields::Numbers(1),
            Kind::Clock | Kind::Tdel | Kind::Intr => Fields::Numbers(1),
            Kind::Rfork | Kind::Sleep | Kind::Cond => Fields::Numbers(2),
            Kind::Tsleep => Fields::Numbers(5),
            Kind::Tadd => Fields::Numbers(6),
            Kind::Name | Kind::Exit => Fields::Bytes,
        }
    }
}

// The place of the first space.
fn space(line: &[u8]) -> Option<usize>
    ensures { result ≡ position (λ b. b == 32) line.now }
{
    line.iter().position(|b| *b == b' ')
}

// The first word of a line, and what stands behind the first space, where there is one.
fn split(line: &[u8]) -> (&[u8], Option<&[u8]>)
    ensures word { result.0.now ≡ first_word line.now }
    ensures rest { rest_of result.1 ≡ after_space line.now }
{
    match space(line) {
        Some(i) => (&line[..i], Some(&line[i + 1..])),
        None => (line, None),
    }
}

// Is the first word of a line longer than any kind's? Looks at no more of the line than tells it.
fn has_long_word(line: &[u8]) -> bool
    ensures { IsTrue result ↔ 8 < length (first_word line.now) }
{
    WORD_MOST < line.len() && space(&line[..WORD_MOST + 1]).is_none()
}

// The number that the first word of a line is in decimal, and what stands behind the first space, where there is one: digits alone,
// of a number below 2^64. Looks at no byte behind the first that tells that there is none.
fn first_number(line: &[u8]) -> Option<(u64, Option<&[u8]>)>
    ensures found { IfSome result (λ r. number (first_word line.now) ≡ some r.0) }
    ensures rest { IfSome result (λ r. rest_of r.1 ≡ after_space line.now) }
    ensures none { IfNone result (number (first_word line.now) ≡ none) }
{
    if line.is_empty() || line[0] == b' ' {
        return None;
    }
    let mut value: u64 = 0;
    for (i, b) in line.iter().enumerate() {
        if !b.is_ascii_digit() {
            if *b == b' ' {
                return Some((value, Some(&line[i + 1..])));
            }
            return None;
        }
        value = value.checked_mul(10)?.checked_add(u64::from(*b - b'0'))?;
    }
    Some((value, None))
}

// Reads what stands behind a word as exactly so many numbers.
fn read_numbers(rest: Option<&[u8]>, numbers: &mut [u64]) -> Option<()>
    ensures read { IfSome result (λ u. exactly (length numbers.old) (fields_in (rest_of rest.entry)) ≡ some numbers.new) }
    ensures unread { IfNone result (exactly (length numbers.old) (fields_in (rest_of rest.entry)) ≡ none) }
{
    let mut rest = rest;
    for n in numbers.iter_mut() {
        let (value, more) = first_number(rest?)?;
        *n = value;
        rest = more;
    }
    match rest {
        None => Some(()),
        Some(_) => None,
    }
}

// Writes the kind byte and the context byte.
fn put_head(out: &mut [u8], head: Head)
    requires { 2 ≤ length out.old }
    ensures { out.new ≡ number_of head.kind ∷ bit head.marked ∷ drop 2 out.old }
{
    out[0] = head.kind as u8;
    out[1] = u8::from(head.marked);
}

// Writes numbers from byte 2 on.
fn store(out: &mut [u8], numbers: &[u64])
    requires { 2 + 8 * length numbers.now ≤ length out.old }
    ensures { Stored numbers.now out.old out.new }
{
    for (j, n) in numbers.iter().enumerate() {
        n.store(out, 2 + 8 * j);
    }
}

// Writes a step with numbers as its fields; how many bytes it is.
fn put_numbers(out: &mut [u8], head: Head, numbers: &[u64]) -> usize
    requires { 2 + 8 * length numbers.now ≤ length out.old }
    ensures { Put (number_bytes (number_of head.kind) (bit head.marked) numbers.now) out.old out.new result }
{
    put_head(out, head);
    store(out, numbers);
    2 + 8 * numbers.len()
}

// Writes a step with a byte string as its field; how many bytes it is.
fn put_string(out: &mut [u8], head: Head, text: &[u8]) -> usize
    requires { TextAsks out.old text.now }
    ensures { Put (text_bytes (number_of head.kind) (bit head.marked) text.now) out.old out.new result }
{
    let end = 6 + text.len();
    put_head(out, head);
    // a cast, proved to lose nothing: `try_from` would answer a `Result` that is never an `Err`
    (text.len() as u32).store(out, 2);
    out[6..end].copy_from_slice(text);
    end
}

// The step bytes of a line without its mark.
fn body(line: &[u8], marked: bool, out: &mut [u8]) -> Option<usize>
    requires { Asks line.now out.old }
    ensures { IsParsed (step_with marked (parse_body kinds line.now)) out.old out.new result }
{
    if has_long_word(line) {
        return None;
    }
    let (word, rest) = split(line);
    let kind = Kind::named(word)?;
    let head = Head { kind, marked };
    match kind.fields() {
        Fields::Bytes => Some(put_string(out, head, rest.unwrap_or(b""))),
        Fields::Numbers(n) => {
            // no Vec: no library has a heap
            let mut all = [0u64; 6];
            let numbers = &mut all[..n];
            read_numbers(rest, numbers)?;
            Some(put_numbers(out, head, numbers))
        },
    }
}

// The step bytes of a line, at the front of `out`: how many they are. None: the line is no step, and `out` stays as it is.
// How many, and not the slice: what a lent `out` holds afterwards could be said only in a starred clause.
pub fn parse(line: &[u8], out: &mut [u8]) -> Option<usize>
    requires { 4128 ≤ length out.old }
    ensures { IsParsed (parse_line line.now) out.old out.new result }
{
    if LINE_MOST < line.len() {
        return None;
    }
    match line.strip_prefix(b"i ".as_slice()) {
        Some(rest) => body(rest, true, out),
        None => body(line, false, out),
    }
}
