// Replays lists of steps: the listing that the machine gives for each is compared with the one that is kept.
// Its arguments come in threes: the sizes as P,R,Q,K,C,HZ; a file of steps; the listing that is kept of it. It ends at the first list that does not
// agree, at sizes of no state, at a file that cannot be read whole or at a rest of arguments, names it, and says how many agreed. It allocates
// nothing: its buffers are arrays on the stack, since with a `Vec` a list could run out of memory, and many lists took three times the time.
#![tactic(auto)]

ghost use Rattle.std.specs.Prelude.{◌+◌, ◌^◌, ◌≤◌, ◌<◌, length};
ghost use Rattle.replay.specs.Replay.{ListAsks};

use line::Machine;
use listing::Listing;
use print::Out;
use state::State;
use std::env::{Env, FillError};
use std::fs::File;
use std::io;
use std::io::{Read, Write};

// The most bytes of a state, a file or a listing.
const MOST: usize = 262_144;

// The most bytes of an argument.
const WORD_SIZE: usize = 4_096;

// A loop has to end, and nothing says that the arguments do: it counts the lists, to a number that no run comes to.
const MOST_LISTS: usize = 6_148_914_691_236_517_205;

// Why a list does not agree, with the argument that is at fault.
#[derive(Clone, Copy, Debug, PartialEq, Eq)]
enum Fault<'a> {
    // No sizes of a state, or too large.
    Unmade(&'a [u8]),
    // A file that cannot be read whole.
    Unread(&'a [u8]),
    // Another listing, from this line on.
    Differs(&'a [u8], u64),
    // A rest of arguments.
    Rest(&'a [u8]),
}

// A number with one more digit. None: there would be too many.
fn with_digit(value: u64, b: u8) -> Option<u64> {
    if value > 100_000_000_000_000_000 || !b.is_ascii_digit() {
        return None;
    }
    Some(value * 10 + u64::from(b - b'0'))
}

// The number that the digits are. None: there are none of them, or too many; any behind too many are a number anew.
fn number(digits: &[u8]) -> Option<u64> {
    digits
        .iter()
        .fold(None, |value, b| with_digit(value.unwrap_or(0), *b))
}

// Makes a fresh state of the sizes in the text. None: they are sizes of no state, or of one that is too large.
fn open(s: &mut [u8], text: &[u8]) -> Option<()> {
    let mut numbers = text.split(|b| !b.is_ascii_digit());
    let processes = number(numbers.next()?)?;
    let rendez = number(numbers.next()?)?;
    let locks = number(numbers.next()?)?;
    let timers = number(numbers.next()?)?;
    let cells = number(numbers.next()?)?;
    let hz = number(numbers.next()?)?;
    match make::make(s, processes, rendez, locks, timers, cells, hz) {
        0 => Some(()),
        _ => None,
    }
}

// The listing of the steps in `input`, from a well-formed state on, at the front of the buffer. None: there is no room.
// The room for a line and a step stands here alone: what the check of a state needs of the stack is free again by then.
fn list<'a>(state: &mut State, input: &[u8], buffer: &'a mut [u8]) -> Option<&'a [u8]>
    requires { ListAsks state.old.sizes state.old.bytes.now input.now }
{
    if buffer.len() < 34 {
        return None;
    }
    let mut out = Out {
        bytes: buffer,
        used: 0,
    };
    listing::begin(&mut out);
    let mut listing = Listing {
        machine: Machine {
            state: State {
                bytes: &mut *state.bytes,
                sizes: state.sizes,
            },
            step: [0; line::STEP_SIZE],
            message: [0; line::MESSAGE_SIZE],
        },
        held: [0; listing::HELD_SIZE],
        have: 0,
        number: 1,
    };
    listing.feed(input, &mut out);
    if out.bytes.len() - out.used < line::most(listing.machine.state.sizes) {
        return None;
    }
    listing.finish(&mut out);
    let used = out.used;
    let bytes = out.bytes;
    Some(&bytes[..used])
}

// The same for the state in `s`. None, too, where it is no state.
fn listing_of<'a>(s: &mut [u8], input: &[u8], buffer: &'a mut [u8]) -> Option<&'a [u8]> {
    if !verify::check(s) {
        return None;
    }
    if 1_000_000_000 <= input.len() {
        return None;
    }
    let sizes = verify::load_sizes(s);
    list(&mut State { bytes: s, sizes }, input, buffer)
}

// The number of the line behind a byte of line `line`.
fn after(line: u64, b: u8) -> u64 {
    if b == b'\n' {
        line.saturating_add(1)
    } else {
        line
    }
}

// The number of the first line in which two texts differ.
fn difference(a: &[u8], b: &[u8]) -> Option<u64> {
    let mut line = 1;
    for (x, y) in a.iter().zip(b) {
        if x != y {
            return Some(line);
        }
        line = after(line, *x);
    }
    if a.len() == b.len() { None } else { Some(line) }
}

// The number of the first line in which the listing of `input` is not the one that is kept. What has no listing has an empty one.
fn compare(s: &mut [u8], input: &[u8], kept: &[u8]) -> Option<u64> {
    let mut buffer = [0u8; MOST];
    let listing = listing_of(s, input, &mut buffer).unwrap_or(b"");
    difference(listing, kept)
}

// Reads until the buffer is full, the input ends or a read fails: how many bytes it put at the front of the buffer.
// `read_to_end` needs a `Vec`, and goes on where a read was interrupted.
fn read_full<R: Read>(from: &mut R, buffer: &mut [u8]) -> usize
    ensures { result ≤ length buffer.new }
{
    let mut length = 0;
    while length < buffer.len() {
        match from.read(&mut buffer[length..]) {
            Ok(n) if 0 < n => length += n,
            _ => return length,
        }
    }
    length
}

// Reads to the end. None: it does not end there, since more comes than the buffer holds, or a read fails again.
fn load<'a, R: Read + Drop>(from: R, buffer: &'a mut [u8]) -> Option<&'a [u8]> {
    let mut from = from;
    let length = read_full(&mut from, buffer);
    match from.read(&mut [0; 1]) {
        Ok(0) => Some(&buffer[..length]),
        _ => None,
    }
}

// Reads a file. None: it cannot be opened or read, or is longer than the buffer.
fn read_file<'a>(rt: HostRuntime, name: &[u8], buffer: &'a mut [u8]) -> Option<&'a [u8]> {
    let Ok(name) = str::from_utf8(name) else {
        return None;
    };
    match File::open(&rt, name) {
        Ok(file) => load(file, buffer),
        Err(e) => {
            // what standard error does not take is not said
            _ = eprintln!(rt; "{name}: {e}");
            None
        },
    }
}

// Does the list agree that the three arguments name?
fn replay_list<'a>(
    rt: HostRuntime,
    sizes: &'a [u8],
    steps: &'a [u8],
    listing: &'a [u8],
) -> Result<(), Fault<'a>> {
    let mut state = [0u8; MOST];
    let mut input = [0u8; MOST];
    let mut kept = [0u8; MOST];
    let input = read_file(rt, steps, &mut input);
    let kept = read_file(rt, listing, &mut kept);
    open(&mut state, sizes).ok_or(Fault::Unmade(sizes))?;
    let input = input.ok_or(Fault::Unread(steps))?;
    let kept = kept.ok_or(Fault::Unread(listing))?;
    match compare(&mut state, input, kept) {
        None => Ok(()),
        Some(line) => Err(Fault::Differs(steps, line)),
    }
}

// Argument `i`; an empty one, where it does not fit. None: there is none.
fn argument<'a>(rt: HostRuntime, i: usize, word: &'a mut [u8]) -> Option<&'a [u8]> {
    match rt.arg(i, word) {
        Ok(n) => Some(&word[..n]),
        Err(FillError::TooLong) => Some(b""),
        Err(FillError::NotPresent) => None,
    }
}

// Is there a list that the three arguments from `i` on name, and does it agree? False: there is none of them.
fn replay_words<'a>(
    rt: HostRuntime,
    i: usize,
    sizes: &'a mut [u8],
    steps: &'a mut [u8],
    listing: &'a mut [u8],
) -> Result<bool, Fault<'a>>
    requires { i + 2 < 2 ^ 64 }
{
    let Some(sizes) = argument(rt, i, sizes) else {
        return Ok(false);
    };
    let steps = argument(rt, i + 1, steps).ok_or(Fault::Rest(sizes))?;
    let listing = argument(rt, i + 2, listing).ok_or(Fault::Rest(sizes))?;
    replay_list(rt, sizes, steps, listing)?;
    Ok(true)
}

// Names an argument, and what there is to say of it.
fn say(rt: HostRuntime, word: &[u8], what: &[u8]) -> io::Result<()> {
    let mut out = rt.stdout();
    out.write_all(b"replay: ")?;
    out.write_all(word)?;
    out.write_all(what)
}

// Says why a list does not agree.
fn report(rt: HostRuntime, fault: Fault<'_>) -> io::Result<()> {
    match fault {
        Fault::Unmade(sizes) => say(rt, sizes, b": no sizes of a state, or too large\n"),
        Fault::Unread(name) => say(rt, name, b": cannot be read whole\n"),
        Fault::Rest(word) => say(rt, word, b": arguments come in threes\n"),
        Fault::Differs(steps, line) => {
            say(rt, steps, b": another listing, from line ")?;
            println!(rt; "{line}")
        },
    }
}

// Says how many agreed.
fn tell(rt: HostRuntime, agreed: usize) -> io::Result<()> {
    println!(rt; "replay: listings that agree: {agreed}")
}

fn main(rt: HostRuntime) -> io::Result<()> {
    let mut sizes = [0u8; WORD_SIZE];
    let mut steps = [0u8; WORD_SIZE];
    let mut listing = [0u8; WORD_SIZE];
    for agreed in 0..MOST_LISTS {
        match replay_words(rt, 1 + 3 * agreed, &mut sizes, &mut steps, &mut listing) {
            Ok(true) => {},
            Ok(false) => return tell(rt, agreed),
            Err(fault) => {
                report(rt, fault)?;
                return tell(rt, agreed);
            },
        }
    }
    tell(rt, MOST_LISTS)
}

#[cfg(test)]
mod tests {
    use super::*;
    use std::test::Fail;

    #[test]
    fn a_reader_is_loaded_whole(rt: HostRuntime) -> Result<(), Fail> {
        let mut buffer = [0u8; MOST];
        let bytes = load(b"exit a\n".as_slice(), &mut buffer).ok_or("not loaded")?;
        assert_eq!(rt; bytes, b"exit a\n".as_slice());
        Ok(())
    }

    #[test]
    fn the_listing_of_no_steps_agrees(rt: HostRuntime) -> Result<(), Fail> {
        let mut state = [0u8; MOST];
        open(&mut state, b"16,16,16,16,256,1000000").ok_or("not made")?;
        let kept = b"step;answer;up;queue;asleep;ticks\n".as_slice();
        assert_eq!(rt; compare(&mut state, b"", kept), None);
        Ok(())
    }

    #[test]
    fn arguments_are_read(rt: HostRuntime) -> Result<(), Fail> {
        let mut word = [0u8; WORD_SIZE];
        for i in 1..usize::MAX {
            let Some(argument) = argument(rt, i, &mut word) else {
                break;
            };
            assert!(rt; argument.len() <= WORD_SIZE);
        }
        Ok(())
    }
}
