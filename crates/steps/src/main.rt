// Reads steps from standard input, a step a line, and writes the listing to standard output.
#![tactic(auto)]

ghost use Rattle.std.specs.Prelude.{◌≡◌, IfOk, OnOk, OnErr, length};
ghost use Rattle.outcome.specs.Stepped.{Well};
ghost use Rattle.steps.specs.Chunk.{Asks, ChunkAsks, ChunkTaken};
ghost use Rattle.steps.specs.Some.{LastTaken, SomeAsks, SomeTaken};
ghost use Rattle.steps.specs.All.{AllAsks, InputAsks};

use line::Machine;
use listing::Listing;
use print::Out;
use state::State;
use std::io;
use std::io::{Read, Write};

// How many bytes are read at once, and room for what is written at once.
const CHUNK_SIZE: usize = 65_536;

// Takes the lines of a chunk, and writes their lines of the listing to `to`. An error is the writer's.
fn take_chunk<W: Write>(
    to: &mut W,
    listing: &mut Listing,
    chunk: &[u8],
    buffer: &mut [u8],
) -> io::Result<()>
    requires { ChunkAsks listing.old.machine.state.sizes listing.old.machine.state.bytes.now chunk.now listing.old.held buffer.old listing.old.have listing.old.number }
    ensures taken { OnOk result (ChunkTaken listing.old.machine.state.sizes chunk.now listing.old.machine.state.bytes.now listing.old.held listing.old.have listing.old.number listing.new.machine.state.bytes.now listing.new.held listing.new.have listing.new.number) }
    ensures failed { OnErr result (Well listing.old.machine.state.sizes listing.new.machine.state.bytes.now) }
    ensures sizes { listing.new.machine.state.sizes ≡ listing.old.machine.state.sizes }
{
    let mut rest = chunk;
    let mut out = Out {
        bytes: buffer,
        used: 0,
    };
    while !rest.is_empty() {
        rest = listing.feed(rest, &mut out);
        let used = out.used;
        to.write_all(&out.bytes[..used])?;
        out.used = 0;
    }
    Ok(())
}

// Takes a last line without its line end, and writes its line of the listing to `to`. The line is taken also where the writer fails.
fn take_last<W: Write>(to: &mut W, listing: &mut Listing, buffer: &mut [u8]) -> io::Result<()>
    requires { Asks listing.old.machine.state.sizes listing.old.machine.state.bytes.now listing.old.held buffer.old listing.old.have }
    ensures taken { LastTaken listing.old.machine.state.sizes listing.old.machine.state.bytes.now listing.old.held listing.old.have listing.old.number listing.new.machine.state.bytes.now }
    ensures held { listing.new.held ≡ listing.old.held }
    ensures have { listing.new.have ≡ listing.old.have }
    ensures number { listing.new.number ≡ listing.old.number }
    ensures sizes { listing.new.machine.state.sizes ≡ listing.old.machine.state.sizes }
{
    let mut out = Out {
        bytes: buffer,
        used: 0,
    };
    listing.finish(&mut out);
    let used = out.used;
    to.write_all(&out.bytes[..used])
}

// Reads a chunk from `from` and takes its lines; at the end of the input, the last line. Does the input go on? An error is the reader's
// or the writer's.
fn take_some<R: Read, W: Write>(
    from: &mut R,
    to: &mut W,
    listing: &mut Listing,
    input: &mut [u8],
    buffer: &mut [u8],
) -> io::Result<bool>
    requires { SomeAsks listing.old.machine.state.sizes listing.old.machine.state.bytes.now input.old listing.old.held buffer.old listing.old.have listing.old.number }
    ensures taken { IfOk result (λ more. SomeTaken listing.old.machine.state.sizes listing.old.machine.state.bytes.now listing.old.held listing.old.have listing.old.number listing.new.machine.state.bytes.now listing.new.held listing.new.have listing.new.number more) }
    ensures failed { OnErr result (Well listing.old.machine.state.sizes listing.new.machine.state.bytes.now) }
    ensures sizes { listing.new.machine.state.sizes ≡ listing.old.machine.state.sizes }
{
    let n = from.read(input)?;
    if n == 0 {
        take_last(to, listing, buffer)?;
        return Ok(false);
    }
    take_chunk(to, listing, &input[..n], buffer)?;
    Ok(true)
}

// A loop has to end, and nothing says that the input does: it counts its turns, to a number that no run comes to.
const TURNS: u64 = 140_737_488_355_328;

// Chunk after chunk, to the end of the input or the first error.
fn take_all<R: Read, W: Write>(
    from: &mut R,
    to: &mut W,
    listing: &mut Listing,
    input: &mut [u8],
    buffer: &mut [u8],
) -> io::Result<()>
    requires { AllAsks listing.old.machine.state.sizes listing.old.machine.state.bytes.now input.old listing.old.held buffer.old listing.old.have listing.old.number }
{
    for turn in 0..TURNS {
        if !take_some(from, to, listing, input, buffer)? {
            return Ok(());
        }
    }
    Ok(())
}

// Takes the input, and writes the listing, from a fresh state on.
fn take_input<R: Read, W: Write>(
    from: &mut R,
    to: &mut W,
    state: &mut [u8],
    input: &mut [u8],
    buffer: &mut [u8],
) -> io::Result<()>
    requires { InputAsks state.old input.old buffer.old }
{
    let sizes = listing::start(state);
    let mut out = Out {
        bytes: &mut *buffer,
        used: 0,
    };
    listing::begin(&mut out);
    let used = out.used;
    to.write_all(&out.bytes[..used])?;
    let mut listing = Listing {
        machine: Machine {
            state: State {
                bytes: state,
                sizes,
            },
            step: [0; line::STEP_SIZE],
            message: [0; line::MESSAGE_SIZE],
        },
        held: [0; listing::HELD_SIZE],
        have: 0,
        number: 1,
    };
    take_all(from, to, &mut listing, input, buffer)
}

// The buffers are arrays on the stack: with a `Vec` the program could run out of memory before the first line.
fn main(rt: HostRuntime) -> io::Result<()> {
    let mut state = [0u8; listing::STATE_SIZE];
    let mut input = [0u8; CHUNK_SIZE];
    let mut buffer = [0u8; CHUNK_SIZE];
    let mut from = rt.stdin();
    let mut to = rt.stdout();
    take_input(&mut from, &mut to, &mut state, &mut input, &mut buffer)
}
