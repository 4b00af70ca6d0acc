// Step bytes to a step.
#![tactic(auto)]

ghost use Rattle.std.specs.Prelude.{◌≤◌, ◌+◌, ◌*◌, ◌≢◌, length, MatchOption};
ghost use Rattle.decode.specs.Fields.{Behind, Number, Fields, IsString, NoString};
ghost use Rattle.decode.specs.Calls.{Read};
ghost use Rattle.decode.specs.Decodes.{Decodes};

use memory::Number;

// What a `tsleep` asks.
#[derive(Clone, Copy, Debug, PartialEq, Eq)]
pub struct TsleepFields {
    pub rendez: u64,
    pub condition: u64,
    pub seconds: u64,
    pub nanoseconds: u64,
    pub reading: u64,
}

// What a `tadd` asks.
#[derive(Clone, Copy, Debug, PartialEq, Eq)]
pub struct TaddFields {
    pub timer: u64,
    pub kind: u64,
    pub seconds: u64,
    pub nanoseconds: u64,
    pub rendez: u64,
    pub reading: u64,
}

// What a step asks: its numbers as the bytes have them, since one out of range is refused only when the step is taken, and its byte string.
#[derive(Clone, Copy, Debug, PartialEq, Eq)]
pub enum Call<'a> {
    Start { how: u64 },
    Rfork { flags: u64, how: u64 },
    Name { bytes: &'a [u8] },
    Sched,
    Yield,
    Sleep { rendez: u64, condition: u64 },
    Tsleep { asked: TsleepFields },
    Wakeup { rendez: u64 },
    Qlock { lock: u64 },
    Canqlock { lock: u64 },
    Qunlock { lock: u64 },
    Cond { condition: u64, value: u64 },
    Clock { reading: u64 },
    Tadd { asked: TaddFields },
    Tdel { timer: u64 },
    Intr { reading: u64 },
    Due,
    Exit { status: &'a [u8] },
    Wait,
}

// A step, and whether it is marked as taken in interrupt context.
#[derive(Clone, Copy, Debug, PartialEq, Eq)]
pub struct Decoded<'a> {
    pub marked: bool,
    pub call: Call<'a>,
}

// Field `j` as a number.
fn number(b: &[u8], j: usize) -> u64
    requires { Behind b.now j }
    ensures { Number b.now j result }
{
    u64::load(b, 2 + 8 * j)
}

// The fields of a kind that takes `N` numbers, where these are all the bytes.
#[tactic(auto, using(crate::specs::Fields::filling, crate::specs::Fields::filled_behind, crate::specs::Fields::filled_more, crate::specs::Fields::filled))]
fn numbers<const N: usize>(b: &[u8]) -> Option<[u64; N]>
    requires { N ≤ 6 }
    ensures { MatchOption result (length b.now ≢ 2 + 8 * N) (Fields N b.now) }
{
    if b.len() != 2 + 8 * N {
        return None;
    }
    let mut fields = [0; N];
    for j in 0..N {
        fields[j] = number(b, j);
    }
    Some(fields)
}

// The byte string of a kind that takes one, behind its length, where these are all the bytes.
fn string(b: &[u8]) -> Option<&[u8]>
    ensures { MatchOption result (NoString b.now) (λ s. IsString b.now s.now) }
{
    if b.len() < 6 {
        return None;
    }
    let length = u32::load(b, 2) as usize;
    if b.len() != 6 + length {
        return None;
    }
    Some(&b[6..])
}

// What the bytes ask, by the kind that the first of them names.
#[tactic(auto, using(crate::specs::Calls::reading))]
fn read(b: &[u8]) -> Option<Call<'_>>
    requires { 2 ≤ length b.now }
    ensures { Read b.now result }
{
    match b[0] {
        1 => {
            let [how] = numbers::<1>(b)?;
            Some(Call::Start { how })
        }
        2 => {
            let [flags, how] = numbers::<2>(b)?;
            Some(Call::Rfork { flags, how })
        }
        3 => {
            let bytes = string(b)?;
            Some(Call::Name { bytes })
        }
        4 => {
            let [] = numbers::<0>(b)?;
            Some(Call::Sched)
        }
        5 => {
            let [] = numbers::<0>(b)?;
            Some(Call::Yield)
        }
        6 => {
            let [rendez, condition] = numbers::<2>(b)?;
            Some(Call::Sleep { rendez, condition })
        }
        7 => {
            let [rendez, condition, seconds, nanoseconds, reading] = numbers::<5>(b)?;
            Some(Call::Tsleep {
                asked: TsleepFields {
                    rendez,
                    condition,
                    seconds,
                    nanoseconds,
                    reading,
                },
            })
        }
        8 => {
            let [rendez] = numbers::<1>(b)?;
            Some(Call::Wakeup { rendez })
        }
        9 => {
            let [lock] = numbers::<1>(b)?;
            Some(Call::Qlock { lock })
        }
        10 => {
            let [lock] = numbers::<1>(b)?;
            Some(Call::Canqlock { lock })
        }
        11 => {
            let [lock] = numbers::<1>(b)?;
            Some(Call::Qunlock { lock })
        }
        12 => {
            let [condition, value] = numbers::<2>(b)?;
            Some(Call::Cond { condition, value })
        }
        13 => {
            let [reading] = numbers::<1>(b)?;
            Some(Call::Clock { reading })
        }
        14 => {
            let [timer, kind, seconds, nanoseconds, rendez, reading] = numbers::<6>(b)?;
            Some(Call::Tadd {
                asked: TaddFields {
                    timer,
                    kind,
                    seconds,
                    nanoseconds,
                    rendez,
                    reading,
                },
            })
        }
        15 => {
            let [timer] = numbers::<1>(b)?;
            Some(Call::Tdel { timer })
        }
        16 => {
            let [reading] = numbers::<1>(b)?;
            Some(Call::Intr { reading })
        }
        17 => {
            let [] = numbers::<0>(b)?;
            Some(Call::Due)
        }
        18 => {
            let status = string(b)?;
            Some(Call::Exit { status })
        }
        19 => {
            let [] = numbers::<0>(b)?;
            Some(Call::Wait)
        }
        _ => None,
    }
}

// The step that bytes are, if they are one. Of others there is nothing more to tell, so this is an `Option`, and no `TryFrom` with an error.
pub fn decode(b: &[u8]) -> Option<Decoded<'_>>
    ensures { Decodes b.now result }
{
    if b.len() < 2 {
        return None;
    }
    let mark = b[1];
    if mark > 1 {
        return None;
    }
    let call = read(b)?;
    Some(Decoded {
        marked: mark == 1,
        call,
    })
}
