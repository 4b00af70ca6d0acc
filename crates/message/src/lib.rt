// The message of an exit, written straight into its cell: the name up to its first zero byte, a space, the pid, a colon,
// a space and the status; over 127 bytes cut at 127, moving back over bytes 10xxxxxx.
#![tactic(auto)]

ghost use Rattle.std.specs.Prelude.{◌≡◌, ◌+◌, ◌%◌, ◌<◌, ◌≤◌, length, drop, MatchOption};
ghost use Rattle.message.specs.Text.{text, TextAt, NameEnds};
ghost use Rattle.message.specs.Digits.{Written};
ghost use Rattle.message.specs.Cut.{GoesOn, MovedBack, CutAsks, CutLength, CopyAsks, Copied};
ghost use Rattle.message.specs.Answers.{MessageAsks, MessageWritten};
ghost use Rattle.message.specs.Called.{MessageAnswers};

// Where the first zero byte of `name` stands, or its length where there is none.
fn name_len(name: &[u8]) -> usize
    ensures { NameEnds name.now result }
{
    let zero = name.iter().position(|b| *b == 0);
    zero.unwrap_or(name.len())
}

// The last digit of `n`. A cast, since a remainder is below 10.
fn digit(n: u64) -> u8
    ensures { result ≡ 48 + n % 10 }
{
    b'0' + (n % 10) as u8
}

// The digits of a number of 64 bits: those of `bytes` from `from` on.
// By hand and not by `Display`, which writes to a `fmt::Write` and answers a Result: there is always room for the digits here.
#[derive(Clone, Copy, Debug, PartialEq, Eq)]
pub struct Digits {
    bytes: [u8; 20],
    from: usize,
    ghost inside: { from < 20 },
}

impl Digits {
    // The digits of `n`.
    pub fn of(n: u64) -> Digits
        ensures { Written n result.bytes result.from }
    {
        let mut bytes = [0u8; 20];
        let mut from: usize = 20;
        let mut left = n;
        while 10 <= left {
            from -= 1;
            bytes[from] = digit(left);
            left /= 10;
        }
        from -= 1;
        bytes[from] = digit(left);
        Digits { bytes, from }
    }

    // They as bytes.
    pub fn as_bytes(&self) -> &[u8]
        ensures { result.now ≡ drop self.now.from self.now.bytes }
    {
        &self.bytes[self.from..]
    }
}

// The whole text of a message: the name, a space, the digits, a colon, a space and the status.
#[derive(Clone, Copy, Debug, PartialEq, Eq)]
struct Text<'a> {
    name: &'a [u8],
    digits: &'a [u8],
    status: &'a [u8],
}

impl Text<'_> {
    // Byte `k` of it: none past its end.
    // By its place, since the way back asks so: an iterator over the parts would begin at the front for each byte.
    fn byte_at(&self, k: usize) -> Option<u8>
        ensures { MatchOption result (length (text self.now.name.now self.now.digits.now self.now.status.now) ≤ k) (TextAt self.now.name.now self.now.digits.now self.now.status.now k) }
    {
        if k < self.name.len() {
            return Some(self.name[k]);
        }
        let a = k - self.name.len();
        if a == 0 {
            return Some(b' ');
        }
        let b = a - 1;
        if b < self.digits.len() {
            return Some(self.digits[b]);
        }
        let e = b - self.digits.len();
        if e == 0 {
            return Some(b':');
        }
        if e == 1 {
            return Some(b' ');
        }
        self.status.get(e - 2).copied()
    }

    // Is byte `k` one of 10xxxxxx, which goes on a character that began before it?
    fn goes_on(&self, k: usize) -> bool
        ensures { GoesOn self.now.name.now self.now.digits.now self.now.status.now k result }
    {
        matches!(self.byte_at(k), Some(128..=191))
    }

    // Where it is cut at 127 bytes or before: back while the first dropped byte is 10xxxxxx.
    fn move_back(&self) -> usize
        ensures { MovedBack self.now.name.now self.now.digits.now self.now.status.now result }
    {
        for n in (1..128).rev() {
            if !self.goes_on(n) {
                return n;
            }
        }
        0
    }

    // Its length once it is cut.
    fn cut_len(&self) -> usize
        requires { CutAsks self.now.name.now self.now.digits.now }
        ensures { CutLength self.now.name.now self.now.digits.now self.now.status.now result }
    {
        if 127 < self.status.len() {
            return self.move_back();
        }
        let n = self.name.len() + self.digits.len() + self.status.len() + 3;
        if n <= 127 {
            return n;
        }
        self.move_back()
    }

    // Writes its first bytes over all of `cell`.
    // Byte by byte, since the cut may fall in any of its parts: a copy of each part up to the cut is no plainer.
    fn copy(&self, cell: &mut [u8])
        requires { CopyAsks cell.old self.now.name.now self.now.digits.now self.now.status.now (length cell.old) }
        ensures { Copied cell.old self.now.name.now self.now.digits.now self.now.status.now (length cell.old) cell.new }
    {
        for (i, to) in cell.iter_mut().enumerate() {
            if let Some(b) = self.byte_at(i) {
                *to = b;
            }
        }
    }
}

// Writes the message of an exit into its cell, and leaves the bytes behind it; the message's length.
// Its parts come one by one, as C's do: a struct of them would be made and taken apart at each of two calls.
pub fn write_message(cell: &mut [u8], name: &[u8], pid: u64, status: &[u8]) -> u8
    requires { MessageAsks cell.old name.now }
    ensures { MessageWritten cell.old cell.new name.now pid status.now result }
{
    if status.len() == 0 {
        return 0;
    }
    let digits = Digits::of(pid);
    let end = name_len(name);
    let text = Text {
        name: &name[..end],
        digits: digits.as_bytes(),
        status,
    };
    let n = text.cut_len();
    text.copy(&mut cell[..n]);
    // A cast, since a length is at most 127: `u8::try_from` would have an error that never comes.
    n as u8
}

// How many bytes a cell has for a message, and a record for a name.
const MESSAGE_SIZE: usize = 127;

const NAME_SIZE: usize = 28;

// The refusal of lengths: the number 2, which is a length too, and 256.
const REFUSED: u64 = 258;

// For C callers: writes the message of an exit at the front of `cell`, and leaves the bytes behind it. The answer is the
// message's length, 0 to 127, or 258, nothing written, where `cell` is under 127 bytes or `name` over 28.
pub fn exit_message(cell: &mut [u8], name: &[u8], pid: u64, status: &[u8]) -> u64
    ensures { MessageAnswers cell.old cell.new name.now pid status.now result }
{
    if cell.len() < MESSAGE_SIZE {
        return REFUSED;
    }
    if NAME_SIZE < name.len() {
        return REFUSED;
    }
    u64::from(write_message(&mut cell[..MESSAGE_SIZE], name, pid, status))
}
