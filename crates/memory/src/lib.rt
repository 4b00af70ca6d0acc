// Numbers of 1, 2, 4 and 8 bytes in a lent slice of bytes, little end first.
#![tactic(auto)]

ghost use Rattle.std.specs.Prelude.{◌≡◌, ◌+◌, ◌≤◌, ℕ, length};
ghost use Rattle.memory.specs.Le.{le, put};
ghost use Rattle.memory.specs.Link.{link, IsLink};

// What stands in `width` bytes of a lent slice, as the number `number`.
pub trait Number: Copy {
    // How many bytes it takes.
    ghost width: { ℕ };

    // The number that stands for it.
    ghost number: { Self → ℕ };

    // Whether its number fits the bytes. What is loaded fits.
    ghost fits: { Self → Type 0 };

    // What stands at `at`.
    fn load(s: &[u8], at: usize) -> Self
        requires { at + width ≤ length s.now }
        ensures value { number result ≡ le width s.now at }
        ensures fits { fits result };

    // Puts it at `at`.
    fn store(self, s: &mut [u8], at: usize)
        requires inside { at + width ≤ length s.old }
        requires fits { fits self }
        ensures { s.new ≡ put width s.old at (number self) };

    // The number that stands for it.
    fn value(self) -> u64
        ensures { result ≡ number self };
}

impl Number for u8 {
    ghost width = { 1 };

    ghost number = { λ n. n };

    ghost fits = { λ n. Unit {0} };

    fn load(s: &[u8], at: usize) -> u8 {
        s[at]
    }

    fn store(self, s: &mut [u8], at: usize) {
        s[at] = self;
    }

    fn value(self) -> u64 {
        u64::from(self)
    }
}

impl Number for u16 {
    ghost width = { 2 };

    ghost number = { λ n. n };

    ghost fits = { λ n. Unit {0} };

    fn load(s: &[u8], at: usize) -> u16 {
        let mut bytes = [0; 2];
        bytes.copy_from_slice(&s[at..at + 2]);
        u16::from_le_bytes(bytes)
    }

    fn store(self, s: &mut [u8], at: usize) {
        s[at..at + 2].copy_from_slice(&self.to_le_bytes());
    }

    fn value(self) -> u64 {
        u64::from(self)
    }
}

impl Number for u32 {
    ghost width = { 4 };

    ghost number = { λ n. n };

    ghost fits = { λ n. Unit {0} };

    fn load(s: &[u8], at: usize) -> u32 {
        let mut bytes = [0; 4];
        bytes.copy_from_slice(&s[at..at + 4]);
        u32::from_le_bytes(bytes)
    }

    fn store(self, s: &mut [u8], at: usize) {
        s[at..at + 4].copy_from_slice(&self.to_le_bytes());
    }

    fn value(self) -> u64 {
        u64::from(self)
    }
}

impl Number for u64 {
    ghost width = { 8 };

    ghost number = { λ n. n };

    ghost fits = { λ n. Unit {0} };

    fn load(s: &[u8], at: usize) -> u64 {
        let mut bytes = [0; 8];
        bytes.copy_from_slice(&s[at..at + 8]);
        u64::from_le_bytes(bytes)
    }

    fn store(self, s: &mut [u8], at: usize) {
        s[at..at + 8].copy_from_slice(&self.to_le_bytes());
    }

    fn value(self) -> u64 {
        self
    }
}

// A link to a record: 0 is none, and i + 1 leads to record i, which is below 65,535.
impl Number for Option<u16> {
    ghost width = { 2 };

    ghost number = { link };

    ghost fits = { IsLink };

    fn load(s: &[u8], at: usize) -> Option<u16> {
        let n = u16::load(s, at);
        if n == 0 { None } else { Some(n - 1) }
    }

    fn store(self, s: &mut [u8], at: usize) {
        let n = match self {
            None => 0,
            Some(i) => i + 1,
        };
        n.store(s, at);
    }

    fn value(self) -> u64 {
        match self {
            None => 0,
            Some(i) => u64::from(i) + 1,
        }
    }
}
