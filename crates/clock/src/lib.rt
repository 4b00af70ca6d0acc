// Durations, and how many counts of a clock they take.
// No function asks anything of its arguments: a duration that is not valid has its length in time too.
#![tactic(auto)]

ghost use Rattle.std.specs.Prelude.{◌≡◌};
ghost use Rattle.clock.specs.Counts.{counts_of, valid_duration, zero_duration, shorter};

// Nanoseconds in a second.
const SECOND: u64 = 1_000_000_000;

// A length of time: seconds and nanoseconds.
#[derive(Clone, Copy, Debug, PartialEq, Eq)]
pub struct Duration {
    pub secs: u64,
    pub nanos: u32,
}

impl Duration {
    // Are the nanoseconds below a whole second?
    pub fn valid(self) -> bool
        ensures { result ≡ valid_duration self.secs self.nanos }
    {
        u64::from(self.nanos) < SECOND
    }

    // Does it take no time? Two tests, and no comparison with a duration of zeros: the definition is of two numbers.
    pub fn is_zero(self) -> bool
        ensures { result ≡ zero_duration self.secs self.nanos }
    {
        self.secs == 0 && self.nanos == 0
    }

    // Does it take less time than `other`?
    // Two durations of the same length may differ in their seconds, so no derived order answers this.
    // No 32-bit number of nanoseconds makes up for five seconds, so the sums are made below that only.
    pub fn shorter_than(self, other: Duration) -> bool
        ensures { result ≡ shorter self.secs self.nanos other.secs other.nanos }
    {
        let nanos = u64::from(self.nanos);
        let others = u64::from(other.nanos);
        if self.secs <= other.secs {
            let more = other.secs - self.secs;
            return more >= 5 || nanos < more * SECOND + others;
        }
        let less = self.secs - other.secs;
        less < 5 && less * SECOND + nanos < others
    }

    // The counts that it takes at `hz` counts a second, rounded up, so that a deadline is never early.
    // The counts of the nanoseconds always fit.
    // Where the sum with those of the seconds does not, the answer is the limit, 2^64 - 1.
    pub fn to_counts(self, hz: u32) -> u64
        ensures { result ≡ counts_of hz self.secs self.nanos }
    {
        let hz = u64::from(hz);
        let part = (u64::from(self.nanos) * hz).div_ceil(SECOND);
        self.secs.saturating_mul(hz).saturating_add(part)
    }
}
