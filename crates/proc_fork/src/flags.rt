// The flags of rfork.

ghost use Rattle.std.specs.Prelude.{◌≡◌, ◌^◌};
ghost use Rattle.proc_fork.specs.Flags.{Has, Bad, bit};

// The flags that are looked at, by fork(2)'s names; a case's value is its bit.
#[derive(Clone, Copy, Debug, PartialEq, Eq)]
pub enum Flag {
    Rfnameg = 0,
    Rfenvg = 1,
    Rffdg = 2,
    Rfproc = 4,
    Rfmem = 5,
    Rfnowait = 6,
    Rfcnameg = 10,
    Rfcenvg = 11,
    Rfcfdg = 12,
    Rfnomnt = 14,
}

// What an rfork is given: a bit for each flag.
#[derive(Clone, Copy, Debug, PartialEq, Eq)]
pub struct Flags(pub u32);

impl Flags {
    // Whether `flag` is one of them.
    pub fn contains(self, flag: Flag) -> bool
        ensures { Has self.0 (2 ^ bit flag) result }
    {
        self.0 >> (flag as u32) & 1 == 1
    }

    // Whether they are bad: both of a pair; RFMEM or RFNOWAIT without RFPROC; any of RFMEM, RFCNAMEG, RFCENVG, RFNOMNT.
    pub fn are_bad(self) -> bool
        ensures { Bad self.0 result }
    {
        let fds = self.contains(Flag::Rffdg) & self.contains(Flag::Rfcfdg);
        let names = self.contains(Flag::Rfnameg) & self.contains(Flag::Rfcnameg);
        let envs = self.contains(Flag::Rfenvg) & self.contains(Flag::Rfcenvg);
        let lone = (self.contains(Flag::Rfmem) | self.contains(Flag::Rfnowait))
            & !self.contains(Flag::Rfproc);
        let none = self.contains(Flag::Rfmem)
            | self.contains(Flag::Rfcnameg)
            | self.contains(Flag::Rfcenvg)
            | self.contains(Flag::Rfnomnt);
        fds | names | envs | lone | none
    }
}
