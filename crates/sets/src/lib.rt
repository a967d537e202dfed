// Sets of the numbers below 16, as a number's binary digits.
#![tactic(auto)]

ghost use Rattle.std.specs.Prelude.{◌≢◌, ◌<◌};
ghost use Rattle.std.specs.Iterator.{at_most};
ghost use Rattle.sets.specs.Bits.{Put, Only, Marked, Lowest, Rested};
ghost use Rattle.sets.specs.Walk.{FirstOut};

pub fn put(set: u16, p: u8) -> u16
    requires { p < 16 }
    ensures { Put 16 set p result }
{
    set | (1 << p)
}

pub fn only(p: u8) -> u16
    requires { p < 16 }
    ensures { Only 16 p result }
{
    1 << p
}

// Whether p is in the set is told; the others stay. Without a branch, since what is told is often hard to foresee.
pub fn mark(set: u16, p: u8, on: bool) -> u16
    requires { p < 16 }
    ensures { Marked 16 set p on result }
{
    let bit = u16::from(on) << p;
    (set & !(1 << p)) | bit
}

pub fn lowest(set: u16) -> u8
    requires { set ≢ 0 }
    ensures { Lowest 16 set result }
{
    set.trailing_zeros() as u8
}

// The set without its lowest number.
pub fn rest(set: u16) -> u16
    requires { set ≢ 0 }
    ensures { Rested 16 set result }
{
    set & (set - 1)
}

// The numbers of a set, the lowest first: what is left of the set while they are walked.
#[derive(Drop)]
pub struct Members(pub u16);

impl Iterator for Members {
    type Item = u8;

    ghost next_gives = { λ s r t. FirstOut s.0 r t.0 };

    ghost remaining = { λ s. at_most s.0 };

    fn next(&mut self) -> Option<u8> {
        if self.0 == 0 {
            return None;
        }
        let p = lowest(self.0);
        self.0 = rest(self.0);
        Some(p)
    }
}
