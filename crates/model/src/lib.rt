// What the doors answer, the single numbers of a state, and the arrays that hold the rest of it, as a caller lends them. What all of it means is said
// in specs/, and so is the state that the numbers stand for (specs/Arrays).
#![tactic(auto)]

ghost use Rattle.std.specs.Prelude.{◌≡◌};
ghost use Rattle.model.specs.Answers.{mode_of};
ghost use Rattle.model.specs.Arrays.{Seen};
ghost use Rattle.model.specs.Lent.{clock_from, words_of};

use units::{Cycles, Ticks};

// The number of no thread: nothing runs.
pub const IDLE: u32 = 255;

// The single numbers of a state that events change.
#[derive(Clone, Copy)]
pub struct Clock {
    // The stamp of the last accepted event.
    pub stamp: u32,
    // The current slot of the history.
    pub slot: Ticks,
    // The paper's time since tick.
    pub since: Cycles,
    // How many threads the ready queue holds.
    pub queued: u32,
    // The running thread, IDLE where none runs.
    pub running: u32,
}

// The clock that the lent words hold.
impl From<&[u32; 5]> for Clock {
    ghost from_gives = { λ words clock. clock ≡ clock_from words.now };

    fn from(words: &[u32; 5]) -> Clock {
        Clock {
            stamp: words[0],
            slot: Ticks(words[1]),
            since: Cycles(words[2]),
            queued: words[3],
            running: words[4],
        }
    }
}

// The words in which a clock is lent.
impl From<Clock> for [u32; 5] {
    ghost from_gives = { λ clock words. words ≡ words_of clock };

    fn from(clock: Clock) -> [u32; 5] {
        [
            clock.stamp,
            clock.slot.0,
            clock.since.0,
            clock.queued,
            clock.running,
        ]
    }
}

// The arrays of a state that events change, and its history, as a caller lends them to what works on them. Thread t is place t of the seven arrays
// of threads.
#[derive(Drop)]
pub struct StateMut<'a> {
    pub used: &'a mut [u32; 16],
    pub exists: &'a mut [u8; 64],
    pub ready: &'a mut [u8; 64],
    pub partitions: &'a mut [u8; 64],
    pub priorities: &'a mut [u8; 64],
    pub masks: &'a mut [u8; 64],
    pub policies: &'a mut [u8; 64],
    pub slices: &'a mut [u8; 64],
    pub queue: &'a mut [u8; 64],
    pub history: &'a mut [u32],
}

// The same, lent to what only looks.
#[derive(Clone, Copy)]
pub struct StateRef<'a> {
    pub used: &'a [u32; 16],
    pub exists: &'a [u8; 64],
    pub ready: &'a [u8; 64],
    pub partitions: &'a [u8; 64],
    pub priorities: &'a [u8; 64],
    pub masks: &'a [u8; 64],
    pub policies: &'a [u8; 64],
    pub slices: &'a [u8; 64],
    pub queue: &'a [u8; 64],
    pub history: &'a [u32],
}

impl StateMut<'_> {
    // What is lent to be worked on, lent to be looked at.
    pub fn seen(&self) -> StateRef<'_>
        ensures { Seen self.now result }
    {
        StateRef {
            used: &*self.used,
            exists: &*self.exists,
            ready: &*self.ready,
            partitions: &*self.partitions,
            priorities: &*self.priorities,
            masks: &*self.masks,
            policies: &*self.policies,
            slices: &*self.slices,
            queue: &*self.queue,
            history: &*self.history,
        }
    }
}

// The paper's modes; specs/Answers has their numbers.
#[derive(Clone, Copy)]
pub enum Mode {
    Idle,
    FreeTime,
    Underload,
    AtLimit,
}

// The number of a mode, as the paper's table has it.
impl From<Mode> for u8 {
    ghost from_gives = { λ mode n. n ≡ mode_of mode };

    fn from(mode: Mode) -> u8 {
        match mode {
            Mode::Idle => 0,
            Mode::FreeTime => 1,
            Mode::Underload => 2,
            Mode::AtLimit => 3,
        }
    }
}

// What was decided: the mode, the partition that won and the thread that runs; partition 0 and thread 255 while idle. A door that decides answers
// `Result<Decision, Refusal>`.
#[derive(Clone, Copy)]
pub struct Decision {
    pub mode: Mode,
    pub partition: u8,
    pub thread: u8,
}
