// Task blocks: what a round-robin thread has left of its slice, and what a tick that finds it running does to it.
ghost use Rattle.std.specs.Prelude.{◌≡◌, ◌<◌, get_or, set};
ghost use Rattle.model.specs.Slices.{slice_for, spent, slice_after};
ghost use Rattle.threads.specs.Tasks.{counted_of};

// A thread's task block.
#[derive(Clone, Copy)]
pub struct Task {
    // 0 first in, first out; 1 round robin.
    pub policy: u8,
    // The ticks left of a round-robin thread's slice.
    pub slice: u8,
}

// The policy of a round-robin thread, and its whole slice.
pub const ROUND_ROBIN: u8 = 1;

const FULL_SLICE: u8 = 4;

// The whole slice of a thread of this policy.
#[tactic(auto, unfolding(model::specs::Slices::slice_for))]
pub fn slice_for(policy: u8) -> u8
    ensures { result ≡ slice_for policy }
{
    match policy {
        ROUND_ROBIN => FULL_SLICE,
        _ => 0,
    }
}

// A tick that finds the thread running is the last of its slice.
#[tactic(auto, unfolding(model::specs::Slices::spent))]
pub fn is_spent(policy: u8, slice: u8) -> bool
    ensures { result ≡ spent policy slice }
{
    policy == ROUND_ROBIN && slice <= 1
}

impl Task {
    // The task block counted down, and its slice refilled at zero, if it is round robin.
    #[tactic(auto, unfolding(crate::specs::Tasks::counted_of, model::specs::Slices::slice_after, model::specs::Slices::spent))]
    fn counted(self) -> Task
        ensures { result ≡ counted_of self }
    {
        if self.policy != ROUND_ROBIN {
            return self;
        }
        let slice = match self.slice {
            0 | 1 => FULL_SLICE,
            left => left - 1,
        };
        Task { slice, ..self }
    }

    // The form that the paper names for "the running thread's task block is counted down and its state changed": the block behind a reference.
    fn count_down(&mut self)
        ensures { self.new ≡ counted_of self.old }
    {
        *self = self.counted();
    }
}

// The task block of the running thread is taken out of the arrays, lent and counted down, and given back: of it only the slice changes.
#[tactic(auto, unfolding(crate::specs::Tasks::counted_of))]
pub fn count_running(policies: &[u8; 64], slices: &mut [u8; 64], at: usize)
    requires { at < 64 }
    ensures { slices.new ≡ set slices.old at (slice_after (get_or policies.now at 0) (get_or slices.old at 0)) }
{
    let mut task = Task {
        policy: policies[at],
        slice: slices[at],
    };
    task.count_down();
    slices[at] = task.slice;
}
