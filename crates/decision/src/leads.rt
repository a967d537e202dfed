// What each partition would run, kept beside the ready queue: one more than its top priority, 0 where it does not compete, and the first thread
// that has it, 255 where there is none.
ghost use Rattle.std.specs.Prelude.{◌≡◌, ◌+◌, ◌≤◌, take};
ghost use Rattle.model.specs.State.{may_run};
ghost use Rattle.decision.specs.Leads.{raised_by};
ghost use Rattle.decision.specs.Seen.{queue_seen};

use model::StateRef;
use threads::masks;

// One more than the top priority of some threads, and the first that has it.
#[derive(Clone, Copy)]
pub struct Lead {
    pub top: u16,
    pub first: u8,
}

// The lead of no thread.
pub const NOBODY: Lead = Lead { top: 0, first: 255 };

// The ready queue of a core, lent to be looked at: the queued threads in their order, and of each thread the partition, the priority and the mask.
#[derive(Clone, Copy)]
pub struct ReadyQueue<'a> {
    pub partitions: &'a [u8; 64],
    pub priorities: &'a [u8; 64],
    pub masks: &'a [u8; 64],
    pub queue: &'a [u8; 64],
    pub queued: u32,
    pub core: u32,
}

impl<'a> ReadyQueue<'a> {
    // That of a state.
    pub fn of(state: StateRef<'a>, queued: u32, core: u32) -> ReadyQueue<'a>
        ensures { result ≡ queue_seen state.entry queued core }
    {
        ReadyQueue {
            partitions: state.partitions,
            priorities: state.priorities,
            masks: state.masks,
            queue: state.queue,
            queued,
            core,
        }
    }

    // The queued threads, in their order.
    pub(crate) fn line(self) -> &'a [u8]
        requires { self.queued ≤ 64 }
        ensures { result.now ≡ take self.entry.queued self.entry.queue.now }
    {
        let queue = self.queue;
        &queue[..self.queued as usize]
    }
}

// A priority as it is kept: 0 is left for none.
pub(crate) fn level_of(priority: u8) -> u16
    ensures { result ≡ priority + 1 }
{
    u16::from(priority) + 1
}

// After one more thread at the tail.
#[tactic(auto, unfolding(crate::specs::Leads::raised_by))]
pub(crate) fn raise(old: Lead, priority: u8, t: u8) -> Lead
    ensures { result ≡ raised_by old priority t }
{
    let top = level_of(priority);
    if old.top < top {
        Lead { top, first: t }
    } else {
        old
    }
}

// A thread of this partition and this mask is one that partition p may run on the core.
pub(crate) fn may_run(partition: u8, mask: u8, p: u8, core: u32) -> bool
    requires { core ≤ 7 }
    ensures { result ≡ may_run partition mask p core }
{
    (partition == p) & masks::allowed(mask, core)
}
