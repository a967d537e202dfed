// What each kind of event does to the threads and the ready queue, in the arrays that the caller lends. Each function is lent the arrays that
// it reads or changes, and no other.
ghost use Rattle.std.specs.Prelude.{◌≡◌, true, ◌++◌, ◌∷◌, [], ◌<◌, ◌≤◌, eqb, take, set, get_or};
ghost use Rattle.lists.specs.Lists.{member, distinct};
ghost use Rattle.model.specs.State.{absent};
ghost use Rattle.model.specs.Slices.{slice_for};
ghost use Rattle.model.specs.Step.{created, leaves, requeued};
ghost use Rattle.model.specs.Arrays.{columns, tables_in, Regular};
ghost use Rattle.threads.specs.Entries.{QueueStored, queue_in, queue_from};
ghost use Rattle.event.specs.Bytes.{bytes_of};
ghost use Rattle.threads.specs.Able.{Able, Acted};
ghost use Rattle.threads.specs.Records.{thread_of, ThreadStored};

use crate::{queue, tasks};
use event::Event;
use event::kinds::Action;
use std::cmp::Ordering;

// A thread's record, which stands in its place of the seven arrays.
#[derive(Clone, Copy)]
struct Thread {
    exists: bool,
    ready: bool,
    partition: u8,
    priority: u8,
    mask: u8,
    policy: u8,
    slice: u8,
}

// The record of no thread.
const ABSENT: Thread = Thread {
    exists: false,
    ready: false,
    partition: 0,
    priority: 0,
    mask: 0,
    policy: 0,
    slice: 0,
};

// The record is stored.
fn store(
    exists: &mut [u8; 64],
    ready: &mut [u8; 64],
    partitions: &mut [u8; 64],
    priorities: &mut [u8; 64],
    masks: &mut [u8; 64],
    policies: &mut [u8; 64],
    slices: &mut [u8; 64],
    t: u8,
    thread: Thread,
)
    requires { (t < 64) × Regular (columns exists.old ready.old partitions.old priorities.old masks.old policies.old slices.old) }
    ensures { ThreadStored
        (columns exists.old ready.old partitions.old priorities.old masks.old policies.old slices.old)
        (columns exists.new ready.new partitions.new priorities.new masks.new policies.new slices.new)
        t (thread_of thread) }
{
    let at = t as usize;
    exists[at] = u8::from(thread.exists);
    ready[at] = u8::from(thread.ready);
    partitions[at] = thread.partition;
    priorities[at] = thread.priority;
    masks[at] = thread.mask;
    policies[at] = thread.policy;
    slices[at] = thread.slice;
}

// A new thread as the event says it, not ready, with a full slice.
fn create(
    exists: &mut [u8; 64],
    ready: &mut [u8; 64],
    partitions: &mut [u8; 64],
    priorities: &mut [u8; 64],
    masks: &mut [u8; 64],
    policies: &mut [u8; 64],
    slices: &mut [u8; 64],
    event: Event,
)
    requires { (event.thread < 64) × Regular (columns exists.old ready.old partitions.old priorities.old masks.old policies.old slices.old) }
    ensures { ThreadStored
        (columns exists.old ready.old partitions.old priorities.old masks.old policies.old slices.old)
        (columns exists.new ready.new partitions.new priorities.new masks.new policies.new slices.new)
        event.thread (created event.partition event.priority event.mask event.policy) }
{
    let thread = Thread {
        exists: true,
        partition: event.partition,
        priority: event.priority,
        mask: event.mask,
        policy: event.policy,
        slice: tasks::slice_for(event.policy),
        ..ABSENT
    };
    store(
        exists,
        ready,
        partitions,
        priorities,
        masks,
        policies,
        slices,
        event.thread,
        thread,
    );
}

// The thread's number is free again.
fn forget(
    exists: &mut [u8; 64],
    ready: &mut [u8; 64],
    partitions: &mut [u8; 64],
    priorities: &mut [u8; 64],
    masks: &mut [u8; 64],
    policies: &mut [u8; 64],
    slices: &mut [u8; 64],
    t: u8,
)
    requires { (t < 64) × Regular (columns exists.old ready.old partitions.old priorities.old masks.old policies.old slices.old) }
    ensures { ThreadStored
        (columns exists.old ready.old partitions.old priorities.old masks.old policies.old slices.old)
        (columns exists.new ready.new partitions.new priorities.new masks.new policies.new slices.new)
        t absent }
{
    store(
        exists, ready, partitions, priorities, masks, policies, slices, t, ABSENT,
    );
}

// The thread joins the queue at its tail, and is ready, with a full slice.
fn join(
    ready: &mut [u8; 64],
    policies: &[u8; 64],
    slices: &mut [u8; 64],
    queue: &mut [u8; 64],
    queued: u32,
    t: u8,
) -> u32
    requires { (t < 64) × QueueStored queue.old queued × (queued < 64) }
    ensures { (ready.new ≡ set ready.old t 1)
        × (slices.new ≡ set slices.old t (slice_for (get_or policies.now t 0)))
        × (queue_in queue.new result ≡ queue_from (take queued queue.old ++ (t ∷ []))) }
{
    let at = t as usize;
    ready[at] = 1;
    slices[at] = tasks::slice_for(policies[at]);
    queue::append(queue, queued, t)
}

// The thread leaves the queue, and is no longer ready.
fn block(ready: &mut [u8; 64], queue: &mut [u8; 64], queued: u32, t: u8) -> u32
    requires { (t < 64) × QueueStored queue.old queued × (queued ≤ 64) × (distinct (take queued queue.old) ≡ true) }
    ensures { (ready.new ≡ set ready.old t 0)
        × (queue_in queue.new result ≡ queue_from (leaves (take queued queue.old) t)) }
{
    let at = t as usize;
    ready[at] = 0;
    queue::leave(queue, queued, t)
}

// The thread has another priority. A ready thread that is raised goes to the tail of the queue, and one that is lowered to its head; one set to the
// priority it has stays. A thread that is not ready only changes its number.
#[tactic(auto, using(model::proofs::Ahead::requeued_raised, model::proofs::Ahead::requeued_lowered, model::proofs::Ahead::requeued_same, model::proofs::Ahead::requeued_unready))]
fn set_priority(
    ready: &[u8; 64],
    priorities: &mut [u8; 64],
    queue: &mut [u8; 64],
    queued: u32,
    t: u8,
    priority: u8,
)
    requires { (t < 64) × QueueStored queue.old queued × (queued ≤ 64) × (distinct (take queued queue.old) ≡ true)
        × (get_or ready.now t 0 ≡ 1 → member t (take queued queue.old) ≡ true) }
    ensures { (priorities.new ≡ set priorities.old t priority)
        × (queue_in queue.new queued
        ≡ queue_from (requeued (eqb (get_or ready.now t 0) 1) (get_or priorities.old t 0) priority t
        (take queued queue.old))) }
{
    let at = t as usize;
    let old = priorities[at];
    priorities[at] = priority;
    if ready[at] != 1 {
        return;
    }
    match priority.cmp(&old) {
        Ordering::Greater => queue::to_tail(queue, queued, t),
        Ordering::Less => queue::to_head(queue, queued, t),
        Ordering::Equal => {}
    }
}

// What the event's kind does; a tick and a resume do nothing here. The answer is how many threads are queued.
pub fn act(
    exists: &mut [u8; 64],
    ready: &mut [u8; 64],
    partitions: &mut [u8; 64],
    priorities: &mut [u8; 64],
    masks: &mut [u8; 64],
    policies: &mut [u8; 64],
    slices: &mut [u8; 64],
    queue: &mut [u8; 64],
    queued: u32,
    event: Event,
) -> u32
    requires { Able
        (columns exists.old ready.old partitions.old priorities.old masks.old policies.old slices.old)
        queue.old queued (bytes_of event) }
    ensures acted { Acted
        (tables_in (columns exists.old ready.old partitions.old priorities.old masks.old policies.old slices.old) queue.old queued)
        (tables_in (columns exists.new ready.new partitions.new priorities.new masks.new policies.new slices.new) queue.new result)
        (bytes_of event) }
    ensures regular { Regular (columns exists.new ready.new partitions.new priorities.new masks.new policies.new slices.new) }
{
    let t = event.thread;
    match event.action {
        Action::Create => {
            create(
                exists, ready, partitions, priorities, masks, policies, slices, event,
            );
            queued
        }
        Action::Ready => join(ready, policies, slices, queue, queued, t),
        Action::Block => block(ready, queue, queued, t),
        Action::SetPriority => {
            set_priority(ready, priorities, queue, queued, t, event.priority);
            queued
        }
        Action::End => {
            forget(
                exists, ready, partitions, priorities, masks, policies, slices, t,
            );
            queue::leave(queue, queued, t)
        }
        Action::Unknown | Action::Tick | Action::Resume => queued,
    }
}
