// What a tick does to the running thread, in the arrays that the caller lends.
ghost use Rattle.std.specs.Prelude.{◌≡◌, length, get_or};
ghost use Rattle.model.specs.Slices.{spent};
ghost use Rattle.threads.specs.Turned.{Turning, Turned};

use crate::tasks::ROUND_ROBIN;
use crate::{queue, tasks};
use model::IDLE;

// The running thread's task block is counted down, if it is round robin; at zero its slice is refilled, and the thread goes to the tail of the
// queue. The answer is whether it went there.
#[tactic(auto, using(crate::proofs::TurnsLaws::spent_idle, crate::proofs::TurnsLaws::turned_idle, crate::proofs::TurnsLaws::turned_other, crate::proofs::TurnsLaws::turned_stays, crate::proofs::TurnsLaws::turned_last, crate::proofs::TurnsLaws::spent_other))]
pub fn turn(
    policies: &[u8; 64],
    slices: &mut [u8; 64],
    queue: &mut [u8; 64],
    queued: u32,
    running: u32,
) -> bool
    requires { (length policies.now ≡ 64) × Turning slices.old queue.old queued running }
    ensures { (result ≡ spent (get_or policies.now running 0) (get_or slices.old running 0))
        × Turned policies.now slices.old queue.old queued slices.new queue.new running
        × (length slices.new ≡ 64) }
{
    if running == IDLE {
        return false;
    }
    let at = running as usize;
    if policies[at] != ROUND_ROBIN {
        return false;
    }
    let last = tasks::is_spent(policies[at], slices[at]);
    tasks::count_running(policies, slices, at);
    if last {
        queue::to_tail(queue, queued, running as u8);
    }
    last
}
