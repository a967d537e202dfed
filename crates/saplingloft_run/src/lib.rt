// The C interface, a run of events: the door, lent the caller's struct where it lies (see the crate saplingloft).
#![tactic(auto)]

ghost use Rattle.model.specs.Lent.{lent};
ghost use Rattle.model.specs.Arrays.{columns};
ghost use Rattle.doors.specs.Doors.{Ran};

use lines::numbers;
use model::StateMut;

// Every record of the events that has room for its line of twelve bytes. The answer is the refusal, or 0.
#[unsafe(no_mangle)]
pub extern "C" fn saplingloft_lent_run(
    settings: &[u32; 7],
    shares: &[u32; 16],
    used: &mut [u32; 16],
    clock: &mut [u32; 5],
    exists: &mut [u8; 64],
    ready: &mut [u8; 64],
    partitions: &mut [u8; 64],
    priorities: &mut [u8; 64],
    masks: &mut [u8; 64],
    policies: &mut [u8; 64],
    slices: &mut [u8; 64],
    queue: &mut [u8; 64],
    history: &mut [u32],
    events: &[u8],
    lines: &mut [u8],
) -> u32
    ensures { Ran (lent settings.now shares.now used.old clock.old (columns exists.old ready.old partitions.old priorities.old masks.old policies.old slices.old) queue.old history.old)
        events.now lines.old result
        (lent settings.now shares.now used.new clock.new (columns exists.new ready.new partitions.new priorities.new masks.new policies.new slices.new) queue.new history.new)
        lines.new }
{
    let mut state = StateMut {
        used,
        exists,
        ready,
        partitions,
        priorities,
        masks,
        policies,
        slices,
        queue,
        history,
    };
    let outcome = doors::batch::run(settings, shares, clock, &mut state, events, lines);
    u32::from(numbers::outcome_number(outcome))
}
