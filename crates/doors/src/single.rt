// The event door: one event of any bytes, on any state.
ghost use Rattle.model.specs.Answers.{line_of};
ghost use Rattle.model.specs.Arrays.{SameLoan};
ghost use Rattle.doors.specs.Doors.{lent_in, Answered};

use crate::opening;
use crate::opening::Opened;
use model::{Decision, StateMut};
use refusals::Refusal;

// Refused are, in this order: settings outside their limits (8), a history too short (7), a state not sound (8), and then the event (14, 9 to
// 13). Otherwise the arrays hold the next state.
pub fn event(
    settings: &[u32; 7],
    shares: &[u32; 16],
    clock: &mut [u32; 5],
    state: &mut StateMut<'_>,
    event: &[u8],
) -> Result<Decision, Refusal>
    ensures answered { Answered (lent_in settings.now shares.now clock.old state.old) event.now (line_of result) (lent_in settings.now shares.now clock.new state.new) }
    ensures loan { SameLoan state.old state.new }
{
    let seen = state.seen();
    let opened = Opened::read(settings, shares, clock);
    opened.test(&seen)?;
    let mut beside = opening::NOTHING;
    opened.keep(&seen, &mut beside);
    let stepped = scheduler::step(
        opened.settings,
        state,
        &mut beside.cache,
        opened.clock,
        beside.favoured,
        event,
    );
    let decision = stepped.verdict?;
    *clock = stepped.clock.into();
    Ok(decision)
}
