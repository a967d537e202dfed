// The run door: many events at once. The state is tested once, for all of them.
ghost use Rattle.model.specs.Arrays.{SameLoan};
ghost use Rattle.refusals.specs.Refusals.{outcome_of};
ghost use Rattle.doors.specs.Doors.{lent_in, Ran};

use crate::opening;
use crate::opening::Opened;
use model::StateMut;
use refusals::Refusal;
use scheduler::batch;

// Every record of the events that has room for its line of twelve bytes; the last may be cut. What is left over is for the next run: how many
// records are taken, the caller can work out (taken_by). Refused are 8, 7 and 8 as for an event; then no record is taken, and no line is written.
pub fn run(
    settings: &[u32; 7],
    shares: &[u32; 16],
    clock: &mut [u32; 5],
    state: &mut StateMut<'_>,
    events: &[u8],
    out: &mut [u8],
) -> Result<(), Refusal>
    ensures ran { Ran (lent_in settings.now shares.now clock.old state.old) events.now out.old (outcome_of result) (lent_in settings.now shares.now clock.new state.new) out.new }
    ensures loan { SameLoan state.old state.new }
{
    let seen = state.seen();
    let opened = Opened::read(settings, shares, clock);
    opened.test(&seen)?;
    let mut beside = opening::NOTHING;
    opened.keep(&seen, &mut beside);
    let records = events.len().div_ceil(12).min(out.len() / 12);
    let after = batch::steps(
        opened.settings,
        state,
        &mut beside.cache,
        opened.clock,
        beside.favoured,
        events,
        out,
        records,
    );
    *clock = after.into();
    Ok(())
}
