// The two doors that only look: the decision for a state, and what remains of one partition's budget. Both take any state and any history,
// refuse what is not sound, and write nothing.
ghost use Rattle.std.specs.Prelude.{◌≡◌};
ghost use Rattle.model.specs.Answers.{line_of, remainder_of};
ghost use Rattle.model.specs.Doors as Doors;
ghost use Rattle.doors.specs.Doors.{lent_seen};

use crate::opening;
use crate::opening::Opened;
use model::{Decision, StateRef};
use refusals::Refusal;
use units::Cycles;

// The decision door: mode, partition and thread as the rules give them for the state. Favoured is the partition that its running thread works
// for, so that on what an event left it repeats that event's answer. Refused are, in this order: settings outside their
// limits (8), a history too short (7), a state not sound (8).
pub fn decision(
    settings: &[u32; 7],
    shares: &[u32; 16],
    clock: &[u32; 5],
    state: StateRef<'_>,
) -> Result<Decision, Refusal>
    ensures { line_of result ≡ Doors.decision (lent_seen settings.now shares.now clock.now state.entry) }
{
    let opened = Opened::read(settings, shares, clock);
    opened.test(&state)?;
    let mut beside = opening::NOTHING;
    opened.keep(&state, &mut beside);
    let settings = opened.settings;
    Ok(beside.cache.choose(settings, state.used, beside.favoured))
}

// The remaining door: what remains of the partition's budget, below zero after an overrun. It refuses what the decision door refuses, and
// then a partition not below the count (12).
pub fn remaining(
    settings: &[u32; 7],
    shares: &[u32; 16],
    clock: &[u32; 5],
    state: StateRef<'_>,
    partition: u32,
) -> Result<i64, Refusal>
    ensures { remainder_of result ≡ Doors.remainder (lent_seen settings.now shares.now clock.now state.entry) partition }
{
    let opened = Opened::read(settings, shares, clock);
    opened.test(&state)?;
    let settings = &opened.settings;
    if settings.count <= partition {
        return Err(Refusal::Partition);
    }
    let p = partition as usize;
    let budget = units::budget(settings.shares[p], settings.window, settings.tick);
    Ok(units::remaining(budget, Cycles(state.used[p])))
}
