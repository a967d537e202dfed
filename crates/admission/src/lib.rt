// Which events are refused on a sound state, and why: the first refusal that applies.
#![tactic(auto)]

ghost use Rattle.std.specs.Prelude.{◌≡◌, true};
ghost use Rattle.refusals.specs.Refusals.{outcome_of};
ghost use Rattle.model.specs.Event.{well_formed, stamp_of};
ghost use Rattle.event.specs.Kinds.{kind_number};
ghost use Rattle.event.specs.Bytes.{bytes_of};
ghost use Rattle.admission.specs.Tests.{late, missing_in, create_refused, readiness_refused, other_refused, Refuses, Formed, RefusesAll, AcceptsAs};

use event::Event;
use event::kinds::Action;
use model::Clock;
use refusals::Refusal;
use sheet::Settings;
use threads::tasks::ROUND_ROBIN;
use units::Cycles;

// 10: the time since tick would go above 2 × C. A clock that goes back gives a large elapsed.
#[tactic(auto, using(crate::proofs::Laws::other_kind), unfolding(crate::specs::Tests::late))]
fn too_long(event: Event, c: Clock, tick: Cycles) -> bool
    ensures { result ≡ late (kind_number event.action) event.stamp c.stamp c.since.0 tick.0 }
{
    match event.action {
        Action::Resume => false,
        _ => units::above_two_ticks(c.since, units::elapsed(event.stamp, c.stamp), tick),
    }
}

// No thread of this number exists.
fn missing(exists: &[u8; 64], t: u8) -> bool
    ensures { result ≡ missing_in exists.now t }
{
    64 <= t || exists[t as usize] != 1
}

// A create: 11 for a thread that exists, 12 for a partition not below the count, a run mask of 0, or a policy above 1.
#[tactic(auto, unfolding(crate::specs::Tests::create_refused))]
fn refused_create(exists: &[u8; 64], count: u32, event: Event) -> Result<(), Refusal>
    ensures { outcome_of result ≡ create_refused exists.now count event.thread event.partition event.mask event.policy }
{
    if 64 <= event.thread || exists[event.thread as usize] == 1 {
        return Err(Refusal::Thread);
    }
    if (count <= event.partition as u32) | (event.mask == 0) | (ROUND_ROBIN < event.policy) {
        return Err(Refusal::Partition);
    }
    Ok(())
}

// A set priority or an end: 11 for one that does not exist.
#[tactic(auto, unfolding(crate::specs::Tests::other_refused))]
fn refused_other(exists: &[u8; 64], t: u8) -> Result<(), Refusal>
    ensures { outcome_of result ≡ other_refused exists.now t }
{
    if missing(exists, t) {
        return Err(Refusal::Thread);
    }
    Ok(())
}

// A ready, of a thread that is not to be ready, or a block, of one that is to be: 11 for one that does not exist, 13 for one that is otherwise.
#[tactic(auto, using(crate::proofs::Laws::inside, crate::proofs::Laws::otherwise, crate::proofs::Laws::as_wanted))]
fn refused_readiness(
    exists: &[u8; 64],
    ready: &[u8; 64],
    t: u8,
    wanted: bool,
) -> Result<(), Refusal>
    ensures { outcome_of result ≡ readiness_refused exists.now ready.now t wanted }
{
    refused_other(exists, t)?;
    if (ready[t as usize] == 1) != wanted {
        return Err(Refusal::Readiness);
    }
    Ok(())
}

// The first refusal that applies to an event of a known form.
#[tactic(auto, using(crate::proofs::Laws::is_late, crate::proofs::Laws::at_create, crate::proofs::Laws::at_ready, crate::proofs::Laws::at_block, crate::proofs::Laws::at_other, crate::proofs::Laws::at_none))]
fn refused_action(
    settings: Settings,
    exists: &[u8; 64],
    ready: &[u8; 64],
    c: Clock,
    event: Event,
) -> Result<(), Refusal>
    requires { (well_formed (bytes_of event) ≡ true) × (event.stamp ≡ stamp_of (bytes_of event)) }
    ensures { Refuses settings c exists.now ready.now (bytes_of event) (outcome_of result) }
{
    if too_long(event, c, settings.tick) {
        return Err(Refusal::Elapsed);
    }
    let t = event.thread;
    match event.action {
        Action::Create => refused_create(exists, settings.count, event),
        Action::Ready => refused_readiness(exists, ready, t, false),
        Action::Block => refused_readiness(exists, ready, t, true),
        Action::SetPriority | Action::End => refused_other(exists, t),
        Action::Unknown | Action::Tick | Action::Resume => Ok(()),
    }
}

// The event, or the first refusal that applies, in the paper's order: 14 and 9, which decoding found, then 10 to 13. Nothing is asked of the state.
pub fn admit(
    settings: Settings,
    exists: &[u8; 64],
    ready: &[u8; 64],
    c: Clock,
    decoded: Result<Event, Refusal>,
) -> Result<Event, Refusal>
    requires { Formed decoded }
    ensures refused { RefusesAll settings c exists.now ready.now decoded result }
    ensures accepted { AcceptsAs decoded result }
{
    let event = decoded?;
    refused_action(settings, exists, ready, c, event)?;
    Ok(event)
}
