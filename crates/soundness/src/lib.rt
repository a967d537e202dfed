// Whether a state is sound beside a history ("Sound means" of document 01), for whatever bytes its arrays and numbers hold.
#![tactic(auto)]

pub mod queue;
pub mod records;
pub mod sums;

ghost use Rattle.std.specs.Prelude.{◌≡◌, ◌*◌, ◌≤◌, true, length, if◌then◌else◌, nat_lt};
ghost use Rattle.refusals.specs.Refusals.{outcome_of};
ghost use Rattle.sheet.specs.Settings.{W, within_limits};
ghost use Rattle.model.specs.Arrays.{columns_seen};
ghost use Rattle.model.specs.Lent.{refused_arrays};
ghost use Rattle.soundness.specs.Refused.{rest_zero, running_fits, sound_in};

use model::{Clock, IDLE, StateRef};
use refusals::Refusal;
use sheet::Settings;
use sums::History;
use threads::masks;

// A number that must be zero past the last partition: 0 for a partition below the count.
fn past(p: u32, count: u32, number: u32) -> u32
    ensures { result ≡ (if nat_lt p count then 0 else number) }
{
    if p < count { 0 } else { number }
}

// "shares and totals past the last partition all zero"
fn rest_zero(settings: &Settings, used: &[u32; 16]) -> bool
    ensures { result ≡ rest_zero settings.now used.now }
{
    let mut bits: u32 = 0;
    for p in 0..16u32 {
        let at = p as usize;
        bits |= past(p, settings.count, settings.shares[at].0 | used[at]);
    }
    bits == 0
}

// "the running one idle, or in the line and allowed"
#[tactic(auto, using(std::proofs::lemmas::Bool::Decides::nat_tests), unfolding(crate::specs::Refused::running_fits))]
fn running_fits(ready: &[u8; 64], masks: &[u8; 64], running: u32, core: u32) -> bool
    requires { core ≤ 7 }
    ensures { result ≡ running_fits ready.now masks.now running core }
{
    let at = running as usize;
    running == IDLE || (running < 64 && ready[at] == 1 && masks::allowed(masks[at], core))
}

// Every flag is 0 or 1 and the state is sound, if its settings are within the limits and the history has room for its rows. The shortest
// tests come first.
fn sound(settings: &Settings, clock: &Clock, state: &StateRef<'_>) -> bool
    requires { (within_limits settings.now ≡ true) × (settings.now.count * W settings.now ≤ length state.now.history.now) }
    ensures { result ≡ sound_in settings.now state.now.used.now clock.now (columns_seen state.now) state.now.queue.now state.now.history.now }
{
    if !records::sound_threads(
        state.exists,
        state.ready,
        state.partitions,
        state.priorities,
        state.masks,
        state.policies,
        state.slices,
        settings.count as u8,
    ) {
        return false;
    }
    if !queue::sound_queue(state.ready, state.queue, clock.queued) {
        return false;
    }
    let history = History {
        numbers: state.history,
        window: settings.window,
        count: settings.count,
    };
    let most = units::twice(settings.tick);
    (clock.since.0 <= most.0)
        & rest_zero(settings, state.used)
        & running_fits(state.ready, state.masks, clock.running, settings.core)
        & history.books_agree(state.used, clock.slot, most, clock.since)
}

// What every door that is lent a state refuses before all else: 8 for settings outside their limits, because the length wanted is worked
// out from them; 7 for a history too short; 8 for a flag above 1 or a state not sound. All three are lent: a copy of them would be made on the
// stack, and on a processor that loads no word from an odd address byte by byte.
pub fn refused_state(
    settings: &Settings,
    clock: &Clock,
    state: &StateRef<'_>,
) -> Result<(), Refusal>
    ensures { outcome_of result ≡ refused_arrays settings.now state.now.used.now clock.now (columns_seen state.now) state.now.queue.now state.now.history.now }
{
    if sheet::limits(*settings).is_err() {
        return Err(Refusal::Unsound);
    }
    let wanted = (settings.count as usize) * (settings.window.0 as usize);
    if state.history.len() < wanted {
        return Err(Refusal::Buffer);
    }
    if sound(settings, clock, state) {
        Ok(())
    } else {
        Err(Refusal::Unsound)
    }
}
