// An event on a state that is not refused, in the arrays that its caller lends: refused, or done and decided.
#![tactic(auto)]

pub mod apply;
pub mod batch;

ghost use Rattle.std.specs.Prelude.{◌≡◌};
ghost use Rattle.model.specs.Event.{refused, stamp_of};
ghost use Rattle.model.specs.Arrays.{columns_in, state_of, SameLoan};
ghost use Rattle.event.specs.Bytes.{bytes_of};
ghost use Rattle.scheduler.specs.Effects.{saved_of};
ghost use Rattle.scheduler.specs.Stepping.{WholeIn, StepAnsweredIn, StillIn};

use decision::kept;
use decision::kept::Cache;
use event::Event;
use model::{Clock, Decision, StateMut};
use refusals::Refusal;
use sheet::Settings;

// What an event is answered; the clock and the favoured partition after it.
#[derive(Clone, Copy)]
pub struct Stepped {
    pub verdict: Result<Decision, Refusal>,
    pub clock: Clock,
    pub favoured: u16,
}

// All three steps: what was decided is the answer, and the thread chosen runs. Favoured is the partition that the event found the processor working
// for, whatever it does to the running thread; for the next event it is the one that is decided for.
fn accept(
    settings: Settings,
    state: &mut StateMut<'_>,
    cache: &mut Cache,
    clock: Clock,
    favoured: u16,
    event: Event,
) -> Stepped
    requires { WholeIn settings state.old clock cache.old favoured × (refused (state_of settings state.old.used.now clock (columns_in state.old) state.old.queue.now) state.old.history.now (bytes_of event) ≡ 0) × (event.stamp ≡ stamp_of (bytes_of event)) }
    ensures answered { StepAnsweredIn settings (saved_of settings state.old clock) (bytes_of event) state.new cache.new result }
    ensures priced { cache.new.budgets ≡ cache.old.budgets }
    ensures loan { SameLoan state.old state.new }
{
    let after = apply::apply(settings, state, cache, clock, event);
    let decision = cache.choose(settings, state.used, favoured);
    let running = decision.thread as u32;
    Stepped {
        verdict: Ok(decision),
        clock: Clock { running, ..after },
        favoured: kept::favoured_after(decision.partition, running),
    }
}

// An event of any bytes: a run of many events tests the state once, and then steps.
pub fn step(
    settings: Settings,
    state: &mut StateMut<'_>,
    cache: &mut Cache,
    clock: Clock,
    favoured: u16,
    event: &[u8],
) -> Stepped
    requires { WholeIn settings state.old clock cache.old favoured }
    ensures answered { StepAnsweredIn settings (saved_of settings state.old clock) event.now state.new cache.new result }
    ensures still { StillIn (saved_of settings state.old clock) event.now state.old clock state.new result.clock }
    ensures priced { cache.new.budgets ≡ cache.old.budgets }
    ensures loan { SameLoan state.old state.new }
{
    let decoded = event::decode(event);
    let admitted = admission::admit(settings, state.exists, state.ready, clock, decoded);
    match admitted {
        Err(refusal) => Stepped {
            verdict: Err(refusal),
            clock,
            favoured,
        },
        Ok(accepted) => accept(settings, state, cache, clock, favoured, accepted),
    }
}
