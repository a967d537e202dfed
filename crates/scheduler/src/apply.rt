// What an accepted event does before anything is decided: the time used is charged, the event's own action is done, and what is kept follows.
ghost use Rattle.std.specs.Prelude.{◌≡◌, ◌≢◌};
ghost use Rattle.model.specs.Arrays.{columns_in, SameLoan};
ghost use Rattle.model.specs.Event.{kind_of};
ghost use Rattle.sheet.specs.Settings.{need};
ghost use Rattle.event.specs.Bytes.{bytes_of};
ghost use Rattle.accounts.specs.Solvency.{Reweighed};
ghost use Rattle.scheduler.specs.Effects.{saved_of, ReadyIn, AppliedIn, Ticking, Ticked};

use accounts::window;
use decision::kept::Cache;
use decision::leads::ReadyQueue;
use event::Event;
use event::kinds::Action;
use model::{Clock, StateMut};
use sheet::Settings;
use threads::{actions, turns};

// The charge of a tick, and the move to the next slot.
fn advance(
    settings: Settings,
    state: &mut StateMut<'_>,
    cache: &mut Cache,
    clock: Clock,
    stamp: u32,
) -> Clock
    requires { Ticking settings state.old.used.now clock state.old.partitions.now state.old.history.now stamp }
    ensures ticked { Ticked settings state.old.used.now clock state.old.partitions.now state.old.history.now state.new.used.now result state.new.history.now stamp }
    ensures weighed { Reweighed state.old.used.now state.new.used.now cache.old.budgets (need settings) cache.old.sets.solvent cache.new.sets.solvent }
    ensures threads { columns_in state.new ≡ columns_in state.old }
    ensures queue { state.new.queue.now ≡ state.old.queue.now }
    ensures kept { cache.new ≡ record { budgets = cache.old.budgets; leads = cache.old.leads; sets = record { paying = cache.old.sets.paying; competing = cache.old.sets.competing; solvent = cache.new.sets.solvent } } }
    ensures loan { SameLoan state.old state.new }
{
    let paid = window::pay(
        settings,
        state.used,
        &cache.budgets,
        state.partitions,
        state.history,
        clock,
        cache.sets.solvent,
        stamp,
    );
    let moved = window::move_slot(
        settings,
        state.used,
        &cache.budgets,
        state.history,
        paid.clock,
        paid.solvent,
    );
    cache.sets.solvent = moved.solvent;
    moved.clock
}

// A tick: the charge, the move to the next slot, and the running thread's slice, with the leads after it.
fn tick(
    settings: Settings,
    state: &mut StateMut<'_>,
    cache: &mut Cache,
    clock: Clock,
    event: Event,
) -> Clock
    requires { ReadyIn settings state.old clock cache.old event × (kind_of (bytes_of event) ≡ 1) }
    ensures applied { AppliedIn settings (saved_of settings state.old clock) state.new result cache.new (bytes_of event) }
    ensures priced { cache.new.budgets ≡ cache.old.budgets }
    ensures loan { SameLoan state.old state.new }
{
    let after = advance(settings, state, cache, clock, event.stamp);
    let ended = turns::turn(
        state.policies,
        state.slices,
        state.queue,
        clock.queued,
        clock.running,
    );
    let queue = ReadyQueue::of(state.seen(), clock.queued, settings.core);
    cache.follow_turn(queue, clock.running, ended);
    after
}

// The other kinds but a resume: the charge, the action, and the leads after it.
fn work(
    settings: Settings,
    state: &mut StateMut<'_>,
    cache: &mut Cache,
    clock: Clock,
    event: Event,
) -> Clock
    requires { ReadyIn settings state.old clock cache.old event × (kind_of (bytes_of event) ≢ 1) × (kind_of (bytes_of event) ≢ 7) }
    ensures applied { AppliedIn settings (saved_of settings state.old clock) state.new result cache.new (bytes_of event) }
    ensures priced { cache.new.budgets ≡ cache.old.budgets }
    ensures loan { SameLoan state.old state.new }
{
    let home = state.partitions[event.thread as usize];
    let paid = window::pay(
        settings,
        state.used,
        &cache.budgets,
        state.partitions,
        state.history,
        clock,
        cache.sets.solvent,
        event.stamp,
    );
    cache.sets.solvent = paid.solvent;
    let queued = actions::act(
        state.exists,
        state.ready,
        state.partitions,
        state.priorities,
        state.masks,
        state.policies,
        state.slices,
        state.queue,
        clock.queued,
        event,
    );
    let seen = state.seen();
    cache.follow(
        seen.ready,
        ReadyQueue::of(seen, queued, settings.core),
        event.action,
        event.thread,
        home,
    );
    Clock {
        queued,
        ..paid.clock
    }
}

// Steps 1 and 2 of an accepted event: the charge and the action of its kind; or a resume.
pub fn apply(
    settings: Settings,
    state: &mut StateMut<'_>,
    cache: &mut Cache,
    clock: Clock,
    event: Event,
) -> Clock
    requires { ReadyIn settings state.old clock cache.old event }
    ensures applied { AppliedIn settings (saved_of settings state.old clock) state.new result cache.new (bytes_of event) }
    ensures priced { cache.new.budgets ≡ cache.old.budgets }
    ensures loan { SameLoan state.old state.new }
{
    match event.action {
        Action::Tick => tick(settings, state, cache, clock, event),
        Action::Resume => {
            let restarted = window::restart(
                settings,
                state.used,
                &cache.budgets,
                state.history,
                clock,
                event.stamp,
            );
            cache.sets.solvent = restarted.solvent;
            restarted.clock
        }
        _ => work(settings, state, cache, clock, event),
    }
}
