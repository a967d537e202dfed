// Many events one after the other, on a state that is not refused: a step and a line for each record.
ghost use Rattle.std.specs.Prelude.{◌≡◌, ◌++◌, ◌*◌, ◌≤◌, length, drop};
ghost use Rattle.model.specs.Arrays.{columns_in, SameLoan};
ghost use Rattle.model.specs.Lent.{refused_arrays};
ghost use Rattle.model.specs.Run as Run;
ghost use Rattle.model.specs.Stream.{event_count, events_in, lines_of};
ghost use Rattle.scheduler.specs.Effects.{saved_of};
ghost use Rattle.scheduler.specs.Stepping.{WholeIn};

use decision::kept::Cache;
use model::{Clock, StateMut};
use sheet::Settings;

// The first n records of the events, each with its line. The last record may be cut: it gets its line too.
pub fn steps(
    settings: Settings,
    state: &mut StateMut<'_>,
    cache: &mut Cache,
    mut clock: Clock,
    mut favoured: u16,
    events: &[u8],
    out: &mut [u8],
    n: usize,
) -> Clock
    requires { WholeIn settings state.old clock cache.old favoured × (n ≤ event_count events.now) × (12 * n ≤ length out.old) }
    ensures after { saved_of settings state.new result ≡ Run.after (saved_of settings state.old clock) (events_in events.now n) }
    ensures lines { out.new ≡ lines_of (Run.run (saved_of settings state.old clock) (events_in events.now n)) ++ drop (12 * n) out.old }
    ensures sound { refused_arrays settings state.new.used.now result (columns_in state.new) state.new.queue.now state.new.history.now ≡ 0 }
    ensures priced { cache.new.budgets ≡ cache.old.budgets }
    ensures loan { SameLoan state.old state.new }
{
    for (i, event) in events.chunks(12).take(n).enumerate() {
        let answer = crate::step(settings, state, cache, clock, favoured, event);
        lines::write(&mut out[12 * i..12 * i + 12], answer.verdict);
        clock = answer.clock;
        favoured = answer.favoured;
    }
    clock
}
