// The charge: elapsed time goes to the partition of the thread that ran, in the lent totals and in the lent history.
ghost use Rattle.accounts.specs.Charged.{Payable, Charged};

use crate::history;
use model::{Clock, IDLE};
use sheet::Settings;
use units::Cycles;

// Elapsed time goes to the running thread's partition in the current slot, and to the time since tick; the event's stamp is the old one for
// the next event.
pub fn charge(
    settings: Settings,
    used: &mut [u32; 16],
    partitions: &[u8; 64],
    history: &mut [u32],
    c: Clock,
    stamp: u32,
) -> Clock
    requires { Payable settings used.old c partitions.now history.old stamp }
    ensures { Charged settings used.old c partitions.now history.old used.new result history.new stamp }
{
    let amount = units::elapsed(stamp, c.stamp);
    let since = units::plus(c.since, amount);
    let clock = Clock { stamp, since, ..c };
    if c.running == IDLE {
        return clock;
    }
    let payer = partitions[c.running as usize];
    let p = payer as usize;
    used[p] = units::plus(Cycles(used[p]), amount).0;
    history::charge_slot(history, settings.window, payer, c.slot, amount);
    clock
}
