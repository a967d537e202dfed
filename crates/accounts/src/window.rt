// The window: what the charge, a tick and a resume do to the lent totals and the lent history, and who has budget after it.
ghost use Rattle.std.specs.Prelude.{◌≡◌, ◌*◌, ◌≤◌, ◌<◌, length};
ghost use Rattle.units.specs.Units.{next_of};
ghost use Rattle.sheet.specs.Settings.{W, need};
ghost use Rattle.accounts.specs.Charged.{Payable, Charged};
ghost use Rattle.accounts.specs.Lowered.{Covered};
ghost use Rattle.accounts.specs.Solvency.{WeighedIn, Reweighed};
ghost use Rattle.accounts.specs.Window.{Moved, Restarted};

use crate::{charging, history, solvency};
use model::{Clock, IDLE};
use sheet::Settings;
use units::{Cycles, Ticks};

// The clock after it, and the set of partitions that have budget.
#[derive(Clone, Copy)]
pub struct Account {
    pub clock: Clock,
    pub solvent: u16,
}

// The charge, and whether the partition that pays has budget left.
pub fn pay(
    settings: Settings,
    used: &mut [u32; 16],
    budgets: &[u32; 16],
    partitions: &[u8; 64],
    history: &mut [u32],
    c: Clock,
    solvent: u16,
    stamp: u32,
) -> Account
    requires { Payable settings used.old c partitions.now history.old stamp }
    ensures { Charged settings used.old c partitions.now history.old used.new result.clock history.new stamp
        × Reweighed used.old used.new budgets.now (need settings) solvent result.solvent }
{
    let clock = charging::charge(settings, used, partitions, history, c, stamp);
    if c.running == IDLE {
        return Account { clock, solvent };
    }
    let p = partitions[c.running as usize];
    let need = units::need(settings.edition, settings.tick);
    let solvent = solvency::weigh_at(used, budgets, need, solvent, p);
    Account { clock, solvent }
}

// A tick moves to the next slot, clears it for every partition and lowers the totals by what stood there.
pub fn move_slot(
    settings: Settings,
    used: &mut [u32; 16],
    budgets: &[u32; 16],
    history: &mut [u32],
    c: Clock,
    solvent: u16,
) -> Account
    requires { (c.slot.0 < W settings) × Covered used.old history.old (W settings) settings.count (next_of c.slot.0 (W settings)) }
    ensures { Moved settings used.old c history.old used.new result.clock history.new
        × Reweighed used.old used.new budgets.now (need settings) solvent result.solvent }
{
    let slot = units::next_slot(c.slot, settings.window);
    let need = units::need(settings.edition, settings.tick);
    let solvent = solvency::clear_slot(
        used,
        budgets,
        history,
        settings.window,
        settings.count,
        slot,
        need,
        solvent,
    );
    let since = Cycles(0);
    let clock = Clock { slot, since, ..c };
    Account { clock, solvent }
}

// A resume takes the stamp as it is and forgets all history; threads and queue stay.
pub fn restart(
    settings: Settings,
    used: &mut [u32; 16],
    budgets: &[u32; 16],
    history: &mut [u32],
    c: Clock,
    stamp: u32,
) -> Account
    requires { (settings.count ≤ 16) × (settings.count * W settings ≤ length history.old) }
    ensures { Restarted settings used.old c history.old used.new result.clock history.new stamp
        × WeighedIn used.new budgets.now (need settings) settings.count result.solvent }
{
    history::clear_rows(history, settings.window, settings.count);
    *used = [0u32; 16];
    let need = units::need(settings.edition, settings.tick);
    let solvent = solvency::weigh_all(used, budgets, need, settings.count);
    let clock = Clock {
        stamp,
        slot: Ticks(0),
        since: Cycles(0),
        ..c
    };
    Account { clock, solvent }
}
