// Who has budget, kept as a set of partitions: made once, and renewed for a partition whenever its total changes. `need` is how many cycles must
// remain of a budget.
ghost use Rattle.std.specs.Prelude.{◌≡◌, ◌-◌, ◌*◌, ◌≤◌, ◌<◌, length, get_or, set};
ghost use Rattle.sets.specs.Bits.{Marked};
ghost use Rattle.units.specs.Units.{remaining_of, has_budget_of};
ghost use Rattle.sheet.specs.Settings.{Limits};
ghost use Rattle.model.specs.Step.{clear_history};
ghost use Rattle.accounts.specs.Kept.{Priced};
ghost use Rattle.accounts.specs.Lowered.{lowered, Covered};
ghost use Rattle.accounts.specs.Solvency.{has_at, WeighedIn, Reweighed};

use sheet::Settings;
use units::{Cycles, Ticks};

// After partition p was charged: it has budget, or has not; the others stay.
pub fn weigh_at(used: &[u32; 16], budgets: &[u32; 16], need: Cycles, solvent: u16, p: u8) -> u16
    requires { p < 16 }
    ensures { Marked 16 solvent p (has_at used.now budgets.now need.0 p) result }
{
    let at = p as usize;
    let rest = units::remaining(Cycles(budgets[at]), Cycles(used[at]));
    sets::mark(solvent, p, units::has_budget(rest, need))
}

// All partitions.
pub fn weigh_all(used: &[u32; 16], budgets: &[u32; 16], need: Cycles, count: u32) -> u16
    requires { count ≤ 16 }
    ensures { WeighedIn used.now budgets.now need.0 count result }
{
    let mut set: u16 = 0;
    for p in 0..count as u8 {
        set = weigh_at(used, budgets, need, set, p);
    }
    set
}

// One slot of partition p's row is cleared, and its total lowered by what stood there. Where nothing stood, nothing is written.
fn clear_in_row(
    used: &mut [u32; 16],
    budgets: &[u32; 16],
    row: &mut [u32],
    slot: Ticks,
    need: Cycles,
    solvent: u16,
    p: u8,
) -> u16
    requires { (p < 16) × (slot.0 < length row.old) × (get_or row.old slot.0 0 ≤ get_or used.old p 0) }
    ensures { (used.new ≡ set used.old p (get_or used.old p 0 - get_or row.old slot.0 0))
        × (row.new ≡ set row.old slot.0 0)
        × Reweighed used.old used.new budgets.now need.0 solvent result }
{
    let k = slot.0 as usize;
    let held = row[k];
    if held == 0 {
        return solvent;
    }
    let at = p as usize;
    used[at] = units::less(Cycles(used[at]), Cycles(held)).0;
    row[k] = 0;
    weigh_at(used, budgets, need, solvent, p)
}

// A tick's clearing: one slot for every partition. Each row's part of the lent history is lent on to the function that clears it.
pub fn clear_slot(
    used: &mut [u32; 16],
    budgets: &[u32; 16],
    history: &mut [u32],
    window: Ticks,
    count: u32,
    slot: Ticks,
    need: Cycles,
    solvent: u16,
) -> u16
    requires { Covered used.old history.old window.0 count slot.0 }
    ensures { (used.new ≡ lowered window.0 slot.0 count used.old history.old)
        × (history.new ≡ clear_history window.0 slot.0 count history.old)
        × Reweighed used.old used.new budgets.now need.0 solvent result }
{
    let w = window.0 as usize;
    let mut set = solvent;
    for p in 0..count as u8 {
        let start = p as usize * w;
        let row = &mut history[start..start + w];
        set = clear_in_row(used, budgets, row, slot, need, set, p);
    }
    set
}

// The budgets, worked out once. Gives the set of partitions whose budget is above 0.
pub fn price(budgets: &mut [u32; 16], settings: Settings) -> u16
    requires { Limits settings }
    ensures { Priced settings budgets.new result }
{
    *budgets = [0u32; 16];
    let mut paying: u16 = 0;
    for p in 0..settings.count as u8 {
        let at = p as usize;
        let budget = units::budget(settings.shares[at], settings.window, settings.tick);
        budgets[at] = budget.0;
        paying = sets::mark(paying, p, budget.0 != 0);
    }
    paying
}
