// Charging and clearing the lent history. Partition p's row is the `window` numbers from place p × window. Every function says what the whole
// history is afterwards, so nothing outside the places named is written.
ghost use Rattle.std.specs.Prelude.{◌≡◌, ◌++◌, ◌+◌, ◌*◌, ◌≤◌, ◌<◌, ◌^◌, length, get_or, drop, replicate};
ghost use Rattle.accounts.specs.History.{charged};

use units::{Cycles, Ticks};

// An amount more in one slot of a row.
fn charge_row(row: &mut [u32], slot: Ticks, amount: Cycles)
    requires { (slot.0 < length row.old) × (get_or row.old slot.0 0 + amount.0 < 2 ^ 32) }
    ensures { row.new ≡ charged slot.0 amount.0 row.old }
{
    let k = slot.0 as usize;
    row[k] = units::plus(Cycles(row[k]), amount).0;
}

// An amount is charged to a partition in a slot.
// The form that document 01 names for "partition p's row is the W numbers from place p × W": the row's part of the lent history, starting in
// its middle, is lent on to the function that charges it.
#[tactic(auto, using(lists::proofs::Parts::part_added))]
pub fn charge_slot(history: &mut [u32], window: Ticks, partition: u8, slot: Ticks, amount: Cycles)
    requires { (slot.0 < window.0) × (partition * window.0 + window.0 ≤ length history.old)
        × (get_or history.old (partition * window.0 + slot.0) 0 + amount.0 < 2 ^ 32) }
    ensures { history.new ≡ charged (partition * window.0 + slot.0) amount.0 history.old }
{
    let w = window.0 as usize;
    let start = partition as usize * w;
    charge_row(&mut history[start..start + w], slot, amount);
}

// A row is cleared. By a loop of its own, which makes one run of zeros of all rows: `fill` writes a row's last number by itself, and clearing the rows
// takes three times as long.
fn clear_row(row: &mut [u32])
    ensures { row.new ≡ replicate (length row.old) 0 }
{
    for number in row.iter_mut() {
        *number = 0;
    }
}

// Every row is cleared: each row's part of the lent history is lent on to the function that clears it.
pub fn clear_rows(history: &mut [u32], window: Ticks, count: u32)
    requires { count * window.0 ≤ length history.old }
    ensures { history.new ≡ replicate (count * window.0) 0 ++ drop (count * window.0) history.old }
{
    let w = window.0 as usize;
    for p in 0..count {
        let start = p as usize * w;
        clear_row(&mut history[start..start + w]);
    }
}
