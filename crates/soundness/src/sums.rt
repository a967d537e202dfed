// The lent history, added up by row and by slot: rows against the totals, slots against their limits. The slots are worked through in blocks
// of 100, so that their sums take little of the stack, and a window of up to 100 ticks is one block. Each pass over numbers is a plain one,
// without branches, so that it can be done several numbers at a time. Counters have 32 bits: a usize has 64 also where the processor has 32.
ghost use Rattle.std.specs.Prelude.{◌≡◌, ◌+◌, ◌*◌, ◌%◌, ◌^◌, ◌<◌, ◌≤◌, true, Option, length, replicate, nat_le, slice_index};
ghost use Rattle.lists.specs.Lists.{all, below};
ghost use Rattle.soundness.specs.Sums.{slot_in, part_in, books_agree, RowAdded, Block, RowsAdded, BlockAdded};

use units::{Cycles, Ticks};

// A history: for each of `count` partitions a row of `window` numbers, one row after the other.
#[derive(Clone, Copy)]
pub struct History<'a> {
    pub numbers: &'a [u32],
    pub window: Ticks,
    pub count: u32,
    pub ghost few: { count ≤ 16 },
    pub ghost short: { window.0 ≤ 400 },
    pub ghost inside: { count * window.0 ≤ length numbers.now },
}

// A part of a row is added up, and each of its numbers to its slot's sum. The answer is the part's sum if every number is below 2^22, which is
// above every limit of a slot. If one is not, sums may have wrapped, but then the state is refused.
fn add_row(row: &[u32], sums: &mut [u32; 100]) -> Option<Cycles>
    requires { length row.now ≤ 100 }
    ensures { RowAdded row.now sums.old result sums.new }
{
    let mut sum: u32 = 0;
    let mut bits: u32 = 0;
    for k in 0..row.len() as u32 {
        let at = k as usize;
        let x = row[at];
        bits |= x;
        sum = sum.wrapping_add(x);
        sums[at] = sums[at].wrapping_add(x);
    }
    let narrow = bits < 4194304;
    if narrow { Some(Cycles(sum)) } else { None }
}

// The first slots' sums are at most the given number.
#[tactic(auto, using(lists::proofs::Loops::all_next), unfolding(lists::specs::Lists::all, lists::specs::Lists::below))]
fn slots_within(sums: &[u32; 100], size: u32, most: Cycles) -> bool
    requires { size ≤ 100 }
    ensures { result ≡ all (λ k. nat_le (slice_index sums.now k) most.0) (below size) }
{
    let mut ok = true;
    for k in 0..size {
        ok &= sums[k as usize] <= most.0;
    }
    ok
}

impl<'a> History<'a> {
    // What a row holds in `size` slots, from slot `from` on.
    fn part(self, p: u32, from: u32, size: u32) -> &'a [u32]
        requires { (p < self.count) × (from + size ≤ self.window.0) }
        ensures { result.now ≡ part_in self.entry.numbers.now self.entry.window.0 from size p }
    {
        let start = (p * self.window.0 + from) as usize;
        &self.numbers[start..start + size as usize]
    }

    // The parts of all rows are added to the rows' sums and to the slots', as long as all their numbers are below 2^22, which is the answer.
    fn add_rows(self, from: u32, size: u32, rows: &mut [u32; 16], sums: &mut [u32; 100]) -> bool
        requires { Block self.window.0 from size × (sums.old ≡ replicate 100 0) }
        ensures { BlockAdded self.entry.numbers.now self.entry.window.0 self.entry.count from size rows.old sums.old result rows.new sums.new }
    {
        for p in 0..self.count {
            let Some(sum) = add_row(self.part(p, from, size), sums) else {
                return false;
            };
            let at = p as usize;
            rows[at] = rows[at].wrapping_add(sum.0);
        }
        true
    }

    // "each slot's sum over partitions at most 2 × C", of a block of slots. If so, the rows' sums go on.
    fn block_within(self, from: u32, size: u32, most: Cycles, rows: &mut [u32; 16]) -> bool
        requires { Block self.window.0 from size × (most.0 < 4194304) }
        ensures within { result ≡ all (λ i. nat_le (slot_in self.entry.numbers.now self.entry.window.0 self.entry.count (from + i)) most.0) (below size) }
        ensures rows { result ≡ true → RowsAdded self.entry.numbers.now self.entry.window.0 self.entry.count from size rows.old rows.new }
    {
        let mut sums = [0u32; 100];
        let narrow = self.add_rows(from, size, rows, &mut sums);
        narrow & slots_within(&sums, size, most)
    }

    // What the rows hold in one slot.
    fn slot_sum(self, slot: u32) -> u32
        requires { slot < self.window.0 }
        ensures { result ≡ slot_in self.entry.numbers.now self.entry.window.0 self.entry.count slot % 2 ^ 32 }
    {
        let mut sum: u32 = 0;
        for p in 0..self.count {
            sum = sum.wrapping_add(self.numbers[(p * self.window.0 + slot) as usize]);
        }
        sum
    }

    // The current slot, the totals and the slots' sums agree with the history. `most` is what a slot may hold, `current` what the current one may.
    pub fn books_agree(self, totals: &[u32; 16], slot: Ticks, most: Cycles, current: Cycles) -> bool
        requires { most.0 < 4194304 }
        ensures { result ≡ books_agree self.entry.numbers.now totals.now self.entry.window.0 self.entry.count slot.0 most.0 current.0 }
    {
        if self.window.0 <= slot.0 {
            return false;
        }
        let mut rows = [0u32; 16];
        for from in (0..self.window.0).step_by(100) {
            let size = (self.window.0 - from).min(100);
            if !self.block_within(from, size, most, &mut rows) {
                return false;
            }
        }
        let count = self.count as usize;
        (totals[..count] == rows[..count]) & (self.slot_sum(slot.0) <= current.0)
    }
}
