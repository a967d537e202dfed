// The ready queue by itself, the paper's line, in a lent array: an entry is added at the tail, taken out from any place, or moved from there to
// the tail or to the head. The places after the last stay zero.
ghost use Rattle.std.specs.Prelude.{◌≡◌, true, false, ◌++◌, ◌∷◌, [], ◌<◌, ◌≤◌, get_or, take};
ghost use Rattle.lists.specs.Lists.{member, distinct};
ghost use Rattle.model.specs.Step.{leaves, to_tail, to_head};
ghost use Rattle.threads.specs.Entries.{QueueStored, queue_in, queue_from, FoundAt, without, removed};

// One thread more at the tail.
#[tactic(auto, using(crate::proofs::EntriesLaws::appended))]
pub fn append(entries: &mut [u8; 64], queued: u32, t: u8) -> u32
    requires { QueueStored entries.old queued × (queued < 64) }
    ensures { queue_in entries.new result ≡ queue_from (take queued entries.old ++ (t ∷ [])) }
{
    entries[queued as usize] = t;
    queued + 1
}

// How many of the first n entries can be passed over, sixteen at a time: thread t is none of them. `contains` looks at sixteen without a branch
// between them, so processors that can compare them all at once do.
#[tactic(auto, unfolding(lists::specs::Lists::any))]
fn skip(entries: &[u8; 64], n: usize, t: u8) -> usize
    requires { n ≤ 64 }
    ensures { (result ≤ n) × (member t (take result entries.now) ≡ false) }
{
    for i in 0..n / 16 {
        if entries[16 * i..16 * i + 16].contains(&t) {
            return 16 * i;
        }
    }
    n / 16 * 16
}

// The first place of thread t among the first n entries.
fn find(entries: &[u8; 64], n: usize, t: u8) -> Option<usize>
    requires { n ≤ 64 }
    ensures { FoundAt (take n entries.now) t result }
{
    let from = skip(entries, n, t);
    let at = entries[from..n].iter().position(|entry| *entry == t)?;
    Some(from + at)
}

// The place of thread t, one of the first n entries, looked for from the last one on: there stands a thread that was raised, or became ready, not
// long ago. It is never inline: in the loop of a run the compiler would read t, and where the entries lie, from the stack at each step.
#[inline(never)]
#[tactic(auto, using(crate::proofs::Searches::stands))]
fn find_last(entries: &[u8; 64], n: usize, t: u8) -> usize
    requires { (n ≤ 64) × (member t (take n entries.now) ≡ true) }
    ensures { (result < n) × (t ≡ get_or entries.now result 0) }
{
    entries[..n].iter().rposition(|entry| *entry == t).unwrap()
}

// Of the first n entries the one at a place is taken out: those behind it move up.
#[tactic(auto, using(crate::proofs::EntriesLaws::moved_up))]
fn remove(entries: &mut [u8; 64], n: usize, at: usize)
    requires { (at < n) × (n ≤ 64) }
    ensures { entries.new ≡ removed entries.old n at }
{
    entries[at..n].copy_within(1.., 0);
    entries[n - 1] = 0;
}

// Thread t leaves, if it is one of the entries.
#[tactic(auto, using(crate::proofs::EntriesLaws::counted, crate::proofs::EntriesLaws::stays, crate::proofs::EntriesLaws::gone))]
pub fn leave(entries: &mut [u8; 64], queued: u32, t: u8) -> u32
    requires { QueueStored entries.old queued × (queued ≤ 64) × (distinct (take queued entries.old) ≡ true) }
    ensures { queue_in entries.new result ≡ queue_from (leaves (take queued entries.old) t) }
{
    let n = queued as usize;
    let Some(at) = find(entries, n, t) else {
        return queued;
    };
    remove(entries, n, at);
    queued - 1
}

// Thread t, one of the entries, goes to the tail, unless it stands there: those behind it move up, and as many are queued as before.
#[tactic(auto, using(crate::proofs::EntriesLaws::counted, crate::proofs::EntriesLaws::some_first, crate::proofs::EntriesLaws::at_tail, crate::proofs::EntriesLaws::put_last))]
pub fn to_tail(entries: &mut [u8; 64], queued: u32, t: u8)
    requires { QueueStored entries.old queued × (queued ≤ 64) × (distinct (take queued entries.old) ≡ true)
        × (member t (take queued entries.old) ≡ true) }
    ensures { queue_in entries.new queued ≡ queue_from (to_tail (take queued entries.old) t) }
{
    let n = queued as usize;
    let last = n - 1;
    if entries[last] == t {
        return;
    }
    let at = find(entries, n, t).unwrap();
    remove(entries, n, at);
    entries[last] = t;
}

// The first `at` entries move one place on, over the one that stood behind them, and thread t is put at the head. No other entry moves.
fn put_first(entries: &mut [u8; 64], at: usize, t: u8)
    requires { at < 64 }
    ensures { entries.new ≡ t ∷ without entries.old at }
{
    entries.copy_within(0..at, 1);
    entries[0] = t;
}

// Thread t, one of the entries, goes to the head: those in front of it move one place on, and as many are queued as before.
#[tactic(auto, using(crate::proofs::EntriesLaws::first_at, crate::proofs::EntriesLaws::put_first))]
pub fn to_head(entries: &mut [u8; 64], queued: u32, t: u8)
    requires { QueueStored entries.old queued × (queued ≤ 64) × (distinct (take queued entries.old) ≡ true)
        × (member t (take queued entries.old) ≡ true) }
    ensures { queue_in entries.new queued ≡ queue_from (to_head (take queued entries.old) t) }
{
    let at = find_last(entries, queued as usize, t);
    put_first(entries, at, t);
}
