// Whether the ready queue is sound: no thread stands in it twice, it holds exactly the ready threads, and its unused places are zero.
ghost use Rattle.std.specs.Prelude.{◌≡◌, ◌≤◌, take, drop, replicate, nat_eq, slice_index};
ghost use Rattle.lists.specs.Lists.{all, below};
ghost use Rattle.soundness.specs.Queue.{holds_ready, SeenOnce};

// The first n entries are marked in `seen`, and the answer is whether each stands there once and is a thread's number. An entry above 63
// marks some other thread, but it shows in `bits`, where all entries' bits are joined.
fn mark(queue: &[u8; 64], n: u32, seen: &mut [u8; 64]) -> bool
    requires { (n ≤ 64) × (seen.old ≡ replicate 64 0) }
    ensures { SeenOnce (take n queue.now) result seen.new }
{
    let mut again: u8 = 0;
    let mut bits: u8 = 0;
    for i in 0..n {
        let entry = queue[i as usize];
        let at = (entry % 64) as usize;
        again |= seen[at];
        bits |= entry;
        seen[at] = 1;
    }
    (again == 0) & (bits < 64)
}

// Two arrays of flags are the same. The differences' bits are joined.
fn equal(a: &[u8; 64], b: &[u8; 64]) -> bool
    ensures { result ≡ all (λ t. nat_eq (slice_index a.now t) (slice_index b.now t)) (below 64) }
{
    let mut bits: u8 = 0;
    for t in 0..64u32 {
        let at = t as usize;
        bits |= a[at] ^ b[at];
    }
    bits == 0
}

// "unused places of the line .. all zero": from place n on.
fn zeros_from(queue: &[u8; 64], n: u32) -> bool
    requires { n ≤ 64 }
    ensures { result ≡ all (nat_eq 0) (drop n queue.now) }
{
    let mut bits: u8 = 0;
    for i in n..64 {
        bits |= queue[i as usize];
    }
    bits == 0
}

// "the line without repeats and holding exactly the ready threads .. unused places of the line .. all zero"
#[tactic(auto, using(std::proofs::lemmas::Bool::Decides::nat_tests), unfolding(crate::specs::Queue::holds_ready))]
pub fn sound_queue(ready: &[u8; 64], queue: &[u8; 64], queued: u32) -> bool
    ensures { result ≡ holds_ready ready.now queue.now queued }
{
    if 64 < queued {
        return false;
    }
    let mut seen = [0u8; 64];
    let once = mark(queue, queued, &mut seen);
    once & equal(ready, &seen) & zeros_from(queue, queued)
}
