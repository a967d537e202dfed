// The threads' records, which seven lent arrays hold: whether each is sound.
ghost use Rattle.std.specs.Prelude.{◌≡◌, ◌≤◌};
ghost use Rattle.model.specs.Arrays.{columns};
ghost use Rattle.soundness.specs.Records.{sound_records, OfAbsent, OfExisting, WrongFlag, WrongSlice, WrongTurn};

// A byte of a thread that does not exist, and 0 of one that does. The flag less 1 is 255 or 0.
#[tactic(auto, using(crate::proofs::Clauses::of_absent))]
fn of_absent(exists: u8, byte: u8) -> u8
    ensures { OfAbsent exists byte result }
{
    byte & exists.wrapping_sub(1)
}

// A byte of a thread that exists, and 255 of one that does not.
#[tactic(auto, using(crate::proofs::Clauses::of_existing))]
fn of_existing(exists: u8, byte: u8) -> u8
    ensures { OfExisting exists byte result }
{
    byte | exists.wrapping_sub(1)
}

// A byte that is 0 where this one is 0 or 1.
fn wrong_flag(byte: u8) -> u8
    ensures { WrongFlag byte result }
{
    byte & 254
}

// A byte that is 0 where a thread of this policy, 0 or 1, may have this slice: 1 to 4 for round robin, otherwise 0. The slice less the policy is
// then at most 3, the lowest two bits, for round robin, and 0 otherwise.
#[tactic(auto, using(crate::proofs::Clauses::wrong_slice))]
fn wrong_slice(policy: u8, slice: u8) -> u8
    ensures { WrongSlice policy slice result }
{
    slice.wrapping_sub(policy) & (policy.wrapping_sub(1) | 252)
}

// A byte that is 0 where a thread that exists may have this policy and this slice, and where both are 0 for one that does not. The slice of the
// latter needs no test of its own: its policy must be 0, and so must then the slice.
#[tactic(auto, using(crate::proofs::Clauses::wrong_turn))]
fn wrong_turn(exists: u8, policy: u8, slice: u8) -> u8
    ensures { WrongTurn exists policy slice result }
{
    of_absent(exists, policy) | wrong_slice(policy, slice)
}

// "existing threads with a valid partition and a mask other than 0", "a round-robin slice is 1 to 4, any other 0", "records of absent threads ..
// all zero", and each flag and each policy 0 or 1. One pass without branches, on bytes alone, so that it can be done for several threads at a
// time: what is tested of all threads is joined in three bytes. A flag or a policy above 1 makes nothing of the others certain, but it shows by
// itself.
pub fn sound_threads(
    exists: &[u8; 64],
    ready: &[u8; 64],
    partitions: &[u8; 64],
    priorities: &[u8; 64],
    masks: &[u8; 64],
    policies: &[u8; 64],
    slices: &[u8; 64],
    count: u8,
) -> bool
    requires { 1 ≤ count }
    ensures { result ≡ sound_records count (columns exists.now ready.now partitions.now priorities.now masks.now policies.now slices.now) }
{
    let mut rest: u8 = 0;
    let mut least: u8 = 255;
    let mut most: u8 = 0;
    for t in 0..64u32 {
        let at = t as usize;
        let e = exists[at];
        let r = ready[at];
        let p = partitions[at];
        let n = priorities[at];
        let m = masks[at];
        let o = policies[at];
        let l = slices[at];
        let wrong = of_absent(e, r | p | n | m) | wrong_turn(e, o, l);
        rest |= wrong_flag(e | r | o) | wrong;
        least = of_existing(e, m).min(least);
        most = p.max(most);
    }
    (rest == 0) & (0 < least) & (most < count)
}
