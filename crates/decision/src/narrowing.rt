// A set of partitions is narrowed to the best of it: by being in another set, by top priority, by the fraction used. Each function takes a set
// and gives those of it that none is better than; nothing here knows of modes, and those that are equal stay in the set.
ghost use Rattle.std.specs.Prelude.{◌≢◌, ◌≡◌, ℕ, ◌<◌, get_or};
ghost use Rattle.units.specs.Units.{compare_numbers};
ghost use Rattle.units.specs.declared.Comparison.{Comparison};
ghost use Rattle.model.specs.Choices.{Ordered};
ghost use Rattle.model.proofs.Order.{by_key, by_fractions};
ghost use Rattle.decision.specs.Leads.{tops_of};
ghost use Rattle.decision.specs.Narrowing.{Narrowed, OneMore, on_set, on_priority, on_fraction, fraction, compared_fractions};

use crate::leads::Lead;
use sets::Members;
use units::{Comparison, Cycles, Fraction};

// What partitions are compared by.
trait Rank: Copy {
    // What the first is against the second.
    ghost against: { Self → Self → Comparison };

    fn compare(self, other: Self) -> Comparison
        ensures { result ≡ against self other };

    // The partitions that have such values stand in an order.
    ghost ordered: { (value : ℕ → Self) → Ordered (λ p q. against (value p) (value q)) };
}

// A top priority: the larger one is better.
#[derive(Clone, Copy)]
struct Top(u16);

impl Rank for Top {
    ghost against = { λ a b. compare_numbers a.0 b.0 };

    ghost ordered = { λ value. by_key (λ p. (value p).0) };

    #[tactic(auto, unfolding(units::specs::Units::compare_numbers))]
    fn compare(self, other: Top) -> Comparison {
        if self.0 > other.0 {
            Comparison::Better
        } else if self.0 < other.0 {
            Comparison::Worse
        } else {
            Comparison::Equal
        }
    }
}

// The smaller fraction is better.
impl Rank for Fraction {
    ghost against = { compared_fractions };

    ghost ordered = { λ value. by_fractions (λ p. (value p).used.0) (λ p. (value p).budget.0) };

    fn compare(self, other: Fraction) -> Comparison {
        units::compare_fractions(self, other)
    }
}

// Partitions that are level, and the value that they have.
#[derive(Clone, Copy)]
struct Level<V> {
    kept: u16,
    value: V,
}

impl<V: Rank> Level<V> {
    // After one more partition. The comparison stands in each test of it, for that compiles into two jumps; of a `match` on it the answer is made
    // first and then tested.
    fn with(self, p: u8, value: V) -> Level<V>
        requires { p < 16 }
        ensures { OneMore V (V.against value self.value) self.value value self.kept p result.value result.kept }
    {
        if let Comparison::Better = value.compare(self.value) {
            Level {
                kept: sets::only(p),
                value,
            }
        } else if let Comparison::Worse = value.compare(self.value) {
            self
        } else {
            Level {
                kept: sets::put(self.kept, p),
                ..self
            }
        }
    }
}

// Those of a set whose value is best.
fn best<V: Rank, F: Fn(u8) -> V>(among: u16, value: F) -> u16
    requires some { among ≢ 0 }
    requires known { (p : ℕ) → p < 16 → F.pre value p }
    ensures { (of : ℕ → V) → ((p : ℕ) (v : V) → p < 16 → F.post value p v → v ≡ of p) → Narrowed (λ p q. V.against (of p) (of q)) among result }
{
    let p = sets::lowest(among);
    let mut level = Level {
        kept: sets::only(p),
        value: value(p),
    };
    for q in Members(sets::rest(among)) {
        level = level.with(q, value(q));
    }
    level.kept
}

// Those of a set that are in another one, if there are such; otherwise all are level.
#[tactic(auto, using(crate::proofs::NarrowingLaws::preferred_none, crate::proofs::NarrowingLaws::preferred_some))]
pub fn preferred(among: u16, set: u16) -> u16
    requires { among ≢ 0 }
    ensures { Narrowed (on_set set) among result }
{
    let both = among & set;
    if both == 0 { among } else { both }
}

// Those of a set whose top priority is highest.
pub fn highest(leads: &[Lead; 16], among: u16) -> u16
    requires { among ≢ 0 }
    ensures { Narrowed (on_priority (tops_of leads.now)) among result }
{
    best(among, |p| Top(leads[p as usize].top))
}

// What a partition has used of its budget.
fn fraction_at(used: &[u32; 16], budgets: &[u32; 16], p: u8) -> Fraction
    requires { p < 16 }
    ensures { result ≡ fraction (get_or used.now p 0) (get_or budgets.now p 0) }
{
    let at = p as usize;
    Fraction {
        used: Cycles(used[at]),
        budget: Cycles(budgets[at]),
    }
}

// Those of a set that have used the smallest fraction of their budgets.
pub fn smallest(used: &[u32; 16], budgets: &[u32; 16], among: u16) -> u16
    requires { among ≢ 0 }
    ensures { Narrowed (on_fraction used.now budgets.now) among result }
{
    best(among, |p| fraction_at(used, budgets, p))
}
