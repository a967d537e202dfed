// The decision of document 01 over what a run keeps: which partition wins, and which of its threads runs on this core. The sets of partitions are
// arguments, and the order of partitions stands in one place, `order_in`.
#![tactic(auto)]

pub mod kept;
pub mod leads;
pub mod narrowing;

ghost use Rattle.std.specs.Prelude.{◌≢◌, ◌≡◌};
ghost use Rattle.decision.specs.Narrowing.{Narrowed, Wins, on_set, on_priority};
ghost use Rattle.decision.specs.Orders.{mode_by, order_by, asked, level_in};
ghost use Rattle.decision.specs.Leads.{tops_of, firsts_of};
ghost use Rattle.decision.specs.Decides.{Decides};

use kept::Sets;
use leads::Lead;
use model::{Decision, IDLE, Mode};

// The order of partitions in a mode: which of has budget and top priority count, in this order, before the fraction used.
#[derive(Clone, Copy)]
pub struct Order {
    pub budget: bool,
    pub priority: bool,
}

// The mode table, first row that fits: from whose budget is above 0, who competes and who has budget.
#[tactic(auto, using(crate::proofs::DecisionLaws::mode_idle, crate::proofs::DecisionLaws::mode_free, crate::proofs::DecisionLaws::mode_under, crate::proofs::DecisionLaws::mode_limit))]
pub fn mode_in(sets: Sets) -> Mode
    ensures { result ≡ mode_by sets.paying sets.competing sets.solvent }
{
    if sets.competing == 0 {
        Mode::Idle
    } else if sets.paying & !sets.competing != 0 {
        Mode::FreeTime
    } else if sets.competing & sets.solvent != 0 {
        Mode::Underload
    } else {
        Mode::AtLimit
    }
}

// The mode table's column of orders. While idle nothing is compared.
pub fn order_in(mode: Mode, policy: u32) -> Order
    ensures { result ≡ order_by mode policy }
{
    match mode {
        Mode::Idle | Mode::Underload => Order {
            budget: true,
            priority: true,
        },
        Mode::FreeTime => Order {
            budget: true,
            priority: policy != 1,
        },
        Mode::AtLimit => Order {
            budget: false,
            priority: false,
        },
    }
}

// Those of a set that are best on has budget, where the order asks for it.
#[tactic(auto, unfolding(crate::specs::Orders::asked), using(crate::proofs::NarrowingLaws::narrowed_none))]
fn by_budget(order: Order, among: u16, solvent: u16) -> u16
    requires { among ≢ 0 }
    ensures { Narrowed (λ p q. asked order.budget (on_set solvent p q)) among result }
{
    if order.budget {
        narrowing::preferred(among, solvent)
    } else {
        among
    }
}

// Those of a set that are best on top priority, where the order asks for it.
#[tactic(auto, unfolding(crate::specs::Orders::asked), using(crate::proofs::NarrowingLaws::narrowed_none))]
fn by_priority(order: Order, leads: &[Lead; 16], among: u16) -> u16
    requires { among ≢ 0 }
    ensures { Narrowed (λ p q. asked order.priority (on_priority (tops_of leads.now) p q)) among result }
{
    if order.priority {
        narrowing::highest(leads, among)
    } else {
        among
    }
}

// Those of the competing partitions that are best on has budget and, among these, on top priority: they are level up to the fraction used.
fn level_of(leads: &[Lead; 16], order: Order, competing: u16, solvent: u16) -> u16
    requires { competing ≢ 0 }
    ensures { Narrowed (level_in order solvent (tops_of leads.now)) competing result }
{
    let rich = by_budget(order, competing, solvent);
    by_priority(order, leads, rich)
}

// The winner of those: the smallest fraction, and among all that have it, which are tied for best, the favoured partition, if it is one of them;
// otherwise the lowest number. One that is alone wins as it is.
#[tactic(auto, using(crate::proofs::NarrowingLaws::wins_alone))]
fn winner_of(used: &[u32; 16], budgets: &[u32; 16], level: u16, favoured: u16) -> u8
    requires { level ≢ 0 }
    ensures { Wins used.now budgets.now level favoured result }
{
    if sets::rest(level) == 0 {
        return sets::lowest(level);
    }
    let tied = narrowing::smallest(used, budgets, level);
    sets::lowest(narrowing::preferred(tied, favoured))
}

// The decision, with the set of the favoured partition.
pub fn decide(
    used: &[u32; 16],
    budgets: &[u32; 16],
    leads: &[Lead; 16],
    policy: u32,
    sets: Sets,
    favoured: u16,
) -> Decision
    ensures { Decides used.now budgets.now (tops_of leads.now) (firsts_of leads.now) policy sets.paying sets.competing sets.solvent favoured result }
{
    let mode = mode_in(sets);
    if sets.competing == 0 {
        return Decision {
            mode,
            partition: 0,
            thread: IDLE as u8,
        };
    }
    let order = order_in(mode, policy);
    let level = level_of(leads, order, sets.competing, sets.solvent);
    let partition = winner_of(used, budgets, level, favoured);
    Decision {
        mode,
        partition,
        thread: leads[partition as usize].first,
    }
}
