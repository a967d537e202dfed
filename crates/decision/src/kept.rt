// What a run keeps beside the state, as a whole: made once, and the decision from it.
ghost use Rattle.std.specs.Prelude.{◌≢◌, ◌≤◌, ◌<◌, get_or, take};
ghost use Rattle.sheet.specs.Settings.{Limits};
ghost use Rattle.decision.specs.Keeping.{KeptOf, StaleOf, LeftOf, ChangedOf, LinedOf, JoinsOf};
ghost use Rattle.decision.specs.Follow.{FollowedOf, FollowedPriorityOf, FollowedTurnOf};
ghost use Rattle.decision.specs.Decides.{Favoured};
ghost use Rattle.decision.specs.Upkeep.{HeldOf, works_for, worked_for, Works, DecidesWith, LeadsAlone};

use crate::leads::{Lead, NOBODY, ReadyQueue, level_of, may_run, raise};
use accounts::solvency;
use event::kinds::Action;
use model::{Decision, IDLE};
use sets::Members;
use sheet::Settings;
use threads::masks;

// Sets of partitions: whose budget is above 0, who competes, who has budget.
#[derive(Clone, Copy)]
pub struct Sets {
    pub paying: u16,
    pub competing: u16,
    pub solvent: u16,
}

// What is kept beside a state: each partition's budget and lead, and the sets of partitions.
#[derive(Drop)]
pub struct Cache {
    pub budgets: [u32; 16],
    pub leads: [Lead; 16],
    pub sets: Sets,
}

// What is kept before anything was begun.
pub const NOTHING: Cache = Cache {
    budgets: [0; 16],
    leads: [NOBODY; 16],
    sets: Sets {
        paying: 0,
        competing: 0,
        solvent: 0,
    },
};

impl Cache {
    // All of it, from a state: one pass over the queue, two over the partitions. It is made where it lies, as it is too large to be handed on.
    pub fn begin(&mut self, settings: Settings, used: &[u32; 16], queue: ReadyQueue<'_>)
        requires { Limits settings × LinedOf queue }
        ensures { HeldOf settings used.now queue.entry self.new }
    {
        self.sets.paying = solvency::price(&mut self.budgets, settings);
        self.build(ReadyQueue {
            core: settings.core,
            ..queue
        });
        let need = units::need(settings.edition, settings.tick);
        self.sets.solvent = solvency::weigh_all(used, &self.budgets, need, settings.count);
    }

    // The decision, with the set of the favoured partition.
    pub fn choose(&self, settings: Settings, used: &[u32; 16], favoured: u16) -> Decision
        ensures { DecidesWith settings used.now self.now favoured result }
    {
        crate::decide(
            used,
            &self.budgets,
            &self.leads,
            settings.policy,
            self.sets,
            favoured,
        )
    }

    // Thread t has joined the queue at its tail.
    pub fn join(&mut self, queue: ReadyQueue<'_>, t: u8)
        requires { (t < 64) × (queue.core ≤ 7) × (get_or queue.partitions.now t 0 < 16) }
        ensures joined { JoinsOf queue.entry t self.old.leads self.old.sets.competing self.new.leads self.new.sets.competing }
        ensures rest { LeadsAlone self.old self.new }
    {
        let at = t as usize;
        if masks::allowed(queue.masks[at], queue.core) {
            let p = queue.partitions[at];
            let here = p as usize;
            let top = level_of(queue.priorities[at]);
            if self.leads[here].top < top {
                self.leads[here] = Lead { top, first: t };
                self.sets.competing = sets::put(self.sets.competing, p);
            }
        }
    }

    // All leads from the queue, in one pass.
    pub fn build(&mut self, queue: ReadyQueue<'_>)
        requires { LinedOf queue }
        ensures kept { KeptOf queue.entry self.new.leads self.new.sets.competing }
        ensures rest { LeadsAlone self.old self.new }
    {
        self.leads = [NOBODY; 16];
        self.sets.competing = 0;
        for t in queue.line() {
            self.join(queue, *t);
        }
    }

    // The leads of some partitions anew, each by a walk along the queue: document 01's nested search "over partitions and line entries". The outer
    // loop goes over the partitions, the loop in it over the queue; it yields the lead by `break`, at the latest at the queue's end, and at once
    // where a thread has the priority that none is above.
    pub fn renew(&mut self, queue: ReadyQueue<'_>, stale: u16)
        requires { LinedOf queue × StaleOf queue self.old.leads self.old.sets.competing stale }
        ensures kept { KeptOf queue.entry self.new.leads self.new.sets.competing }
        ensures rest { LeadsAlone self.old self.new }
    {
        for p in Members(stale) {
            let here = p as usize;
            let ceiling = self.leads[here].top;
            let mut best = NOBODY;
            let mut line = queue.line().iter();
            let lead = loop {
                let Some(t) = line.next() else {
                    break best;
                };
                let at = *t as usize;
                if may_run(queue.partitions[at], queue.masks[at], p, queue.core) {
                    best = raise(best, queue.priorities[at], *t);
                    if best.top == ceiling {
                        break best;
                    }
                }
            };
            self.leads[here] = lead;
            self.sets.competing = sets::mark(self.sets.competing, p, lead.top != 0);
        }
    }

    // Thread t of partition p has left its place in the queue: it is no longer in it, or it went to its tail. Its partition is walked anew only if
    // the thread was its first.
    pub fn leave(&mut self, queue: ReadyQueue<'_>, p: u8, t: u8)
        requires { (p < 16) × LinedOf queue × LeftOf queue self.old.leads self.old.sets.competing p t }
        ensures kept { KeptOf queue.entry self.new.leads self.new.sets.competing }
        ensures rest { LeadsAlone self.old self.new }
    {
        if self.leads[p as usize].first == t {
            self.renew(queue, sets::only(p));
        }
    }

    // The priority of the queued thread t has changed, and with it its place: raised it went to the tail, lowered to the head. Above its partition's
    // top it leads. Otherwise the lead stays, for who came level with the first is behind it; only where the first thread itself was lowered the
    // partition is walked anew.
    pub fn change(&mut self, queue: ReadyQueue<'_>, t: u8)
        requires { (t < 64) × LinedOf queue × ChangedOf queue self.old.leads self.old.sets.competing t }
        ensures kept { KeptOf queue.entry self.new.leads self.new.sets.competing }
        ensures rest { LeadsAlone self.old self.new }
    {
        let at = t as usize;
        if !masks::allowed(queue.masks[at], queue.core) {
            return;
        }
        let p = queue.partitions[at];
        let here = p as usize;
        let level = level_of(queue.priorities[at]);
        let lead = self.leads[here];
        if lead.top < level {
            self.leads[here] = Lead {
                top: level,
                first: t,
            };
        } else if lead.first == t && lead.top != level {
            self.renew(queue, sets::only(p));
        }
    }

    // After a tick whose running thread, where its slice ended, went to the tail of the queue.
    pub fn follow_turn(&mut self, queue: ReadyQueue<'_>, running: u32, ended: bool)
        requires { FollowedTurnOf queue self.old.leads self.old.sets.competing running ended }
        ensures kept { KeptOf queue.entry self.new.leads self.new.sets.competing }
        ensures rest { LeadsAlone self.old self.new }
    {
        if ended {
            let p = queue.partitions[running as usize];
            self.leave(queue, p, running as u8);
        }
    }

    // After the action of an accepted event's kind was done to the threads and the queue; t is its thread, p the partition that it was of.
    pub fn follow(&mut self, ready: &[u8; 64], queue: ReadyQueue<'_>, action: Action, t: u8, p: u8)
        requires { FollowedOf ready.now queue self.old.leads self.old.sets.competing action t p }
        ensures kept { KeptOf queue.entry self.new.leads self.new.sets.competing }
        ensures rest { LeadsAlone self.old self.new }
    {
        match action {
            Action::Ready => self.join(queue, t),
            Action::Block | Action::End => self.leave(queue, p, t),
            Action::SetPriority => self.follow_priority(ready, queue, t),
            Action::Create | Action::Tick | Action::Resume | Action::Unknown => {}
        }
    }

    // After a changed priority and the move that goes with it: a thread that is not queued changes nothing.
    fn follow_priority(&mut self, ready: &[u8; 64], queue: ReadyQueue<'_>, t: u8)
        requires { (t < 64) × FollowedPriorityOf ready.now queue self.old.leads self.old.sets.competing t }
        ensures kept { KeptOf queue.entry self.new.leads self.new.sets.competing }
        ensures rest { LeadsAlone self.old self.new }
    {
        if ready[t as usize] == 1 {
            self.change(queue, t);
        }
    }
}

// The favoured partition as a set: the one that the running thread works for, or nothing while idle.
#[tactic(auto, using(crate::proofs::UpkeepLaws::favours_none, crate::proofs::UpkeepLaws::favours_one))]
pub fn favoured_in(partitions: &[u8; 64], running: u32) -> u16
    requires { Works partitions.now running }
    ensures { Favoured (worked_for partitions.now running) result }
{
    if running != IDLE {
        sets::only(partitions[running as usize])
    } else {
        0
    }
}

// The same of a running thread whose partition is known: that of a decision, which runs until the next event.
#[tactic(auto, using(crate::proofs::UpkeepLaws::favours_none, crate::proofs::UpkeepLaws::favours_one))]
pub fn favoured_after(partition: u8, running: u32) -> u16
    requires { running ≢ 255 → partition < 16 }
    ensures { Favoured (works_for running partition) result }
{
    if running == IDLE {
        0
    } else {
        sets::only(partition)
    }
}
