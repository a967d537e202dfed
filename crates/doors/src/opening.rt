// What the doors do first with a given state: settings and clock are read, the state is tested, and what is kept beside it while it is worked on
// is made.
ghost use Rattle.std.specs.Prelude.{◌≡◌, length};
ghost use Rattle.model.specs.Arrays.{columns, columns_seen, Sized};
ghost use Rattle.model.specs.Lent.{refused_arrays};
ghost use Rattle.refusals.specs.Refusals.{outcome_of};
ghost use Rattle.doors.specs.Inner.{read_from, Tested, Begins, Room};

use crate::words;
use decision::kept;
use decision::kept::Cache;
use decision::leads::ReadyQueue;
use model::{Clock, StateRef};
use refusals::Refusal;
use sheet::Settings;

// Settings and clock of a given state.
#[derive(Clone, Copy)]
pub struct Opened {
    pub settings: Settings,
    pub clock: Clock,
}

// What is kept beside a state while it is worked on, and the partition, as a set, that its running thread works for.
#[derive(Drop)]
pub struct Beside {
    pub cache: Cache,
    pub favoured: u16,
}

// What is kept before anything was begun.
pub const NOTHING: Beside = Beside {
    cache: kept::NOTHING,
    favoured: 0,
};

// The lengths of what is lent, which the types of the references to it tell.
fn sized(
    used: &[u32; 16],
    exists: &[u8; 64],
    ready: &[u8; 64],
    partitions: &[u8; 64],
    priorities: &[u8; 64],
    masks: &[u8; 64],
    policies: &[u8; 64],
    slices: &[u8; 64],
    queue: &[u8; 64],
)
    ensures used { length used.now ≡ 16 }
    ensures threads { Sized (columns exists.now ready.now partitions.now priorities.now masks.now policies.now slices.now) }
    ensures queue { length queue.now ≡ 64 }
{}

impl Opened {
    // They are read as they are lent, whatever they say.
    pub fn read(settings: &[u32; 7], shares: &[u32; 16], clock: &[u32; 5]) -> Opened
        ensures { result ≡ read_from settings.now shares.now clock.now }
    {
        Opened {
            settings: words::settings_in(settings, shares),
            clock: Clock::from(clock),
        }
    }

    // Whether the state is refused. Refused are, in this order: settings outside their limits (8), a history too short (7), a state not sound (8).
    pub fn test(&self, state: &StateRef<'_>) -> Result<(), Refusal>
        ensures { Tested self.now state.now (outcome_of result) }
    {
        sized(
            state.used,
            state.exists,
            state.ready,
            state.partitions,
            state.priorities,
            state.masks,
            state.policies,
            state.slices,
            state.queue,
        );
        soundness::refused_state(&self.settings, &self.clock, state)
    }

    // What is kept beside the state is made, where it lies.
    pub fn keep(&self, state: &StateRef<'_>, beside: &mut Beside)
        requires { Room self.now.settings state.now.used.now (columns_seen state.now) state.now.queue.now × (refused_arrays self.now.settings state.now.used.now self.now.clock (columns_seen state.now) state.now.queue.now state.now.history.now ≡ 0) }
        ensures { Begins self.now.settings self.now.clock state.now beside.new }
    {
        let queue = ReadyQueue::of(*state, self.clock.queued, self.settings.core);
        beside.cache.begin(self.settings, state.used, queue);
        beside.favoured = kept::favoured_in(state.partitions, self.clock.running);
    }
}
