// The kinds of events: what each asks for, and which bytes of its record it uses.
ghost use Rattle.event.specs.Kinds.{FormOf};

// What an event asks for. `kind_number` in specs/ gives each case the number of its kind.
#[derive(Clone, Copy)]
pub enum Action {
    Unknown,
    Tick,
    Create,
    Ready,
    Block,
    SetPriority,
    End,
    Resume,
}

// Which of its bytes a kind of event uses; the others must be zero.
#[derive(Clone, Copy)]
pub struct Uses {
    // The kind is one of the paper's table.
    pub known: bool,
    // Byte 1, the thread.
    pub thread: bool,
    // Bytes 2, 8 and 9, the partition, the run mask and the policy.
    pub place: bool,
    // Byte 3, the priority.
    pub priority: bool,
}

// What a kind asks for, and what it uses.
#[derive(Clone, Copy)]
pub struct Form {
    pub action: Action,
    pub uses: Uses,
}

// The column "uses" of the table of kinds: an unknown kind uses no byte, and each known kind those of one of these rows.
const UNKNOWN: Uses = Uses {
    known: false,
    thread: false,
    place: false,
    priority: false,
};

const NOTHING: Uses = Uses {
    known: true,
    ..UNKNOWN
};

const THREAD: Uses = Uses {
    thread: true,
    ..NOTHING
};

const THREAD_AND_PRIORITY: Uses = Uses {
    priority: true,
    ..THREAD
};

const ALL: Uses = Uses {
    place: true,
    ..THREAD_AND_PRIORITY
};

// The form that the paper names for "Kind 0 and kinds 8 to 255 are unknown": one decision over the kind byte, with a range, chooses the action
// and which bytes must be zero.
impl From<u8> for Form {
    ghost from_gives = { λ kind form. FormOf kind form };

    #[tactic(auto, using(crate::proofs::KindsLaws::unknown_form), unfolding(crate::specs::Kinds::uses_of, model::specs::Event::known, model::specs::Event::names_thread, model::specs::Event::names_place, model::specs::Event::names_priority))]
    fn from(kind: u8) -> Form {
        let (action, uses) = match kind {
            0 | 8..=255 => (Action::Unknown, UNKNOWN),
            1 => (Action::Tick, NOTHING),
            2 => (Action::Create, ALL),
            3 => (Action::Ready, THREAD),
            4 => (Action::Block, THREAD),
            5 => (Action::SetPriority, THREAD_AND_PRIORITY),
            6 => (Action::End, THREAD),
            7 => (Action::Resume, NOTHING),
        };
        Form { action, uses }
    }
}
