// Run masks: on which cores a thread may run.
ghost use Rattle.std.specs.Prelude.{◌≡◌, ◌≤◌};
ghost use Rattle.model.specs.State.{allows};

// The run mask has this core's bit.
#[tactic(auto, unfolding(model::specs::State::allows))]
pub fn allowed(mask: u8, core: u32) -> bool
    requires { core ≤ 7 }
    ensures { result ≡ allows mask core }
{
    (mask >> core) % 2 == 1
}
