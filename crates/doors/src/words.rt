// Settings, from the lent numbers and back.
ghost use Rattle.std.specs.Prelude.{◌≡◌, length};
ghost use Rattle.model.specs.Lent.{flag_from, shares_from, settings_from};

use sheet::Settings;
use std::array;
use units::{Cycles, Percent, Ticks};

// The flag that tells whether E is stated, in a lent word: a byte, and the three others, which are reserved, are 0. A word with another one is not
// cut: 255, which is outside the limits as it is.
#[tactic(auto, unfolding(model::specs::Lent::flag_from))]
fn flag_in(word: u32) -> u8
    ensures { result ≡ flag_from word }
{
    u8::try_from(word).unwrap_or(255)
}

// W, C, P, M, E, the flag that tells whether E is stated, and the count; the shares.
pub fn settings_in(numbers: &[u32; 7], shares: &[u32; 16]) -> Settings
    ensures { result ≡ settings_from numbers.now shares.now }
{
    Settings {
        window: Ticks(numbers[0]),
        tick: Cycles(numbers[1]),
        policy: numbers[2],
        core: numbers[3],
        edition: numbers[4],
        stated: flag_in(numbers[5]),
        count: numbers[6],
        shares: array::from_fn(|p| Percent(shares[p])),
    }
}

// The settings are stored.
pub fn keep_settings(numbers: &mut [u32; 7], shares: &mut [u32; 16], s: Settings)
    ensures { settings_from numbers.new shares.new ≡ s }
{
    *numbers = [
        s.window.0,
        s.tick.0,
        s.policy,
        s.core,
        s.edition,
        s.stated as u32,
        s.count,
    ];
    *shares = array::from_fn(|p| s.shares[p].0);
}
