// The limits of the numbers that a share sheet says.
ghost use Rattle.std.specs.Prelude.{◌≡◌, ◌≤◌, length};
ghost use Rattle.lists.specs.Lists.{total};
ghost use Rattle.refusals.specs.Refusals.{outcome_of};
ghost use Rattle.sheet.specs.Limits.{percent_at, count_fits, window_fits, tick_fits, policy_and_core_fit, edition_fits, refused_numbers};

use crate::Settings;
use refusals::Refusal;
use units::{Cycles, Percent, Ticks};

// "1 to 16 partitions."
#[tactic(auto, unfolding(crate::specs::Limits::count_fits))]
fn count_fits(count: u32) -> bool
    ensures { result ≡ count_fits count }
{
    (1..=16).contains(&count)
}

// "W 2 to 400."
#[tactic(auto, unfolding(crate::specs::Limits::window_fits))]
fn window_fits(window: Ticks) -> bool
    ensures { result ≡ window_fits window.0 }
{
    (2..=400).contains(&window.0)
}

// "C a multiple of 100, 100 to 999,900."
#[tactic(auto, unfolding(crate::specs::Limits::tick_fits))]
fn tick_fits(tick: Cycles) -> bool
    ensures { result ≡ tick_fits tick.0 }
{
    tick.0 % 100 == 0 && (100..=999_900).contains(&tick.0)
}

// "P 0 default, 1 ratio (SCHEDPOL_RATIO). M 0 to 7."
#[tactic(auto, unfolding(crate::specs::Limits::policy_and_core_fit))]
fn policy_and_core_fit(policy: u32, core: u32) -> bool
    ensures { result ≡ policy_and_core_fit policy core }
{
    policy <= 1 && core <= 7
}

// "1 for the quarter and 2 for the half. Where no E is stated, only 1 is within limits": `stated` is 1 where it is stated, 0 where it is not.
#[tactic(auto, unfolding(crate::specs::Limits::edition_fits))]
fn edition_fits(edition: u32, stated: u8) -> bool
    ensures { result ≡ edition_fits edition stated }
{
    (1..=2).contains(&edition) && stated <= 1 && (edition == 1 || stated == 1)
}

// The first limit that the numbers of a sheet break. They are tested as they were read. The sum of the shares is no percent of its own: it may
// need 64 bits.
#[tactic(auto, unfolding(crate::specs::Limits::refused_numbers))]
pub fn limits_of(settings: Settings, sum: u64) -> Result<(), Refusal>
    ensures { outcome_of result ≡ refused_numbers settings.count settings.window.0 settings.tick.0 settings.policy settings.core
        settings.edition settings.stated sum }
{
    if !count_fits(settings.count) {
        return Err(Refusal::Count);
    }
    if !window_fits(settings.window) {
        return Err(Refusal::Window);
    }
    if !tick_fits(settings.tick) {
        return Err(Refusal::Tick);
    }
    if !policy_and_core_fit(settings.policy, settings.core) {
        return Err(Refusal::PolicyCoreOrEdition);
    }
    if !edition_fits(settings.edition, settings.stated) {
        return Err(Refusal::PolicyCoreOrEdition);
    }
    if sum != 100 {
        return Err(Refusal::Shares);
    }
    Ok(())
}

// The sum of so many shares. Nobody vouches for them, so it is made in 64 bits.
pub fn total_share(shares: &[Percent]) -> u64
    requires { length shares.now ≤ 16 }
    ensures { result ≡ total (length shares.now) (percent_at shares.now) }
{
    shares.iter().map(|share| u64::from(share.0)).sum()
}
