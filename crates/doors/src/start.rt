// The start door: a fresh state from a share sheet's bytes.
ghost use Rattle.std.specs.Prelude.{◌*◌, ◌≤◌, length};
ghost use Rattle.sheet.specs.Settings.{W};
ghost use Rattle.refusals.specs.Refusals.{outcome_of};
ghost use Rattle.model.specs.Arrays.{SameLoan};
ghost use Rattle.doors.specs.Doors.{lent_in, Begun};
ghost use Rattle.doors.specs.Inner.{Fresh};

use crate::words;
use accounts::history;
use model::{IDLE, StateMut};
use refusals::Refusal;
use sheet::Settings;

// "A fresh start has history zero, stamp 0, slot 0, no threads, idle": what is lent holds it, and the numbers after the last row stay.
fn begin(
    s: Settings,
    settings: &mut [u32; 7],
    shares: &mut [u32; 16],
    clock: &mut [u32; 5],
    state: &mut StateMut<'_>,
)
    requires { s.count * W s ≤ length state.old.history.now }
    ensures fresh { Fresh s state.old.history.now (lent_in settings.new shares.new clock.new state.new) }
    ensures loan { SameLoan state.old state.new }
{
    history::clear_rows(state.history, s.window, s.count);
    words::keep_settings(settings, shares, s);
    *clock = [0, 0, 0, 0, IDLE];
    *state.used = [0; 16];
    *state.exists = [0; 64];
    *state.ready = [0; 64];
    *state.partitions = [0; 64];
    *state.priorities = [0; 64];
    *state.masks = [0; 64];
    *state.policies = [0; 64];
    *state.slices = [0; 64];
    *state.queue = [0; 64];
}

// A fresh start from a sheet's bytes. Refused are 1 to 6 as for the sheet, then a history too short (7).
pub fn start(
    sheet: &[u8],
    settings: &mut [u32; 7],
    shares: &mut [u32; 16],
    clock: &mut [u32; 5],
    state: &mut StateMut<'_>,
) -> Result<(), Refusal>
    ensures begun { Begun (lent_in settings.old shares.old clock.old state.old) sheet.now (outcome_of result) (lent_in settings.new shares.new clock.new state.new) }
    ensures loan { SameLoan state.old state.new }
{
    let reading = sheet::read_sheet(sheet);
    reading.outcome?;
    let rows = reading.settings.count as usize * reading.settings.window.0 as usize;
    if state.history.len() < rows {
        return Err(Refusal::Buffer);
    }
    begin(reading.settings, settings, shares, clock, state);
    Ok(())
}
