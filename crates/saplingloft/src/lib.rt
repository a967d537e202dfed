// The C interface, declared in include/saplingloft.h: the doors but `run`, and a sheet read and written, lent the caller's struct where it
// lies. Every parameter is a pointer to an array of numbers, a pointer and a length, or a number of 32 bits; the answer is a number of
// 32 bits: so C passes them alike on every processor. Each contract is that of the function behind it.
// `run` has a crate of its own (saplingloft_run), so that the step is compiled into its loop; one archive holds both.
#![tactic(auto)]

ghost use Rattle.std.specs.Prelude.{◌≡◌};
ghost use Rattle.model.specs.Arrays.{columns};
ghost use Rattle.units.specs.Units.{Narrow};
ghost use Rattle.model.specs.Answers.{remainder_of};
ghost use Rattle.model.specs.Doors as Doors;
ghost use Rattle.model.specs.Lent.{lent};
ghost use Rattle.doors.specs.Doors.{Begun, Answered};
ghost use Rattle.lines.specs.Numbers.{unpacked};
ghost use Rattle.saplingloft.specs.Interface.{SheetRead, SheetWritten, RemainderTold};

use doors::words;
use lines::numbers;
use model::{StateMut, StateRef};
use refusals::Refusal;

// A fresh start from a sheet's bytes. The answer is the refusal, or 0.
#[unsafe(no_mangle)]
pub extern "C" fn saplingloft_lent_start(
    sheet: &[u8],
    settings: &mut [u32; 7],
    shares: &mut [u32; 16],
    used: &mut [u32; 16],
    clock: &mut [u32; 5],
    exists: &mut [u8; 64],
    ready: &mut [u8; 64],
    partitions: &mut [u8; 64],
    priorities: &mut [u8; 64],
    masks: &mut [u8; 64],
    policies: &mut [u8; 64],
    slices: &mut [u8; 64],
    queue: &mut [u8; 64],
    history: &mut [u32],
) -> u32
    ensures { Begun (lent settings.old shares.old used.old clock.old (columns exists.old ready.old partitions.old priorities.old masks.old policies.old slices.old) queue.old history.old)
        sheet.now result
        (lent settings.new shares.new used.new clock.new (columns exists.new ready.new partitions.new priorities.new masks.new policies.new slices.new) queue.new history.new) }
{
    let mut state = StateMut {
        used,
        exists,
        ready,
        partitions,
        priorities,
        masks,
        policies,
        slices,
        queue,
        history,
    };
    let outcome = doors::start::start(sheet, settings, shares, clock, &mut state);
    u32::from(numbers::outcome_number(outcome))
}

// An event of any bytes. The answer holds refusal, mode, partition and thread, a byte each, the refusal lowest.
#[unsafe(no_mangle)]
pub extern "C" fn saplingloft_lent_event(
    settings: &[u32; 7],
    shares: &[u32; 16],
    used: &mut [u32; 16],
    clock: &mut [u32; 5],
    exists: &mut [u8; 64],
    ready: &mut [u8; 64],
    partitions: &mut [u8; 64],
    priorities: &mut [u8; 64],
    masks: &mut [u8; 64],
    policies: &mut [u8; 64],
    slices: &mut [u8; 64],
    queue: &mut [u8; 64],
    history: &mut [u32],
    event: &[u8],
) -> u32
    ensures { Answered (lent settings.now shares.now used.old clock.old (columns exists.old ready.old partitions.old priorities.old masks.old policies.old slices.old) queue.old history.old)
        event.now (unpacked result)
        (lent settings.now shares.now used.new clock.new (columns exists.new ready.new partitions.new priorities.new masks.new policies.new slices.new) queue.new history.new) }
{
    let mut state = StateMut {
        used,
        exists,
        ready,
        partitions,
        priorities,
        masks,
        policies,
        slices,
        queue,
        history,
    };
    let verdict = doors::single::event(settings, shares, clock, &mut state, event);
    numbers::packed(verdict)
}

// The decision for a state. The answer is as an event's.
#[unsafe(no_mangle)]
pub extern "C" fn saplingloft_lent_decision(
    settings: &[u32; 7],
    shares: &[u32; 16],
    used: &[u32; 16],
    clock: &[u32; 5],
    exists: &[u8; 64],
    ready: &[u8; 64],
    partitions: &[u8; 64],
    priorities: &[u8; 64],
    masks: &[u8; 64],
    policies: &[u8; 64],
    slices: &[u8; 64],
    queue: &[u8; 64],
    history: &[u32],
) -> u32
    ensures { unpacked result ≡ Doors.decision (lent settings.now shares.now used.now clock.now (columns exists.now ready.now partitions.now priorities.now masks.now policies.now slices.now) queue.now history.now) }
{
    let state = StateRef {
        used,
        exists,
        ready,
        partitions,
        priorities,
        masks,
        policies,
        slices,
        queue,
        history,
    };
    let verdict = doors::queries::decision(settings, shares, clock, state);
    numbers::packed(verdict)
}

// What remains, told to C: a number of 32 bits, as all that is lent, holds the signed one in two's complement.
fn tell(balance: Result<i64, Refusal>, remaining: &mut [u32; 1]) -> u32
    requires { Narrow (remainder_of balance).remaining }
    ensures { RemainderTold (remainder_of balance) remaining.old result remaining.new }
{
    match balance {
        Err(refusal) => u32::from(u8::from(refusal)),
        Ok(cycles) => {
            *remaining = [units::word(cycles)];
            0
        }
    }
}

// What remains of a partition's budget, below zero after an overrun, stored in one number. The answer is the refusal, or 0; a refusal stores
// nothing.
#[unsafe(no_mangle)]
pub extern "C" fn saplingloft_lent_remaining(
    settings: &[u32; 7],
    shares: &[u32; 16],
    used: &[u32; 16],
    clock: &[u32; 5],
    exists: &[u8; 64],
    ready: &[u8; 64],
    partitions: &[u8; 64],
    priorities: &[u8; 64],
    masks: &[u8; 64],
    policies: &[u8; 64],
    slices: &[u8; 64],
    queue: &[u8; 64],
    history: &[u32],
    partition: u32,
    remaining: &mut [u32; 1],
) -> u32
    ensures { RemainderTold
        (Doors.remainder (lent settings.now shares.now used.now clock.now (columns exists.now ready.now partitions.now priorities.now masks.now policies.now slices.now) queue.now history.now) partition)
        remaining.old result remaining.new }
{
    let state = StateRef {
        used,
        exists,
        ready,
        partitions,
        priorities,
        masks,
        policies,
        slices,
        queue,
        history,
    };
    let balance = doors::queries::remaining(settings, shares, clock, state, partition);
    tell(balance, remaining)
}

// What a sheet's bytes say, stored as settings and shares. The answer is the refusal, or 0; a refused sheet stores nothing.
#[unsafe(no_mangle)]
pub extern "C" fn saplingloft_lent_read_sheet(
    sheet: &[u8],
    settings: &mut [u32; 7],
    shares: &mut [u32; 16],
) -> u32
    ensures { SheetRead sheet.now settings.old shares.old result settings.new shares.new }
{
    let reading = sheet::read_sheet(sheet);
    match reading.outcome {
        Ok(()) => {
            words::keep_settings(settings, shares, reading.settings);
            0
        }
        Err(refused) => u32::from(u8::from(refused)),
    }
}

// Settings and shares as a sheet, at the start of the lent bytes. The answer is the refusal, or 0; nothing is written beside a refusal.
#[unsafe(no_mangle)]
pub extern "C" fn saplingloft_lent_write_sheet(
    settings: &[u32; 7],
    shares: &[u32; 16],
    sheet: &mut [u8],
) -> u32
    ensures { SheetWritten settings.now shares.now sheet.old result sheet.new }
{
    let writing = sheet::write_sheet(words::settings_in(settings, shares), sheet);
    u32::from(numbers::outcome_number(writing.outcome))
}
