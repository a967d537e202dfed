// The desk program: reads the share sheet from shares.txt and events from standard input, and prints one line for each event. What it
// prints is decided in the proved library; here bytes are only carried in and out. Each read is answered at once: a record that the read cut is
// kept for the next one, and only the end of the input makes it a cut event.
#![tactic(auto)]

ghost use Rattle.std.specs.Prelude.{◌≡◌, ◌+◌, ◌≤◌, ◌<◌, length, take, IfSome};

use model::StateMut;
use std::fs;
use std::io::{Read, Write};
use std::rt::Files;

// What one call reads and writes at most.
const BUFFER: usize = 65536;

// What the doors are lent, started from one sheet.
#[derive(Drop)]
struct Session<'a> {
    settings: [u32; 7],
    shares: [u32; 16],
    clock: [u32; 5],
    state: StateMut<'a>,
}

// The sheet's bytes at the start of the buffer, and how many there are: none where the file is missing or cannot be read.
fn read_sheet(files: &impl Files, buffer: &mut [u8]) -> usize
    ensures { (result ≤ length buffer.new) × (result ≡ length (take result buffer.new)) }
{
    match fs::open(files, "shares.txt") {
        Ok(mut file) => streams::read_full(&mut file, buffer),
        Err(_) => 0,
    }
}

// Reads once, behind the bytes that are there already, and answers how many there are then; nothing where the input has ended, or cannot be read.
fn read_more(input: &mut impl Read, events: &mut [u8], kept: usize) -> Option<usize>
    requires { kept ≤ length events.old }
    ensures { IfSome result (λ n. (kept < n) × (n ≤ length events.new)) }
{
    match input.read(&mut events[kept..]) {
        Ok(n) if 0 < n => Some(kept + n),
        _ => None,
    }
}

// The events are answered, and their lines printed. False: they cannot be printed.
fn answer(
    output: &mut impl Write,
    session: &mut Session<'_>,
    events: &[u8],
    out: &mut [u8],
) -> bool {
    let lines = events.len().div_ceil(12).min(out.len() / 12);
    let _ = doors::batch::run(
        &session.settings,
        &session.shares,
        &mut session.clock,
        &mut session.state,
        events,
        out,
    );
    output.write_all(&out[..12 * lines]).is_ok()
}

// Reads once and answers the whole records; at the end of the input, what is left of a cut one. How many bytes of a cut record are kept, where
// there may be more to read.
fn serve_once(
    input: &mut impl Read,
    output: &mut impl Write,
    session: &mut Session<'_>,
    events: &mut [u8],
    out: &mut [u8],
    kept: usize,
) -> Option<usize>
    requires { (kept < 12) × (12 ≤ length events.old) }
    ensures { IfSome result (λ rest. rest < 12) }
{
    match read_more(input, events, kept) {
        None => {
            answer(output, session, &events[..kept], out);
            None
        }
        Some(n) => {
            let rest = n % 12;
            let whole = n - rest;
            let printed = answer(output, session, &events[..whole], out);
            events.copy_within(whole..n, 0);
            if printed { Some(rest) } else { None }
        }
    }
}

// Turn after turn, until the input ends or the output can no longer be written.
fn serve(
    input: &mut impl Read,
    output: &mut impl Write,
    session: &mut Session<'_>,
    events: &mut [u8],
    out: &mut [u8],
)
    requires { 12 ≤ length events.old }
{
    let mut kept = 0;
    for _ in 0..u64::MAX {
        match serve_once(input, output, session, events, out, kept) {
            Some(rest) => kept = rest,
            None => return,
        }
    }
}

fn main(rt: HostRuntime) {
    // One record more than a sheet may have, so that a longer file is refused as it stands.
    let mut sheet = [0u8; 264];
    let n = read_sheet(&rt, &mut sheet);
    let mut settings = [0; 7];
    let mut shares = [0; 16];
    let mut clock = [0; 5];
    // The history has room for the largest: 16 partitions and 400 ticks.
    let mut state = StateMut {
        used: &mut [0; 16],
        exists: &mut [0; 64],
        ready: &mut [0; 64],
        partitions: &mut [0; 64],
        priorities: &mut [0; 64],
        masks: &mut [0; 64],
        policies: &mut [0; 64],
        slices: &mut [0; 64],
        queue: &mut [0; 64],
        history: &mut [0; 6400],
    };
    let started = doors::start::start(
        &sheet[..n],
        &mut settings,
        &mut shares,
        &mut clock,
        &mut state,
    );
    if let Err(refusal) = started {
        let _ = rt.stdout().write_all(&lines::line(Err(refusal)));
        return;
    }
    let mut session = Session {
        settings,
        shares,
        clock,
        state,
    };
    serve(
        &mut rt.stdin(),
        &mut rt.stdout(),
        &mut session,
        &mut [0; BUFFER],
        &mut [0; BUFFER],
    );
}
