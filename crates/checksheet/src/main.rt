// Checks a share sheet: reads it from standard input, and writes it back, or the line that the desk program prints for a refused one.
#![tactic(auto)]

use std::io::Write;

// The sheet written back, or the line of its refusal.
fn answer(output: &mut impl Write, sheet: &[u8]) {
    let reading = sheet::read_sheet(sheet);
    if let Err(refusal) = reading.outcome {
        let _ = output.write_all(&lines::line(Err(refusal)));
        return;
    }
    let mut buffer = [0u8; 252];
    let writing = sheet::write_sheet(reading.settings, &mut buffer);
    let _ = output.write_all(&buffer[..writing.length]);
}

fn main(rt: HostRuntime) {
    // One record more than a sheet may have, so that a longer input is refused as it stands.
    let mut buffer = [0u8; 264];
    let n = streams::read_full(&mut rt.stdin(), &mut buffer);
    answer(&mut rt.stdout(), &buffer[..n]);
}
