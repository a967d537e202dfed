// The desk program's lines: twelve bytes for each answer.
#![tactic(auto)]

pub mod numbers;

ghost use Rattle.std.specs.Prelude.{◌≡◌, ◌+◌, ◌%◌, length};
ghost use Rattle.model.specs.Answers.{line_of, text_of};
ghost use Rattle.lines.specs.Numbers.{numbers_of};

use model::Decision;
use numbers::Numbers;
use refusals::Refusal;

// The lowest decimal digit of a number.
fn digit(n: u8) -> u8
    ensures { result ≡ 48 + n % 10 }
{
    b'0' + n % 10
}

// The line that the numbers are, into twelve lent bytes. Each byte is written where it lies: a line that is made first and then copied takes twice as
// long.
#[tactic(auto, unfolding(model::specs::Answers::text_of, sheet::specs::Records::digits_of))]
fn put(out: &mut [u8], n: Numbers)
    requires { length out.old ≡ 12 }
    ensures { out.new ≡ text_of (numbers_of n) }
{
    out[0] = digit(n.refusal / 10);
    out[1] = digit(n.refusal);
    out[2] = b' ';
    out[3] = digit(n.mode);
    out[4] = b' ';
    out[5] = digit(n.partition / 10);
    out[6] = digit(n.partition);
    out[7] = b' ';
    out[8] = digit(n.thread / 10 / 10);
    out[9] = digit(n.thread / 10);
    out[10] = digit(n.thread);
    out[11] = b'\n';
}

// The line of an answer, into twelve lent bytes: refusal in two digits, mode, partition in two digits, thread in three. A decision and a refusal are
// put apart: of what is 0 in the one or the other no digit is worked out.
pub fn write(out: &mut [u8], verdict: Result<Decision, Refusal>)
    requires { length out.old ≡ 12 }
    ensures { out.new ≡ text_of (line_of verdict) }
{
    match verdict {
        Ok(d) => put(out, Numbers::from(Ok(d))),
        Err(refusal) => put(out, Numbers::from(Err(refusal))),
    }
}

// The line of an answer.
pub fn line(verdict: Result<Decision, Refusal>) -> [u8; 12]
    ensures { result ≡ text_of (line_of verdict) }
{
    let mut out = [0; 12];
    write(&mut out, verdict);
    out
}
