// Answers in the paper's numbers, for callers that have no enums.
ghost use Rattle.std.specs.Prelude.{◌≡◌};
ghost use Rattle.refusals.specs.Refusals.{outcome_of};
ghost use Rattle.model.specs.Answers.{line_of};
ghost use Rattle.lines.specs.Numbers.{numbers_of, unpacked};

use model::Decision;
use refusals::Refusal;

// The four numbers of a line of the desk program.
#[derive(Clone, Copy)]
pub struct Numbers {
    pub refusal: u8,
    pub mode: u8,
    pub partition: u8,
    pub thread: u8,
}

// The numbers of a decision, or of a refusal with zeros beside it.
impl From<Result<Decision, Refusal>> for Numbers {
    ghost from_gives = { λ verdict numbers. numbers_of numbers ≡ line_of verdict };

    fn from(verdict: Result<Decision, Refusal>) -> Numbers {
        match verdict {
            Ok(d) => Numbers {
                refusal: 0,
                mode: u8::from(d.mode),
                partition: d.partition,
                thread: d.thread,
            },
            Err(refusal) => Numbers {
                refusal: u8::from(refusal),
                mode: 0,
                partition: 0,
                thread: 0,
            },
        }
    }
}

// 0, or the number of the refusal.
pub fn outcome_number(outcome: Result<(), Refusal>) -> u8
    ensures { result ≡ outcome_of outcome }
{
    match outcome {
        Ok(()) => 0,
        Err(refusal) => u8::from(refusal),
    }
}

// The four numbers in one, a byte each, the refusal lowest.
pub fn packed(verdict: Result<Decision, Refusal>) -> u32
    ensures { unpacked result ≡ line_of verdict }
{
    let n = Numbers::from(verdict);
    u32::from_le_bytes([n.refusal, n.mode, n.partition, n.thread])
}
