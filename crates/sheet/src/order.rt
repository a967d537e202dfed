// The records of a share sheet in their order: the bytes read into a list of values, and a list of values written.
ghost use Rattle.std.specs.Prelude.{◌≡◌, true, cond, ◌++◌, ◌<◌, ◌≤◌, ◌*◌, length, get_or, drop, replicate};
ghost use Rattle.refusals.specs.Refusals.{outcome_of};
ghost use Rattle.sheet.specs.Order.{letter_at, number_at, head_of, whole_records, values_or_refusal, records_of};

use crate::records::{read_record, write_record};
use refusals::Refusal;

// The letter of record i, where `head` records stand before the first S: W, C, P, M, E, then S.
#[tactic(auto, unfolding(crate::specs::Order::letter_at))]
fn letter_at(head: usize, i: usize) -> u8
    ensures { result ≡ letter_at head i }
{
    match i {
        _ if head <= i => b'S',
        0 => b'W',
        1 => b'C',
        2 => b'P',
        3 => b'M',
        _ => b'E',
    }
}

// Its two-digit number: 00 before the first S, then the partition's.
fn number_at(head: usize, i: usize) -> u32
    requires { i < 21 }
    ensures { result ≡ number_at head i }
{
    i.saturating_sub(head) as u32
}

// How many records stand before the first S: four, and one more where the fifth begins with E.
#[tactic(auto, unfolding(crate::specs::Order::head_of))]
pub fn head_of(bytes: &[u8]) -> usize
    ensures { result ≡ head_of bytes.now }
{
    match bytes.get(48) {
        Some(b'E') => 5,
        _ => 4,
    }
}

// "5 to 20 records, or 6 to 21 where the fifth begins with E", all whole.
#[tactic(auto, using(crate::proofs::OrderReading::head_is), unfolding(crate::specs::Order::whole_records))]
pub fn whole_records(bytes: &[u8]) -> bool
    ensures { result ≡ whole_records bytes.now }
{
    let head = head_of(bytes);
    bytes.len() % 12 == 0 && (head + 1..=head + 16).contains(&(bytes.len() / 12))
}

// The values of all records, 0 where there is none. The paper names the form: each record reads as an enum, value or refusal; let .. else takes out
// the value or returns the refusal, which is number 2.
pub fn read_values(bytes: &[u8]) -> Result<[u32; 21], Refusal>
    requires { whole_records bytes.now ≡ true }
    ensures { result ≡ values_or_refusal bytes.now }
{
    let head = head_of(bytes);
    let mut values = [0; 21];
    for (i, record) in bytes.chunks_exact(12).enumerate() {
        let Ok(value) = read_record(record, letter_at(head, i), number_at(head, i)) else {
            return Err(Refusal::Form);
        };
        values[i] = value;
    }
    Ok(values)
}

// The first n records that say the values, each written into its part of the buffer. What stands after them stays.
#[tactic(auto, unfolding(crate::specs::Order::records_of))]
pub fn write_records(values: [u32; 21], head: usize, n: usize, buffer: &mut [u8])
    requires { (n ≤ 21) × (12 * n ≤ length buffer.old) }
    ensures { buffer.new ≡ records_of head (λ i. get_or values i 0) n ++ drop (12 * n) buffer.old }
{
    for i in 0..n {
        write_record(
            &mut buffer[12 * i..12 * i + 12],
            letter_at(head, i),
            number_at(head, i),
            values[i],
        );
    }
}
