// One record of the share sheet, twelve bytes: letter, space, two digits, space, six digits, line feed; read and written.
ghost use Rattle.std.specs.Prelude.{◌≡◌, ◌<◌, length};
ghost use Rattle.sheet.specs.Records.{said_by, number_from, framed, field_of, digits_of, record_of};

use refusals::Refusal;

// The number that up to six digits spell. A comma, a point or any other byte that is no digit is refused.
#[tactic(auto, using(crate::proofs::Digits::number_more, crate::proofs::Digits::number_bad, crate::proofs::Digits::number_end, crate::proofs::Digits::ten_more))]
fn read_digits(digits: &[u8]) -> Result<u32, Refusal>
    requires { length digits.now < 7 }
    ensures { said_by result ≡ number_from 0 digits.now }
{
    let mut value = 0;
    for byte in digits {
        if !byte.is_ascii_digit() {
            return Err(Refusal::Form);
        }
        value = value * 10 + u32::from(byte - b'0');
    }
    Ok(value)
}

// The letter, the spaces and the line feed are in their places.
#[tactic(auto, unfolding(crate::specs::Records::framed))]
fn is_framed(record: &[u8], letter: u8) -> bool
    requires { length «record».now ≡ 12 }
    ensures { result ≡ framed «record».now letter }
{
    record[0] == letter && record[1] == b' ' && record[4] == b' ' && record[11] == b'\n'
}

// What the record says: its six digits, if the letter and the two-digit number are those that belong there. The paper names the form: a
// record reads as an enum, value or refusal.
#[tactic(auto, unfolding(crate::specs::Records::field_of))]
pub fn read_record(record: &[u8], letter: u8, number: u32) -> Result<u32, Refusal>
    requires { length «record».now ≡ 12 }
    ensures { said_by result ≡ field_of «record».now letter number }
{
    if !is_framed(record, letter) {
        return Err(Refusal::Form);
    }
    if read_digits(&record[2..4])? != number {
        return Err(Refusal::Form);
    }
    read_digits(&record[5..11])
}

// The value in decimal digits, as many as there is room for.
#[tactic(auto, using(crate::proofs::Digits::written_more), unfolding(crate::specs::Records::digits_of))]
fn write_digits(out: &mut [u8], value: u32)
    ensures { out.new ≡ digits_of (length out.old) value }
{
    let mut rest = value;
    for i in (0..out.len()).rev() {
        out[i] = b'0' + (rest % 10) as u8;
        rest /= 10;
    }
}

// The record that says the value: its two numbers, and then what stands around them.
pub fn write_record(out: &mut [u8], letter: u8, number: u32, value: u32)
    requires { length out.old ≡ 12 }
    ensures { out.new ≡ record_of letter number value }
{
    write_digits(&mut out[2..4], number);
    write_digits(&mut out[5..11], value);
    out[0] = letter;
    out[1] = b' ';
    out[4] = b' ';
    out[11] = b'\n';
}
