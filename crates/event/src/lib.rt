// An event, decoded once: what the twelve bytes of its record say, as numbers and the action of its kind.
#![tactic(auto)]

pub mod kinds;

ghost use Rattle.std.specs.Prelude.{◌≡◌};
ghost use Rattle.model.specs.Event.{stamp_of};
ghost use Rattle.event.specs.Bytes.{formed_by, DecodedFrom};

use kinds::{Action, Form, Uses};
use refusals::Refusal;

#[derive(Clone, Copy)]
pub struct Event {
    pub action: Action,
    pub stamp: u32,
    pub thread: u8,
    pub partition: u8,
    pub priority: u8,
    pub mask: u8,
    pub policy: u8,
}

// The kind is known, and every byte that it does not use is zero.
#[tactic(auto, unfolding(crate::specs::Bytes::formed_by))]
fn formed(uses: Uses, bytes: &[u8; 12]) -> bool
    ensures { result ≡ formed_by uses bytes.now }
{
    uses.known
        & (uses.thread | (bytes[1] == 0))
        & (uses.place | (bytes[2] == 0))
        & (uses.priority | (bytes[3] == 0))
        & (uses.place | (bytes[8] == 0))
        & (uses.place | (bytes[9] == 0))
        & (bytes[10] == 0)
        & (bytes[11] == 0)
}

// The timestamp, low byte first.
#[tactic(auto, unfolding(model::specs::Event::stamp_of))]
fn stamp_of(bytes: &[u8; 12]) -> u32
    ensures { result ≡ stamp_of bytes.now }
{
    u32::from_le_bytes([bytes[4], bytes[5], bytes[6], bytes[7]])
}

// The event that any bytes say, of which nothing is lost: 14 where they are not twelve, 9 where their kind is unknown or an unused byte is not zero.
pub fn decode(bytes: &[u8]) -> Result<Event, Refusal>
    ensures { DecodedFrom bytes.now result }
{
    let record: &[u8; 12] = bytes.as_array().ok_or(Refusal::Length)?;
    let Form { action, uses } = Form::from(record[0]);
    if !formed(uses, record) {
        return Err(Refusal::Kind);
    }
    Ok(Event {
        action,
        stamp: stamp_of(record),
        thread: record[1],
        partition: record[2],
        priority: record[3],
        mask: record[8],
        policy: record[9],
    })
}
