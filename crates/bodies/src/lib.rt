// The bodies of fack, fault, reject, cancel and cancel_ack.
#![tactic(auto, unfolding(crate::specs::Fack::fack_malformed, crate::specs::Fack::fack_of, crate::specs::Fack::fack_reading, crate::specs::Fack::fack_result, crate::specs::Fack::fack_bytes, crate::specs::Status::status_malformed, crate::specs::Status::status_reading, crate::specs::Status::status_result, crate::specs::Cancel::cancel_malformed, crate::specs::Cancel::cancel_reading, crate::specs::Cancel::cancel_result, crate::specs::Cancel::cancel_bytes, crate::specs::Cancel::cancel_ack_malformed, crate::specs::Cancel::cancel_ack_reading, crate::specs::Cancel::cancel_ack_result, crate::specs::Cancel::acknowledging, crate::specs::Cancel::cancel_ack_bytes, answers::specs::Answer::if_done, words::specs::Choice::choose, words::specs::Choice::either, words::specs::Choice::mark_of, words::specs::Place::placed, words::specs::Place::put_at))]

ghost use Rattle.std.specs.Prelude.{◌≡◌};
ghost use Rattle.bodies.specs.Fack.{fack_malformed, fack_of, fack_result, fack_bytes, fack_fields};
ghost use Rattle.bodies.specs.Status.{status_malformed, status_in, status_result, status_bytes};
ghost use Rattle.bodies.specs.Cancel.{cancel_malformed, cancel_number_in, cancel_result, cancel_bytes};
ghost use Rattle.bodies.specs.Cancel.{cancel_ack_malformed, cancel_ack_result, cancel_ack_bytes};

use answers::Refusal;
use words::{PDU_SIZE, ReadAt};

// A fack's body, with its first mask.
#[derive(Clone, Copy)]
pub struct Fack {
    pub pad: u8,
    pub window: u16,
    pub tsdu: u32,
    pub size: u32,
    pub serial: u16,
    pub words: u16,
    pub mask: u32,
}

// The number of the cancel answered, and whether the server accepts cancels.
#[derive(Clone, Copy)]
pub struct CancelAck {
    pub number: u32,
    pub accepts: bool,
}

// Whether a fack's body is malformed: under 16 bytes, another version than 0, or another length than 16 + 4w.
pub fn is_fack_malformed(body: &[u8], little: bool) -> bool
    ensures { result ≡ fack_malformed little body.now }
{
    body.len() < 16
        || words::byte_at(body, 0) != 0
        || body.len() != 16 + 4 * usize::from(u16::read_at(body, 14, little))
}

// The fields of a fack's body.
fn fack_of(body: &[u8], little: bool) -> Fack
    ensures { result ≡ fack_of little body.now }
{
    Fack {
        pad: words::byte_at(body, 1),
        window: u16::read_at(body, 2, little),
        tsdu: u32::read_at(body, 4, little),
        size: u32::read_at(body, 8, little),
        serial: u16::read_at(body, 12, little),
        words: u16::read_at(body, 14, little),
        mask: u32::read_at(body, 16, little),
    }
}

// Reads a fack's body in the sender's order.
pub fn read_fack(body: &[u8], little: bool) -> Result<Fack, Refusal>
    ensures { result ≡ fack_result little body.now }
{
    if is_fack_malformed(body, little) {
        return Err(Refusal::MalformedBody);
    }
    Ok(fack_of(body, little))
}

// The body of a fack as we write it: the serial answered and one mask.
pub fn write_fack(serial: u16, mask: u32) -> [u8; 20]
    ensures { result ≡ fack_bytes (fack_fields serial mask) }
{
    let size = (PDU_SIZE as u32).to_le_bytes();
    let mut body = [0; 20];
    words::put(&mut body, 2, &43u16.to_le_bytes());
    words::put(&mut body, 4, &size);
    words::put(&mut body, 8, &size);
    words::put(&mut body, 12, &serial.to_le_bytes());
    words::put(&mut body, 14, &1u16.to_le_bytes());
    words::put(&mut body, 16, &mask.to_le_bytes());
    body
}

// Whether the body of a fault or reject is malformed: under 4 bytes.
pub fn is_status_malformed(body: &[u8]) -> bool
    ensures { result ≡ status_malformed body.now }
{
    body.len() < 4
}

// The status that stands first in the body of a fault or reject.
pub fn status(body: &[u8], little: bool) -> u32
    ensures { result ≡ status_in little body.now }
{
    u32::read_at(body, 0, little)
}

// Reads the status of a fault or reject in the sender's order.
pub fn read_status(body: &[u8], little: bool) -> Result<u32, Refusal>
    ensures { result ≡ status_result little body.now }
{
    if is_status_malformed(body) {
        return Err(Refusal::MalformedBody);
    }
    Ok(status(body, little))
}

// A status as it is written.
pub fn write_status(status: u32) -> [u8; 4]
    ensures { result ≡ status_bytes status }
{
    status.to_le_bytes()
}

// Whether a cancel's body is malformed: not 8 bytes, or another version than 0.
pub fn is_cancel_malformed(body: &[u8], little: bool) -> bool
    ensures { result ≡ cancel_malformed little body.now }
{
    body.len() != 8 || u32::read_at(body, 0, little) != 0
}

// The number in the body of a cancel or cancel_ack, behind the version.
pub fn cancel_number(body: &[u8], little: bool) -> u32
    ensures { result ≡ cancel_number_in little body.now }
{
    u32::read_at(body, 4, little)
}

// Reads a cancel's body in the sender's order.
pub fn read_cancel(body: &[u8], little: bool) -> Result<u32, Refusal>
    ensures { result ≡ cancel_result little body.now }
{
    if is_cancel_malformed(body, little) {
        return Err(Refusal::MalformedBody);
    }
    Ok(cancel_number(body, little))
}

// The body of a cancel with that number.
pub fn write_cancel(number: u32) -> [u8; 8]
    ensures { result ≡ cancel_bytes number }
{
    let [a, b, c, d] = number.to_le_bytes();
    [0, 0, 0, 0, a, b, c, d]
}

// Whether a cancel_ack's body is malformed: not 12 bytes, another version than 0, or accepts above 1.
pub fn is_cancel_ack_malformed(body: &[u8], little: bool) -> bool
    ensures { result ≡ cancel_ack_malformed little body.now }
{
    body.len() != 12 || u32::read_at(body, 0, little) != 0 || u32::read_at(body, 8, little) > 1
}

// Reads a cancel_ack's body in the sender's order.
pub fn read_cancel_ack(body: &[u8], little: bool) -> Result<CancelAck, Refusal>
    ensures { result ≡ cancel_ack_result little body.now }
{
    if is_cancel_ack_malformed(body, little) {
        return Err(Refusal::MalformedBody);
    }
    Ok(CancelAck {
        number: cancel_number(body, little),
        accepts: u32::read_at(body, 8, little) == 1,
    })
}

// The body of a cancel_ack for the cancel of that number.
pub fn write_cancel_ack(number: u32, accepts: bool) -> [u8; 12]
    ensures { result ≡ cancel_ack_bytes number accepts }
{
    let [a, b, c, d] = number.to_le_bytes();
    [0, 0, 0, 0, a, b, c, d, u8::from(accepts), 0, 0, 0]
}
