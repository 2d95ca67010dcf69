// The reader: any datagram, of any length.
#![tactic(auto, unfolding(crate::specs::Reading::order_is, crate::specs::Reading::reader_refusals, pdu::specs::Header::body_of, answers::specs::Table::first_of, words::specs::Choice::choose, words::specs::Choice::both, words::specs::Choice::either))]

ghost use Rattle.std.specs.Prelude.{◌≡◌};
ghost use Rattle.pdu.specs.Header.{body_of};
ghost use Rattle.answers.specs.Table.{answer_of};
ghost use Rattle.reader.specs.Reading.{order_is, reader_refusals, read_result};

use answers::{Answer, Refusal};
use pdu::{Header, Kind};
use words::{BODY_SIZE, HEADER_SIZE, ReadAt};

// A datagram that was read: whether the sender's order is little-endian, and the header.
// The body is no field: reader::body gives it of every datagram, read or refused (body_of).
#[derive(Clone, Copy)]
pub struct Received {
    pub little: bool,
    pub header: Header,
}

// Whether the bytes 4 to 6 of a datagram are this mark, 0, 0.
fn order_is(d: &[u8], mark: u8) -> bool
    ensures { result ≡ order_is mark d.now }
{
    words::byte_at(d, 4) == mark && words::byte_at(d, 5) == 0 && words::byte_at(d, 6) == 0
}

// The first of refusals 3 to 8 that a datagram meets, its byte order told.
// Two flags and no enum of three: reader_refusals has the two.
fn judge(d: &[u8], little: bool, big: bool) -> Answer
    ensures { result ≡ answer_of (reader_refusals d.now little big) }
{
    if d.len() < HEADER_SIZE {
        return Err(Refusal::ShortDatagram);
    }
    if words::byte_at(d, 0) != 4 {
        return Err(Refusal::WrongVersion);
    }
    Kind::try_from(words::byte_at(d, 1))?;
    if !(little || big) {
        return Err(Refusal::UnknownRepresentation);
    }
    if words::byte_at(d, 78) != 0 {
        return Err(Refusal::Authenticated);
    }
    let behind = usize::from(u16::read_at(d, 74, little));
    if behind > BODY_SIZE || d.len() != HEADER_SIZE + behind {
        return Err(Refusal::WrongBodyLength);
    }
    Ok(())
}

// Reads a datagram: the header and the sender's order, or the refusal. Inlined, so that a refusal is not taken out of a
// Result of 88 bytes.
#[inline]
pub fn read(d: &[u8]) -> Result<Received, Refusal>
    ensures { result ≡ read_result d.now }
{
    let little = order_is(d, 16);
    let big = order_is(d, 0);
    judge(d, little, big)?;
    Ok(Received {
        little,
        header: pdu::fields(d, little),
    })
}

// The body of a datagram: the part of it from byte 80, empty where it ends before.
pub fn body(d: &[u8]) -> &[u8]
    ensures { result.now ≡ body_of d.now }
{
    words::behind(d, HEADER_SIZE)
}
