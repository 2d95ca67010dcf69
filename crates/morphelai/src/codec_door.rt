// The exported reader and writer.
#![tactic(auto, unfolding(crate::specs::CodecDoor::order_byte, crate::specs::CodecDoor::written_number, words::specs::Choice::choose))]

ghost use Rattle.std.specs.Prelude.{◌≡◌, [], ◌∷◌};
ghost use Rattle.words.specs.Place.{placed};
ghost use Rattle.pdu.specs.Header.{header_bytes};
ghost use Rattle.record_bytes.specs.Layout.{record_size};
ghost use Rattle.morphelai.specs.CodecDoor.{Coded, order_byte, codec_read, written_number, codec_write};

use crate::result;
use answers::Refusal;
use pdu::Header;
use words::HEADER_SIZE;

// How many bytes a record has.
pub fn morphelai_record_size() -> usize
    ensures { result ≡ record_size }
{
    record_bytes::SIZE
}

// The sender's order, as byte 4 tells it.
fn order_byte(little: bool) -> u8
    ensures { result ≡ order_byte little }
{
    if little { 16 } else { 0 }
}

// Lays a header down in its little-endian form, before a body of that length, with the sender's order at byte 4.
fn lay(header: Header, length: u16, little: bool, out: &mut [u8])
    ensures { out.new
        ≡ placed 4 (order_byte little ∷ []) (placed 0 (header_bytes header length) out.old) }
{
    writer::write_header(header, length, out);
    words::put(out, 4, &[order_byte(little)]);
}

// Reads a datagram: the answer, and where it is 0 its header in the little-endian form.
pub fn morphelai_read(datagram: &[u8], out: &mut [u8]) -> u64
    ensures { Coded (codec_read datagram.now out.old) result out.new }
{
    if out.len() != HEADER_SIZE {
        return 1;
    }
    match reader::read(datagram) {
        Ok(read) => {
            let length = reader::body(datagram).len();
            lay(read.header, (length % 65536) as u16, read.little, out);
            0
        }
        Err(refusal) => u64::from(answers::number(Err(refusal))),
    }
}

// The answer of a write and the length of the PDU, in one number.
fn written(w: Result<usize, Refusal>) -> u64
    ensures { result ≡ written_number w }
{
    match w {
        Ok(length) => result::pack(0, 0, (length % 65536) as u16, 0),
        Err(refusal) => result::pack(answers::number(Err(refusal)), 0, 0, 0),
    }
}

// Writes the PDU of a header in its little-endian form and a body.
pub fn morphelai_write(header: &[u8], body: &[u8], out: &mut [u8]) -> u64
    ensures { Coded (codec_write header.now body.now out.old)
        result out.new }
{
    if header.len() != HEADER_SIZE {
        return 1;
    }
    written(writer::write(pdu::fields(header, true), body, out))
}
