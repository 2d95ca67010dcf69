// The writer: into a lent buffer of exactly 1,472 bytes, always little-endian.
#![tactic(auto, unfolding(crate::specs::Writing::write_refusals, pdu::specs::Header::header_bytes, answers::specs::Table::first_of, words::specs::Choice::choose))]

ghost use Rattle.std.specs.Prelude.{◌≡◌};
ghost use Rattle.words.specs.Place.{placed};
ghost use Rattle.pdu.specs.Header.{header_bytes};
ghost use Rattle.answers.specs.Table.{answer_of};
ghost use Rattle.writer.specs.Writing.{write_refusals, writing, Wrote};

use answers::{Answer, Refusal};
use pdu::{Header, Kind};
use words::{BODY_SIZE, HEADER_SIZE, PDU_SIZE};

// The first of refusals 1, 5, 7 and 8 that is met.
// kind is any number, as in pdu::Header: it is what 5 refuses.
fn judge(lent: usize, kind: u8, authentication: u8, body: usize) -> Answer
    ensures { result ≡ answer_of (write_refusals lent kind authentication body) }
{
    if lent != PDU_SIZE {
        return Err(Refusal::WrongLength);
    }
    Kind::try_from(kind)?;
    if authentication != 0 {
        return Err(Refusal::Authenticated);
    }
    if body > BODY_SIZE {
        return Err(Refusal::WrongBodyLength);
    }
    Ok(())
}

// Lays the 80 bytes of a header down; where they do not fit, the buffer stays as it was. They go straight into the
// buffer: an array of them, which is then copied, takes a quarter more of a write with an empty body.
pub fn write_header(h: Header, body: u16, out: &mut [u8])
    ensures { out.new ≡ placed 0 (header_bytes h body) out.old }
{
    if out.len() < HEADER_SIZE {
        return;
    }
    let [high, low] = h.serial.to_be_bytes();
    words::put(out, 0, &[4, h.kind, h.flags1, h.flags2, 16, 0, 0, high]);
    words::put(out, 8, &h.object);
    words::put(out, 24, &h.interface);
    words::put(out, 40, &h.activity);
    words::put(out, 56, &h.boot.to_le_bytes());
    words::put(out, 60, &h.version.to_le_bytes());
    words::put(out, 64, &h.number.to_le_bytes());
    words::put(out, 68, &h.operation.to_le_bytes());
    words::put(out, 70, &h.ihint.to_le_bytes());
    words::put(out, 72, &h.ahint.to_le_bytes());
    words::put(out, 74, &body.to_le_bytes());
    words::put(out, 76, &h.fragment.to_le_bytes());
    words::put(out, 78, &[h.authentication, low]);
}

// Writes a PDU into a lent buffer and tells how many bytes it is, or refuses it and leaves every byte as it was.
pub fn write(h: Header, body: &[u8], out: &mut [u8]) -> Result<usize, Refusal>
    ensures { Wrote (writing h body.now out.old) result out.new }
{
    judge(out.len(), h.kind, h.authentication, body.len())?;
    write_header(h, body.len() as u16, out);
    words::put(out, HEADER_SIZE, body);
    Ok(HEADER_SIZE + body.len())
}
