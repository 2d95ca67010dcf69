// A call as both machines see it: its operation data, the PDUs sent for it, and what the stub is told.
#![tactic(auto, unfolding(crate::specs::Outcome::refused, crate::specs::Outcome::done, crate::specs::Sent::blank_call, crate::specs::Sent::sent_header, crate::specs::Sent::posting, crate::specs::Sent::sent_bytes, words::specs::Choice::choose))]

ghost use Rattle.std.specs.Prelude.{◌≡◌};
ghost use Rattle.calls.specs.Outcome.{refused, done};
ghost use Rattle.calls.specs.Sent.{blank_call, sent_header, posting, Posted, sent_bytes};

use answers::{Answer, Refusal};
use fragments::Stored;
use pdu::Header;

// The data of an operation, and whether the call is marked idempotent. UUIDs are in the little-endian form.
#[derive(Clone, Copy)]
pub struct Call {
    pub idempotent: bool,
    pub object: [u8; 16],
    pub interface: [u8; 16],
    pub version: u32,
    pub operation: u16,
}

// What the stub is told.
#[derive(Clone, Copy, PartialEq, Eq, Debug)]
pub enum Notice {
    // Kind 0 of the C interface (notice_kind), and no Option therefore.
    Nothing,
    // All fragments to the last are held.
    Last,
    // The contiguous count.
    Count(u16),
    // The status of a fault or reject that came.
    Fault(u32),
    Reject(u32),
    // A failure found here: 1 no response, 2 no call at the server, 3 no answer to a cancel. It stays a number as in C:
    // `notice_at` of host_history, by which the theorem over hosts reads a result, gives a cause of any value.
    Cause(u8),
    // A whole request is to be executed.
    Dispatch,
    // The call that is running is to be given up, if the stub can.
    Cancel,
}

// What was sent: nothing, or a PDU that is so many bytes at the front of the PDU buffer.
pub type Sent = Option<usize>;

// What a row is to do to the record of a machine: the next record, what to send, the notice, and what of an arriving
// body is stored.
#[derive(Clone, Copy)]
pub struct Plan<M, S> {
    pub machine: M,
    pub send: S,
    pub notice: Notice,
    pub store: Stored,
}

// What an event gives back: its answer, the record of the machine, what was sent and what the stub is told.
// No Result: a refusal gives the record back too (refused), and theorems read each part of it.
#[derive(Clone, Copy)]
pub struct Outcome<M> {
    pub answer: Answer,
    pub machine: M,
    pub sent: Sent,
    pub notice: Notice,
}

// A refusal: the record stays, nothing is sent or told.
pub fn refused<M>(machine: M, refusal: Refusal) -> Outcome<M>
    ensures { result ≡ refused machine refusal }
{
    Outcome {
        answer: Err(refusal),
        machine,
        sent: None,
        notice: Notice::Nothing,
    }
}

// What a row's plan gives back with what was sent.
pub fn done<M, S: Copy>(plan: Plan<M, S>, sent: Sent) -> Outcome<M>
    ensures { result ≡ done plan sent }
{
    Outcome {
        answer: Ok(()),
        machine: plan.machine,
        sent,
        notice: plan.notice,
    }
}

// The call of a record that has none.
pub fn no_call() -> Call
    ensures { result ≡ blank_call }
{
    Call {
        idempotent: false,
        object: [0; 16],
        interface: [0; 16],
        version: 0,
        operation: 0,
    }
}

// The header of a sent PDU. Its kind stays a number, since `sent_header` and the writer's refusal are of any.
// Eight parameters, as sent_header has, by which contracts and runs name a PDU.
pub fn header(
    kind: u8,
    flags1: u8,
    serial: u16,
    activity: [u8; 16],
    boot: u32,
    number: u32,
    call: Call,
    fragment: u16,
) -> Header
    ensures { result ≡ sent_header kind flags1 serial activity boot number call fragment }
{
    let Call {
        object,
        interface,
        version,
        operation,
        ..
    } = call;
    Header {
        kind,
        flags1,
        flags2: 0,
        serial,
        object,
        interface,
        activity,
        boot,
        version,
        number,
        operation,
        ihint: u16::MAX,
        ahint: u16::MAX,
        fragment,
        authentication: 0,
    }
}

// Writes a PDU to send into the lent buffer.
pub fn post(h: Header, body: &[u8], out: &mut [u8]) -> Sent
    ensures { Posted (posting h body.now out.old) result out.new }
{
    writer::write(h, body, out).ok()
}

// The PDU that was sent: the front of the lent buffer, or an empty part where nothing was.
pub fn sent_bytes(sent: Sent, buffer: &[u8]) -> &[u8]
    ensures { result.now ≡ sent_bytes sent buffer.now }
{
    words::first(buffer, sent.unwrap_or(0))
}
