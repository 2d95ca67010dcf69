// The client call machine: a console's side of an activity. Each event takes the record by value and
// the lent memory, judges, steps and only then acts.
#![tactic(auto, unfolding(crate::specs::Sending::pdu_header, crate::specs::Sending::request_sent, crate::specs::Sending::empty_sent, crate::specs::Sending::fack_sent, crate::specs::Sending::cancel_sent, crate::specs::Sending::sent_out, crate::specs::Machine::start_by, crate::specs::Machine::starting, crate::specs::Machine::sending, crate::specs::Machine::step_by, crate::specs::Machine::transmitting, crate::specs::Machine::timing, crate::specs::Machine::cancelling, crate::specs::Machine::acted, crate::specs::Machine::arrival_by, crate::specs::Machine::arriving, crate::specs::Machine::handed_up_of, calls::specs::Outcome::refused, calls::specs::Outcome::done))]

mod judge;
mod records;
mod step;

ghost use Rattle.std.specs.Prelude.{◌≡◌, []};
ghost use Rattle.calls.specs.Sent.{Posted};
ghost use Rattle.pdu.specs.Kind.{kind_number};
ghost use Rattle.client.specs.Sending.{pdu_header, request_sent, empty_sent, fack_sent, cancel_sent, sent_out};
ghost use Rattle.calls.specs.Events.{Stepped, Arrived};
ghost use Rattle.client.specs.Machine.{starting, sending, step_by, transmitting, timing, cancelling, acted, arriving, handed_up_of};

use calls::{Call, Notice, Sent};
use judge::{StartVerdict, Verdict};
use pdu::{Header, Kind};
pub use records::{Client, State, TimerKind, fresh, is_queued, is_sending, is_sound};
use step::{Plan, Send};

// What an event gives back.
pub type Outcome = calls::Outcome<Client>;

// The header of a PDU of the call that the record is in.
fn header(kind: Kind, flags1: u8, fragment: u16, c: Client) -> Header
    ensures { result ≡ pdu_header (kind_number kind) flags1 fragment c }
{
    let kind = u8::from(kind);
    let marked = flags::with(flags1, flags::IDEMPOTENT, c.call.idempotent);
    let serial = c.outgoing.serial;
    calls::header(
        kind, marked, serial, c.activity, 0, c.number, c.call, fragment,
    )
}

// Sends the request's fragment f, whose bytes are lent.
fn send_request(f: u16, c: Client, lent: &[u8], out: &mut [u8]) -> Sent
    ensures { Posted (request_sent f c lent.now out.old) result out.new }
{
    let flags1 = outgoing::flags(c.outgoing.count, f);
    calls::post(header(Kind::Request, flags1, f, c), lent, out)
}

// Sends a PDU that has no body.
fn send_empty(kind: Kind, c: Client, out: &mut [u8]) -> Sent
    ensures { Posted (empty_sent (kind_number kind) c out.old) result out.new }
{
    calls::post(header(kind, 0, 0, c), &[], out)
}

// Sends a fack for the serial answered; count is the contiguous count of what is held.
fn send_fack(serial: u16, count: u16, c: Client, out: &mut [u8]) -> Sent
    ensures { Posted (fack_sent serial count c out.old) result out.new }
{
    let body = bodies::write_fack(serial, facks::mask(c.incoming, count));
    calls::post(header(Kind::Fack, 0, facks::number(count), c), &body, out)
}

// Sends a cancel of that number.
fn send_cancel(number: u32, c: Client, out: &mut [u8]) -> Sent
    ensures { Posted (cancel_sent number c out.old) result out.new }
{
    calls::post(
        header(Kind::Cancel, 0, 0, c),
        &bodies::write_cancel(number),
        out,
    )
}

// Sends what a plan says, from the record after the step.
// What is to be sent is data, by which plans and sent_out go.
fn send_out(send: Send, c: Client, lent: &[u8], out: &mut [u8]) -> Sent
    ensures { Posted (sent_out send c lent.now out.old) result out.new }
{
    match send {
        Send::Nothing => None,
        Send::Request(f) => send_request(f, c, lent, out),
        Send::Ping => send_empty(Kind::Ping, c, out),
        Send::Ack => send_empty(Kind::Ack, c, out),
        Send::Fack(serial, count) => send_fack(serial, count, c, out),
        Send::Cancel(number) => send_cancel(number, c, out),
    }
}

// Start: a call with a message of this length.
pub fn start(c: Client, call: Call, length: u32) -> Outcome
    ensures { result ≡ starting c call length }
{
    match judge::start(c, length) {
        Err(refusal) => calls::refused(c, refusal),
        Ok(number) => calls::Outcome {
            answer: Ok(()),
            machine: step::start(c, number, call, length),
            sent: None,
            notice: Notice::Nothing,
        },
    }
}

// Sends the PDU of a plan; the bytes of a fragment that is sent are lent.
fn send(plan: Plan, lent: &[u8], out: &mut [u8]) -> Outcome
    ensures { Stepped (sending plan lent.now out.old) result out.new }
{
    let sent = send_out(plan.send, plan.machine, lent, out);
    calls::done(plan, sent)
}

// An event with a PDU buffer, judged.
// The server's like, and those that send, have the header answered: a trait over both would be longer.
fn act(verdict: Verdict, c: Client, lent: &[u8], out: &mut [u8]) -> Outcome
    ensures { Stepped (step_by verdict c lent.now out.old) result out.new }
{
    match verdict {
        Err(refusal) => calls::refused(c, refusal),
        Ok(row) => send(step::step(row, c), lent, out),
    }
}

// Transmit: the next fragment of the lent message.
// The server has its like: one for both would need a trait over records, longer than the two.
pub fn transmit(c: Client, message: &[u8], out: &mut [u8]) -> Outcome
    ensures { Stepped (transmitting c message.now out.old) result out.new }
{
    let verdict = judge::transmit(c, message.len(), out.len());
    act(
        verdict,
        c,
        outgoing::fragment(message, c.outgoing.sent),
        out,
    )
}

// A timer of that kind and ticket.
pub fn timer(c: Client, kind: TimerKind, ticket: u64, out: &mut [u8]) -> Outcome
    ensures { Stepped (timing c kind ticket out.old) result out.new }
{
    act(judge::timer(c, kind, ticket, out.len()), c, &[], out)
}

// Local cancel: the client's user asks that the call be stopped; the call goes on.
pub fn cancel(c: Client, out: &mut [u8]) -> Outcome
    ensures { Stepped (cancelling c out.old) result out.new }
{
    act(judge::cancel(c, out.len()), c, &[], out)
}

// Acts on the plan of an arriving PDU: its body goes into its slot, the PDU into the buffer.
fn store_and_send(plan: Plan, body: &[u8], slots: &mut [u8], out: &mut [u8]) -> Outcome
    ensures { Arrived (acted plan body.now slots.old out.old) result slots.new out.new }
{
    fragments::store(plan.store, body, slots);
    send(plan, &[], out)
}

// An arriving PDU.
// What a host lends comes as C lends it: three slices.
pub fn arrive(c: Client, datagram: &[u8], slots: &mut [u8], out: &mut [u8]) -> Outcome
    ensures { Arrived (arriving c datagram.now slots.old out.old) result slots.new out.new }
{
    match judge::arrival(c, slots.len(), out.len(), datagram) {
        Err(refusal) => calls::refused(c, refusal),
        Ok(row) => store_and_send(step::step(row, c), reader::body(datagram), slots, out),
    }
}

// The part of the slot buffer that is fragment f of what was received; empty where f is not
// contiguous, the record breaks its rules or the buffer has another length.
// The server has its like: one for both would need a trait over records, longer than the two.
pub fn hand_up(c: Client, f: u16, slots: &[u8]) -> &[u8]
    ensures { result.now ≡ handed_up_of c f slots.now }
{
    fragments::hand_up_where(records::is_sound(c), c.incoming, f, slots)
}
