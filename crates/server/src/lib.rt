// The server call machine: a controller's side of an activity. Each event takes the record by value
// and the lent memory, judges, steps and only then acts.
#![tactic(auto, unfolding(crate::specs::Sending::reply_header, crate::specs::Sending::echoed, crate::specs::step::Steps::call_of, crate::specs::Sending::echo_header, crate::specs::Sending::response_sent, crate::specs::Sending::fault_sent, crate::specs::Sending::empty_sent, crate::specs::Sending::fack_sent, crate::specs::Sending::cancel_ack_sent, crate::specs::Sending::sent_out, crate::specs::Machine::reply_by, crate::specs::Machine::replying, crate::specs::Machine::sending, crate::specs::Machine::step_by, crate::specs::Machine::transmitting, crate::specs::Machine::timing, crate::specs::Machine::faulting, crate::specs::Machine::acted, crate::specs::Machine::arrival_by, crate::specs::Machine::arriving, crate::specs::Machine::handed_up_of, calls::specs::Outcome::refused, calls::specs::Outcome::done))]

mod judge;
mod records;
mod step;

ghost use Rattle.std.specs.Prelude.{◌≡◌, []};
ghost use Rattle.calls.specs.Sent.{Posted};
ghost use Rattle.pdu.specs.Kind.{kind_number};
ghost use Rattle.server.specs.Sending.{reply_header, echoed as echoed_call, echo_header, response_sent, fault_sent, empty_sent, fack_sent, cancel_ack_sent, sent_out};
ghost use Rattle.calls.specs.Events.{Stepped, Arrived};
ghost use Rattle.server.specs.Machine.{replying, sending, step_by, transmitting, timing, faulting, acted, arrival_by, arriving, handed_up_of};

use calls::{Call, Notice, Sent};
use judge::Verdict;
use pdu::{Header, Kind};
pub use records::{Idle, Reply, Server, State, fresh, is_held, is_replying, is_running, is_sound};
use step::{Plan, Send};

// What an event gives back.
pub type Outcome = calls::Outcome<Server>;

// The header of a response or fault: the call's number and data.
fn reply_header(kind: Kind, flags1: u8, fragment: u16, s: Server) -> Header
    ensures { result ≡ reply_header (kind_number kind) flags1 fragment s }
{
    let kind = u8::from(kind);
    let serial = s.outgoing.serial;
    calls::header(
        kind, flags1, serial, s.activity, s.boot, s.number, s.call, fragment,
    )
}

// The data of the PDU answered, as a call's.
fn echoed(h: Header) -> Call
    ensures { result ≡ echoed_call h }
{
    Call {
        idempotent: false,
        ..step::call_of(h)
    }
}

// The header of every other PDU: the number and data of the PDU answered.
fn echo_header(kind: Kind, fragment: u16, s: Server, h: Header) -> Header
    ensures { result ≡ echo_header (kind_number kind) fragment s h }
{
    let kind = u8::from(kind);
    let serial = s.outgoing.serial;
    calls::header(
        kind,
        0,
        serial,
        s.activity,
        s.boot,
        h.number,
        echoed(h),
        fragment,
    )
}

// Sends the response's fragment f, whose bytes are lent.
fn send_response(f: u16, s: Server, lent: &[u8], out: &mut [u8]) -> Sent
    ensures { Posted (response_sent f s lent.now out.old) result out.new }
{
    let flags1 = outgoing::flags(s.outgoing.count, f);
    calls::post(reply_header(Kind::Response, flags1, f, s), lent, out)
}

// Sends a fault with its status.
fn send_fault(status: u32, s: Server, out: &mut [u8]) -> Sent
    ensures { Posted (fault_sent status s out.old) result out.new }
{
    calls::post(
        reply_header(Kind::Fault, 0, 0, s),
        &bodies::write_status(status),
        out,
    )
}

// Sends a PDU that has no body, for the PDU answered.
fn send_empty(kind: Kind, s: Server, h: Header, out: &mut [u8]) -> Sent
    ensures { Posted (empty_sent (kind_number kind) s h out.old) result out.new }
{
    calls::post(echo_header(kind, 0, s, h), &[], out)
}

// Sends a fack for the serial answered; count is the contiguous count of what is held.
fn send_fack(serial: u16, count: u16, s: Server, h: Header, out: &mut [u8]) -> Sent
    ensures { Posted (fack_sent serial count s h out.old) result out.new }
{
    let body = bodies::write_fack(serial, facks::mask(s.incoming, count));
    calls::post(
        echo_header(Kind::Fack, facks::number(count), s, h),
        &body,
        out,
    )
}

// Sends a cancel_ack for the cancel of that number.
fn send_cancel_ack(number: u32, accepts: bool, s: Server, h: Header, out: &mut [u8]) -> Sent
    ensures { Posted (cancel_ack_sent number accepts s h out.old) result out.new }
{
    let body = bodies::write_cancel_ack(number, accepts);
    calls::post(echo_header(Kind::CancelAck, 0, s, h), &body, out)
}

// Sends what a plan says, from the record after the step; h is the header of the PDU answered.
// What is to be sent is data, by which plans and sent_out go.
fn send_out(send: Send, s: Server, h: Header, lent: &[u8], out: &mut [u8]) -> Sent
    ensures { Posted (sent_out send s h lent.now out.old) result out.new }
{
    match send {
        Send::Nothing => None,
        Send::Response(f) => send_response(f, s, lent, out),
        Send::Fault(status) => send_fault(status, s, out),
        Send::Working => send_empty(Kind::Working, s, h, out),
        Send::Nocall => send_empty(Kind::Nocall, s, h, out),
        Send::Fack(serial, count) => send_fack(serial, count, s, h, out),
        Send::CancelAck(number, accepts) => send_cancel_ack(number, accepts, s, h, out),
    }
}

// Reply: a message of this length for the call that is running.
pub fn reply(s: Server, length: u32) -> Outcome
    ensures { result ≡ replying s length }
{
    match judge::reply(s, length) {
        Err(refusal) => calls::refused(s, refusal),
        Ok(row) => calls::done(step::step(row, s, pdu::no_header()), None),
    }
}

// Sends the PDU of a plan, for the PDU answered; the bytes of a fragment that is sent are lent.
fn send(plan: Plan, h: Header, lent: &[u8], out: &mut [u8]) -> Outcome
    ensures { Stepped (sending plan h lent.now out.old) result out.new }
{
    let sent = send_out(plan.send, plan.machine, h, lent, out);
    calls::done(plan, sent)
}

// An event of the stub or the timer, judged; no PDU is answered.
fn act(verdict: Verdict, s: Server, lent: &[u8], out: &mut [u8]) -> Outcome
    ensures { Stepped (step_by verdict s lent.now out.old) result out.new }
{
    match verdict {
        Err(refusal) => calls::refused(s, refusal),
        Ok(row) => {
            let h = pdu::no_header();
            send(step::step(row, s, h), h, lent, out)
        }
    }
}

// Transmit: the next fragment of the lent message.
pub fn transmit(s: Server, message: &[u8], out: &mut [u8]) -> Outcome
    ensures { Stepped (transmitting s message.now out.old) result out.new }
{
    let verdict = judge::transmit(s, message.len(), out.len());
    act(
        verdict,
        s,
        outgoing::fragment(message, s.outgoing.sent),
        out,
    )
}

// The RESEND timer with that ticket.
pub fn timer(s: Server, ticket: u64, out: &mut [u8]) -> Outcome
    ensures { Stepped (timing s ticket out.old) result out.new }
{
    act(judge::timer(s, ticket, out.len()), s, &[], out)
}

// Fault: the call that is running fails with this status.
pub fn fault(s: Server, status: u32, out: &mut [u8]) -> Outcome
    ensures { Stepped (faulting s status out.old) result out.new }
{
    act(judge::fault(s, status, out.len()), s, &[], out)
}

// Acts on the plan of an arriving PDU: its body goes into its slot, the PDU into the buffer.
fn store_and_send(plan: Plan, h: Header, body: &[u8], slots: &mut [u8], out: &mut [u8]) -> Outcome
    ensures { Arrived (acted plan h body.now slots.old out.old) result slots.new out.new }
{
    fragments::store(plan.store, body, slots);
    send(plan, h, &[], out)
}

// An arriving PDU. It is read only where what is lent is right and the record keeps its rules.
// What a host lends comes as C lends it: three slices.
pub fn arrive(s: Server, datagram: &[u8], slots: &mut [u8], out: &mut [u8]) -> Outcome
    ensures { Arrived (arriving s datagram.now slots.old out.old) result slots.new out.new }
{
    match judge::arrival(s, slots.len(), out.len(), datagram) {
        Err(refusal) => calls::refused(s, refusal),
        Ok((row, h)) => store_and_send(
            step::step(row, s, h),
            h,
            reader::body(datagram),
            slots,
            out,
        ),
    }
}

// The part of the slot buffer that is fragment f of what was received; empty where f is not
// contiguous, the record breaks its rules or the buffer has another length.
pub fn hand_up(s: Server, f: u16, slots: &[u8]) -> &[u8]
    ensures { result.now ≡ handed_up_of s f slots.now }
{
    fragments::hand_up_where(records::is_sound(s), s.incoming, f, slots)
}
