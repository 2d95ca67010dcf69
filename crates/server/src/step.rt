// What a row of the server's table makes of its record: the plan of the step, before anything is written.
#![tactic(auto, unfolding(crate::specs::records::Record::with_outgoing, crate::specs::records::Record::with_resends, crate::specs::step::Plan::going, crate::specs::records::Record::with_incoming, crate::specs::step::Steps::answered, crate::specs::step::Steps::transmitted, crate::specs::step::Steps::repeatable, crate::specs::step::Steps::rewinding, crate::specs::step::Steps::call_of, crate::specs::step::Steps::begun, crate::specs::step::Steps::put_state, crate::specs::step::Steps::put_notice, crate::specs::step::Steps::fack_for, crate::specs::step::Steps::put_plan, crate::specs::step::Steps::acknowledged, crate::specs::step::Steps::heard_plan, crate::specs::step::Steps::step_of, words::specs::Choice::choose))]

ghost use Rattle.std.specs.Prelude.{◌≡◌};
ghost use Rattle.server.specs.records.Record.{holding, unarmed, with_resends};
ghost use Rattle.server.specs.step.Plan.{going as going_plan};
ghost use Rattle.server.specs.step.Steps.{answered as answered_record, transmitted as transmitted_record, repeatable as repeatable_record, rewinding as rewinding_record, call_of, begun as begun_record, put_state, put_notice, fack_for, put_plan, acknowledged as acknowledged_record, heard_plan, step_of};

use crate::judge::Row;
use crate::records;
use crate::records::{Idle, Reply, Server, State};
use calls::{Call, Notice};
use fragments::Fragment;
use pdu::Header;

// What is to be sent: nothing, the response's fragment of that number, a fault with its status, working, nocall, a
// fack for the serial answered with the contiguous count, or a cancel_ack for the cancel of that number and whether
// cancels are accepted.
// Nothing is a case of its own: behind an Option each row would put its PDU into Some.
#[derive(Clone, Copy)]
pub enum Send {
    Nothing,
    Response(u16),
    Fault(u32),
    Working,
    Nocall,
    Fack(u16, u16),
    CancelAck(u32, bool),
}

// What a row is to do.
pub type Plan = calls::Plan<Server, Send>;

// A row that puts no fragment and tells the stub nothing.
fn going(s: Server, send: Send) -> Plan
    ensures { result ≡ going_plan s send }
{
    calls::Plan {
        machine: s,
        send,
        notice: Notice::Nothing,
        store: None,
    }
}

// The record of a reply that was given: to REPLYING, nothing sent or acknowledged.
fn answered(s: Server, length: u32) -> Server
    ensures { result ≡ answered_record s length }
{
    let replied = Server {
        outgoing: outgoing::reply(s.outgoing, length),
        ..s
    };
    records::to_unarmed(replied, State::Replying)
}

// The record after the next fragment is sent.
fn transmitted(s: Server) -> Server
    ensures { result ≡ transmitted_record s }
{
    Server {
        outgoing: outgoing::after_send(s.outgoing),
        ..s
    }
}

// The record of a call that can be run again: to IDLE repeatable.
fn repeatable(s: Server) -> Server
    ensures { result ≡ repeatable_record s }
{
    records::to_unarmed(s, State::Idle(Idle::Repeatable))
}

// The record of a call that is not to run again: to IDLE spent.
fn spent(s: Server) -> Server
    ensures { result ≡ unarmed s (State.Idle Idle.Spent) }
{
    records::to_unarmed(s, State::Idle(Idle::Spent))
}

// The record of a reply that is held: to HELD with RESEND armed.
fn reply_held(s: Server) -> Server
    ensures { result ≡ holding s Reply.Data }
{
    records::to_holding(s, Reply::Data)
}

// A fault is sent and held, with RESEND armed.
fn fault_held(s: Server, status: u32) -> Plan
    ensures { result ≡ going_plan (holding s (Reply.Fault status)) (Send.Fault status) }
{
    going(
        records::to_holding(s, Reply::Fault(status)),
        Send::Fault(status),
    )
}

// The record of a reply that goes out again: to REPLYING at the first unacknowledged fragment.
fn rewinding(s: Server) -> Server
    ensures { result ≡ rewinding_record s }
{
    let rewound = Server {
        outgoing: outgoing::rewind(s.outgoing),
        ..s
    };
    records::to_unarmed(rewound, State::Replying)
}

// The same by RESEND, its count as told.
fn resent(s: Server, resends: u8) -> Server
    ensures { result ≡ rewinding_record (with_resends s resends) }
{
    rewinding(Server { resends, ..s })
}

// The call that a request carries.
pub fn call_of(h: Header) -> Call
    ensures { result ≡ call_of h }
{
    let Header {
        object,
        interface,
        version,
        operation,
        ..
    } = h;
    Call {
        idempotent: flags::has(h.flags1, flags::IDEMPOTENT),
        object,
        interface,
        version,
        operation,
    }
}

// The record of a call that begins.
fn begun(s: Server, h: Header) -> Server
    ensures { result ≡ begun_record s h }
{
    records::with_call(s, State::Collect, h.number, call_of(h))
}

// The state after a put.
fn put_state(complete: bool) -> State
    ensures { result ≡ put_state complete }
{
    if complete {
        State::Running
    } else {
        State::Collect
    }
}

// What is told of a put.
fn put_notice(complete: bool) -> Notice
    ensures { result ≡ put_notice complete }
{
    if complete {
        Notice::Dispatch
    } else {
        Notice::Nothing
    }
}

// The fack for what was put, where one is wanted.
fn fack_for(wanted: bool, serial: u16, count: u16) -> Send
    ensures { result ≡ fack_for wanted serial count }
{
    if wanted {
        Send::Fack(serial, count)
    } else {
        Send::Nothing
    }
}

// A request is put.
fn put(s: Server, p: Fragment) -> Plan
    ensures { result ≡ put_plan s p }
{
    let next = records::to_unarmed(s, put_state(p.complete));
    calls::Plan {
        machine: Server {
            incoming: fragments::put_into(s.incoming, p),
            ..next
        },
        send: fack_for(p.facked, p.serial, p.count),
        notice: put_notice(p.complete),
        store: Some(p.number),
    }
}

// The record after a fack of that many fragments.
fn acknowledged(s: Server, count: u16) -> Server
    ensures { result ≡ acknowledged_record s count }
{
    Server {
        outgoing: outgoing::acknowledge(s.outgoing, count),
        ..s
    }
}

// A cancel is heard: its number is remembered, and the stub is told.
fn heard(s: Server, number: u32) -> Plan
    ensures { result ≡ heard_plan s number }
{
    calls::Plan {
        machine: records::with_seen(s, number),
        send: Send::CancelAck(number, true),
        notice: Notice::Cancel,
        store: None,
    }
}

// The plan of a row; h is the header of the PDU that arrived, which a begin alone looks at.
// A row is data and no function: step_of and the theorems go by it.
pub fn step(row: Row, s: Server, h: Header) -> Plan
    ensures { result ≡ step_of row s h }
{
    match row {
        Row::Reply(length) => going(answered(s, length), Send::Nothing),
        Row::TransmitMore => going(transmitted(s), Send::Response(s.outgoing.sent)),
        Row::TransmitRepeatable => going(
            repeatable(transmitted(s)),
            Send::Response(s.outgoing.sent),
        ),
        Row::TransmitHeld => going(reply_held(transmitted(s)), Send::Response(s.outgoing.sent)),
        Row::FaultRepeatable(status) => going(repeatable(s), Send::Fault(status)),
        Row::FaultHeld(status) => fault_held(s, status),
        Row::ResendData(resends) => going(resent(s, resends), Send::Nothing),
        Row::ResendFault(status, resends) => fault_held(Server { resends, ..s }, status),
        Row::Spend => going(spent(s), Send::Nothing),
        Row::Begin(p) => put(begun(s, h), p),
        Row::Put(p) => put(s, p),
        Row::Working => going(s, Send::Working),
        Row::Nocall => going(s, Send::Nocall),
        Row::Rewind => going(rewinding(s), Send::Nothing),
        Row::RepeatFault(status) => going(s, Send::Fault(status)),
        Row::Acknowledge(count) => going(acknowledged(s, count), Send::Nothing),
        Row::HearCancel(number) => heard(s, number),
        Row::AcceptCancel(number) => going(s, Send::CancelAck(number, true)),
        Row::DeclineCancel(number) => going(s, Send::CancelAck(number, false)),
    }
}
