// What a row of the client's table makes of its record: the plan of the step, before anything is written.
#![tactic(auto, unfolding(crate::specs::step::Plan::going, crate::specs::step::Plan::failed, crate::specs::step::Steps::started, crate::specs::step::Steps::transmitted, crate::specs::step::Steps::pinged, crate::specs::step::Steps::cancelled, crate::specs::step::Steps::put_record, crate::specs::step::Steps::put_notice, crate::specs::step::Steps::fack_for, crate::specs::step::Steps::response_plan, crate::specs::step::Steps::working_plan, crate::specs::step::Steps::resent, crate::specs::step::Steps::acknowledged, crate::specs::step::Steps::step_of, crate::specs::records::Record::waiting, crate::specs::records::Record::sending_again, crate::specs::records::Record::ack_pending, crate::specs::records::Record::unarmed, crate::specs::records::Record::cancel_armed, crate::specs::records::Record::cancel_disarmed, crate::specs::records::Record::fresh, crate::specs::records::Record::with_outgoing, crate::specs::records::Record::with_incoming, crate::specs::records::Record::with_waits, crate::specs::records::Record::with_resends, crate::specs::records::Record::with_cancels, words::specs::Choice::choose))]

ghost use Rattle.std.specs.Prelude.{◌≡◌};
ghost use Rattle.client.specs.step.Plan.{going as going_plan, failed as failed_plan};
ghost use Rattle.client.specs.step.Steps.{started as started_record, transmitted as transmitted_record, pinged as pinged_record, cancelled as cancelled_record, put_record, received as received_record, put_notice, fack_for, response_plan, working_plan, resent as resent_record, acknowledged as acknowledged_record, step_of};

use crate::judge::Row;
use crate::records;
use crate::records::{Client, State};
use calls::{Call, Notice};
use fragments::Fragment;
use incoming::Incoming;

// What is to be sent: nothing, the request's fragment of that number, a ping, an ack, a fack for the
// serial answered with the contiguous count, or a cancel of that number.
// Nothing is a case of its own: behind an Option each row would put its PDU into Some.
#[derive(Clone, Copy)]
pub enum Send {
    Nothing,
    Request(u16),
    Ping,
    Ack,
    Fack(u16, u16),
    Cancel(u32),
}

// What a row is to do.
pub type Plan = calls::Plan<Client, Send>;

// A row that puts no fragment.
fn going(c: Client, send: Send, notice: Notice) -> Plan
    ensures { result ≡ going_plan c send notice }
{
    calls::Plan {
        machine: c,
        send,
        notice,
        store: None,
    }
}

// The call fails: to FAULT, with nothing armed.
fn failed(c: Client, notice: Notice) -> Plan
    ensures { result ≡ failed_plan c notice }
{
    going(records::to_unarmed(c, State::Fault), Send::Nothing, notice)
}

// The record of a call that starts with that number.
pub fn start(c: Client, number: u32, call: Call, length: u32) -> Client
    ensures { result ≡ started_record c number call length }
{
    Client {
        state: State::SendFrags,
        number,
        call,
        outgoing: outgoing::start(length),
        ..records::fresh(c.activity, c.tickets)
    }
}

// The record after the next fragment is sent; after the last, to DISPATCHED with WAIT armed.
fn transmitted(last: bool, c: Client) -> Client
    ensures { result ≡ transmitted_record last c }
{
    let next = Client {
        outgoing: outgoing::after_send(c.outgoing),
        ..c
    };
    if last {
        records::to_waiting(next, State::Dispatched)
    } else {
        next
    }
}

// The record after a ping: the serial goes up, WAIT is armed afresh, and its count is as told.
fn pinged(c: Client, waits: u8) -> Client
    ensures { result ≡ pinged_record c waits }
{
    let next = Client {
        outgoing: outgoing::after_ping(c.outgoing),
        waits,
        ..c
    };
    records::to_waiting(next, c.state)
}

// The record after a local cancel: CANCEL is armed if it is not, and the cancel number is as told.
fn cancelled(c: Client, number: u32) -> Client
    ensures { result ≡ cancelled_record c number }
{
    let next = Client {
        cancels: number,
        ..c
    };
    records::arm_cancel(next)
}

// State and timers after a response.
fn put_record(complete: bool, idempotent: bool, c: Client) -> Client
    ensures { result ≡ put_record complete idempotent c }
{
    match (complete, idempotent) {
        (true, true) => records::to_unarmed(c, State::Complete),
        (true, false) => records::to_ack_pending(c),
        (false, _) => records::to_waiting(c, State::ReceiveFrags),
    }
}

// The record with what is held after a put, and the WAIT count 0.
fn received(c: Client, m: Incoming) -> Client
    ensures { result ≡ received_record c m }
{
    Client {
        incoming: m,
        waits: 0,
        ..c
    }
}

// What is told of a response.
fn put_notice(complete: bool, count: u16) -> Notice
    ensures { result ≡ put_notice complete count }
{
    if complete {
        Notice::Last
    } else {
        Notice::Count(count)
    }
}

// The fack for what was put, where one is wanted.
// The server has its like: each names its own Send, and a trait over the two would be longer.
fn fack_for(wanted: bool, serial: u16, count: u16) -> Send
    ensures { result ≡ fack_for wanted serial count }
{
    if wanted {
        Send::Fack(serial, count)
    } else {
        Send::Nothing
    }
}

// A response is put.
fn response(c: Client, p: Fragment) -> Plan
    ensures { result ≡ response_plan c p }
{
    let next = received(c, fragments::put_into(c.incoming, p));
    calls::Plan {
        machine: put_record(p.complete, c.call.idempotent, next),
        send: fack_for(p.facked, p.serial, p.count),
        notice: put_notice(p.complete, p.count),
        store: Some(p.number),
    }
}

// The record when the request goes out again, its count as told.
fn resent(c: Client, resends: u8) -> Client
    ensures { result ≡ resent_record c resends }
{
    let next = Client {
        outgoing: outgoing::rewind(c.outgoing),
        resends,
        ..c
    };
    records::to_sending(next)
}

// The record after a fack of that many fragments.
// The server has its like: one for both would need a trait over records, longer than the two.
fn acknowledged(c: Client, count: u16) -> Client
    ensures { result ≡ acknowledged_record c count }
{
    Client {
        outgoing: outgoing::acknowledge(c.outgoing, count),
        ..c
    }
}

// Working: WAIT count 0, armed afresh.
fn working(c: Client) -> Plan
    ensures { result ≡ working_plan c }
{
    let heard = Client { waits: 0, ..c };
    going(
        records::to_waiting(heard, State::Dispatched),
        Send::Nothing,
        Notice::Nothing,
    )
}

// The plan of a row.
// A row is data and no function: step_of and the theorems go by it.
pub fn step(row: Row, c: Client) -> Plan
    ensures { result ≡ step_of row c }
{
    match row {
        Row::Transmit(last) => going(
            transmitted(last, c),
            Send::Request(c.outgoing.sent),
            Notice::Nothing,
        ),
        Row::Ping(waits) => going(pinged(c, waits), Send::Ping, Notice::Nothing),
        Row::SendAck => going(
            records::to_unarmed(c, State::Complete),
            Send::Ack,
            Notice::Nothing,
        ),
        Row::Cancel(number) => going(cancelled(c, number), Send::Cancel(number), Notice::Nothing),
        Row::Response(p) => response(c, p),
        Row::Fault(status) => failed(c, Notice::Fault(status)),
        Row::Reject(status) => failed(c, Notice::Reject(status)),
        Row::Working => working(c),
        Row::Resend(resends) => going(resent(c, resends), Send::Nothing, Notice::Nothing),
        Row::GiveUp(cause) => failed(c, Notice::Cause(cause)),
        Row::Fack(count) => going(acknowledged(c, count), Send::Nothing, Notice::Nothing),
        Row::CancelAck => going(records::disarm_cancel(c), Send::Nothing, Notice::Nothing),
    }
}
