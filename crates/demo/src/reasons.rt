// Why an event did what it did, in a few words: the end of each line of the transcript. The state is that
// after the event.
use crate::console::ClientEvent;
use crate::controller::ServerEvent;
use crate::datagram::Pdu;
use crate::host::Given;
use answers::Refusal;
use calls::Notice;
use client::State as ClientState;
use server::State as ServerState;

// Why the client did what it did.
pub(crate) fn of_client(event: &ClientEvent, given: Given, state: ClientState) -> &'static str {
    if let Err(refusal) = given.answer {
        return refused(refusal, event.ticket());
    }
    match (event, state) {
        (ClientEvent::Start, _) => "a call begins",
        (ClientEvent::Transmit, ClientState::SendFrags) => "a fragment of the request",
        (ClientEvent::Transmit, _) => "all sent: wait for a reply",
        (ClientEvent::Arrive(datagram), _) => {
            client_took(Pdu::read(datagram.bytes()), given.notice, state)
        }
        (ClientEvent::Wait(_), ClientState::Fault) => "asked too often: give up",
        (ClientEvent::Wait(_), _) => "no answer in time: ask",
        (ClientEvent::Ack(_), _) => "say that the reply is there",
    }
}

// Of a PDU that the client took.
fn client_took(pdu: Pdu, notice: Notice, state: ClientState) -> &'static str {
    match (pdu, state) {
        (Pdu::Response(_), _) if matches!(notice, Notice::Last) => "the reply is whole",
        (Pdu::Response(_), _) => "put in its place",
        (Pdu::Working, _) => "the call runs: wait on",
        (Pdu::Nocall, ClientState::SendFrags) => "not whole there: send again",
        (Pdu::Nocall, _) => "sent too often: give up",
        (Pdu::Fack(_, _), _) => "so much is there: note it",
        _ => "the call has failed",
    }
}

// Why the server did what it did.
pub(crate) fn of_server(event: &ServerEvent, given: Given, state: ServerState) -> &'static str {
    if let Err(refusal) = given.answer {
        return match (refusal, event) {
            (Refusal::OldCall, ServerEvent::Arrive(_)) => "spent: never executed again",
            _ => refused(refusal, event.ticket()),
        };
    }
    match (event, state) {
        (ServerEvent::Arrive(datagram), _) => {
            server_took(Pdu::read(datagram.bytes()), given.notice, state)
        }
        (ServerEvent::Reply, _) => "the stub answers",
        (ServerEvent::Transmit, ServerState::Replying) => "a fragment of the reply",
        (ServerEvent::Transmit, ServerState::Held(_)) => "all sent: held for the ack",
        (ServerEvent::Transmit, _) => "all sent",
        (ServerEvent::Resend(_), ServerState::Idle(_)) => "sent too often: call spent",
        (ServerEvent::Resend(_), _) => "no ack in time: send again",
    }
}

// Of a PDU that the server took.
fn server_took(pdu: Pdu, notice: Notice, state: ServerState) -> &'static str {
    match (pdu, state) {
        (Pdu::Request(_), _) if matches!(notice, Notice::Dispatch) => "whole: execute it, once",
        (Pdu::Request(_), ServerState::Running) => "runs: not executed again",
        (Pdu::Ping, ServerState::Running) => "the call runs: say so",
        (Pdu::Request(_) | Pdu::Ping, ServerState::Replying) => "ran already: reply again",
        (Pdu::Request(_) | Pdu::Ping, ServerState::Held(_)) => "ran already: fault again",
        (Pdu::Request(_), _) => "put in its place",
        (Pdu::Ping, _) => "request not whole: say so",
        (Pdu::Ack, _) => "the reply is there: spent",
        _ => "so much is there: note it",
    }
}

// Of what is refused at either side. A timer that was not stopped in time hands in its ticket: another one
// is armed, or none can be.
fn refused(refusal: Refusal, ticket: Option<u64>) -> &'static str {
    match (refusal, ticket) {
        (Refusal::LateTimer, Some(_)) => "late timer: nothing happens",
        (_, Some(_)) => "not waiting: nothing to do",
        (Refusal::Repeated, None) => "repeated: not written over",
        (Refusal::NoRow, None) => "not waited for: dropped",
        (_, None) => "refused: nothing changes",
    }
}
