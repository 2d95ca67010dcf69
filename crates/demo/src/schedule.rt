// What happens next. A PDU on a wire is delivered first, and then the request that comes again; then a
// side does what its state asks for; and when nothing else can happen, a timer runs out.
use crate::console::{ClientEvent, Console};
use crate::controller::{Controller, ServerEvent};
use crate::host::Side;
use crate::network::Network;

// An event at one of the two sides.
#[derive(Clone, Copy)]
pub(crate) enum Next {
    Client(ClientEvent),
    Server(ServerEvent),
}

// The timer that runs out: ACK is short; of WAIT and RESEND it is the one that was started first.
fn timer(console: &Console, controller: &Controller) -> Option<Next> {
    if let Some(ack) = console.ack {
        return Some(Next::Client(ClientEvent::Ack(ack.ticket)));
    }
    if let Some(wait) = console.wait
        && controller
            .resend
            .is_none_or(|resend| wait.since < resend.since)
    {
        return Some(Next::Client(ClientEvent::Wait(wait.ticket)));
    }
    controller
        .resend
        .map(|resend| Next::Server(ServerEvent::Resend(resend.ticket)))
}

// What the state of a side asks for, or the timer that runs out.
fn work(console: &Console, controller: &Controller) -> Option<Next> {
    match (console.client.state, controller.server.state) {
        (client::State::Queued, _) => Some(Next::Client(ClientEvent::Start)),
        (client::State::SendFrags, _) => Some(Next::Client(ClientEvent::Transmit)),
        // The call was executed at the notice; here it is only answered.
        (_, server::State::Running) => Some(Next::Server(ServerEvent::Reply)),
        (_, server::State::Replying) => Some(Next::Server(ServerEvent::Transmit)),
        _ => timer(console, controller),
    }
}

// None where nothing is left to happen.
pub(crate) fn next_event(
    console: &Console,
    controller: &Controller,
    network: &mut Network,
) -> Option<Next> {
    if let Some(pdu) = network.deliver(Side::Client) {
        return Some(Next::Client(ClientEvent::Arrive(pdu)));
    }
    if let Some(pdu) = network.deliver(Side::Server) {
        return Some(Next::Server(ServerEvent::Arrive(pdu)));
    }
    if let Some(pdu) = network.late_request(&controller.server) {
        return Some(Next::Server(ServerEvent::Arrive(pdu)));
    }
    work(console, controller)
}
