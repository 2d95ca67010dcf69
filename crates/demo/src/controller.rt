// The controller's host: what it keeps, which event it calls, and what it does with what comes back.
use crate::clock::Alarm;
use crate::datagram::{Datagram, Pdu};
use crate::host::{Given, Host, Memory, Side};
use crate::line::Decimal;
use crate::transcript::Armed;
use crate::{clock, console, reasons, transcript};
use calls::Notice;
use server::{Outcome, Server};
use std::fmt;

pub(crate) const REPLY_SIZE: u32 = 4500;

// The boot value: another one each time that the controller starts.
const BOOT: u32 = 1;

// What happens at the controller, with the datagram that arrives, or with the ticket with which the timer was
// started that runs out: Resend is its timer.
#[derive(Clone, Copy)]
pub(crate) enum ServerEvent {
    Arrive(Datagram),
    Reply,
    Transmit,
    Resend(u64),
}

impl ServerEvent {
    // The ticket that a timer hands in.
    pub(crate) fn ticket(&self) -> Option<u64> {
        match self {
            ServerEvent::Resend(ticket) => Some(*ticket),
            _ => None,
        }
    }
}

impl fmt::Display for ServerEvent {
    fn fmt<W: fmt::Write>(&self, f: &mut fmt::Formatter<W>) -> fmt::Result {
        match self {
            ServerEvent::Arrive(datagram) => write!(f, "<- {}", Pdu::read(datagram.bytes())),
            ServerEvent::Reply => f.write_str("reply"),
            ServerEvent::Transmit => f.write_str("transmit"),
            ServerEvent::Resend(ticket) => write!(f, "RESEND ticket {}", Decimal(*ticket)),
        }
    }
}

// The record, a timer for the one that the record has, the memory that is lent, and how often a call was
// dispatched.
#[derive(Drop)]
pub(crate) struct Controller<'a> {
    pub server: Server,
    pub resend: Option<Alarm>,
    pub memory: Memory<'a>,
    dispatched: u32,
}

// The event, called of the library. The reply is lent at each transmit, the slot buffer for what
// arrives, and the PDU buffer wherever something may be sent. A timer hands in its ticket.
fn call_event(server: Server, event: &ServerEvent, memory: &mut Memory) -> Outcome {
    let slots = &mut *memory.slots;
    let pdu = &mut *memory.pdu;
    match event {
        ServerEvent::Arrive(datagram) => server::arrive(server, datagram.bytes(), slots, pdu),
        ServerEvent::Reply => server::reply(server, REPLY_SIZE),
        ServerEvent::Transmit => server::transmit(server, memory.message, pdu),
        ServerEvent::Resend(ticket) => server::timer(server, *ticket, pdu),
    }
}

impl<'a> Controller<'a> {
    // A fresh server of the console's activity, with its boot value and the memory that is lent for it.
    pub(crate) fn fresh(memory: Memory<'a>) -> Controller<'a> {
        Controller {
            server: server::fresh(console::ACTIVITY, BOOT, 0),
            resend: None,
            memory,
            dispatched: 0,
        }
    }

    // What a notice tells the stub: here, how often it is to execute a call.
    fn tell(&mut self, notice: Notice) {
        match notice {
            // The whole request can be taken, and is to be executed: here and nowhere else.
            Notice::Dispatch => self.dispatched = self.dispatched.wrapping_add(1),
            // The console wants the call to end: a stub that can stop replies, or faults, as soon as it has.
            Notice::Cancel => {}
            // Only a client tells these.
            Notice::Last | Notice::Count(_) => {}
            Notice::Fault(_) | Notice::Reject(_) | Notice::Cause(_) => {}
            Notice::Nothing => {}
        }
    }
}

impl Host for Controller<'_> {
    type Event = ServerEvent;

    const SIDE: Side = Side::Server;

    const COMES: &'static str = "request:";

    const TOLD: &'static str = "dispatches";

    fn memory(&self) -> &Memory<'_> {
        &self.memory
    }

    fn call(&mut self, event: &ServerEvent, number: u64) -> Given {
        let outcome = call_event(self.server, event, &mut self.memory);
        self.server = outcome.machine;
        self.resend = clock::after_event(self.resend, event.ticket(), self.server.resend, number);
        self.tell(outcome.notice);
        Given {
            answer: outcome.answer,
            sent: outcome.sent,
            notice: outcome.notice,
        }
    }

    fn state(&self) -> &'static str {
        transcript::server_state(self.server.state)
    }

    fn armed(&self) -> Armed {
        Armed {
            name: "RESEND",
            timer: self.server.resend,
        }
    }

    fn reason(&self, event: &ServerEvent, given: Given) -> &'static str {
        reasons::of_server(event, given, self.server.state)
    }

    fn times_told(&self) -> u32 {
        self.dispatched
    }

    fn hand_up(&self, fragment: u16) -> &[u8] {
        server::hand_up(self.server, fragment, self.memory.slots)
    }
}
