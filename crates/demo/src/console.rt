// The console's host: what it keeps, which event it calls, and what it does with what comes back.
use crate::clock::Alarm;
use crate::datagram::{Datagram, Pdu};
use crate::host::{Given, Host, Memory, Side};
use crate::line::Decimal;
use crate::transcript::Armed;
use crate::{clock, reasons, transcript};
use calls::{Call, Notice};
use client::{Client, Outcome, TimerKind};
use std::fmt;

pub(crate) const REQUEST_SIZE: u32 = 3500;

// The activity of the console and the controller: a UUID in the little-endian form.
pub(crate) const ACTIVITY: [u8; 16] = [7; 16];

// What happens at the console, with the datagram that arrives, or with the ticket with which the timer was
// started that runs out: Wait and Ack are its timers.
#[derive(Clone, Copy)]
pub(crate) enum ClientEvent {
    Start,
    Transmit,
    Arrive(Datagram),
    Wait(u64),
    Ack(u64),
}

impl ClientEvent {
    // The ticket that a timer hands in.
    pub(crate) fn ticket(&self) -> Option<u64> {
        match self {
            ClientEvent::Wait(ticket) | ClientEvent::Ack(ticket) => Some(*ticket),
            _ => None,
        }
    }
}

impl fmt::Display for ClientEvent {
    fn fmt<W: fmt::Write>(&self, f: &mut fmt::Formatter<W>) -> fmt::Result {
        match self {
            ClientEvent::Start => f.write_str("start"),
            ClientEvent::Transmit => f.write_str("transmit"),
            ClientEvent::Arrive(datagram) => write!(f, "<- {}", Pdu::read(datagram.bytes())),
            ClientEvent::Wait(ticket) => write!(f, "WAIT ticket   {}", Decimal(*ticket)),
            ClientEvent::Ack(ticket) => write!(f, "ACK ticket    {}", Decimal(*ticket)),
        }
    }
}

// The record, a timer for each that the record arms here (CANCEL is not: this console cancels no call),
// the memory that is lent, and how often a reply was complete.
#[derive(Drop)]
pub(crate) struct Console<'a> {
    pub client: Client,
    pub wait: Option<Alarm>,
    pub ack: Option<Alarm>,
    pub memory: Memory<'a>,
    completed: u32,
}

// The operation that the console calls.
fn operation() -> Call {
    Call {
        idempotent: false,
        object: [1; 16],
        interface: [2; 16],
        version: 1,
        operation: 5,
    }
}

// The event, called of the library. The request is lent at each transmit, the slot buffer for what
// arrives, and the PDU buffer wherever something may be sent. A timer hands in its ticket.
fn call_event(client: Client, event: &ClientEvent, memory: &mut Memory) -> Outcome {
    let slots = &mut *memory.slots;
    let pdu = &mut *memory.pdu;
    match event {
        ClientEvent::Start => client::start(client, operation(), REQUEST_SIZE),
        ClientEvent::Transmit => client::transmit(client, memory.message, pdu),
        ClientEvent::Arrive(datagram) => client::arrive(client, datagram.bytes(), slots, pdu),
        ClientEvent::Wait(ticket) => client::timer(client, TimerKind::Wait, *ticket, pdu),
        ClientEvent::Ack(ticket) => client::timer(client, TimerKind::Ack, *ticket, pdu),
    }
}

impl<'a> Console<'a> {
    // A fresh client of the activity, with the memory that is lent for it.
    pub(crate) fn fresh(memory: Memory<'a>) -> Console<'a> {
        Console {
            client: client::fresh(ACTIVITY, 0),
            wait: None,
            ack: None,
            memory,
            completed: 0,
        }
    }

    // What a notice tells the stub: here, how often a reply was complete.
    fn tell(&mut self, notice: Notice) {
        match notice {
            // The whole reply can be taken.
            Notice::Last => self.completed = self.completed.wrapping_add(1),
            // So many fragments can be taken already.
            Notice::Count(_) => {}
            // The call has failed: the server says so, or did not answer. It may have been executed.
            Notice::Fault(_) | Notice::Reject(_) | Notice::Cause(_) => {}
            // Only a server tells these.
            Notice::Dispatch | Notice::Cancel => {}
            Notice::Nothing => {}
        }
    }
}

impl Host for Console<'_> {
    type Event = ClientEvent;

    const SIDE: Side = Side::Client;

    const COMES: &'static str = "reply:";

    const TOLD: &'static str = "completions";

    fn memory(&self) -> &Memory<'_> {
        &self.memory
    }

    fn call(&mut self, event: &ClientEvent, number: u64) -> Given {
        let outcome = call_event(self.client, event, &mut self.memory);
        let ticket = event.ticket();
        self.client = outcome.machine;
        self.wait = clock::after_event(self.wait, ticket, self.client.wait, number);
        self.ack = clock::after_event(self.ack, ticket, self.client.ack, number);
        self.tell(outcome.notice);
        Given {
            answer: outcome.answer,
            sent: outcome.sent,
            notice: outcome.notice,
        }
    }

    fn state(&self) -> &'static str {
        transcript::client_state(self.client.state)
    }

    fn armed(&self) -> Armed {
        if self.client.wait.is_none() {
            Armed {
                name: "ACK",
                timer: self.client.ack,
            }
        } else {
            Armed {
                name: "WAIT",
                timer: self.client.wait,
            }
        }
    }

    fn reason(&self, event: &ClientEvent, given: Given) -> &'static str {
        reasons::of_client(event, given, self.client.state)
    }

    fn times_told(&self) -> u32 {
        self.completed
    }

    fn hand_up(&self, fragment: u16) -> &[u8] {
        client::hand_up(self.client, fragment, self.memory.slots)
    }
}
