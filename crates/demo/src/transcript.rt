// The transcript's words: how it shows what the library gives.
use crate::line::{self, Decimal};
use calls::Notice;
use client::State as ClientState;
use server::{Idle, State as ServerState};
use std::fmt;
use timers::Timer;

// What the transcript is of, and the names of the columns.
pub(crate) fn print_head() {
    line::print(
        b"A console calls a controller, not idempotent: a request of 3500 bytes in 3 fragments, a reply of 4500 in 4.
Of the PDUs that a side sends the network loses the second of every three, and delivers every fourth twice.
And the request that was sent last comes again: while the call runs, while its reply is held, and when it is over.
Answer 0: done. Any other is a refusal: nothing changes, nothing is sent, nobody is told.
A fack is shown with its number, the last fragment that its sender holds without a gap (- for none), and with its
mask, whose bit 0 is the fragment behind that one. So a sender goes on in the middle of its message.

no. side   event             answer sends                tells    state           armed     why
",
    );
}

// What the stub is told.
#[derive(Clone, Copy)]
pub(crate) struct Told(pub Notice);

impl fmt::Display for Told {
    fn fmt<W: fmt::Write>(&self, f: &mut fmt::Formatter<W>) -> fmt::Result {
        match self.0 {
            Notice::Nothing => f.write_str("-"),
            Notice::Last => f.write_str("last"),
            Notice::Dispatch => f.write_str("dispatch"),
            Notice::Count(count) => write!(f, "count {}", Decimal(count.into())),
            Notice::Fault(_) => f.write_str("fault"),
            Notice::Reject(_) => f.write_str("reject"),
            Notice::Cause(_) => f.write_str("failed"),
            Notice::Cancel => f.write_str("cancel"),
        }
    }
}

// A timer of the record, with its ticket where it is armed.
#[derive(Clone, Copy)]
pub(crate) struct Armed {
    pub name: &'static str,
    pub timer: Timer,
}

impl fmt::Display for Armed {
    fn fmt<W: fmt::Write>(&self, f: &mut fmt::Formatter<W>) -> fmt::Result {
        match self.timer {
            None => f.write_str("-"),
            Some(ticket) => write!(f, "{:<7}{}", self.name, Decimal(ticket)),
        }
    }
}

// The name of the client's state.
pub(crate) fn client_state(state: ClientState) -> &'static str {
    match state {
        ClientState::Queued => "QUEUED",
        ClientState::SendFrags => "SEND_FRAGS",
        ClientState::Dispatched => "DISPATCHED",
        ClientState::ReceiveFrags => "RECEIVE_FRAGS",
        ClientState::AckPending => "ACK_PENDING",
        ClientState::Complete => "COMPLETE",
        ClientState::Fault => "FAULT",
    }
}

// The name of the server's state.
pub(crate) fn server_state(state: ServerState) -> &'static str {
    match state {
        ServerState::Idle(Idle::Fresh) => "IDLE fresh",
        ServerState::Idle(Idle::Spent) => "IDLE spent",
        ServerState::Idle(Idle::Repeatable) => "IDLE repeatable",
        ServerState::Collect => "COLLECT",
        ServerState::Running => "RUNNING",
        ServerState::Replying => "REPLYING",
        ServerState::Held(_) => "HELD",
    }
}
