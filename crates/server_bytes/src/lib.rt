// The server's record in 272 bytes, and back.
#![tactic(auto, unfolding(crate::specs::Layout::state_of, crate::specs::Layout::readable_by, crate::specs::Layout::server_of, crate::specs::Layout::fields_of, crate::specs::Layout::bytes_of_server, words::specs::Choice::choose, words::specs::Choice::both))]

ghost use Rattle.std.specs.Prelude.{◌≡◌};
ghost use Rattle.words.specs.Place.{placed};
ghost use Rattle.server_bytes.specs.Layout.{state_of, state_number, status_of, readable_by, server_of, server_in, fields_of, bytes_of_server};

use record_bytes::{Decoded, Fields};
use server::{Idle, Reply, Server, State};

// The state that a number stands for, with the status of a fault; one above 7 stands for none, and
// counts as IDLE fresh.
// By the layout's numbers (readable_by); no From, since State is another crate's.
fn state_of(number: u8, status: u32) -> State
    ensures { result ≡ state_of number status }
{
    match number {
        1 => State::Idle(Idle::Spent),
        2 => State::Idle(Idle::Repeatable),
        3 => State::Collect,
        4 => State::Running,
        5 => State::Replying,
        6 => State::Held(Reply::Data),
        7 => State::Held(Reply::Fault(status)),
        _ => State::Idle(Idle::Fresh),
    }
}

// The number of a state: the layout's, whatever the order of the variants is.
// By the layout's numbers; no From, since State is another crate's.
fn state_number(state: State) -> u8
    ensures { result ≡ state_number state }
{
    match state {
        State::Idle(Idle::Fresh) => 0,
        State::Idle(Idle::Spent) => 1,
        State::Idle(Idle::Repeatable) => 2,
        State::Collect => 3,
        State::Running => 4,
        State::Replying => 5,
        State::Held(Reply::Data) => 6,
        State::Held(Reply::Fault(_)) => 7,
    }
}

// The status of a fault that is held, 0 in every other state.
fn status_of(state: State) -> u32
    ensures { result ≡ status_of state }
{
    match state {
        State::Held(Reply::Fault(status)) => status,
        _ => 0,
    }
}

// The record of what stands in bytes. An array goes into a literal by a variable: else there is no proof.
fn server_of(readable: bool, status: u32, f: Fields) -> Server
    ensures { result ≡ server_of readable status f }
{
    let activity = f.activity;
    Server {
        state: state_of(f.state, status),
        activity,
        boot: f.boot,
        number: f.number,
        call: f.call,
        outgoing: f.outgoing,
        incoming: f.incoming,
        resends: record_bytes::count_where(readable, f.count),
        seen: f.cancels,
        tickets: f.tickets,
        resend: f.timer,
    }
}

// Whether bytes are readable, by what is decoded of them: a state that is listed, nothing that only a
// client has, and what both sides ask.
fn is_readable(d: &Decoded) -> bool
    ensures { result ≡ readable_by d.now }
{
    d.fields.state <= 7
        && d.fields.extra == 0
        && d.second == 0
        && d.third == 0
        && d.fields.word < 4294967296
        && d.ticket == 0
        && d.readable
}

// The record in 272 bytes; one that breaks its rules where they are not readable.
pub fn decode(s: &[u8]) -> Server
    ensures { result ≡ server_in s.now }
{
    let d = record_bytes::decode(s);
    let status = (d.fields.word % 4294967296) as u32;
    server_of(is_readable(&d), status, d.fields)
}

// What the bytes of a record hold. An array goes into a literal by a variable: else there is no proof.
fn fields_of(s: Server) -> Fields
    ensures { result ≡ fields_of s }
{
    let activity = s.activity;
    Fields {
        state: state_number(s.state),
        count: s.resends,
        extra: 0,
        activity,
        number: s.number,
        boot: s.boot,
        call: s.call,
        outgoing: s.outgoing,
        incoming: s.incoming,
        tickets: s.tickets,
        timer: s.resend,
        armed: false,
        word: u64::from(status_of(s.state)),
        cancel: None,
        cancels: s.seen,
    }
}

// Lays the 272 bytes of a record down; where they do not fit, the buffer stays as it was.
// The other side has its like: which of the common fields a record has is each side's own (fields_of).
pub fn encode(s: Server, out: &mut [u8])
    ensures { out.new ≡ placed 0 (bytes_of_server s) out.old }
{
    record_bytes::encode(fields_of(s), out);
}
