// The client's record in 272 bytes, and back.
#![tactic(auto, unfolding(crate::specs::Layout::state_of, crate::specs::Layout::readable_by, crate::specs::Layout::client_of, crate::specs::Layout::fields_of, crate::specs::Layout::bytes_of_client, words::specs::Choice::choose, words::specs::Choice::both))]

ghost use Rattle.std.specs.Prelude.{◌≡◌};
ghost use Rattle.words.specs.Place.{placed};
ghost use Rattle.client_bytes.specs.Layout.{state_of, state_number, readable_by, client_of, client_in, fields_of, bytes_of_client};

use client::{Client, State};
use record_bytes::{Decoded, Fields};

// The state that a number stands for; one above 6 stands for none, and counts as FAULT.
// By the layout's numbers (readable_by); no From, since State is another crate's.
fn state_of(number: u8) -> State
    ensures { result ≡ state_of number }
{
    match number {
        0 => State::Queued,
        1 => State::SendFrags,
        2 => State::Dispatched,
        3 => State::ReceiveFrags,
        4 => State::AckPending,
        5 => State::Complete,
        _ => State::Fault,
    }
}

// The number of a state: the layout's, whatever the order of the variants is.
// By the layout's numbers; no From, since State is another crate's.
fn state_number(state: State) -> u8
    ensures { result ≡ state_number state }
{
    match state {
        State::Queued => 0,
        State::SendFrags => 1,
        State::Dispatched => 2,
        State::ReceiveFrags => 3,
        State::AckPending => 4,
        State::Complete => 5,
        State::Fault => 6,
    }
}

// The record of what stands in bytes. An array goes into a literal by a variable: else there is no proof.
fn client_of(readable: bool, f: Fields) -> Client
    ensures { result ≡ client_of readable f }
{
    let activity = f.activity;
    Client {
        state: state_of(f.state),
        activity,
        number: f.number,
        call: f.call,
        outgoing: f.outgoing,
        incoming: f.incoming,
        waits: record_bytes::count_where(readable, f.count),
        resends: f.extra,
        cancels: f.cancels,
        tickets: f.tickets,
        wait: f.timer,
        ack: record_bytes::timer_where(f.armed, f.word),
        cancel: f.cancel,
    }
}

// Whether bytes are readable, by what is decoded of them: a state that is listed, no boot, and what both sides ask.
fn is_readable(d: &Decoded) -> bool
    ensures { result ≡ readable_by d.now }
{
    d.fields.state <= 6 && d.fields.boot == 0 && d.readable
}

// The record in 272 bytes; one that breaks its rules where they are not readable.
pub fn decode(s: &[u8]) -> Client
    ensures { result ≡ client_in s.now }
{
    let d = record_bytes::decode(s);
    client_of(is_readable(&d), d.fields)
}

// What the bytes of a record hold. An array goes into a literal by a variable: else there is no proof.
fn fields_of(c: Client) -> Fields
    ensures { result ≡ fields_of c }
{
    let activity = c.activity;
    Fields {
        state: state_number(c.state),
        count: c.waits,
        extra: c.resends,
        activity,
        number: c.number,
        boot: 0,
        call: c.call,
        outgoing: c.outgoing,
        incoming: c.incoming,
        tickets: c.tickets,
        timer: c.wait,
        armed: record_bytes::is_armed(c.ack),
        word: record_bytes::timer_ticket(c.ack),
        cancel: c.cancel,
        cancels: c.cancels,
    }
}

// Lays the 272 bytes of a record down; where they do not fit, the buffer stays as it was.
// The other side has its like: which of the common fields a record has is each side's own (fields_of).
pub fn encode(c: Client, out: &mut [u8])
    ensures { out.new ≡ placed 0 (bytes_of_client c) out.old }
{
    record_bytes::encode(fields_of(c), out);
}
