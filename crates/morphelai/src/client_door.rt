// The client's exported functions.
// One function for each name that C calls, with C's parameters; what both sides do alike is in record.
#![tactic(auto, unfolding(crate::specs::Result::result_of, crate::specs::Export::sized, crate::specs::Export::refusing, crate::specs::Export::other_kind, crate::specs::ClientDoor::client_result, crate::specs::ClientDoor::client_kept, crate::specs::ClientDoor::client_fresh, crate::specs::ClientDoor::call_of, crate::specs::ClientDoor::start_sized, crate::specs::ClientDoor::client_start, crate::specs::ClientDoor::client_transmit, crate::specs::ClientDoor::client_arrive, crate::specs::ClientDoor::timer_kind, crate::specs::ClientDoor::client_timing, crate::specs::ClientDoor::client_timer, crate::specs::ClientDoor::client_cancel, crate::specs::ClientDoor::client_part, words::specs::Choice::choose, words::specs::Choice::both))]

ghost use Rattle.std.specs.Prelude.{◌≡◌, []};
ghost use Rattle.morphelai.specs.Export.{Exported};
ghost use Rattle.morphelai.specs.ClientDoor.{client_fresh, call_of, start_sized, client_start, client_transmit, client_arrive, timer_kind, client_timer, client_cancel, client_part};

use crate::{record, result};
use calls::Call;
use client::{Client, TimerKind};

// Makes a fresh record of an activity, whose first ticket is one more than this.
pub fn morphelai_client_fresh(bytes: &mut [u8], activity: &[u8], tickets: u64) -> u64
    ensures { Exported (client_fresh bytes.old activity.now tickets)
        result bytes.new [] [] }
{
    if bytes.len() != record_bytes::SIZE || activity.len() != 16 {
        return 1;
    }
    let fresh = client::fresh(record_bytes::uuid(activity, 0), tickets);
    client_bytes::encode(fresh, bytes);
    0
}

// The call of a start.
fn call_of(idempotent: bool, object: &[u8], interface: &[u8], version: u32, operation: u16) -> Call
    ensures { result ≡ call_of idempotent object.now interface.now version operation }
{
    Call {
        idempotent,
        object: record_bytes::uuid(object, 0),
        interface: record_bytes::uuid(interface, 0),
        version,
        operation,
    }
}

// Whether a start's record and UUIDs have their lengths, and idempotent is 0 or 1.
fn is_sized(bytes: &[u8], idempotent: u8, object: &[u8], interface: &[u8]) -> bool
    ensures { result ≡ start_sized bytes.now idempotent object.now interface.now }
{
    bytes.len() == record_bytes::SIZE
        && idempotent <= 1
        && object.len() == 16
        && interface.len() == 16
}

// Start: a call with a message of this length.
pub fn morphelai_client_start(
    bytes: &mut [u8],
    idempotent: u8,
    object: &[u8],
    interface: &[u8],
    version: u32,
    operation: u16,
    length: u32,
) -> u64
    ensures { Exported
        (client_start bytes.old idempotent object.now interface.now
        version operation length)
        result bytes.new [] [] }
{
    if !is_sized(bytes, idempotent, object, interface) {
        return 1;
    }
    let call = call_of(idempotent == 1, object, interface, version, operation);
    record::given(
        client::start(client_bytes::decode(bytes), call, length),
        bytes,
    )
}

// Transmit: the next fragment of the lent message.
pub fn morphelai_client_transmit(bytes: &mut [u8], message: &[u8], out: &mut [u8]) -> u64
    ensures { Exported (client_transmit bytes.old message.now out.old)
        result bytes.new [] out.new }
{
    let Some(client) = record::lent::<Client>(bytes) else {
        return 1;
    };
    record::given(client::transmit(client, message, out), bytes)
}

// An arriving datagram.
pub fn morphelai_client_arrive(
    bytes: &mut [u8],
    datagram: &[u8],
    slots: &mut [u8],
    out: &mut [u8],
) -> u64
    ensures { Exported (client_arrive bytes.old datagram.now slots.old out.old)
        result bytes.new slots.new out.new }
{
    let Some(client) = record::lent::<Client>(bytes) else {
        return 1;
    };
    record::given(client::arrive(client, datagram, slots, out), bytes)
}

// The client's timer of this kind.
fn timer_kind(kind: u8) -> Option<TimerKind>
    ensures { result ≡ timer_kind kind }
{
    match kind {
        1 => Some(TimerKind::Wait),
        2 => Some(TimerKind::Ack),
        4 => Some(TimerKind::Cancel),
        _ => None,
    }
}

// A timer of this kind that ran out, with its ticket: 1 is WAIT, 2 is ACK, 4 is CANCEL.
pub fn morphelai_client_timer(bytes: &mut [u8], kind: u8, ticket: u64, out: &mut [u8]) -> u64
    ensures { Exported (client_timer bytes.old kind ticket out.old)
        result bytes.new [] out.new }
{
    let Some(client) = record::lent::<Client>(bytes) else {
        return 1;
    };
    let Some(kind) = timer_kind(kind) else {
        return result::other_timer(client::is_sound(client), out.len());
    };
    record::given(client::timer(client, kind, ticket, out), bytes)
}

// Local cancel: the client's user asks that the call be stopped; the call goes on.
pub fn morphelai_client_cancel(bytes: &mut [u8], out: &mut [u8]) -> u64
    ensures { Exported (client_cancel bytes.old out.old)
        result bytes.new [] out.new }
{
    let Some(client) = record::lent::<Client>(bytes) else {
        return 1;
    };
    record::given(client::cancel(client, out), bytes)
}

// How long the part of the slot buffer is that is fragment f of what was received.
pub fn morphelai_client_part(bytes: &[u8], f: u16, slots: &[u8]) -> u64
    ensures { result ≡ client_part bytes.now f slots.now }
{
    match record::lent::<Client>(bytes) {
        Some(client) => client::hand_up(client, f, slots).len() as u64,
        None => 0,
    }
}
