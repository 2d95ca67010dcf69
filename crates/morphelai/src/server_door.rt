// The server's exported functions.
// One function for each name that C calls, with C's parameters; what both sides do alike is in record.
#![tactic(auto, unfolding(crate::specs::Result::result_of, crate::specs::Export::sized, crate::specs::Export::refusing, crate::specs::Export::other_kind, crate::specs::ServerDoor::server_result, crate::specs::ServerDoor::server_kept, crate::specs::ServerDoor::server_fresh, crate::specs::ServerDoor::server_arrive, crate::specs::ServerDoor::server_transmit, crate::specs::ServerDoor::server_timing, crate::specs::ServerDoor::server_timer, crate::specs::ServerDoor::server_reply, crate::specs::ServerDoor::server_fault, crate::specs::ServerDoor::server_part, words::specs::Choice::choose, words::specs::Choice::both))]

ghost use Rattle.std.specs.Prelude.{◌≡◌, []};
ghost use Rattle.morphelai.specs.Export.{Exported};
ghost use Rattle.morphelai.specs.ServerDoor.{server_fresh, server_arrive, server_transmit, server_timer, server_reply, server_fault, server_part};

use crate::{record, result};
use server::Server;

// Makes a fresh record of an activity, whose first ticket is one more than this.
pub fn morphelai_server_fresh(bytes: &mut [u8], activity: &[u8], boot: u32, tickets: u64) -> u64
    ensures { Exported (server_fresh bytes.old activity.now boot tickets)
        result bytes.new [] [] }
{
    if bytes.len() != record_bytes::SIZE || activity.len() != 16 {
        return 1;
    }
    let fresh = server::fresh(record_bytes::uuid(activity, 0), boot, tickets);
    server_bytes::encode(fresh, bytes);
    0
}

// Transmit: the next fragment of the lent message.
pub fn morphelai_server_transmit(bytes: &mut [u8], message: &[u8], out: &mut [u8]) -> u64
    ensures { Exported (server_transmit bytes.old message.now out.old)
        result bytes.new [] out.new }
{
    let Some(server) = record::lent::<Server>(bytes) else {
        return 1;
    };
    record::given(server::transmit(server, message, out), bytes)
}

// An arriving datagram.
pub fn morphelai_server_arrive(
    bytes: &mut [u8],
    datagram: &[u8],
    slots: &mut [u8],
    out: &mut [u8],
) -> u64
    ensures { Exported (server_arrive bytes.old datagram.now slots.old out.old)
        result bytes.new slots.new out.new }
{
    let Some(server) = record::lent::<Server>(bytes) else {
        return 1;
    };
    record::given(server::arrive(server, datagram, slots, out), bytes)
}

// The timer of this kind that ran out, with its ticket: 3 is RESEND.
pub fn morphelai_server_timer(bytes: &mut [u8], kind: u8, ticket: u64, out: &mut [u8]) -> u64
    ensures { Exported (server_timer bytes.old kind ticket out.old)
        result bytes.new [] out.new }
{
    let Some(server) = record::lent::<Server>(bytes) else {
        return 1;
    };
    if kind != 3 {
        return result::other_timer(server::is_sound(server), out.len());
    }
    record::given(server::timer(server, ticket, out), bytes)
}

// Reply: a message of this length for the call that is running.
pub fn morphelai_server_reply(bytes: &mut [u8], length: u32) -> u64
    ensures { Exported (server_reply bytes.old length) result bytes.new [] [] }
{
    let Some(server) = record::lent::<Server>(bytes) else {
        return 1;
    };
    record::given(server::reply(server, length), bytes)
}

// Fault: the call that is running fails with this status.
pub fn morphelai_server_fault(bytes: &mut [u8], status: u32, out: &mut [u8]) -> u64
    ensures { Exported (server_fault bytes.old status out.old)
        result bytes.new [] out.new }
{
    let Some(server) = record::lent::<Server>(bytes) else {
        return 1;
    };
    record::given(server::fault(server, status, out), bytes)
}

// How long the part of the slot buffer is that is fragment f of what was received.
pub fn morphelai_server_part(bytes: &[u8], f: u16, slots: &[u8]) -> u64
    ensures { result ≡ server_part bytes.now f slots.now }
{
    match record::lent::<Server>(bytes) {
        Some(server) => server::hand_up(server, f, slots).len() as u64,
        None => 0,
    }
}
