// A record of either side in 272 bytes of one layout, and back. Both sides have the same fields at the
// same places; client_bytes and server_bytes say which of them a side's record has.
#![tactic(auto, unfolding(crate::specs::Parts::timer_where, crate::specs::Parts::count_where, crate::specs::Held::length_where, words::specs::Choice::choose, words::specs::Choice::mark_of))]

mod decoding;

ghost use Rattle.std.specs.Prelude.{◌≡◌};
ghost use Rattle.words.specs.Place.{placed};
ghost use Rattle.record_bytes.specs.Parts.{timer_where, is_armed, timer_ticket, uuid_in, count_where};
ghost use Rattle.record_bytes.specs.Held.{length_where, slot_bytes, slots_bytes};
ghost use Rattle.record_bytes.specs.Layout.{record_front, record_numbers, mark_bytes, record_back, field_bytes};

use calls::Call;
pub use decoding::decode;
use incoming::{Incoming, Slot, Slots};
use outgoing::Outgoing;
use timers::Timer;
use words::WINDOW_SIZE;

// How many bytes a record has.
pub const SIZE: usize = 272;

// What the bytes of a record hold.
#[derive(Clone, Copy)]
pub struct Fields {
    pub state: u8,
    // The WAIT count of a client, the RESEND count of a server.
    pub count: u8,
    // A count that only a client has, its resends; 0 at a server.
    pub extra: u8,
    pub activity: [u8; 16],
    pub number: u32,
    // The boot of a server; 0 at a client.
    pub boot: u32,
    pub call: Call,
    pub outgoing: Outgoing,
    pub incoming: Incoming,
    pub tickets: u64,
    // The WAIT timer of a client, the RESEND timer of a server.
    pub timer: Timer,
    // Whether the ACK timer of a client is armed; false at a server. No Timer with its ticket, since at a
    // server a status stands in the ticket's place: the layout is one for both sides (`fields_in`).
    pub armed: bool,
    // The ticket of a client's ACK timer, the status of a server's fault.
    pub word: u64,
    // The CANCEL timer of a client; off at a server.
    pub cancel: Timer,
    // The cancel number of a client, the one last seen of a server.
    pub cancels: u32,
}

// What the bytes of a record hold, with what a side needs to tell whether they are readable. No Option or
// Result: bytes that are not readable stand for a record too, which each event refuses with 2 (`decoded_in`).
#[derive(Clone, Copy)]
pub struct Decoded {
    // Whether they are, but for what is the side's own.
    pub readable: bool,
    // The marks of the second and the third timer, and the ticket of the third, as they stand.
    pub second: u8,
    pub third: u8,
    pub ticket: u64,
    pub fields: Fields,
}

// The timer with that ticket, where it is armed.
pub fn timer_where(armed: bool, ticket: u64) -> Timer
    ensures { result ≡ timer_where armed ticket }
{
    armed.then_some(ticket)
}

// Whether a timer is armed.
pub fn is_armed(timer: Timer) -> bool
    ensures { result ≡ is_armed timer }
{
    timer.is_some()
}

// The ticket of a timer, 0 where none is armed.
pub fn timer_ticket(timer: Timer) -> u64
    ensures { result ≡ timer_ticket timer }
{
    timer.unwrap_or(0)
}

// The UUID that stands in s at `at`.
#[tactic(auto, using(crate::proofs::NumberBytes::read_uuid))]
pub fn uuid(s: &[u8], at: usize) -> [u8; 16]
    ensures { result ≡ uuid_in s.now at }
{
    words::part(s, at)
}

// A count, where bytes are readable; else one that no record may have, so that its rules are broken.
pub fn count_where(readable: bool, count: u8) -> u8
    ensures { result ≡ count_where readable count }
{
    if readable { count } else { 255 }
}

// The length of a slot: 0 where the fragment is missing.
fn length_where(held: bool, length: u16) -> u16
    ensures { result ≡ length_where held length }
{
    if held { length } else { 0 }
}

// The four bytes of a slot; a missing fragment has length 0.
fn slot_bytes(held: bool, length: u16) -> [u8; 4]
    ensures { result ≡ slot_bytes held length }
{
    let [low, high] = length_where(held, length).to_le_bytes();
    [low, high, u8::from(held), 0]
}

// The 128 bytes of the slots. They come by value: behind a reference this takes twice the instructions.
fn slots_bytes(slots: Slots) -> [u8; 128]
    ensures { result ≡ slots_bytes slots }
{
    let mut bytes = [0; 128];
    for f in 0..slots.len() {
        let slot = slots[f];
        words::put(&mut bytes, 4 * f, &slot_bytes(slot.held, slot.length));
    }
    bytes
}

// Bytes 0 to 15.
// 65535 for no known last is the layout's (last_field).
fn front(f: &Fields) -> [u8; 16]
    ensures { result
        ≡ record_front f.now.state f.now.count f.now.extra f.now.call f.now.outgoing f.now.incoming.last }
{
    let mut bytes = [0; 16];
    bytes[..4].copy_from_slice(&[f.state, u8::from(f.call.idempotent), f.count, f.extra]);
    bytes[4..6].copy_from_slice(&f.outgoing.count.to_le_bytes());
    bytes[6..8].copy_from_slice(&f.outgoing.sent.to_le_bytes());
    bytes[8..10].copy_from_slice(&f.outgoing.acknowledged.to_le_bytes());
    bytes[10..12].copy_from_slice(&f.incoming.last.unwrap_or(65535).to_le_bytes());
    bytes[12..14].copy_from_slice(&f.outgoing.serial.to_le_bytes());
    bytes[14..].copy_from_slice(&f.call.operation.to_le_bytes());
    bytes
}

// Bytes 16 to 31.
fn numbers(f: &Fields) -> [u8; 16]
    ensures { result ≡ record_numbers f.now.number f.now.call.version f.now.outgoing.length f.now.boot }
{
    let mut bytes = [0; 16];
    bytes[..4].copy_from_slice(&f.number.to_le_bytes());
    bytes[4..8].copy_from_slice(&f.call.version.to_le_bytes());
    bytes[8..12].copy_from_slice(&f.outgoing.length.to_le_bytes());
    bytes[12..].copy_from_slice(&f.boot.to_le_bytes());
    bytes
}

// Bytes 64 to 67: whether each timer is armed, and a spare byte.
fn marks(f: &Fields) -> [u8; 4]
    ensures { result ≡ mark_bytes f.now.timer f.now.armed f.now.cancel }
{
    [
        u8::from(f.timer.is_some()),
        u8::from(f.armed),
        u8::from(f.cancel.is_some()),
        0,
    ]
}

// Bytes 56 to 95: the ticket of CANCEL, the marks, the cancel number, spare bytes.
fn back(f: &Fields) -> [u8; 40]
    ensures { result ≡ record_back f.now.timer f.now.armed f.now.cancel f.now.cancels }
{
    let mut bytes = [0; 40];
    bytes[..8].copy_from_slice(&timer_ticket(f.cancel).to_le_bytes());
    bytes[8..12].copy_from_slice(&marks(f));
    bytes[12..16].copy_from_slice(&f.cancels.to_le_bytes());
    bytes
}

// Lays the 272 bytes of a record down; where they do not fit, the buffer stays as it was.
// An array goes in by a variable: else there is no proof.
pub fn encode(f: Fields, out: &mut [u8])
    ensures { out.new ≡ placed 0 (field_bytes f) out.old }
{
    if out.len() < SIZE {
        return;
    }
    words::put(out, 0, &front(&f));
    words::put(out, 16, &numbers(&f));
    words::put(out, 32, &f.tickets.to_le_bytes());
    words::put(out, 40, &timer_ticket(f.timer).to_le_bytes());
    words::put(out, 48, &f.word.to_le_bytes());
    words::put(out, 56, &back(&f));
    words::put(out, 96, &f.activity);
    words::put(out, 112, &f.call.object);
    words::put(out, 128, &f.call.interface);
    let slots = f.incoming.slots;
    words::put(out, 144, &slots_bytes(slots));
}
