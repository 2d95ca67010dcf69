// What stands in the bytes of a record. Their length is looked at once, and from there on it stands in their type: so
// every place is known to be there, and nothing is tested byte by byte.
#![tactic(auto, using(crate::proofs::NumberBytes::read_two, crate::proofs::NumberBytes::read_four, crate::proofs::NumberBytes::read_eight, crate::proofs::NumberBytes::read_uuid, crate::proofs::NumberLaws::clear_number), unfolding(crate::specs::Parts::timer_where, crate::specs::Parts::last_of, crate::specs::Held::length_where, crate::specs::Held::slot_of, crate::specs::Layout::last_readable, crate::specs::Layout::marks_readable, crate::specs::Layout::spares_readable, crate::specs::Layout::readable, crate::specs::Layout::call_in, crate::specs::Layout::outgoing_in, crate::specs::Layout::incoming_in, crate::specs::Layout::fields_in, crate::specs::Layout::decoded_in, words::specs::Choice::choose, words::specs::Choice::both, words::specs::Choice::either))]

ghost use Rattle.std.specs.Prelude.{◌≡◌, ◌+◌, ◌≤◌, ◌<◌, eqb, get_or, drop, replicate};
ghost use Rattle.words.specs.Number.{part};
ghost use Rattle.words.specs.Place.{placed};
ghost use Rattle.words.specs.Sizes.{window_size};
ghost use Rattle.record_bytes.specs.Parts.{timer_in, last_of, clear};
ghost use Rattle.record_bytes.specs.Held.{slot_in, slots_in, slot_readable, slots_readable};
ghost use Rattle.record_bytes.specs.Layout.{record_size, last_readable, marks_readable, spares_readable, readable, call_in, outgoing_in, incoming_in, fields_in, decoded_in};

use crate::{Decoded, Fields, SIZE};
use calls::Call;
use incoming::{Incoming, Last, Slot, Slots};
use outgoing::Outgoing;
use std::array;
use timers::Timer;
use words::WINDOW_SIZE;

// The N bytes that stand in a record at `at`.
// Beside words::part, which would ask for the length at each read: slower.
fn part<const N: usize>(s: &[u8; SIZE], at: usize) -> [u8; N]
    requires { at + N ≤ record_size }
    ensures { result ≡ part N s.now at }
{
    let mut bytes = [0; N];
    bytes.copy_from_slice(&s[at..at + N]);
    bytes
}

// Whether the four bytes of a slot say that it is held: its third is 1, whatever its fourth is.
fn is_held(bytes: [u8; 4]) -> bool
    ensures { result ≡ eqb (get_or bytes 2 0) 1 }
{
    let [_, _, mark, _] = bytes;
    mark == 1
}

// Slot f: four bytes, length u16, held u8 and a spare byte.
fn slot(s: &[u8; SIZE], f: usize) -> Slot
    requires { f < window_size }
    ensures { result ≡ slot_in (drop 144 s.now) f }
{
    let bytes = part::<4>(s, 144 + 4 * f);
    let held = is_held(bytes);
    let [low, high, _, _] = bytes;
    let length = crate::length_where(held, u16::from_le_bytes([low, high]));
    Slot { held, length }
}

// All slots.
fn slots(s: &[u8; SIZE]) -> Slots
    ensures { result ≡ slots_in (drop 144 s.now) }
{
    array::from_fn(|f| slot(s, f))
}

// Whether slot f's held byte is 0 or 1 and its spare byte 0: all four as one number are below 2 * 65,536.
fn is_slot_readable(s: &[u8; SIZE], f: usize) -> bool
    requires { f < window_size }
    ensures { result ≡ slot_readable (drop 144 s.now) f }
{
    u32::from_le_bytes(part(s, 144 + 4 * f)) < 131072
}

// Whether each slot is readable. The loop has no early end: so several slots are tested at once.
fn are_slots_readable(s: &[u8; SIZE]) -> bool
    ensures { result ≡ slots_readable (drop 144 s.now) }
{
    let mut all = true;
    for f in 0..WINDOW_SIZE as usize {
        all &= is_slot_readable(s, f);
    }
    all
}

// Whether the known last is unknown, or fits a byte.
// 65535 for none is the layout's (last_field).
fn is_last_readable(number: u16) -> bool
    ensures { result ≡ last_readable number }
{
    number < 256 || number == 65535
}

// Whether the marks idempotent, first, second and third armed are 0 or 1.
fn are_marks_readable(idempotent: u8, first: u8, second: u8, third: u8) -> bool
    ensures { result ≡ marks_readable idempotent first second third }
{
    idempotent <= 1 && first <= 1 && second <= 1 && third <= 1
}

// Whether eight bytes that stand in a record at `at` are 0.
fn is_clear(s: &[u8; SIZE], at: usize) -> bool
    requires { at + 8 ≤ record_size }
    ensures { result ≡ clear 8 (drop at s.now) }
{
    u64::from_le_bytes(part(s, at)) == 0
}

// Whether the places that are spare on both sides are 0: 67, and 72 to 95.
#[tactic(auto, using(crate::proofs::NumberLaws::spares_clear), unfolding(crate::specs::Layout::spares_readable, words::specs::Choice::choose, words::specs::Choice::both))]
fn are_spares_readable(s: &[u8; SIZE]) -> bool
    ensures { result ≡ spares_readable s.now }
{
    s[67] == 0 && is_clear(s, 72) && is_clear(s, 80) && is_clear(s, 88)
}

// Whether bytes are readable as a record of either side, but for what is the side's own.
fn is_readable(s: &[u8; SIZE]) -> bool
    ensures { result ≡ readable s.now }
{
    are_marks_readable(s[1], s[64], s[65], s[66])
        && is_last_readable(u16::from_le_bytes(part(s, 10)))
        && are_spares_readable(s)
        && are_slots_readable(s)
}

// The call that stands in a record.
fn call(s: &[u8; SIZE]) -> Call
    ensures { result ≡ call_in s.now }
{
    Call {
        idempotent: s[1] == 1,
        object: part(s, 112),
        interface: part(s, 128),
        version: u32::from_le_bytes(part(s, 20)),
        operation: u16::from_le_bytes(part(s, 14)),
    }
}

// The message sent.
fn outgoing(s: &[u8; SIZE]) -> Outgoing
    ensures { result ≡ outgoing_in s.now }
{
    Outgoing {
        length: u32::from_le_bytes(part(s, 24)),
        count: u16::from_le_bytes(part(s, 4)),
        sent: u16::from_le_bytes(part(s, 6)),
        acknowledged: u16::from_le_bytes(part(s, 8)),
        serial: u16::from_le_bytes(part(s, 12)),
    }
}

// The known last of its number; 65535 for none is the layout's (last_field).
fn last(number: u16) -> Last
    ensures { result ≡ last_of number }
{
    (number != 65535).then_some(number)
}

// The message received.
fn incoming(s: &[u8; SIZE]) -> Incoming
    ensures { result ≡ incoming_in s.now }
{
    Incoming {
        slots: slots(s),
        last: last(u16::from_le_bytes(part(s, 10))),
    }
}

// The timer whose mark and ticket stand in a record at these places.
fn timer_at(s: &[u8; SIZE], mark: usize, ticket: usize) -> Timer
    requires mark_in_bounds { mark < record_size }
    requires ticket_in_bounds { ticket + 8 ≤ record_size }
    ensures { result ≡ timer_in s.now mark ticket }
{
    crate::timer_where(s[mark] == 1, u64::from_le_bytes(part(s, ticket)))
}

// What stands in the bytes of a record.
fn fields(s: &[u8; SIZE]) -> Fields
    ensures { result ≡ fields_in s.now }
{
    Fields {
        state: s[0],
        count: s[2],
        extra: s[3],
        activity: part(s, 96),
        number: u32::from_le_bytes(part(s, 16)),
        boot: u32::from_le_bytes(part(s, 28)),
        call: call(s),
        outgoing: outgoing(s),
        incoming: incoming(s),
        tickets: u64::from_le_bytes(part(s, 32)),
        timer: timer_at(s, 64, 40),
        armed: s[65] == 1,
        word: u64::from_le_bytes(part(s, 48)),
        cancel: timer_at(s, 66, 56),
        cancels: u32::from_le_bytes(part(s, 68)),
    }
}

// All that is read of the bytes of a record.
fn decoded(s: &[u8; SIZE]) -> Decoded
    ensures { result ≡ decoded_in s.now }
{
    Decoded {
        readable: is_readable(s),
        second: s[65],
        third: s[66],
        ticket: u64::from_le_bytes(part(s, 56)),
        fields: fields(s),
    }
}

// Fewer bytes than a record has, with zeros behind them.
fn padded(s: &[u8]) -> [u8; SIZE]
    ensures { result ≡ placed 0 s.now (replicate record_size 0) }
{
    let mut bytes = [0; SIZE];
    words::put(&mut bytes, 0, s);
    bytes
}

// All that is read of bytes; those that are not there count as 0.
pub fn decode(s: &[u8]) -> Decoded
    ensures { result ≡ decoded_in s.now }
{
    match s.first_chunk() {
        Some(bytes) => decoded(bytes),
        None => decoded(&padded(s)),
    }
}
