// The message being sent: its cut into fragments, how far it is sent and acknowledged, and the sender's serial.
#![tactic(auto, unfolding(crate::specs::Message::fragments, crate::specs::Message::fragment_of, crate::specs::Message::flags_of, crate::specs::Lent::same_message, crate::specs::Lent::transmit_lent, crate::specs::Sending::next_serial, crate::specs::Sending::sent_more, crate::specs::Sending::in_field, crate::specs::Sending::after_send, crate::specs::Sending::sends_last, crate::specs::Sending::after_ping, crate::specs::Sending::acknowledged_to, crate::specs::Sending::first_to_send, crate::specs::Sending::rewound, crate::specs::Sending::message_of, crate::specs::Sending::started_message, crate::specs::Sending::replied, crate::specs::Sending::no_message, crate::specs::Sending::bounded, crate::specs::Sending::has_message, crate::specs::Sending::has_nothing, words::specs::Choice::both, words::specs::Choice::either, words::specs::Choice::choose))]

ghost use Rattle.std.specs.Prelude.{◌≡◌};
ghost use Rattle.outgoing.specs.Message.{fragments, fragment_of, flags_of};
ghost use Rattle.outgoing.specs.Lent.{same_message, transmit_lent};
ghost use Rattle.outgoing.specs.Sending.{next_serial, sent_more, in_field, after_send, sends_last, after_ping, acknowledged_to, first_to_send, rewound, message_of, started_message, replied, no_message, bounded, has_message, has_nothing};

use flags::{FRAGMENT, LAST_FRAGMENT};
use words::{BODY_SIZE, MESSAGE_SIZE, PDU_SIZE};

// Length and fragment count of the message; sent is the next fragment to send, so also how many are sent.
#[derive(Clone, Copy)]
pub struct Outgoing {
    pub length: u32,
    pub count: u16,
    pub sent: u16,
    pub acknowledged: u16,
    pub serial: u16,
}

// How many fragments a message of this length has.
fn fragments(length: u32) -> u32
    ensures { result ≡ fragments length }
{
    length.saturating_sub(1) / BODY_SIZE as u32 + 1
}

// The part of a message that is its fragment f; an empty part where there is none.
#[tactic(auto, using(crate::proofs::OutgoingLaws::fragment_within))]
pub fn fragment(message: &[u8], f: u16) -> &[u8]
    ensures { result.now ≡ fragment_of message.now f }
{
    let size = message.len();
    let from = BODY_SIZE * usize::from(f);
    let to = from + BODY_SIZE;
    &message[from.min(size)..to.min(size)]
}

// flags1 of fragment f of a message of `count` fragments.
pub fn flags(count: u16, f: u16) -> u8
    ensures { result ≡ flags_of count f }
{
    if count == 1 {
        return 0;
    }
    let is_last = u32::from(f) + 1 == u32::from(count);
    flags::with(FRAGMENT, LAST_FRAGMENT, is_last)
}

// The serial of the next request, response or ping.
fn next_serial(serial: u16) -> u16
    ensures { result ≡ next_serial serial }
{
    serial.wrapping_add(1)
}

// One more is sent; 65535, which no sound record has, stays.
fn sent_more(sent: u16) -> u16
    ensures { result ≡ sent_more sent }
{
    sent.saturating_add(1)
}

// After the next fragment is sent.
pub fn after_send(o: Outgoing) -> Outgoing
    ensures { result ≡ after_send o }
{
    Outgoing {
        sent: sent_more(o.sent),
        serial: next_serial(o.serial),
        ..o
    }
}

// Whether the next fragment to send is the message's last.
pub fn sends_last(o: Outgoing) -> bool
    ensures { result ≡ sends_last o }
{
    u32::from(o.sent) + 1 == u32::from(o.count)
}

// The next ping is sent: the serial goes up.
pub fn after_ping(o: Outgoing) -> Outgoing
    ensures { result ≡ after_ping o }
{
    Outgoing {
        serial: next_serial(o.serial),
        ..o
    }
}

// After a fack for the first `count` fragments.
pub fn acknowledge(o: Outgoing, count: u16) -> Outgoing
    ensures { result ≡ acknowledged_to o count }
{
    Outgoing {
        acknowledged: o.acknowledged.max(count),
        ..o
    }
}

// The first unacknowledged fragment, or 0 if none.
fn first_to_send(acknowledged: u16, count: u16) -> u16
    ensures { result ≡ first_to_send acknowledged count }
{
    if acknowledged < count {
        acknowledged
    } else {
        0
    }
}

// The message goes out again, from the first unacknowledged fragment, or 0 if none.
pub fn rewind(o: Outgoing) -> Outgoing
    ensures { result ≡ rewound o }
{
    Outgoing {
        sent: first_to_send(o.acknowledged, o.count),
        ..o
    }
}

// A fragment count as the record keeps it; more than 65535, which no message has, counts as 65535.
fn counted(count: u32) -> u16
    ensures { result ≡ in_field count }
{
    u16::try_from(count).unwrap_or(u16::MAX)
}

// A message of this length, of which nothing is sent or acknowledged.
fn message_of(length: u32, serial: u16) -> Outgoing
    ensures { result ≡ message_of length serial }
{
    Outgoing {
        length,
        count: counted(fragments(length)),
        sent: 0,
        acknowledged: 0,
        serial,
    }
}

// A call starts: its serial starts at 0.
pub fn start(length: u32) -> Outgoing
    ensures { result ≡ started_message length }
{
    message_of(length, 0)
}

// A reply is given: the serial goes on.
pub fn reply(o: Outgoing, length: u32) -> Outgoing
    ensures { result ≡ replied o length }
{
    message_of(length, o.serial)
}

// No message is out.
pub fn nothing(serial: u16) -> Outgoing
    ensures { result ≡ no_message serial }
{
    Outgoing {
        length: 0,
        count: 0,
        sent: 0,
        acknowledged: 0,
        serial,
    }
}

// Whether sent and acknowledged are at most the fragment count.
pub fn is_bounded(o: Outgoing) -> bool
    ensures { result ≡ bounded o }
{
    o.sent <= o.count && o.acknowledged <= o.count
}

// Whether the fragment count is the message length's, as it must be where a message is out.
pub fn has_message(o: Outgoing) -> bool
    ensures { result ≡ has_message o }
{
    o.length <= MESSAGE_SIZE && u32::from(o.count) == fragments(o.length)
}

// Whether the fragment count is 0, as it must be where no message is out.
pub fn has_nothing(o: Outgoing) -> bool
    ensures { result ≡ has_nothing o }
{
    o.count == 0
}

// Whether the message lent at a transmit has the length of the one being sent, where transmit has a row.
fn is_same_message(sending: bool, message: usize, length: u32) -> bool
    ensures { result ≡ same_message sending message length }
{
    !sending || message == length as usize
}

// Whether what is lent at a transmit is right: the PDU buffer and the message, whose length the record has where it is
// sending.
pub fn is_transmit_lent(sending: bool, message: usize, length: u32, out: usize) -> bool
    ensures { result ≡ transmit_lent sending message length out }
{
    out == PDU_SIZE && message <= MESSAGE_SIZE as usize && is_same_message(sending, message, length)
}
