// What every event, the reader and the writer answer: document 01's "Numbers answered".
#![tactic(auto)]

ghost use Rattle.std.specs.Prelude.{◌≡◌};
ghost use Rattle.answers.specs.Number.{refusal_number, number_of};

#[derive(Clone, Copy)]
pub enum Refusal {
    // a lent buffer of the wrong length, or a message over 44,544 bytes
    WrongLength = 1,
    // the record breaks its rules
    BrokenRecord = 2,
    // a datagram under 80 bytes
    ShortDatagram = 3,
    // the version is not 4
    WrongVersion = 4,
    // a type above 10
    UnknownType = 5,
    // another data representation
    UnknownRepresentation = 6,
    // the authentication is not 0
    Authenticated = 7,
    // a body length over 1,392, or a datagram that is not 80 bytes and its body
    WrongBodyLength = 8,
    // another activity
    OtherActivity = 9,
    // a type that is not for this side
    WrongSide = 10,
    // a request with maybe or broadcast
    MaybeOrBroadcast = 11,
    // a request or response with a fragment number above 31, or a lone one with a number other than 0
    WrongFragment = 12,
    // an old call
    OldCall = 13,
    // a malformed body of a fault, reject, cancel, fack or cancel_ack
    MalformedBody = 14,
    // the state has no row for the event
    NoRow = 15,
    // a fragment already held, or a repeated request or ping
    Repeated = 16,
    // a contradiction
    Contradiction = 17,
    // a late timer
    LateTimer = 18,
    // a start after the last call number
    NumbersUsedUp = 19,
    // a timer to arm after the last ticket
    TicketsUsedUp = 20,
}

// Done, or refused with why.
pub type Answer = Result<(), Refusal>;

// The number of a refusal, 1 to 20.
fn refusal_number(refusal: Refusal) -> u8
    ensures { result ≡ refusal_number refusal }
{
    refusal as u8
}

// The number of an answer: 0 for done.
pub fn number(answer: Answer) -> u8
    ensures { result ≡ number_of answer }
{
    match answer {
        Ok(()) => 0,
        Err(refusal) => refusal_number(refusal),
    }
}
