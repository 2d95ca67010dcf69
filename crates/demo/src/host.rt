// What the hosts of both sides do alike.
use crate::datagram::Pdu;
use crate::line::{Decimal, Line};
use crate::network::{Fate, Network};
use crate::transcript::{Armed, Told};
use answers::Answer;
use calls::{Notice, Sent};
use std::fmt::{self, Display};
use words::{MESSAGE_SIZE, WINDOW_SIZE};

// The side of the call at which something happens.
#[derive(Clone, Copy, Debug, PartialEq, Eq)]
pub(crate) enum Side {
    Client,
    Server,
}

impl Display for Side {
    fn fmt<W: fmt::Write>(&self, f: &mut fmt::Formatter<W>) -> fmt::Result {
        f.write_str(match self {
            Side::Client => "client",
            Side::Server => "server",
        })
    }
}

// The memory that a host lends, for the library has none of its own: the message that its side sends, the
// slot buffer for what arrives, and the PDU buffer for what is sent.
#[derive(Drop)]
pub(crate) struct Memory<'a> {
    pub message: &'a [u8],
    pub slots: &'a mut [u8],
    pub pdu: &'a mut [u8],
}

impl Memory<'_> {
    // The PDU that an event sent.
    fn sent(&self, sent: Sent) -> Option<&[u8]> {
        sent?;
        Some(calls::sent_bytes(sent, self.pdu))
    }
}

// What an event gave back beside the record.
// As the library's Outcome has it: the line of a refused event has these columns too.
#[derive(Clone, Copy)]
pub(crate) struct Given {
    pub answer: Answer,
    pub sent: Sent,
    pub notice: Notice,
}

// A host: a record of the library, a timer for each that the record arms, and the memory that it lends.
pub(crate) trait Host {
    // What happens at this side.
    type Event: Display;

    // Which side it is.
    const SIDE: Side;

    // What comes to it.
    const COMES: &'static str;

    // What its stub is told when all of that can be taken.
    const TOLD: &'static str;

    // The memory that this host lends.
    fn memory(&self) -> &Memory<'_>;

    // The event of that number, called of the library. The record is kept whatever the answer was: a
    // refusal gives it back as it was.
    fn call(&mut self, event: &Self::Event, number: u64) -> Given;

    // The name of the record's state.
    fn state(&self) -> &'static str;

    // The timer that the record has armed.
    fn armed(&self) -> Armed;

    // Why the event did what it did, told after it.
    fn reason(&self, event: &Self::Event, given: Given) -> &'static str;

    // How often the stub was told so.
    fn times_told(&self) -> u32;

    // The part of the slot buffer that is this fragment of the message that came, where it can be taken.
    fn hand_up(&self, fragment: u16) -> &[u8];
}

// What both sides tell alike of what an event gave: the answer, the PDU sent, with what the network does with it,
// and the notice.
fn put_given(line: &mut Line, given: Given, sent: Option<(Pdu, Fate)>) {
    let answer = answers::number(given.answer);
    line.column(Decimal(answer.into()), 7);
    match sent {
        None => line.column("-", 21),
        Some((pdu, fate)) => {
            line.column(pdu, 15);
            line.column(fate, 6);
        }
    }
    line.column(Told(given.notice), 9);
}

// The event of that number at a host, and its line of the transcript. What was sent goes to the network at
// once: the next event writes over the PDU buffer.
pub(crate) fn turn<H: Host>(host: &mut H, event: &H::Event, number: u64, network: &mut Network) {
    let given = host.call(event, number);
    let sent = host.memory().sent(given.sent);
    let sent = sent.map(|pdu| (Pdu::read(pdu), network.send(H::SIDE, pdu)));
    let mut line = Line::empty();
    line.column(Decimal(number), 4);
    line.column(H::SIDE, 7);
    line.column(event, 18);
    put_given(&mut line, given, sent);
    line.column(host.state(), 16);
    line.column(host.armed(), 10);
    line.put(host.reason(event, given));
    line.print();
}

// What a host handed up, against what the other sent, and how often its stub was told to take it. A stub that
// does not need the message in one piece reads the parts where they lie. It is called and not inlined, so that
// the message is on the stack at the end alone.
#[inline(never)]
pub(crate) fn report<H: Host>(host: &H, sent: &[u8]) {
    let mut message = [0; MESSAGE_SIZE as usize];
    let mut length = 0;
    for fragment in 0..WINDOW_SIZE {
        length = lines::put_text(&mut message, length, host.hand_up(fragment));
    }
    let taken = words::first(&message, length);
    let verdict = if taken == sent { "equal" } else { "DIFFERENT" };
    let mut line = Line::empty();
    line.put(format_args!(
        "{:<9}{} of {} bytes handed up, {verdict}; {}: {}",
        H::COMES,
        Decimal(taken.len() as u64),
        Decimal(sent.len() as u64),
        H::TOLD,
        Decimal(host.times_told().into())
    ));
    line.print();
}
