// A datagram on its way, and as the transcript tells of it.
use crate::line::Decimal;
use pdu::Kind;
use std::fmt;
use words::PDU_SIZE;

// A datagram on its way: a copy, so the sender's buffer is free again.
// An array and a length: a Vec needs a heap, whose functions would be assumed.
#[derive(Clone, Copy)]
pub(crate) struct Datagram {
    buffer: [u8; PDU_SIZE],
    length: usize,
}

impl Datagram {
    // Nothing was sent yet.
    pub(crate) fn none() -> Datagram {
        Datagram {
            buffer: [0; PDU_SIZE],
            length: 0,
        }
    }

    // Keeps a copy of this PDU.
    pub(crate) fn keep(&mut self, pdu: &[u8]) {
        words::put(&mut self.buffer, 0, pdu);
        self.length = pdu.len();
    }

    pub(crate) fn bytes(&self) -> &[u8] {
        words::first(&self.buffer, self.length)
    }
}

// A PDU by its type, with the number of the fragment that a request or a response is, or with what a fack
// tells: the last fragment that its sender holds without a gap, if any, and the mask of those behind it.
#[derive(Clone, Copy, Debug, PartialEq, Eq)]
pub(crate) enum Pdu {
    Request(u16),
    Ping,
    Response(u16),
    Fault,
    Working,
    Nocall,
    Reject,
    Ack,
    Cancel,
    Fack(Option<u16>, u32),
    CancelAck,
    // The reader refuses it.
    Unreadable,
}

impl Pdu {
    // What the datagram is.
    pub(crate) fn read(datagram: &[u8]) -> Pdu {
        let Ok(read) = reader::read(datagram) else {
            return Pdu::Unreadable;
        };
        let fragment = read.header.fragment;
        match Kind::try_from(read.header.kind) {
            Ok(Kind::Request) => Pdu::Request(fragment),
            Ok(Kind::Ping) => Pdu::Ping,
            Ok(Kind::Response) => Pdu::Response(fragment),
            Ok(Kind::Fault) => Pdu::Fault,
            Ok(Kind::Working) => Pdu::Working,
            Ok(Kind::Nocall) => Pdu::Nocall,
            Ok(Kind::Reject) => Pdu::Reject,
            Ok(Kind::Ack) => Pdu::Ack,
            Ok(Kind::Cancel) => Pdu::Cancel,
            Ok(Kind::Fack) => Pdu::fack(fragment, reader::body(datagram), read.little),
            Ok(Kind::CancelAck) => Pdu::CancelAck,
            Err(_) => Pdu::Unreadable,
        }
    }

    // A fack; its number is 65535 where fragment 0 is missing.
    fn fack(number: u16, body: &[u8], little: bool) -> Pdu {
        let last = Some(number).filter(|&number| number != u16::MAX);
        let mask = bodies::read_fack(body, little).map_or(0, |fack| fack.mask);
        Pdu::Fack(last, mask)
    }
}

impl fmt::Display for Pdu {
    fn fmt<W: fmt::Write>(&self, f: &mut fmt::Formatter<W>) -> fmt::Result {
        match *self {
            Pdu::Request(fragment) => write!(f, "request   {}", Decimal(fragment.into())),
            Pdu::Ping => f.write_str("ping"),
            Pdu::Response(fragment) => write!(f, "response  {}", Decimal(fragment.into())),
            Pdu::Fault => f.write_str("fault"),
            Pdu::Working => f.write_str("working"),
            Pdu::Nocall => f.write_str("nocall"),
            Pdu::Reject => f.write_str("reject"),
            Pdu::Ack => f.write_str("ack"),
            Pdu::Cancel => f.write_str("cancel"),
            Pdu::Fack(Some(last), mask) => {
                write!(
                    f,
                    "fack      {:<2}{}",
                    Decimal(last.into()),
                    Decimal(mask.into())
                )
            }
            Pdu::Fack(None, mask) => write!(f, "fack      - {}", Decimal(mask.into())),
            Pdu::CancelAck => f.write_str("cancel_ack"),
            Pdu::Unreadable => f.write_str("unreadable"),
        }
    }
}
