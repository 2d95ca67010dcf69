// The types of a PDU.
ghost use Rattle.std.specs.Prelude.{◌≡◌};
ghost use Rattle.pdu.specs.Kind.{kind_number, Names};

use answers::Refusal;

// The type of a PDU, in the order of their numbers.
#[derive(Clone, Copy, PartialEq, Eq, Debug)]
pub enum Kind {
    Request = 0,
    Ping = 1,
    Response = 2,
    Fault = 3,
    Working = 4,
    Nocall = 5,
    Reject = 6,
    Ack = 7,
    Cancel = 8,
    Fack = 9,
    CancelAck = 10,
}

impl From<Kind> for u8 {
    ghost from_gives = { λ kind n. n ≡ kind_number kind };

    // Its number, as it stands in a header.
    fn from(kind: Kind) -> u8 {
        kind as u8
    }
}

impl TryFrom<u8> for Kind {
    type Error = Refusal;

    ghost try_from_gives = { Names };

    // The type of that number; 5 where none has it.
    fn try_from(number: u8) -> Result<Kind, Refusal> {
        match number {
            0 => Ok(Kind::Request),
            1 => Ok(Kind::Ping),
            2 => Ok(Kind::Response),
            3 => Ok(Kind::Fault),
            4 => Ok(Kind::Working),
            5 => Ok(Kind::Nocall),
            6 => Ok(Kind::Reject),
            7 => Ok(Kind::Ack),
            8 => Ok(Kind::Cancel),
            9 => Ok(Kind::Fack),
            10 => Ok(Kind::CancelAck),
            _ => Err(Refusal::UnknownType),
        }
    }
}
