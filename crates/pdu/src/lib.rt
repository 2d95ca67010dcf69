// The connectionless PDU: its header, and the header's fields as they stand in a datagram.
#![tactic(auto, unfolding(crate::specs::Header::header_of, crate::specs::Header::blank, crate::specs::Header::header_in, words::specs::Choice::choose))]

ghost use Rattle.std.specs.Prelude.{◌≡◌, ◌≤◌, length};
ghost use Rattle.words.specs.Sizes.{header_size};
ghost use Rattle.pdu.specs.Header.{uuid_at, header_of, blank, header_in};

mod kind;

pub use kind::Kind;
use words::{HEADER_SIZE, ReadAt};

// The header, but for version, representation and body length, which the writer sets itself. UUIDs are in the
// little-endian form.
#[derive(Clone, Copy)]
pub struct Header {
    // Any number and no Kind: the writer refuses 5 by it, and C lends such headers (morphelai_write).
    pub kind: u8,
    pub flags1: u8,
    pub flags2: u8,
    pub serial: u16,
    pub object: [u8; 16],
    pub interface: [u8; 16],
    pub activity: [u8; 16],
    pub boot: u32,
    pub version: u32,
    pub number: u32,
    pub operation: u16,
    pub ihint: u16,
    pub ahint: u16,
    pub fragment: u16,
    pub authentication: u8,
}

// The UUID that stands at `at`, of a big-endian sender turned into the little-endian form.
fn uuid(s: &[u8], at: usize, little: bool) -> [u8; 16]
    ensures { result ≡ uuid_at little s.now at }
{
    let mut uuid = words::part(s, at);
    if !little {
        uuid[..4].reverse();
        uuid[4..6].reverse();
        uuid[6..8].reverse();
    }
    uuid
}

// The header's fields, in the sender's order.
fn header_of(s: &[u8], little: bool) -> Header
    requires { header_size ≤ length s.now }
    ensures { result ≡ header_of little s.now }
{
    Header {
        kind: s[1],
        flags1: s[2],
        flags2: s[3],
        serial: u16::from_le_bytes([s[79], s[7]]),
        object: uuid(s, 8, little),
        interface: uuid(s, 24, little),
        activity: uuid(s, 40, little),
        boot: u32::read_at(s, 56, little),
        version: u32::read_at(s, 60, little),
        number: u32::read_at(s, 64, little),
        operation: u16::read_at(s, 68, little),
        ihint: u16::read_at(s, 70, little),
        ahint: u16::read_at(s, 72, little),
        fragment: u16::read_at(s, 76, little),
        authentication: s[78],
    }
}

// The header that stands where there is none.
pub fn no_header() -> Header
    ensures { result ≡ blank }
{
    Header {
        kind: 0,
        flags1: 0,
        flags2: 0,
        serial: 0,
        object: [0; 16],
        interface: [0; 16],
        activity: [0; 16],
        boot: 0,
        version: 0,
        number: 0,
        operation: 0,
        ihint: 0,
        ahint: 0,
        fragment: 0,
        authentication: 0,
    }
}

// The header's fields in a datagram, in the sender's order; a blank where it has no 80 bytes.
pub fn fields(s: &[u8], little: bool) -> Header
    ensures { result ≡ header_in little s.now }
{
    if s.len() < HEADER_SIZE {
        return no_header();
    }
    header_of(s, little)
}
