// What an event gives back, in one number: the C interface has it so (include/morphelai.h).
#![tactic(auto, unfolding(crate::specs::Result::packed, crate::specs::Result::result_of, crate::specs::Export::other_timer, words::specs::Choice::choose))]

ghost use Rattle.std.specs.Prelude.{◌≡◌};
ghost use Rattle.morphelai.specs.Result.{notice_kind, notice_value, sent_length, packed, result_of};
ghost use Rattle.morphelai.specs.Export.{other_timer};

use answers::Answer;
use calls::{Notice, Sent};
use words::PDU_SIZE;

// The kind of a notice.
// Numbers as C has them (include/morphelai.h).
fn notice_kind(notice: Notice) -> u8
    ensures { result ≡ notice_kind notice }
{
    match notice {
        Notice::Nothing => 0,
        Notice::Last => 1,
        Notice::Count(_) => 2,
        Notice::Fault(_) => 3,
        Notice::Reject(_) => 4,
        Notice::Cause(_) => 5,
        Notice::Dispatch => 6,
        Notice::Cancel => 7,
    }
}

// The value of a notice, 0 where it has none.
fn notice_value(notice: Notice) -> u32
    ensures { result ≡ notice_value notice }
{
    match notice {
        Notice::Count(n) => u32::from(n),
        Notice::Fault(status) | Notice::Reject(status) => status,
        Notice::Cause(cause) => u32::from(cause),
        Notice::Nothing | Notice::Last | Notice::Dispatch | Notice::Cancel => 0,
    }
}

// How many bytes were sent.
fn sent_length(sent: Sent) -> u16
    ensures { result ≡ sent_length sent }
{
    (sent.unwrap_or(0) % 65536) as u16
}

// Answer, notice's kind, length of the PDU and notice's value as one number.
pub fn pack(answer: u8, kind: u8, length: u16, value: u32) -> u64
    ensures { result ≡ packed answer kind length value }
{
    let [low, high] = length.to_le_bytes();
    let [first, second, third, fourth] = value.to_le_bytes();
    u64::from_le_bytes([answer, kind, low, high, first, second, third, fourth])
}

// What an event gives back: its answer, its notice and how much it sent.
pub fn result(answer: Answer, notice: Notice, sent: Sent) -> u64
    ensures { result ≡ result_of answer notice sent }
{
    pack(
        answers::number(answer),
        notice_kind(notice),
        sent_length(sent),
        notice_value(notice),
    )
}

// What a timer answers whose kind the side does not have: 1 and 2 first, then 15.
// Numbers as C has them: other_timer of specs.
pub fn other_timer(sound: bool, size: usize) -> u64
    ensures { result ≡ other_timer sound size }
{
    if size != PDU_SIZE {
        1
    } else if !sound {
        2
    } else {
        15
    }
}
