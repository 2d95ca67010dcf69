// The client's judgement of each event: the first refusal of document 01's table that it meets, or its row with all
// that the step needs. Nothing is written here.
#![tactic(auto, unfolding(crate::specs::judge::Rows::next_number, crate::specs::judge::Rows::wait_row, crate::specs::judge::Rows::timer_row, crate::specs::judge::Rows::nocall_row, crate::specs::judge::Rows::is_current, crate::specs::judge::Rows::transmit_row, crate::specs::judge::Rows::cancel_row, crate::specs::judge::Rows::arms, crate::specs::judge::Rows::cell_in, crate::specs::judge::Rows::is_row, crate::specs::judge::Rows::arms_timer, crate::specs::judge::Rows::is_for_client, crate::specs::judge::Rows::arrival_cell, crate::specs::judge::Refusals::start_verdict, crate::specs::judge::Refusals::start_refusals, crate::specs::judge::Refusals::transmit_verdict, crate::specs::judge::Refusals::transmit_refusals, crate::specs::judge::Refusals::timer_verdict, crate::specs::judge::Refusals::timer_refusals, crate::specs::judge::Refusals::may_cancel, crate::specs::judge::Refusals::cancel_verdict, crate::specs::judge::Refusals::cancel_refusals, crate::specs::judge::Refusals::is_response, crate::specs::judge::Refusals::is_old, crate::specs::judge::Refusals::is_malformed, crate::specs::judge::Refusals::is_contradiction, crate::specs::judge::Refusals::pdu_verdict, crate::specs::judge::Refusals::pdu_refusals, crate::specs::judge::Refusals::activity_verdict, timers::specs::Tickets::off, answers::specs::Table::first_of, answers::specs::Answer::if_done, bodies::specs::Status::status_result, bodies::specs::Status::status_reading, bodies::specs::Cancel::cancel_ack_result, bodies::specs::Cancel::cancel_ack_reading, bodies::specs::Cancel::acknowledging, facks::specs::Mask::acknowledges_more, words::specs::Choice::choose, words::specs::Choice::both, words::specs::Choice::either))]

ghost use Rattle.std.specs.Prelude.{◌≡◌, ◌≤◌, ◌⊎◌};
ghost use Rattle.words.specs.Choice.{choose, both};
ghost use Rattle.answers.specs.declared.Refusal.TheVariants.{TicketsUsedUp};
ghost use Rattle.timers.specs.Tickets.{used_up};
ghost use Rattle.client.specs.judge.Verdict.{Refuse, Go};
ghost use Rattle.client.specs.judge.Rows.{next_number, wait_row, timer_row as row_of_timer, nocall_row, is_current, arms as arms_row};
ghost use Rattle.client.specs.judge.Refusals.{start_verdict, transmit_verdict, timer_verdict, may_cancel, cancel_verdict, is_old, pdu_verdict, activity_verdict, arrival_verdict};

use crate::records;
use crate::records::{Client, TimerKind};
use answers::Refusal;
use fragments::Fragment;
use reader::Received;
use timers::Timer;
use words::{MESSAGE_SIZE, PDU_SIZE, RETRY_LIMIT};

// A row of the client's table, with what judging found.
#[derive(Clone, Copy)]
pub enum Row {
    // The next fragment is sent; whether it is the last.
    Transmit(bool),
    // WAIT below its limit: the count with this ping.
    Ping(u8),
    // ACK.
    SendAck,
    // A local cancel: its number.
    Cancel(u32),
    // A response is put.
    Response(Fragment),
    // A fault or reject: its status.
    Fault(u32),
    Reject(u32),
    Working,
    // Nocall below its limit: the count with this resend.
    Resend(u8),
    // WAIT or nocall at its limit, or CANCEL: the local cause, a number as in Notice::Cause.
    GiveUp(u8),
    // How many fragments it acknowledges.
    Fack(u16),
    // The current one.
    CancelAck,
}

// A row, or why the event is refused.
pub type Verdict = Result<Row, Refusal>;

// Of a start: its row has the call's number.
pub type StartVerdict = Result<u32, Refusal>;

// The last call number.
const LAST_CALL_NUMBER: u32 = u32::MAX;

// The last cancel number.
const LAST_CANCEL_NUMBER: u32 = u32::MAX;

// Whether a row arms a timer.
// A row is data and no function: step_of and the theorems go by it.
fn arms(c: Client, row: Row) -> bool
    ensures { result ≡ arms_row c row }
{
    match row {
        Row::Transmit(last) => last,
        Row::Cancel(_) => c.cancel.is_none(),
        Row::Response(p) => !(p.complete && c.call.idempotent),
        Row::Ping(_) | Row::Working => true,
        Row::SendAck | Row::Fault(_) | Row::Reject(_) | Row::Resend(_) => false,
        Row::GiveUp(_) | Row::Fack(_) | Row::CancelAck => false,
    }
}

// A row of an event that nothing else refuses: 20 where it arms a timer and no ticket is left.
fn with_ticket(c: Client, row: Row) -> Verdict
    ensures { result ≡ choose (both (arms_row c row) (used_up c.tickets)) (Refuse TicketsUsedUp) (Go row) }
{
    // Few counters are used up, so that is asked first.
    if timers::used_up(c.tickets) && arms(c, row) {
        return Err(Refusal::TicketsUsedUp);
    }
    Ok(row)
}

// The number of the next call.
fn next_number(queued: bool, number: u32) -> u32
    ensures { result ≡ next_number queued number }
{
    if queued { 0 } else { number.wrapping_add(1) }
}

// A start with a message of this length: 1, 2, 15, 19.
pub fn start(c: Client, length: u32) -> StartVerdict
    ensures { result ≡ start_verdict c length }
{
    if length > MESSAGE_SIZE {
        return Err(Refusal::WrongLength);
    }
    if !records::is_sound(c) {
        return Err(Refusal::BrokenRecord);
    }
    if !records::may_start(c.state) {
        return Err(Refusal::NoRow);
    }
    let queued = records::is_queued(c.state);
    if !queued && c.number == LAST_CALL_NUMBER {
        return Err(Refusal::NumbersUsedUp);
    }
    Ok(next_number(queued, c.number))
}

// A transmit, by the lengths of what is lent: 1, 2, 15, 20.
pub fn transmit(c: Client, message: usize, out: usize) -> Verdict
    ensures { result ≡ transmit_verdict c message out }
{
    let sending = records::is_sending(c.state);
    if !outgoing::is_transmit_lent(sending, message, c.outgoing.length, out) {
        return Err(Refusal::WrongLength);
    }
    if !records::is_sound(c) {
        return Err(Refusal::BrokenRecord);
    }
    if !sending {
        return Err(Refusal::NoRow);
    }
    with_ticket(c, Row::Transmit(outgoing::sends_last(c.outgoing)))
}

// WAIT: ping, or at its limit local cause 1.
fn wait_row(waits: u8) -> Row
    ensures { result ≡ wait_row waits }
{
    if waits < RETRY_LIMIT {
        Row::Ping(waits + 1)
    } else {
        Row::GiveUp(1)
    }
}

// The row of a timer.
fn timer_row(kind: TimerKind, c: Client) -> Row
    ensures { result ≡ row_of_timer kind c }
{
    match kind {
        TimerKind::Wait => wait_row(c.waits),
        TimerKind::Ack => Row::SendAck,
        TimerKind::Cancel => Row::GiveUp(3),
    }
}

// A timer event: 1, 2, 15, 18, 20.
pub fn timer(c: Client, kind: TimerKind, ticket: u64, out: usize) -> Verdict
    ensures { result ≡ timer_verdict c kind ticket out }
{
    if out != PDU_SIZE {
        return Err(Refusal::WrongLength);
    }
    if !records::is_sound(c) {
        return Err(Refusal::BrokenRecord);
    }
    if !records::is_named(kind, c.state) {
        return Err(Refusal::NoRow);
    }
    if !timers::is_armed_with(records::timer_of(kind, c), ticket) {
        return Err(Refusal::LateTimer);
    }
    with_ticket(c, timer_row(kind, c))
}

// Whether a local cancel has a row.
fn may_cancel(c: Client) -> bool
    ensures { result ≡ may_cancel c.state c.cancels }
{
    records::is_active(c.state) && c.cancels != LAST_CANCEL_NUMBER
}

// A local cancel: 1, 2, 15, 20.
pub fn cancel(c: Client, out: usize) -> Verdict
    ensures { result ≡ cancel_verdict c out }
{
    if out != PDU_SIZE {
        return Err(Refusal::WrongLength);
    }
    if !records::is_sound(c) {
        return Err(Refusal::BrokenRecord);
    }
    if !may_cancel(c) {
        return Err(Refusal::NoRow);
    }
    with_ticket(c, Row::Cancel(c.cancels.wrapping_add(1)))
}

// 13: a number that is not the client's; in QUEUED it has none.
fn is_old(c: Client, number: u32) -> bool
    ensures { result ≡ is_old c.state c.number number }
{
    records::is_queued(c.state) || c.number != number
}

// A response: 12, 13, 15, 16, 17, 20.
// By the type's number, as in pdu below: document 01's form.
fn response(c: Client, read: Received, body: &[u8]) -> Verdict
    requires { read.header.kind ≡ 2 }
    ensures { result ≡ pdu_verdict c read.header read.little body.now }
{
    let h = read.header;
    if fragments::is_wrong(h.flags1, h.fragment) {
        return Err(Refusal::WrongFragment);
    }
    if is_old(c, h.number) {
        return Err(Refusal::OldCall);
    }
    if !records::is_active(c.state) {
        return Err(Refusal::NoRow);
    }
    if fragments::is_held(c.incoming, h.fragment) {
        return Err(Refusal::Repeated);
    }
    let last = fragments::is_last(h.flags1);
    if fragments::contradicts_held(c.incoming, h.fragment, last) {
        return Err(Refusal::Contradiction);
    }
    let length = fragments::body_length(body.len());
    let p = fragments::put_of(c.incoming, h.flags1, h.serial, h.fragment, length);
    with_ticket(c, Row::Response(p))
}

// A fault, or a reject: 13, 14, 15.
// By the type's number, as in pdu below: document 01's form.
fn failure(c: Client, read: Received, body: &[u8]) -> Verdict
    requires { (read.header.kind ≡ 3) ⊎ (read.header.kind ≡ 6) }
    ensures { result ≡ pdu_verdict c read.header read.little body.now }
{
    if is_old(c, read.header.number) {
        return Err(Refusal::OldCall);
    }
    let status = bodies::read_status(body, read.little)?;
    if !records::is_active(c.state) {
        return Err(Refusal::NoRow);
    }
    if read.header.kind == 3 {
        Ok(Row::Fault(status))
    } else {
        Ok(Row::Reject(status))
    }
}

// Working: 13, 15, 20.
// By the type's number, as in pdu below: document 01's form.
fn working(c: Client, read: Received, body: &[u8]) -> Verdict
    requires { read.header.kind ≡ 4 }
    ensures { result ≡ pdu_verdict c read.header read.little body.now }
{
    if is_old(c, read.header.number) {
        return Err(Refusal::OldCall);
    }
    if !records::is_dispatched(c.state) {
        return Err(Refusal::NoRow);
    }
    with_ticket(c, Row::Working)
}

// The row of a nocall: the request goes out again, or at the limit local cause 2.
// As wait_row: one for both would take the row and the cause as arguments.
fn nocall_row(resends: u8) -> Row
    ensures { result ≡ nocall_row resends }
{
    if resends < RETRY_LIMIT {
        Row::Resend(resends + 1)
    } else {
        Row::GiveUp(2)
    }
}

// Nocall: 13, 15.
// By the type's number, as in pdu below: document 01's form.
fn nocall(c: Client, read: Received, body: &[u8]) -> Verdict
    requires { read.header.kind ≡ 5 }
    ensures { result ≡ pdu_verdict c read.header read.little body.now }
{
    if is_old(c, read.header.number) {
        return Err(Refusal::OldCall);
    }
    if !records::is_dispatched(c.state) {
        return Err(Refusal::NoRow);
    }
    Ok(nocall_row(c.resends))
}

// A fack: 13, 14, 15, 17.
// By the type's number, as in pdu below: document 01's form.
fn fack(c: Client, read: Received, body: &[u8]) -> Verdict
    requires { read.header.kind ≡ 9 }
    ensures { result ≡ pdu_verdict c read.header read.little body.now }
{
    if is_old(c, read.header.number) {
        return Err(Refusal::OldCall);
    }
    // Nothing else of its body is asked for, so it is not read.
    if bodies::is_fack_malformed(body, read.little) {
        return Err(Refusal::MalformedBody);
    }
    if !records::is_active(c.state) {
        return Err(Refusal::NoRow);
    }
    let count = facks::acknowledged_by(read.header.fragment);
    if c.outgoing.count < count {
        return Err(Refusal::Contradiction);
    }
    Ok(Row::Fack(count))
}

// Whether a cancel_ack is the current one: CANCEL is armed, and the number is the record's.
fn is_current(cancel: Timer, mine: u32, theirs: u32) -> bool
    ensures { result ≡ is_current cancel mine theirs }
{
    cancel.is_some() && mine == theirs
}

// A cancel_ack: 13, 14, 15.
// By the type's number, as in pdu below: document 01's form.
fn cancel_ack(c: Client, read: Received, body: &[u8]) -> Verdict
    requires { read.header.kind ≡ 10 }
    ensures { result ≡ pdu_verdict c read.header read.little body.now }
{
    if is_old(c, read.header.number) {
        return Err(Refusal::OldCall);
    }
    let told = bodies::read_cancel_ack(body, read.little)?;
    if !is_current(c.cancel, c.cancels, told.number) {
        return Err(Refusal::NoRow);
    }
    Ok(Row::CancelAck)
}

// 12 to 20, of what the server answers a call with: types 2 to 6.
// By the type's number, as in pdu below: document 01's form.
fn of_call(c: Client, read: Received, body: &[u8]) -> Verdict
    requires { (2 ≤ read.header.kind) × (read.header.kind ≤ 6) }
    ensures { result ≡ pdu_verdict c read.header read.little body.now }
{
    match read.header.kind {
        2 => response(c, read, body),
        4 => working(c, read, body),
        5 => nocall(c, read, body),
        _ => failure(c, read, body),
    }
}

// 10 to 20, of a header and a body that were read, by the type: the client takes 2 to 6, 9 and 10.
// The type stays a number, matched by ranges: document 01's form (docs/DECISIONS.md, Forms).
fn pdu(c: Client, read: Received, body: &[u8]) -> Verdict
    ensures { result ≡ pdu_verdict c read.header read.little body.now }
{
    match read.header.kind {
        2..=6 => of_call(c, read, body),
        9 => fack(c, read, body),
        10 => cancel_ack(c, read, body),
        _ => Err(Refusal::WrongSide),
    }
}

// 9 to 20, of a datagram that was read: one of another activity is 9.
// The server has its like: one for both would need a trait over records, longer than the two.
#[tactic(auto, using(crate::proofs::ActivityLaws::activity_lines, words::proofs::SameLaws::same_is), unfolding(words::specs::Choice::choose))]
fn own_activity(c: Client, read: Received, body: &[u8]) -> Verdict
    ensures { result ≡ activity_verdict c read.header read.little body.now }
{
    if c.activity != read.header.activity {
        return Err(Refusal::OtherActivity);
    }
    pdu(c, read, body)
}

// An arriving datagram, by the lengths of what is lent: 1, 2, those of the reader, 9, those of the PDU.
pub fn arrival(c: Client, slots: usize, out: usize, d: &[u8]) -> Verdict
    ensures { result ≡ arrival_verdict c slots out d.now }
{
    if !fragments::is_lent_right(slots, out) {
        return Err(Refusal::WrongLength);
    }
    if !records::is_sound(c) {
        return Err(Refusal::BrokenRecord);
    }
    own_activity(c, reader::read(d)?, reader::body(d))
}
