// The server's judgement of each event: the first refusal of document 01's table that it meets, or its row with all
// that the step needs. Nothing is written here.
#![tactic(auto, unfolding(answers::specs::Table::first_of, answers::specs::Answer::if_done, answers::specs::Number::refusal_number, bodies::specs::Cancel::cancel_result, bodies::specs::Cancel::cancel_reading, crate::specs::judge::Rows::order_by, crate::specs::judge::Rows::order_of, crate::specs::judge::Rows::order_for, crate::specs::judge::Rows::replay_row, crate::specs::judge::Rows::ping_equal, crate::specs::judge::Rows::ping_cell, crate::specs::judge::Rows::running_cancel, crate::specs::judge::Rows::cancel_equal, crate::specs::judge::Rows::request_put, crate::specs::judge::Rows::arms, crate::specs::judge::Rows::resend_held, crate::specs::judge::Rows::transmit_row, crate::specs::judge::Rows::fault_row, crate::specs::judge::Rows::resend_row, crate::specs::judge::Rows::timer_cell, crate::specs::judge::Rows::is_row, crate::specs::judge::Rows::arms_timer, crate::specs::judge::Rows::says, crate::specs::judge::Rows::cancel_cell, crate::specs::judge::Refusals::reply_refusals, crate::specs::judge::Refusals::reply_verdict, crate::specs::judge::Refusals::transmit_refusals, crate::specs::judge::Refusals::transmit_verdict, crate::specs::judge::Refusals::fault_refusals, crate::specs::judge::Refusals::fault_verdict, crate::specs::judge::Refusals::timer_refusals, crate::specs::judge::Refusals::timer_verdict, crate::specs::judge::Refusals::is_maybe_or_broadcast, crate::specs::judge::Refusals::agree, crate::specs::judge::Refusals::same_call, crate::specs::judge::Parts::row_left, crate::specs::judge::Parts::cancel_verdict, crate::specs::judge::Parts::ping_verdict, words::specs::Choice::choose, words::specs::Choice::both, words::specs::Choice::either))]

ghost use Rattle.std.specs.Prelude.{◌≡◌, eqb};
ghost use Rattle.words.specs.Choice.{choose, either};
ghost use Rattle.timers.specs.Tickets.{used_up};
ghost use Rattle.server.specs.records.States.{is_fresh, is_replying, is_held};
ghost use Rattle.server.specs.judge.Rows.{order_of, replay_row, ping_equal, running_cancel, cancel_equal, request_put as request_fragment, resend_held};
ghost use Rattle.server.specs.judge.Refusals.{reply_verdict, transmit_verdict, fault_verdict, timer_verdict, is_maybe_or_broadcast, same_call, pdu_verdict, activity_verdict, arrival_verdict};
ghost use Rattle.server.specs.judge.Parts.{ticketed, request_left, request_verdict, ping_verdict, ack_verdict, cancel_verdict, fack_verdict, contradicts_call, entry_answer, with_header};
ghost use Rattle.reader.specs.Reading.{reading};

use crate::records;
use crate::records::{Idle, Reply, Server, State};
use answers::{Answer, Refusal};
use calls::Call;
use fragments::Fragment;
use incoming::Incoming;
use pdu::Header;
use reader::Received;
use words::{MESSAGE_SIZE, PDU_SIZE, RETRY_LIMIT};

// The number of an arriving PDU against the server's. It is not std's Ordering: to a fresh server each number is Newer.
#[derive(Clone, Copy, PartialEq, Eq, Debug)]
pub enum Order {
    Below,
    Equal,
    Newer,
}

// A row of the server's table, with what judging found.
#[derive(Clone, Copy)]
pub enum Row {
    // A reply of that length.
    Reply(u32),
    // The next fragment is sent; with the last, the call is repeatable or its reply is held.
    TransmitMore,
    TransmitRepeatable,
    TransmitHeld,
    // A fault with its status; the call is repeatable, or the fault is held.
    FaultRepeatable(u32),
    FaultHeld(u32),
    // RESEND below its limit, with the count then: data goes out again, or the fault with its status does.
    ResendData(u8),
    ResendFault(u32, u8),
    // An ack, or RESEND at its limit: the call is spent.
    Spend,
    // A request begins a call, or is put.
    Begin(Fragment),
    Put(Fragment),
    Working,
    Nocall,
    // A replay: data goes out again, or the fault with its status does.
    Rewind,
    RepeatFault(u32),
    // A fack: how many fragments it acknowledges.
    Acknowledge(u16),
    // A cancel with its number: in RUNNING it is heard, or accepted again; elsewhere it is declined.
    HearCancel(u32),
    AcceptCancel(u32),
    DeclineCancel(u32),
}

// A row, or why the event is refused.
pub type Verdict = Result<Row, Refusal>;

// A reply with a message of this length: 1, 2, 15.
pub fn reply(s: Server, length: u32) -> Verdict
    ensures { result ≡ reply_verdict s length }
{
    if length > MESSAGE_SIZE {
        return Err(Refusal::WrongLength);
    }
    if !records::is_sound(s) {
        return Err(Refusal::BrokenRecord);
    }
    if !records::is_running(s.state) {
        return Err(Refusal::NoRow);
    }
    Ok(Row::Reply(length))
}

// A transmit, by the lengths of what is lent: 1, 2, 15, 20. A reply that is held arms RESEND.
pub fn transmit(s: Server, message: usize, out: usize) -> Verdict
    ensures { result ≡ transmit_verdict s message out }
{
    let replying = records::is_replying(s.state);
    if !outgoing::is_transmit_lent(replying, message, s.outgoing.length, out) {
        return Err(Refusal::WrongLength);
    }
    if !records::is_sound(s) {
        return Err(Refusal::BrokenRecord);
    }
    if !replying {
        return Err(Refusal::NoRow);
    }
    if !outgoing::sends_last(s.outgoing) {
        return Ok(Row::TransmitMore);
    }
    if records::runs_again(s.call.idempotent, s.outgoing) {
        return Ok(Row::TransmitRepeatable);
    }
    if timers::used_up(s.tickets) {
        return Err(Refusal::TicketsUsedUp);
    }
    Ok(Row::TransmitHeld)
}

// A fault with that status: 1, 2, 15, 20. A fault that is held arms RESEND.
pub fn fault(s: Server, status: u32, out: usize) -> Verdict
    ensures { result ≡ fault_verdict s status out }
{
    if out != PDU_SIZE {
        return Err(Refusal::WrongLength);
    }
    if !records::is_sound(s) {
        return Err(Refusal::BrokenRecord);
    }
    if !records::is_running(s.state) {
        return Err(Refusal::NoRow);
    }
    if s.call.idempotent {
        return Ok(Row::FaultRepeatable(status));
    }
    if timers::used_up(s.tickets) {
        return Err(Refusal::TicketsUsedUp);
    }
    Ok(Row::FaultHeld(status))
}

// RESEND below its limit, with the count then: 20. A fault that is sent again arms RESEND afresh.
fn resend(reply: Reply, resends: u8, tickets: u64) -> Verdict
    ensures { result ≡ ticketed (resend_held reply resends) (used_up tickets) }
{
    match reply {
        Reply::Data => Ok(Row::ResendData(resends)),
        Reply::Fault(_) if timers::used_up(tickets) => Err(Refusal::TicketsUsedUp),
        Reply::Fault(status) => Ok(Row::ResendFault(status, resends)),
    }
}

// The RESEND timer with that ticket: 1, 2, 15, 18, 20.
pub fn timer(s: Server, ticket: u64, out: usize) -> Verdict
    ensures { result ≡ timer_verdict s ticket out }
{
    if out != PDU_SIZE {
        return Err(Refusal::WrongLength);
    }
    if !records::is_sound(s) {
        return Err(Refusal::BrokenRecord);
    }
    let State::Held(reply) = s.state else {
        return Err(Refusal::NoRow);
    };
    if !timers::is_armed_with(s.resend, ticket) {
        return Err(Refusal::LateTimer);
    }
    if s.resends < RETRY_LIMIT {
        return resend(reply, s.resends + 1, s.tickets);
    }
    Ok(Row::Spend)
}

// The number of an arriving PDU against the server's; to a fresh server every number is newer.
fn order_for(s: Server, number: u32) -> Order
    ensures { result ≡ order_of (is_fresh s.state) s.number number }
{
    if records::is_fresh(s.state) || s.number < number {
        Order::Newer
    } else if s.number == number {
        Order::Equal
    } else {
        Order::Below
    }
}

// The row of a replay.
fn replay_row(reply: Reply) -> Row
    ensures { result ≡ replay_row reply }
{
    match reply {
        Reply::Data => Row::Rewind,
        Reply::Fault(status) => Row::RepeatFault(status),
    }
}

// Whether maybe or broadcast is set.
fn is_maybe_or_broadcast(flags1: u8) -> bool
    ensures { result ≡ is_maybe_or_broadcast flags1 }
{
    flags::has(flags1, flags::MAYBE) || flags::has(flags1, flags::BROADCAST)
}

// Whether a request is of the call: the idempotent bit, object, interface, version and operation.
// Part by part: the other side is a header and no Call.
#[tactic(auto, using(words::proofs::SameLaws::same_is), unfolding(crate::specs::judge::Refusals::agree, crate::specs::judge::Refusals::same_call, words::specs::Choice::choose, words::specs::Choice::both))]
fn is_same_call(call: Call, h: Header) -> bool
    ensures { result ≡ same_call call h }
{
    call.idempotent == flags::has(h.flags1, flags::IDEMPOTENT)
        && call.object == h.object
        && call.interface == h.interface
        && call.version == h.version
        && call.operation == h.operation
}

// Whether a request of an equal number contradicts what is held, or is not of the call.
fn contradicts_call(s: Server, h: Header) -> bool
    ensures { result ≡ contradicts_call s h }
{
    let last = fragments::is_last(h.flags1);
    fragments::contradicts_held(s.incoming, h.fragment, last) || !is_same_call(s.call, h)
}

// A request's fragment, put into these slots.
fn request_put(m: Incoming, h: Header, body: &[u8]) -> Fragment
    ensures { result ≡ request_fragment m h body.now }
{
    let length = fragments::body_length(body.len());
    fragments::put_of(m, h.flags1, h.serial, h.fragment, length)
}

// A request of a newer number: 15 in RUNNING, else it begins a call, whose slots are empty.
#[tactic(auto, using(crate::proofs::judge::KindLaws::newer_lines), unfolding(words::specs::Choice::choose))]
fn request_newer(s: Server, h: Header, body: &[u8]) -> Verdict
    ensures { result ≡ request_left s h body.now Order.Newer s.state }
{
    if records::is_running(s.state) {
        return Err(Refusal::NoRow);
    }
    Ok(Row::Begin(request_put(incoming::empty(), h, body)))
}

// A request of an equal number in IDLE: 13, 17. A repeatable call begins again where the bit is set.
#[tactic(auto, using(crate::proofs::judge::KindLaws::fresh_lines, crate::proofs::judge::KindLaws::spent_lines, crate::proofs::judge::KindLaws::repeatable_lines), unfolding(words::specs::Choice::choose))]
fn request_idle(idle: Idle, s: Server, h: Header, body: &[u8]) -> Verdict
    ensures { result ≡ request_left s h body.now Order.Equal (State.Idle idle) }
{
    if idle != Idle::Repeatable || !flags::has(h.flags1, flags::IDEMPOTENT) {
        return Err(Refusal::OldCall);
    }
    if !is_same_call(s.call, h) {
        return Err(Refusal::Contradiction);
    }
    Ok(Row::Begin(request_put(incoming::empty(), h, body)))
}

// A request of an equal number in COLLECT: 16, 17.
#[tactic(auto, using(crate::proofs::judge::KindLaws::collect_lines), unfolding(words::specs::Choice::choose))]
fn request_collect(s: Server, h: Header, body: &[u8]) -> Verdict
    ensures { result ≡ request_left s h body.now Order.Equal State.Collect }
{
    if fragments::is_held(s.incoming, h.fragment) {
        return Err(Refusal::Repeated);
    }
    if contradicts_call(s, h) {
        return Err(Refusal::Contradiction);
    }
    Ok(Row::Put(request_put(s.incoming, h, body)))
}

// A request of an equal number whose call is whole: 17, else that row.
fn request_whole(s: Server, h: Header, row: Row) -> Verdict
    ensures { result ≡ choose (contradicts_call s h) (Err Refusal.Contradiction) (Ok row) }
{
    if contradicts_call(s, h) {
        return Err(Refusal::Contradiction);
    }
    Ok(row)
}

// A request of an equal number, by the state.
#[tactic(auto, using(crate::proofs::judge::KindLaws::running_lines, crate::proofs::judge::KindLaws::replying_lines, crate::proofs::judge::KindLaws::held_lines), unfolding(words::specs::Choice::choose))]
fn request_equal(s: Server, h: Header, body: &[u8]) -> Verdict
    ensures { result ≡ request_left s h body.now Order.Equal s.state }
{
    match s.state {
        State::Idle(idle) => request_idle(idle, s, h, body),
        State::Collect => request_collect(s, h, body),
        State::Running => request_whole(s, h, Row::Working),
        State::Replying => Err(Refusal::Repeated),
        State::Held(reply) => request_whole(s, h, replay_row(reply)),
    }
}

// A request: 11, 12, and by its number 13, 15, 16, 17.
#[tactic(auto, using(crate::proofs::judge::KindLaws::below_lines), unfolding(crate::specs::judge::Rows::order_for, crate::specs::judge::Parts::request_verdict, words::specs::Choice::choose))]
fn request(s: Server, h: Header, body: &[u8]) -> Verdict
    ensures { result ≡ request_verdict s h body.now }
{
    if is_maybe_or_broadcast(h.flags1) {
        return Err(Refusal::MaybeOrBroadcast);
    }
    if fragments::is_wrong(h.flags1, h.fragment) {
        return Err(Refusal::WrongFragment);
    }
    match order_for(s, h.number) {
        Order::Below => Err(Refusal::OldCall),
        Order::Equal => request_equal(s, h, body),
        Order::Newer => request_newer(s, h, body),
    }
}

// A ping of an equal number, by the state: 16 in REPLYING.
fn ping_equal(state: State) -> Verdict
    ensures { result ≡ ping_equal state }
{
    match state {
        State::Idle(_) | State::Collect => Ok(Row::Nocall),
        State::Running => Ok(Row::Working),
        State::Replying => Err(Refusal::Repeated),
        State::Held(reply) => Ok(replay_row(reply)),
    }
}

// A ping: 13, 16.
fn ping(s: Server, h: Header) -> Verdict
    ensures { result ≡ ping_verdict s h }
{
    match order_for(s, h.number) {
        Order::Below => Err(Refusal::OldCall),
        Order::Equal => ping_equal(s.state),
        Order::Newer => Ok(Row::Nocall),
    }
}

// Whether a reply was given that may still be acknowledged: REPLYING and HELD.
fn is_replied(state: State) -> bool
    ensures { result ≡ either (is_replying state) (is_held state) }
{
    records::is_replying(state) || records::is_held(state)
}

// An ack: 13, 15. It is of use where a reply was given, and the call is not idempotent.
#[tactic(auto, using(crate::proofs::judge::KindLaws::replied_lines), unfolding(crate::specs::judge::Rows::order_for, crate::specs::judge::Parts::ack_verdict, crate::specs::judge::Rows::acknowledgement_cell, crate::specs::judge::Rows::ack_cell, words::specs::Choice::choose))]
fn ack(s: Server, h: Header) -> Verdict
    ensures { result ≡ ack_verdict s h }
{
    match order_for(s, h.number) {
        Order::Below => Err(Refusal::OldCall),
        Order::Equal if is_replied(s.state) && !s.call.idempotent => Ok(Row::Spend),
        Order::Equal | Order::Newer => Err(Refusal::NoRow),
    }
}

// The row of a cancel in RUNNING: a number above the last seen is heard.
fn running_cancel(seen: u32, number: u32) -> Row
    ensures { result ≡ running_cancel seen number }
{
    if seen < number {
        Row::HearCancel(number)
    } else {
        Row::AcceptCancel(number)
    }
}

// A cancel of an equal number, by the state: 15 in IDLE.
fn cancel_equal(state: State, seen: u32, number: u32) -> Verdict
    ensures { result ≡ cancel_equal state seen number }
{
    match state {
        State::Idle(_) => Err(Refusal::NoRow),
        State::Running => Ok(running_cancel(seen, number)),
        State::Collect | State::Replying | State::Held(_) => Ok(Row::DeclineCancel(number)),
    }
}

// A cancel: 13, 14, 15.
fn cancel(s: Server, read: Received, body: &[u8]) -> Verdict
    ensures { result ≡ cancel_verdict s read.header read.little body.now }
{
    let order = order_for(s, read.header.number);
    if order == Order::Below {
        return Err(Refusal::OldCall);
    }
    let number = bodies::read_cancel(body, read.little)?;
    if order == Order::Newer {
        return Err(Refusal::NoRow);
    }
    cancel_equal(s.state, s.seen, number)
}

// A fack: 13, 14, 15, 17.
#[tactic(auto, using(crate::proofs::judge::KindLaws::replied_lines), unfolding(crate::specs::judge::Rows::order_for, crate::specs::judge::Parts::fack_verdict, crate::specs::judge::Parts::row_left, crate::specs::judge::Rows::acknowledgement_cell, crate::specs::judge::Rows::says, answers::specs::Table::first_of, answers::specs::Number::refusal_number, facks::specs::Mask::acknowledges_more, words::specs::Choice::choose, words::specs::Choice::either))]
fn fack(s: Server, read: Received, body: &[u8]) -> Verdict
    ensures { result ≡ fack_verdict s read.header read.little body.now }
{
    let order = order_for(s, read.header.number);
    if order == Order::Below {
        return Err(Refusal::OldCall);
    }
    if bodies::is_fack_malformed(body, read.little) {
        return Err(Refusal::MalformedBody);
    }
    if order == Order::Newer || !is_replied(s.state) {
        return Err(Refusal::NoRow);
    }
    let count = facks::acknowledged_by(read.header.fragment);
    if s.outgoing.count < count {
        return Err(Refusal::Contradiction);
    }
    Ok(Row::Acknowledge(count))
}

// 11 to 17, of what the client calls with: types 0 and 1.
// By the type's number, as in pdu below: document 01's form.
fn request_or_ping(s: Server, h: Header, body: &[u8]) -> Verdict
    ensures { result ≡ choose (eqb h.kind 0) (request_verdict s h body.now) (ping_verdict s h) }
{
    match h.kind {
        0 => request(s, h, body),
        _ => ping(s, h),
    }
}

// 10 to 17, of a header and a body that were read, by the type: the server takes 0, 1, 7, 8 and 9.
// The type stays a number, matched by ranges: document 01's form (docs/DECISIONS.md, Forms).
fn pdu(s: Server, read: Received, body: &[u8]) -> Verdict
    ensures { result ≡ pdu_verdict s read.header read.little body.now }
{
    match read.header.kind {
        0..=1 => request_or_ping(s, read.header, body),
        7 => ack(s, read.header),
        8 => cancel(s, read, body),
        9 => fack(s, read, body),
        _ => Err(Refusal::WrongSide),
    }
}

// 9 to 17, of a datagram that was read: one of another activity is 9.
#[tactic(auto, using(crate::proofs::judge::KindLaws::activity_lines, words::proofs::SameLaws::same_is), unfolding(words::specs::Choice::choose))]
fn own_activity(s: Server, read: Received, body: &[u8]) -> Verdict
    ensures { result ≡ activity_verdict s read.header read.little body.now }
{
    if s.activity != read.header.activity {
        return Err(Refusal::OtherActivity);
    }
    pdu(s, read, body)
}

// 1 and 2 of a datagram, by the lengths of what is lent; Done where neither holds.
fn entry(s: Server, slots: usize, out: usize) -> Answer
    ensures { result ≡ entry_answer s slots out }
{
    if !fragments::is_lent_right(slots, out) {
        return Err(Refusal::WrongLength);
    }
    if !records::is_sound(s) {
        return Err(Refusal::BrokenRecord);
    }
    Ok(())
}

// An arriving datagram, by the lengths of what is lent: 1, 2, those of the reader, 9, those of the PDU. With its row
// comes the header of the PDU, which what is sent for it echoes.
pub fn arrival(s: Server, slots: usize, out: usize, d: &[u8]) -> Result<(Row, Header), Refusal>
    ensures { result ≡ with_header (reading d.now).header (arrival_verdict s slots out d.now) }
{
    entry(s, slots, out)?;
    let read = reader::read(d)?;
    let row = own_activity(s, read, reader::body(d))?;
    Ok((row, read.header))
}
