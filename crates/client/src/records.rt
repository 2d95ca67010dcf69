// The client's record: what a console keeps of its activity, the rules that a record keeps, the ways in
// which a row leaves its timers, and which timer an event names.
#![tactic(auto, unfolding(crate::specs::records::States::may_start, crate::specs::records::States::is_queued, crate::specs::records::States::is_sending, crate::specs::records::States::is_active, crate::specs::records::States::is_dispatched, crate::specs::records::States::is_waiting, crate::specs::records::States::is_ack_pending, crate::specs::records::Rules::counts_sound, crate::specs::records::Rules::message_rule, crate::specs::records::Rules::outgoing_sound, crate::specs::records::Rules::timers_sound, crate::specs::records::Rules::sound, crate::specs::records::Record::fresh, crate::specs::records::Record::waiting, crate::specs::records::Record::sending_again, crate::specs::records::Record::ack_pending, crate::specs::records::Record::unarmed, crate::specs::records::Record::cancel_armed, crate::specs::records::Record::cancel_disarmed, crate::specs::records::Named::named_timer, crate::specs::records::Named::named_by, words::specs::Choice::both, words::specs::Choice::choose))]

ghost use Rattle.std.specs.Prelude.{◌≡◌};
ghost use Rattle.client.specs.records.States.{may_start, is_queued, is_sending, is_active, is_dispatched, is_waiting, is_ack_pending};
ghost use Rattle.client.specs.records.Rules.{outgoing_sound, timers_sound, sound};
ghost use Rattle.client.specs.records.Record.{fresh as fresh_record, waiting, sending_again, ack_pending, unarmed, cancel_armed, cancel_disarmed};
ghost use Rattle.client.specs.records.Named.{named_timer, named_by};

use calls::Call;
use incoming::Incoming;
use outgoing::Outgoing;
use timers::Timer;
use words::RETRY_LIMIT;

#[derive(Clone, Copy, PartialEq, Eq, Debug)]
pub enum State {
    Queued,
    SendFrags,
    Dispatched,
    ReceiveFrags,
    AckPending,
    Complete,
    Fault,
}

// The client's timers.
#[derive(Clone, Copy, PartialEq, Eq, Debug)]
pub enum TimerKind {
    Wait,
    Ack,
    Cancel,
}

// The number, the call and the cancel number mean nothing in QUEUED.
#[derive(Clone, Copy)]
pub struct Client {
    pub state: State,
    pub activity: [u8; 16],
    pub number: u32,
    pub call: Call,
    pub outgoing: Outgoing,
    pub incoming: Incoming,
    pub waits: u8,
    pub resends: u8,
    // The cancel number: how often the call was cancelled here.
    pub cancels: u32,
    pub tickets: u64,
    pub wait: Timer,
    pub ack: Timer,
    pub cancel: Timer,
}

// Whether a call can start.
pub fn may_start(state: State) -> bool
    ensures { result ≡ may_start state }
{
    matches!(
        state,
        State::Queued | State::AckPending | State::Complete | State::Fault
    )
}

// Whether no call was started yet.
pub fn is_queued(state: State) -> bool
    ensures { result ≡ is_queued state }
{
    state == State::Queued
}

// Whether fragments are being sent.
pub fn is_sending(state: State) -> bool
    ensures { result ≡ is_sending state }
{
    state == State::SendFrags
}

// Whether the state is one of the three active ones, which name the timer CANCEL.
pub fn is_active(state: State) -> bool
    ensures { result ≡ is_active state }
{
    matches!(
        state,
        State::SendFrags | State::Dispatched | State::ReceiveFrags
    )
}

// Whether the whole request is sent and no response has come.
pub fn is_dispatched(state: State) -> bool
    ensures { result ≡ is_dispatched state }
{
    state == State::Dispatched
}

// Whether the state names the timer WAIT.
pub fn is_waiting(state: State) -> bool
    ensures { result ≡ is_waiting state }
{
    matches!(state, State::Dispatched | State::ReceiveFrags)
}

// Whether the state names the timer ACK.
pub fn is_ack_pending(state: State) -> bool
    ensures { result ≡ is_ack_pending state }
{
    state == State::AckPending
}

// Whether the message sent keeps the rules of the state.
fn outgoing_is_sound(state: State, o: Outgoing) -> bool
    ensures { result ≡ outgoing_sound state o }
{
    outgoing::is_bounded(o)
        && match state {
            State::Queued => outgoing::has_nothing(o),
            State::SendFrags => outgoing::has_message(o) && o.sent < o.count,
            _ => outgoing::has_message(o),
        }
}

// Whether each timer is off, or named by the state and its ticket at most the counter.
fn timers_are_sound(c: Client) -> bool
    ensures { result ≡ timers_sound c.state c.wait c.ack c.cancel c.tickets }
{
    timers::is_sound_where(is_waiting(c.state), c.wait, c.tickets)
        && timers::is_sound_where(is_ack_pending(c.state), c.ack, c.tickets)
        && timers::is_sound_where(is_active(c.state), c.cancel, c.tickets)
}

// Whether the record keeps its rules. It is inlined: else each event would copy its record to ask this.
#[inline]
pub fn is_sound(c: Client) -> bool
    ensures { result ≡ sound c }
{
    c.waits <= RETRY_LIMIT
        && c.resends <= RETRY_LIMIT
        && outgoing_is_sound(c.state, c.outgoing)
        && incoming::is_sound(c.incoming)
        && timers_are_sound(c)
}

// A fresh client: QUEUED, nothing held or armed.
pub fn fresh(activity: [u8; 16], tickets: u64) -> Client
    ensures { result ≡ fresh_record activity tickets }
{
    Client {
        state: State::Queued,
        activity,
        number: 0,
        call: calls::no_call(),
        outgoing: outgoing::nothing(0),
        incoming: incoming::empty(),
        waits: 0,
        resends: 0,
        cancels: 0,
        tickets,
        wait: None,
        ack: None,
        cancel: None,
    }
}

// To a state of the active call, WAIT armed afresh; CANCEL stays as it is.
pub fn to_waiting(c: Client, state: State) -> Client
    ensures { result ≡ waiting c state }
{
    Client {
        state,
        tickets: timers::next_ticket(c.tickets),
        wait: timers::armed_afresh(c.tickets),
        ack: None,
        ..c
    }
}

// To SEND_FRAGS, WAIT disarmed; CANCEL stays as it is.
pub fn to_sending(c: Client) -> Client
    ensures { result ≡ sending_again c }
{
    Client {
        state: State::SendFrags,
        wait: None,
        ack: None,
        ..c
    }
}

// To ACK_PENDING with only ACK armed.
pub fn to_ack_pending(c: Client) -> Client
    ensures { result ≡ ack_pending c }
{
    Client {
        state: State::AckPending,
        tickets: timers::next_ticket(c.tickets),
        wait: None,
        ack: timers::armed_afresh(c.tickets),
        cancel: None,
        ..c
    }
}

// To a state with nothing armed.
pub fn to_unarmed(c: Client, state: State) -> Client
    ensures { result ≡ unarmed c state }
{
    Client {
        state,
        wait: None,
        ack: None,
        cancel: None,
        ..c
    }
}

// CANCEL armed if it is not; the state and the other timers stay as they are.
pub fn arm_cancel(c: Client) -> Client
    ensures { result ≡ cancel_armed c }
{
    Client {
        tickets: timers::tickets_if_off(c.cancel, c.tickets),
        cancel: timers::armed_if_off(c.cancel, c.tickets),
        ..c
    }
}

// CANCEL disarmed, and nothing else.
pub fn disarm_cancel(c: Client) -> Client
    ensures { result ≡ cancel_disarmed c }
{
    Client { cancel: None, ..c }
}

// The timer of a kind.
pub fn timer_of(kind: TimerKind, c: Client) -> Timer
    ensures { result ≡ named_timer kind c.wait c.ack c.cancel }
{
    match kind {
        TimerKind::Wait => c.wait,
        TimerKind::Ack => c.ack,
        TimerKind::Cancel => c.cancel,
    }
}

// Whether the state has the row of a timer.
pub fn is_named(kind: TimerKind, state: State) -> bool
    ensures { result ≡ named_by kind state }
{
    match kind {
        TimerKind::Wait => is_waiting(state),
        TimerKind::Ack => is_ack_pending(state),
        TimerKind::Cancel => is_active(state),
    }
}
