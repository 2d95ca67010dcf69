// The server's record: what a controller keeps of an activity, the rules that a record keeps, the two
// ways in which a row leaves its timer, the record with another part, and whether a call can be run again.
#![tactic(auto, unfolding(crate::specs::records::States::never_called, crate::specs::records::States::is_fresh, crate::specs::records::States::is_running, crate::specs::records::States::is_replying, crate::specs::records::States::is_held, crate::specs::records::Rules::idle_rule, crate::specs::records::Rules::held_rule, crate::specs::records::Rules::message_rule, crate::specs::records::Rules::outgoing_sound, crate::specs::records::Rules::sound, crate::specs::records::Record::fresh, crate::specs::records::Record::holding, crate::specs::records::Record::unarmed, crate::specs::records::Record::with_seen, crate::specs::records::Repeatable::runs_again, words::specs::Choice::choose, words::specs::Choice::both, words::specs::Choice::either))]

ghost use Rattle.std.specs.Prelude.{◌≡◌};
ghost use Rattle.server.specs.records.States.{is_fresh, is_running, is_replying, is_held};
ghost use Rattle.server.specs.records.Rules.{message_rule, outgoing_sound, sound};
ghost use Rattle.server.specs.records.Record.{fresh as fresh_record, holding, unarmed, with_seen, with_call};
ghost use Rattle.server.specs.records.Repeatable.{runs_again};

use calls::Call;
use incoming::Incoming;
use outgoing::Outgoing;
use timers::Timer;
use words::RETRY_LIMIT;

// What became of the last call.
#[derive(Clone, Copy, PartialEq, Eq, Debug)]
pub enum Idle {
    // No call has come yet.
    Fresh,
    // It is not to run again.
    Spent,
    // It is idempotent, and a request for it begins it again.
    Repeatable,
}

// What the stub answered with: data, or a fault with its status.
// No Option of a status: data and fault are document 01's two replies (docs/DECISIONS.md, Forms).
#[derive(Clone, Copy, PartialEq, Eq, Debug)]
pub enum Reply {
    Data,
    Fault(u32),
}

#[derive(Clone, Copy, PartialEq, Eq, Debug)]
pub enum State {
    Idle(Idle),
    Collect,
    Running,
    Replying,
    Held(Reply),
}

// The number, the call and the cancel number last seen mean nothing in IDLE fresh.
#[derive(Clone, Copy)]
pub struct Server {
    pub state: State,
    pub activity: [u8; 16],
    pub boot: u32,
    pub number: u32,
    pub call: Call,
    pub outgoing: Outgoing,
    pub incoming: Incoming,
    pub resends: u8,
    // The cancel number last seen.
    pub seen: u32,
    pub tickets: u64,
    pub resend: Timer,
}

// Whether the record has no number: no call has come yet.
pub fn is_fresh(state: State) -> bool
    ensures { result ≡ is_fresh state }
{
    matches!(state, State::Idle(Idle::Fresh))
}

// Whether the stub has the call.
pub fn is_running(state: State) -> bool
    ensures { result ≡ is_running state }
{
    matches!(state, State::Running)
}

// Whether fragments of a reply are being sent.
pub fn is_replying(state: State) -> bool
    ensures { result ≡ is_replying state }
{
    matches!(state, State::Replying)
}

// Whether the state names the timer RESEND.
pub fn is_held(state: State) -> bool
    ensures { result ≡ is_held state }
{
    matches!(state, State::Held(_))
}

// Which rule of the fragment count a state asks for: none out, one that is not all sent, or one.
fn message_rule(state: State, nothing: bool, unsent: bool, message: bool) -> bool
    ensures { result ≡ message_rule state nothing unsent message }
{
    match state {
        State::Idle(Idle::Fresh) | State::Collect | State::Running => nothing,
        State::Idle(Idle::Spent | Idle::Repeatable) => nothing || message,
        State::Replying => unsent,
        State::Held(Reply::Data) => message,
        State::Held(Reply::Fault(_)) => nothing,
    }
}

// Whether the message sent keeps the rules of the state.
fn outgoing_is_sound(state: State, o: Outgoing) -> bool
    ensures { result ≡ outgoing_sound state o }
{
    let message = outgoing::has_message(o);
    let unsent = message && o.sent < o.count;
    outgoing::is_bounded(o) && message_rule(state, outgoing::has_nothing(o), unsent, message)
}

// Whether the record keeps its rules.
pub fn is_sound(s: Server) -> bool
    ensures { result ≡ sound s }
{
    s.resends <= RETRY_LIMIT
        && outgoing_is_sound(s.state, s.outgoing)
        && incoming::is_sound(s.incoming)
        && timers::is_sound_where(is_held(s.state), s.resend, s.tickets)
}

// A fresh server: IDLE fresh, nothing held or armed.
pub fn fresh(activity: [u8; 16], boot: u32, tickets: u64) -> Server
    ensures { result ≡ fresh_record activity boot tickets }
{
    Server {
        state: State::Idle(Idle::Fresh),
        activity,
        boot,
        number: 0,
        call: calls::no_call(),
        outgoing: outgoing::nothing(0),
        incoming: incoming::empty(),
        resends: 0,
        seen: 0,
        tickets,
        resend: None,
    }
}

// To HELD with RESEND armed.
pub fn to_holding(s: Server, reply: Reply) -> Server
    ensures { result ≡ holding s reply }
{
    Server {
        state: State::Held(reply),
        tickets: timers::next_ticket(s.tickets),
        resend: timers::armed_afresh(s.tickets),
        ..s
    }
}

// To a state with nothing armed.
pub fn to_unarmed(s: Server, state: State) -> Server
    ensures { result ≡ unarmed s state }
{
    Server {
        state,
        resend: None,
        ..s
    }
}

// The record with another cancel number last seen.
pub fn with_seen(s: Server, seen: u32) -> Server
    ensures { result ≡ with_seen s seen }
{
    Server { seen, ..s }
}

// Another call in place of the last one, of which nothing stays.
pub fn with_call(s: Server, state: State, number: u32, call: Call) -> Server
    ensures { result ≡ with_call s state number call }
{
    Server {
        state,
        number,
        call,
        ..fresh(s.activity, s.boot, s.tickets)
    }
}

// Whether a call can be run again after this reply: an idempotent one whose reply is one fragment.
pub fn runs_again(idempotent: bool, o: Outgoing) -> bool
    ensures { result ≡ runs_again idempotent o }
{
    idempotent && o.count == 1
}
