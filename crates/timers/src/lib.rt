// Timers: off, or armed with a ticket that a record's one counter gives out.
#![tactic(auto, unfolding(crate::specs::Tickets::used_up, crate::specs::Tickets::next_ticket, crate::specs::Tickets::armed_afresh, crate::specs::Tickets::armed_if_off, crate::specs::Tickets::tickets_if_off, crate::specs::Tickets::armed_with, crate::specs::Tickets::off, crate::specs::Tickets::sound, crate::specs::Tickets::timer_sound, words::specs::Choice::both, words::specs::Choice::either, words::specs::Choice::choose))]

ghost use Rattle.std.specs.Prelude.{◌≡◌};
ghost use Rattle.timers.specs.Tickets.{used_up, next_ticket, armed_afresh, armed_if_off, tickets_if_off, armed_with, off, sound, timer_sound};

// A timer: off, or armed with that ticket.
pub type Timer = Option<u64>;

// Whether no further ticket can be made.
pub fn used_up(counter: u64) -> bool
    ensures { result ≡ used_up counter }
{
    counter == u64::MAX
}

// The counter after arming, which is the new ticket; a used up counter stays as it is.
pub fn next_ticket(counter: u64) -> u64
    ensures { result ≡ next_ticket counter }
{
    counter.saturating_add(1)
}

// A timer armed with the next ticket.
pub fn armed_afresh(counter: u64) -> Timer
    ensures { result ≡ armed_afresh counter }
{
    Some(next_ticket(counter))
}

// The timer armed with the next ticket where it is off; one that is armed stays as it is.
pub fn armed_if_off(timer: Timer, counter: u64) -> Timer
    ensures { result ≡ armed_if_off timer counter }
{
    timer.or(armed_afresh(counter))
}

// The counter after that.
pub fn tickets_if_off(timer: Timer, counter: u64) -> u64
    ensures { result ≡ tickets_if_off timer counter }
{
    if timer.is_none() {
        next_ticket(counter)
    } else {
        counter
    }
}

// Whether the timer is armed with that very ticket; else its event is late.
pub fn is_armed_with(timer: Timer, ticket: u64) -> bool
    ensures { result ≡ armed_with timer ticket }
{
    timer == Some(ticket)
}

// Whether no ticket is armed.
pub fn is_off(timer: Timer) -> bool
    ensures { result ≡ off timer }
{
    timer.is_none()
}

// Whether the timer is off or its ticket at most the counter.
fn is_sound(timer: Timer, counter: u64) -> bool
    ensures { result ≡ sound timer counter }
{
    timer.is_none_or(|held| held <= counter)
}

// Whether the timer is off, or named by the state and its ticket at most the counter.
pub fn is_sound_where(named: bool, timer: Timer, tickets: u64) -> bool
    ensures { result ≡ timer_sound named timer tickets }
{
    (named || is_off(timer)) && is_sound(timer, tickets)
}
