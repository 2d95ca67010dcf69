// A timer of a host. The library has no clock: its record names the ticket that is armed, and the
// host hands in the ticket with which it started its timer, when that runs out.
use timers::Timer;

// A timer that runs: the ticket with which it was started, and which event started it.
#[derive(Clone, Copy, Debug, PartialEq, Eq)]
pub(crate) struct Alarm {
    pub ticket: u64,
    pub since: u64,
}

// The host's timer after an event, which handed in a ticket or none, and left this armed in the record.
// A timer that runs is left alone, even if it was disarmed or armed afresh: its ticket is late then, and
// the library refuses it. One that does not run, or has just run out, is started with the ticket armed.
pub(crate) fn after_event(
    alarm: Option<Alarm>,
    handed_in: Option<u64>,
    armed: Timer,
    event: u64,
) -> Option<Alarm> {
    alarm
        .filter(|running| Some(running.ticket) != handed_in)
        .or(armed.map(|ticket| Alarm {
            ticket,
            since: event,
        }))
}
