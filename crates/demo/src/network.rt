// The network: of the PDUs that a side sends it loses the second of every three, and delivers every
// fourth twice where it is not lost. And the last request comes again three times after its call was
// dispatched.
ghost use Rattle.std.specs.Prelude.{◌≡◌, ◌-◌, ◌≤◌};

use crate::datagram::{Datagram, Pdu};
use crate::host::Side;
use server::{Server, State};
use std::fmt;

// What the network does with a PDU.
#[derive(Clone, Copy, Debug, PartialEq, Eq)]
pub(crate) enum Fate {
    Lost,
    Delivered,
    Twice,
}

impl Fate {
    // That of the PDU of that number, counted from 1.
    fn of(number: u32) -> Fate {
        if number % 3 == 2 {
            Fate::Lost
        } else if number % 4 == 0 {
            Fate::Twice
        } else {
            Fate::Delivered
        }
    }

    // How many copies are delivered.
    fn copies(self) -> u8
        ensures { result ≤ 2 }
    {
        match self {
            Fate::Lost => 0,
            Fate::Delivered => 1,
            Fate::Twice => 2,
        }
    }
}

impl fmt::Display for Fate {
    fn fmt<W: fmt::Write>(&self, f: &mut fmt::Formatter<W>) -> fmt::Result {
        f.write_str(match self {
            Fate::Lost => "lost",
            Fate::Delivered => "",
            Fate::Twice => "twice",
        })
    }
}

// The wire to one side: the PDU on it, how many copies of it are still to be delivered, and how many PDUs were
// sent. One PDU is enough: what is on a wire is delivered before all else, and in this call its sender sends again
// only when no copy is left.
#[derive(Clone, Copy)]
struct Wire {
    pdu: Datagram,
    copies: u8,
    sent: u32,
}

impl Wire {
    fn quiet() -> Wire {
        Wire {
            pdu: Datagram::none(),
            copies: 0,
            sent: 0,
        }
    }

    // Sends a PDU: it is on the wire now, as often as the network delivers it.
    fn send(&mut self, pdu: &[u8]) -> Fate {
        self.sent = self.sent.wrapping_add(1);
        let fate = Fate::of(self.sent);
        self.pdu.keep(pdu);
        self.copies = fate.copies();
        fate
    }

    // What arrives next: one copy fewer is under way, where one was.
    fn deliver(&mut self) -> Option<Datagram>
        ensures { self.new.copies ≡ self.old.copies - 1 }
    {
        self.copies = self.copies.checked_sub(1)?;
        Some(self.pdu)
    }
}

// A wire to each side, and the straggler: a copy of the last request that stayed behind on its way.
#[derive(Drop)]
pub(crate) struct Network {
    to_client: Wire,
    to_server: Wire,
    straggler: Datagram,
    // How often the straggler came.
    came: u8,
}

impl Network {
    // A network on which nothing was sent.
    pub(crate) fn quiet() -> Network {
        Network {
            to_client: Wire::quiet(),
            to_server: Wire::quiet(),
            straggler: Datagram::none(),
            came: 0,
        }
    }

    // Sends a PDU to the other side. A request stays behind in place of the one before.
    pub(crate) fn send(&mut self, from: Side, pdu: &[u8]) -> Fate {
        if let Pdu::Request(_) = Pdu::read(pdu) {
            self.straggler.keep(pdu);
        }
        match from {
            Side::Client => self.to_server.send(pdu),
            Side::Server => self.to_client.send(pdu),
        }
    }

    // What arrives next at this side.
    pub(crate) fn deliver(&mut self, to: Side) -> Option<Datagram> {
        match to {
            Side::Client => self.to_client.deliver(),
            Side::Server => self.to_server.deliver(),
        }
    }

    // The straggler, where it comes now: first while the call runs, then while its reply is held after it
    // was sent again, then when the call is over.
    pub(crate) fn late_request(&mut self, server: &Server) -> Option<Datagram> {
        let comes = match (self.came, server.state) {
            (0, State::Running) => true,
            (1, State::Held(_)) => server.resends > 0,
            (2, State::Idle(_)) => true,
            _ => false,
        };
        if !comes {
            return None;
        }
        self.came = self.came.saturating_add(1);
        Some(self.straggler)
    }
}
