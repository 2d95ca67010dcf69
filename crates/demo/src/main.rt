// A console calls a controller over a network that loses, repeats and delays PDUs. The program shows
// how hosts use the library, and prints a line for each event.
#![tactic(auto)]

mod clock;
mod console;
mod controller;
mod datagram;
mod host;
mod line;
mod network;
mod reasons;
mod schedule;
mod transcript;

use console::{Console, REQUEST_SIZE};
use controller::{Controller, REPLY_SIZE};
use host::Memory;
use network::Network;
use schedule::Next;
use words::{PDU_SIZE, SLOTS_SIZE};

// More events than the call takes.
const EVENTS: u64 = 100;

// The call, from its start until nothing is left to happen.
fn run(console: &mut Console, controller: &mut Controller) {
    let mut network = Network::quiet();
    for number in 1..=EVENTS {
        match &schedule::next_event(console, controller, &mut network) {
            Some(Next::Client(event)) => host::turn(console, event, number, &mut network),
            Some(Next::Server(event)) => host::turn(controller, event, number, &mut network),
            None => break,
        }
    }
}

// All memory is the hosts': a slot buffer and a PDU buffer for each record, and the messages, whose bytes are
// such that a fragment in a wrong place would be noticed. They are arrays: a Vec needs a heap, whose functions would be
// assumed.
fn main() {
    let mut request = [0; REQUEST_SIZE as usize];
    let mut client_slots = [0; SLOTS_SIZE];
    let mut client_pdu = [0; PDU_SIZE];
    let mut reply = [0; REPLY_SIZE as usize];
    let mut server_slots = [0; SLOTS_SIZE];
    let mut server_pdu = [0; PDU_SIZE];
    lines::fill(&mut request, 1);
    lines::fill(&mut reply, 2);
    let mut console = Console::fresh(Memory {
        message: &request,
        slots: &mut client_slots,
        pdu: &mut client_pdu,
    });
    let mut controller = Controller::fresh(Memory {
        message: &reply,
        slots: &mut server_slots,
        pdu: &mut server_pdu,
    });
    transcript::print_head();
    run(&mut console, &mut controller);
    line::print(b"\n");
    host::report(&controller, &request);
    host::report(&console, &reply);
}
