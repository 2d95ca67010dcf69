// The client's functions. Each calls the function of its name in morphelai, and says what that says.
// Names and parameters are C's (include/morphelai.h).
ghost use Rattle.std.specs.Prelude.{◌≡◌, []};
ghost use Rattle.morphelai.specs.Export.{Exported};
ghost use Rattle.morphelai.specs.ClientDoor.{client_fresh, client_start, client_transmit, client_arrive, client_timer, client_cancel, client_part};

// Makes a fresh record of an activity, whose first ticket is one more than this.
#[unsafe(no_mangle)]
pub extern "C" fn morphelai_client_fresh(bytes: &mut [u8], activity: &[u8], tickets: u64) -> u64
    ensures { Exported (client_fresh bytes.old activity.now tickets)
        result bytes.new [] [] }
{
    morphelai::morphelai_client_fresh(bytes, activity, tickets)
}

// Start: a call with a message of this length.
#[unsafe(no_mangle)]
pub extern "C" fn morphelai_client_start(
    bytes: &mut [u8],
    idempotent: u8,
    object: &[u8],
    interface: &[u8],
    version: u32,
    operation: u16,
    length: u32,
) -> u64
    ensures { Exported
        (client_start bytes.old idempotent object.now interface.now
        version operation length)
        result bytes.new [] [] }
{
    morphelai::morphelai_client_start(
        bytes, idempotent, object, interface, version, operation, length,
    )
}

// Transmit: the next fragment of the lent message.
#[unsafe(no_mangle)]
pub extern "C" fn morphelai_client_transmit(bytes: &mut [u8], message: &[u8], out: &mut [u8]) -> u64
    ensures { Exported (client_transmit bytes.old message.now out.old)
        result bytes.new [] out.new }
{
    morphelai::morphelai_client_transmit(bytes, message, out)
}

// An arriving datagram.
#[unsafe(no_mangle)]
pub extern "C" fn morphelai_client_arrive(
    bytes: &mut [u8],
    datagram: &[u8],
    slots: &mut [u8],
    out: &mut [u8],
) -> u64
    ensures { Exported (client_arrive bytes.old datagram.now slots.old out.old)
        result bytes.new slots.new out.new }
{
    morphelai::morphelai_client_arrive(bytes, datagram, slots, out)
}

// A timer of this kind that ran out, with its ticket: 1 is WAIT, 2 is ACK, 4 is CANCEL.
#[unsafe(no_mangle)]
pub extern "C" fn morphelai_client_timer(
    bytes: &mut [u8],
    kind: u8,
    ticket: u64,
    out: &mut [u8],
) -> u64
    ensures { Exported (client_timer bytes.old kind ticket out.old)
        result bytes.new [] out.new }
{
    morphelai::morphelai_client_timer(bytes, kind, ticket, out)
}

// Local cancel: the client's user asks that the call be stopped; the call goes on.
#[unsafe(no_mangle)]
pub extern "C" fn morphelai_client_cancel(bytes: &mut [u8], out: &mut [u8]) -> u64
    ensures { Exported (client_cancel bytes.old out.old)
        result bytes.new [] out.new }
{
    morphelai::morphelai_client_cancel(bytes, out)
}

// How long the part of the slot buffer is that is fragment f of what was received.
#[unsafe(no_mangle)]
pub extern "C" fn morphelai_client_part(bytes: &[u8], f: u16, slots: &[u8]) -> u64
    ensures { result ≡ client_part bytes.now f slots.now }
{
    morphelai::morphelai_client_part(bytes, f, slots)
}
