// The server's functions. Each calls the function of its name in morphelai, and says what that says.
// Names and parameters are C's (include/morphelai.h).
ghost use Rattle.std.specs.Prelude.{◌≡◌, []};
ghost use Rattle.morphelai.specs.Export.{Exported};
ghost use Rattle.morphelai.specs.ServerDoor.{server_fresh, server_arrive, server_transmit, server_timer, server_reply, server_fault, server_part};

// Makes a fresh record of an activity, whose first ticket is one more than this.
#[unsafe(no_mangle)]
pub extern "C" fn morphelai_server_fresh(
    bytes: &mut [u8],
    activity: &[u8],
    boot: u32,
    tickets: u64,
) -> u64
    ensures { Exported (server_fresh bytes.old activity.now boot tickets)
        result bytes.new [] [] }
{
    morphelai::morphelai_server_fresh(bytes, activity, boot, tickets)
}

// Transmit: the next fragment of the lent message.
#[unsafe(no_mangle)]
pub extern "C" fn morphelai_server_transmit(bytes: &mut [u8], message: &[u8], out: &mut [u8]) -> u64
    ensures { Exported (server_transmit bytes.old message.now out.old)
        result bytes.new [] out.new }
{
    morphelai::morphelai_server_transmit(bytes, message, out)
}

// An arriving datagram.
#[unsafe(no_mangle)]
pub extern "C" fn morphelai_server_arrive(
    bytes: &mut [u8],
    datagram: &[u8],
    slots: &mut [u8],
    out: &mut [u8],
) -> u64
    ensures { Exported (server_arrive bytes.old datagram.now slots.old out.old)
        result bytes.new slots.new out.new }
{
    morphelai::morphelai_server_arrive(bytes, datagram, slots, out)
}

// The timer of this kind that ran out, with its ticket: 3 is RESEND.
#[unsafe(no_mangle)]
pub extern "C" fn morphelai_server_timer(
    bytes: &mut [u8],
    kind: u8,
    ticket: u64,
    out: &mut [u8],
) -> u64
    ensures { Exported (server_timer bytes.old kind ticket out.old)
        result bytes.new [] out.new }
{
    morphelai::morphelai_server_timer(bytes, kind, ticket, out)
}

// Reply: a message of this length for the call that is running.
#[unsafe(no_mangle)]
pub extern "C" fn morphelai_server_reply(bytes: &mut [u8], length: u32) -> u64
    ensures { Exported (server_reply bytes.old length) result bytes.new [] [] }
{
    morphelai::morphelai_server_reply(bytes, length)
}

// Fault: the call that is running fails with this status.
#[unsafe(no_mangle)]
pub extern "C" fn morphelai_server_fault(bytes: &mut [u8], status: u32, out: &mut [u8]) -> u64
    ensures { Exported (server_fault bytes.old status out.old)
        result bytes.new [] out.new }
{
    morphelai::morphelai_server_fault(bytes, status, out)
}

// How long the part of the slot buffer is that is fragment f of what was received.
#[unsafe(no_mangle)]
pub extern "C" fn morphelai_server_part(bytes: &[u8], f: u16, slots: &[u8]) -> u64
    ensures { result ≡ server_part bytes.now f slots.now }
{
    morphelai::morphelai_server_part(bytes, f, slots)
}
