// Sizes and limits of the protocol, each by its one name; `specs/Sizes.antt` has the same for definitions.

// The bytes of a PDU's header.
pub const HEADER_SIZE: usize = 80;
// The bytes of a body at most; each fragment of a message that is sent but the last has as many.
pub const BODY_SIZE: usize = 1392;
// The bytes of a PDU at most, which are those of the buffer that is lent for one.
pub const PDU_SIZE: usize = 1472;
// The slots of a record: so many fragments can be held at a time.
pub const WINDOW_SIZE: u16 = 32;
// The bytes of a slot buffer, exactly: room for a body in each slot.
pub const SLOTS_SIZE: usize = 44544;
// The highest number of a fragment; a message has at most one fragment more.
pub const LAST_NUMBER: u16 = 31;
// The bytes of a message at most.
pub const MESSAGE_SIZE: u32 = 44544;
// So often a timer tries again, and a call is sent again, before it is given up.
pub const RETRY_LIMIT: u8 = 5;
