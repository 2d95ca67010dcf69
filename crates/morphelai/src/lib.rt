// The door: what hosts in C and Rust call. A record is lent as 272 bytes, and an event gives one number.
#![tactic(auto)]

mod client_door;
mod codec_door;
mod record;
mod result;
mod server_door;

pub use client_door::{
    morphelai_client_arrive, morphelai_client_cancel, morphelai_client_fresh,
    morphelai_client_part, morphelai_client_start, morphelai_client_timer,
    morphelai_client_transmit,
};
pub use codec_door::{morphelai_read, morphelai_record_size, morphelai_write};
pub use server_door::{
    morphelai_server_arrive, morphelai_server_fault, morphelai_server_fresh, morphelai_server_part,
    morphelai_server_reply, morphelai_server_timer, morphelai_server_transmit,
};
