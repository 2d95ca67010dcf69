// Text put into a buffer, and the bytes of a test message.
#![tactic(auto)]

mod message;
mod text;

pub use message::fill;
pub use text::{put_number, put_text};
