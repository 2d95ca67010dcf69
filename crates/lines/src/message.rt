// The bytes of a message, told by a seed.
ghost use Rattle.std.specs.Prelude.{◌≡◌, length};
ghost use Rattle.lines.specs.Message.{byte_of, message as message_of};

#[tactic(auto, using(crate::proofs::MessageLaws::byte_reduced), unfolding(crate::specs::Message::byte_of))]
fn byte(seed: u8, i: usize) -> u8
    ensures { result ≡ byte_of seed i }
{
    ((usize::from(seed) + 7 * (i % 256) + i / words::BODY_SIZE % 256) % 256) as u8
}

// Byte i becomes (seed + 7 i + i / BODY_SIZE) mod 256.
pub fn fill(message: &mut [u8], seed: u8)
    ensures { message.new ≡ message_of (length message.old) seed }
{
    for (i, place) in message.iter_mut().enumerate() {
        *place = byte(seed, i);
    }
}
