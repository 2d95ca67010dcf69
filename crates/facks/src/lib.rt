// What a fack says of the fragments held: its fragment number and its mask.
#![tactic(auto, unfolding(crate::specs::Mask::last_contiguous, crate::specs::Mask::acknowledged_by, crate::specs::Mask::mask_from, words::specs::Choice::choose))]

ghost use Rattle.std.specs.Prelude.{◌≡◌, drop};
ghost use Rattle.facks.specs.Mask.{last_contiguous, acknowledged_by, held_bit, held_word, mask_from};

use incoming::{Incoming, Slots};

// The number of a fack for a contiguous count: the count less 1, or 65535 for none.
// 65535 and no Option: a fack's header has it so (last_contiguous).
pub fn number(count: u16) -> u16
    ensures { result ≡ last_contiguous count }
{
    count.wrapping_sub(1)
}

// How many fragments a fack acknowledges by its number; 65535 counts as none.
// 65535 and no Option: a fack's header has it so (last_contiguous).
pub fn acknowledged_by(g: u16) -> u16
    ensures { result ≡ acknowledged_by g }
{
    g.wrapping_add(1)
}

// The bit of a fragment: 1 where it is held.
fn bit_of(held: bool) -> u32
    ensures { result ≡ held_bit held }
{
    u32::from(held)
}

// The word of the slots from number `from` on, built from the last down.
fn word_from(slots: &Slots, from: u16) -> u32
    ensures { result ≡ held_word (drop from slots.now) }
{
    let behind = &slots[usize::from(from).min(slots.len())..];
    behind
        .iter()
        .rev()
        .fold(0, |word, slot| word << 1 | bit_of(slot.held))
}

// The mask of a fack for a contiguous count.
pub fn mask(m: Incoming, count: u16) -> u32
    ensures { result ≡ mask_from count m }
{
    word_from(&m.slots, count)
}
