// The message received: which fragments are held, how long each is, and which is known to be the last.
#![tactic(auto, unfolding(crate::specs::Slots::slot_sound, crate::specs::Slots::sound, crate::specs::Slots::contiguous, crate::specs::Slots::complete, crate::specs::Slots::progress_of, crate::specs::Slots::cleared, crate::specs::Slots::slots_with, crate::specs::Slots::last_with, crate::specs::Slots::stored, words::specs::Choice::both, words::specs::Choice::either, words::specs::Choice::choose))]

ghost use Rattle.std.specs.Prelude.{◌≡◌};
ghost use Rattle.incoming.specs.Slots.{within, slot_sound, sound_from, last_sound, sound, contiguous_from, contiguous, all_to, progress_of, cleared, stored};

use words::{BODY_SIZE, LAST_NUMBER, WINDOW_SIZE};

// A fragment's place: held or missing, and its length where it is held. It is no Option of a length: `is_sound` and
// every event of both machines answer records whose missing slots have any length, and an Option has no room for one.
#[derive(Clone, Copy)]
pub struct Slot {
    pub held: bool,
    pub length: u16,
}

// The slots of a record, in the order of their numbers.
pub type Slots = [Slot; WINDOW_SIZE as usize];

// The number known to be the last fragment's.
pub type Last = Option<u16>;

#[derive(Clone, Copy)]
pub struct Incoming {
    pub slots: Slots,
    pub last: Last,
}

// How far a message has come: the contiguous count, and whether all to the last are held.
#[derive(Clone, Copy)]
pub struct Progress {
    pub count: u16,
    pub complete: bool,
}

// Whether number i is not above the known last.
fn is_within(last: Last, i: usize) -> bool
    ensures { result ≡ within last i }
{
    last.is_none_or(|number| i <= usize::from(number))
}

// Whether a slot keeps the rules as number i's; one that is not held does.
fn slot_is_sound(last: Last, i: usize, slot: Slot) -> bool
    ensures { result ≡ slot_sound last i slot.held slot.length }
{
    !slot.held || (usize::from(slot.length) <= BODY_SIZE && is_within(last, i))
}

fn last_is_sound(last: Last) -> bool
    ensures { result ≡ last_sound last }
{
    last.is_none_or(|number| number <= LAST_NUMBER)
}

// Whether every slot keeps the rules. Slots are copied, four bytes each: of references LLVM makes a slower loop.
fn slots_are_sound(slots: &Slots, last: Last) -> bool
    ensures { result ≡ sound_from last 0 slots.now }
{
    slots
        .iter()
        .copied()
        .enumerate()
        .all(|(i, slot)| slot_is_sound(last, i, slot))
}

// Whether a message received keeps the record rules.
pub fn is_sound(m: Incoming) -> bool
    ensures { result ≡ sound m }
{
    last_is_sound(m.last) && slots_are_sound(&m.slots, m.last)
}

// How many slots from the first on are held without a gap.
fn count_held(slots: &Slots) -> u16
    ensures { result ≡ contiguous_from slots.now }
{
    slots.iter().take_while(|slot| slot.held).count() as u16
}

// The contiguous count.
pub fn count(m: Incoming) -> u16
    ensures { result ≡ contiguous m }
{
    count_held(&m.slots)
}

// Whether a count reaches the known last.
fn reaches(last: Last, held: u16) -> bool
    ensures { result ≡ all_to last held }
{
    last.is_some_and(|number| number < held)
}

// How far a message has come.
pub fn progress_of(m: Incoming) -> Progress
    ensures { result ≡ progress_of m }
{
    let count = count(m);
    Progress {
        count,
        complete: reaches(m.last, count),
    }
}

// Nothing held, no last known.
pub fn empty() -> Incoming
    ensures { result ≡ cleared }
{
    Incoming {
        slots: [Slot {
            held: false,
            length: 0,
        }; WINDOW_SIZE as usize],
        last: None,
    }
}

// The message with fragment f held, and known to be the last where it is; a number beyond the window has no slot.
pub fn with(mut m: Incoming, f: u16, length: u16, is_last: bool) -> Incoming
    ensures { result ≡ stored m f length is_last }
{
    if f < WINDOW_SIZE {
        m.slots[usize::from(f)] = Slot { held: true, length };
    }
    if is_last {
        m.last = Some(f);
    }
    m
}
