// Fragments of a message received: judged against what is held, put into their slot, and handed up.
#![tactic(auto, unfolding(crate::specs::Fragment::lent_right, crate::specs::Fragment::is_last, crate::specs::Fragment::wants_fack, crate::specs::Fragment::wrong_fragment, crate::specs::Judgement::held, crate::specs::Judgement::held_above, crate::specs::Judgement::above_last, crate::specs::Judgement::other_last, crate::specs::Judgement::last_below_held, crate::specs::Judgement::contradicts, crate::specs::Put::put_of, crate::specs::Put::storing, crate::specs::Slots::filled, crate::specs::Slots::is_handed_up, crate::specs::Slots::handed_up, crate::specs::Joined::part_of, incoming::specs::Slots::progress_of, words::specs::Choice::both, words::specs::Choice::either, words::specs::Choice::choose))]

ghost use Rattle.std.specs.Prelude.{◌≡◌, ◌%◌, drop, eqb, leb};
ghost use Rattle.words.specs.Choice.{both};
ghost use Rattle.words.specs.Sizes.{body_size, slots_size};
ghost use Rattle.fragments.specs.Fragment.{lent_right, is_last, wants_fack, wrong_fragment};
ghost use Rattle.fragments.specs.Judgement.{held, any_held, above_last, other_last, contradicts};
ghost use Rattle.fragments.specs.Put.{put_of, put_into, storing};
ghost use Rattle.fragments.specs.Slots.{filled, is_handed_up, handed_up};
ghost use Rattle.fragments.specs.Joined.{part_of};

use incoming::{Incoming, Last, Slots};
use words::{BODY_SIZE, LAST_NUMBER, PDU_SIZE, SLOTS_SIZE};

// Whether a slot buffer and a PDU buffer have their lengths.
pub fn is_lent_right(slots: usize, out: usize) -> bool
    ensures { result ≡ lent_right slots out }
{
    slots == SLOTS_SIZE && out == PDU_SIZE
}

// Whether a fragment is the last: last set, or fragment clear.
pub fn is_last(flags1: u8) -> bool
    ensures { result ≡ is_last flags1 }
{
    flags::has(flags1, flags::LAST_FRAGMENT) || !flags::has(flags1, flags::FRAGMENT)
}

// Whether what is put is answered by a fack: a fragment whose sender did not ask for none.
fn wants_fack(flags1: u8) -> bool
    ensures { result ≡ wants_fack flags1 }
{
    !flags::has(flags1, flags::NO_FACK) && flags::has(flags1, flags::FRAGMENT)
}

// Whether a fragment number is above 31, or other than 0 where fragment is clear.
pub fn is_wrong(flags1: u8, number: u16) -> bool
    ensures { result ≡ wrong_fragment flags1 number }
{
    number > LAST_NUMBER || (!flags::has(flags1, flags::FRAGMENT) && number != 0)
}

// The length of a body as a record keeps it.
pub fn body_length(length: usize) -> u16
    ensures { result ≡ length % 65536 }
{
    (length % 65536) as u16
}

// A fragment that is put: its number, length and serial, whether it is the last, whether a fack is wanted for it; then
// what is held with it: the contiguous count, and whether all to the last are.
// The serial is told whether or not a fack is wanted (put_of): so facked and serial are no Option.
#[derive(Clone, Copy)]
pub struct Fragment {
    pub number: u16,
    pub length: u16,
    pub last: bool,
    pub serial: u16,
    pub facked: bool,
    pub count: u16,
    pub complete: bool,
}

// What of an arriving body is stored: nothing, or all of it as the fragment of that number.
pub type Stored = Option<u16>;

// Whether fragment f is held.
pub fn is_held(m: Incoming, f: u16) -> bool
    ensures { result ≡ held m f }
{
    m.slots.get(usize::from(f)).is_some_and(|slot| slot.held)
}

// Whether some slot from number `from` on is held.
fn held_from(slots: &Slots, from: usize) -> bool
    ensures { result ≡ any_held (drop from slots.now) }
{
    slots.iter().skip(from).any(|slot| slot.held)
}

// Whether fragment f is above the known last.
// As incoming's reaches, one line each: each is a definition of its own (above_last, all_to).
fn above_last(last: Last, f: u16) -> bool
    ensures { result ≡ above_last last f }
{
    last.is_some_and(|number| number < f)
}

// Whether the last fragment is f and another is known to be.
fn other_last(last: Last, f: u16, is_last: bool) -> bool
    ensures { result ≡ other_last last f is_last }
{
    last.is_some_and(|number| is_last && number != f)
}

// Whether fragment f contradicts what is held, in one of the three ways.
pub fn contradicts_held(m: Incoming, f: u16, is_last: bool) -> bool
    ensures { result ≡ contradicts m f is_last }
{
    above_last(m.last, f)
        || other_last(m.last, f, is_last)
        || (is_last && held_from(&m.slots, usize::from(f) + 1))
}

// Whether a body has its place in a slot buffer.
fn has_place(size: usize, body: usize) -> bool
    ensures { result ≡ both (eqb size slots_size) (leb body body_size) }
{
    size == SLOTS_SIZE && body <= BODY_SIZE
}

// Puts a fragment's bytes into their place of the slot buffer. A body that is too long, a number beyond the window and
// a buffer of another length leave it as it was.
fn fill(buffer: &mut [u8], f: u16, body: &[u8])
    ensures { buffer.new ≡ filled f body.now buffer.old }
{
    if has_place(buffer.len(), body.len()) {
        words::put(buffer, BODY_SIZE * usize::from(f), body);
    }
}

// Puts an arriving fragment's body where the plan says so.
pub fn store(place: Stored, body: &[u8], slots: &mut [u8])
    ensures { slots.new ≡ storing place body.now slots.old }
{
    if let Some(f) = place {
        fill(slots, f, body);
    }
}

// A fragment that is put into what is held, by its PDU's flags, serial, number and body length.
pub fn put_of(m: Incoming, flags1: u8, serial: u16, f: u16, length: u16) -> Fragment
    ensures { result ≡ put_of m flags1 serial f length }
{
    let last = is_last(flags1);
    let then = incoming::progress_of(incoming::with(m, f, length, last));
    Fragment {
        number: f,
        length,
        last,
        serial,
        facked: wants_fack(flags1),
        count: then.count,
        complete: then.complete,
    }
}

// What is held once such a fragment is put.
pub fn put_into(m: Incoming, p: Fragment) -> Incoming
    ensures { result ≡ put_into m p }
{
    incoming::with(m, p.number, p.length, p.last)
}

// Whether number f is handed up: a buffer of the right length, a sound record, a contiguous fragment.
fn is_handed_up(m: Incoming, f: u16, size: usize) -> bool
    ensures { result ≡ is_handed_up m f size }
{
    size == SLOTS_SIZE && incoming::is_sound(m) && f < incoming::count(m)
}

// The part of the slot buffer that is fragment f, where f is handed up; else an empty part.
#[tactic(auto, using(crate::proofs::FragmentLaws::handed_number, crate::proofs::FragmentLaws::handed_within), unfolding(crate::specs::Slots::handed_up, words::specs::Choice::choose))]
fn hand_up(m: Incoming, f: u16, buffer: &[u8]) -> &[u8]
    ensures { result.now ≡ handed_up m f buffer.now }
{
    if !is_handed_up(m, f, buffer.len()) {
        return &buffer[..0];
    }
    let number = usize::from(f);
    let from = BODY_SIZE * number;
    &buffer[from..from + usize::from(m.slots[number].length)]
}

// The part that a machine hands back for number f; an empty one where its record breaks its rules.
pub fn hand_up_where(kept: bool, m: Incoming, f: u16, slots: &[u8]) -> &[u8]
    ensures { result.now ≡ part_of kept m f slots.now }
{
    if kept {
        hand_up(m, f, slots)
    } else {
        &slots[..0]
    }
}
