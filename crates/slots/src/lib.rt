// Slot records, lent as a slice of small structs: sixteen are read by value, and one is written.
#![tactic(auto)]

ghost use Rattle.std.specs.Prelude.{◌≡◌, set};
ghost use Rattle.slots.specs.Slots.{shown};

use std::array;

// How many use the state that is saved there, and the number of the frame that it is decoded with next: at 90,000 frames an hour 32 bits are five years of a call.
#[derive(Clone, Copy)]
pub struct Slot {
    pub users: u8,
    pub frame: u32,
}

// The sixteen, or none where there are not as many.
pub fn shown(slots: &[Slot]) -> Option<[Slot; 16]>
    ensures { result ≡ shown slots.now }
{
    if slots.len() != 16 {
        return None;
    }
    Some(array::from_fn(|k| slots[k]))
}

// One record is written; past the last nothing is.
pub fn put(slots: &mut [Slot], at: usize, s: Slot)
    ensures { slots.new ≡ set slots.old at s }
{
    if at < slots.len() {
        slots[at] = s;
    }
}
