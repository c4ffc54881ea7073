// What is decided of a slot's users, on sixteen records by value: which slot is free, whether one is held, what a hold and a letting-go make of it.
#![tactic(auto)]

ghost use Rattle.std.specs.Prelude.{◌≡◌};
ghost use Rattle.slot_users.specs.Users as Users;
ghost use Rattle.slot_users.specs.ByValue as ByValue;

use refusal::Refusal;
use slots::Slot;

// How many records there are.
pub const SLOTS: usize = 16;

// What is to be done to the records: one becomes another.
#[derive(Clone, Copy)]
pub struct Change {
    pub at: usize,
    pub slot: Slot,
}

// The record of a slot that is one of the sixteen, and has users.
pub fn held(slots: [Slot; 16], slot: u32) -> Result<Slot, Refusal>
    ensures { result ≡ ByValue.held slots slot }
{
    if 15 < slot {
        return Err(Refusal::NoSlot);
    }
    let s = slots[slot as usize];
    if s.users == 0 {
        Err(Refusal::NoSlot)
    } else {
        Ok(s)
    }
}

// A user more, to 255.
pub fn holding(slots: [Slot; 16], slot: u32) -> Result<Change, Refusal>
    ensures { ByValue.decided result ≡ Users.hold_lent slots slot }
{
    let s = held(slots, slot)?;
    if s.users == 255 {
        return Err(Refusal::SlotFull);
    }
    let more = Slot {
        users: s.users + 1,
        frame: s.frame,
    };
    Ok(Change {
        at: slot as usize,
        slot: more,
    })
}

// A user fewer.
pub fn letting_go(slots: [Slot; 16], slot: u32) -> Result<Change, Refusal>
    ensures { ByValue.decided result ≡ Users.let_go_lent slots slot }
{
    let s = held(slots, slot)?;
    let fewer = Slot {
        users: s.users - 1,
        frame: s.frame,
    };
    Ok(Change {
        at: slot as usize,
        slot: fewer,
    })
}

// The lowest slot without users.
pub fn free(slots: [Slot; 16]) -> Option<usize>
    ensures { result ≡ ByValue.some_slot (Users.free slots) }
{
    slots.iter().position(|s| s.users == 0)
}
