// The shelf of saved states: sixteen slot records and as many images, lent by the player.
// Each call reads the records by value, decides, and writes one record at most. What is decided of a slot's users is in slot_users.
#![tactic(auto)]

ghost use Rattle.std.specs.Prelude.{◌≡◌, ◌<◌, length};
ghost use Rattle.image.specs.Image as Image;
ghost use Rattle.refusal.specs.Numbers as Numbers;
ghost use Rattle.shelf.specs.Shelf as Shelf;
ghost use Rattle.shelf.specs.Answers as Answers;

use image::SIZE;
use refusal::Refusal;
use slot_users::SLOTS;
use slots::Slot;
use state::State;

// How many bytes the images of all slots take.
pub const ROOM: usize = SLOTS * SIZE;

// The sixteen records by value, where there are sixteen, and bytes for sixteen images.
pub fn lent(slots: &[Slot], room: usize) -> Result<[Slot; 16], Refusal>
    ensures { result ≡ Answers.lent_of slots.now room }
{
    if room == ROOM {
        slots::shown(slots).ok_or(Refusal::ShelfLength)
    } else {
        Err(Refusal::ShelfLength)
    }
}

// Slot k's image is written.
fn store(images: &mut [u8], k: usize, state: State)
    requires fact_1 { length images.old ≡ Shelf.ROOM }
    requires fact_2 { k < 16 }
    ensures { images.new ≡ Shelf.with_image k (Image.image state) images.old }
{
    let a = SIZE * k;
    let e = a + SIZE;
    image_write::write(state, &mut images[a..e]);
}

// Slot k's image is read.
fn load(images: &[u8], k: usize) -> State
    requires fact_1 { length images.now ≡ Shelf.ROOM }
    requires fact_2 { k < 16 }
    ensures { result ≡ Shelf.state_at k images.now }
{
    let a = SIZE * k;
    let e = a + SIZE;
    image::read(&images[a..e])
}

// Saving takes the lowest slot without users, and gives it one. The slot is answered.
pub fn save(slots: &mut [Slot], images: &mut [u8], state: State, frame: u32) -> Result<u32, Refusal>
    ensures { Shelf.SaveDone slots.old images.old state frame (Answers.saved result) slots.new images.new }
{
    let sixteen = lent(slots, images.len())?;
    let k = slot_users::free(sixteen).ok_or(Refusal::SlotFull)?;
    if !state::obeys(state) {
        return Err(Refusal::StateRule);
    }
    store(images, k, state);
    slots::put(slots, k, Slot { users: 1, frame });
    Ok(k as u32)
}

// A user more, to 255.
pub fn hold(slots: &mut [Slot], images: &[u8], slot: u32) -> Result<(), Refusal>
    ensures { Shelf.Done (Shelf.hold slots.old (length images.now) slot) slots.old (Numbers.told result) slots.new }
{
    let sixteen = lent(slots, images.len())?;
    let change = slot_users::holding(sixteen, slot)?;
    slots::put(slots, change.at, change.slot);
    Ok(())
}

// A user fewer.
pub fn let_go(slots: &mut [Slot], images: &[u8], slot: u32) -> Result<(), Refusal>
    ensures { Shelf.Done (Shelf.let_go slots.old (length images.now) slot) slots.old (Numbers.told result) slots.new }
{
    let sixteen = lent(slots, images.len())?;
    let change = slot_users::letting_go(sixteen, slot)?;
    slots::put(slots, change.at, change.slot);
    Ok(())
}

// The state that was saved last in a slot that has users.
pub fn fetch(slots: &[Slot], images: &[u8], slot: u32) -> Result<State, Refusal>
    ensures { Answers.fetched result ≡ Shelf.fetch slots.now images.now slot }
{
    let sixteen = lent(slots, images.len())?;
    slot_users::held(sixteen, slot)?;
    let state = load(images, slot as usize);
    if state::obeys(state) {
        Ok(state)
    } else {
        Err(Refusal::StateRule)
    }
}
