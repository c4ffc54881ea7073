// The shelf for a player in C, over bytes that it lends: slot records of 5 bytes, images, an image. `desk` has these calls under C names.
#![tactic(auto)]

ghost use Rattle.std.specs.Prelude.{◌≡◌, length};
ghost use Rattle.refusal.specs.Numbers as Numbers;
ghost use Rattle.shelf.specs.Shelf as Shelf;
ghost use Rattle.desk_shelf.specs.Calls as Calls;

use desk_records::{RECORDS, read_records, write_records};
use refusal::Refusal;

// The image is saved in the lowest slot without users, whose number goes to `slot`.
pub fn save(
    records: &mut [u8],
    images: &mut [u8],
    image: &[u8],
    frame: u32,
    slot: &mut [u8],
) -> Result<(), Refusal>
    ensures number { Numbers.told result ≡ Shelf.number (Calls.save records.old (length images.old) image.now frame (length slot.old)) }
    ensures records { records.new ≡ Calls.records_after (Calls.save records.old (length images.old) image.now frame (length slot.old)) records.old }
    ensures images { images.new ≡ Shelf.images_after (Calls.save records.old (length images.old) image.now frame (length slot.old)) (Calls.saved_image image.now) images.old }
    ensures slot { slot.new ≡ Calls.slot_after (Calls.save records.old (length images.old) image.now frame (length slot.old)) slot.old }
{
    if image.len() != image::SIZE {
        return Err(Refusal::ImageLength);
    }
    if slot.len() != 1 {
        return Err(Refusal::ShelfLength);
    }
    if records.len() != RECORDS {
        return Err(Refusal::ShelfLength);
    }
    let state = image::read(image);
    let mut slots = read_records(records);
    let taken = shelf::save(&mut slots, images, state, frame)?;
    write_records(slots, records);
    slot[0] = taken as u8;
    Ok(())
}

// A user more.
pub fn hold(records: &mut [u8], images: &[u8], slot: u32) -> Result<(), Refusal>
    ensures number { Numbers.told result ≡ Shelf.number (Calls.hold records.old (length images.now) slot) }
    ensures records { records.new ≡ Calls.records_after (Calls.hold records.old (length images.now) slot) records.old }
{
    if records.len() != RECORDS {
        return Err(Refusal::ShelfLength);
    }
    let mut slots = read_records(records);
    shelf::hold(&mut slots, images, slot)?;
    write_records(slots, records);
    Ok(())
}

// A user fewer.
pub fn let_go(records: &mut [u8], images: &[u8], slot: u32) -> Result<(), Refusal>
    ensures number { Numbers.told result ≡ Shelf.number (Calls.let_go records.old (length images.now) slot) }
    ensures records { records.new ≡ Calls.records_after (Calls.let_go records.old (length images.now) slot) records.old }
{
    if records.len() != RECORDS {
        return Err(Refusal::ShelfLength);
    }
    let mut slots = read_records(records);
    shelf::let_go(&mut slots, images, slot)?;
    write_records(slots, records);
    Ok(())
}

// The image that was saved last in a slot that has users.
pub fn fetch(records: &[u8], images: &[u8], slot: u32, image: &mut [u8]) -> Result<(), Refusal>
    ensures number { Numbers.told result ≡ Calls.fetch_number records.now images.now slot (length image.old) }
    ensures image { image.new ≡ Calls.fetch_image records.now images.now slot image.old }
{
    if image.len() != image::SIZE {
        return Err(Refusal::ImageLength);
    }
    if records.len() != RECORDS {
        image_write::write(state::all_zero(), image);
        return Err(Refusal::ShelfLength);
    }
    match shelf::fetch(&read_records(records), images, slot) {
        Ok(state) => {
            image_write::write(state, image);
            Ok(())
        }
        Err(why) => {
            image_write::write(state::all_zero(), image);
            Err(why)
        }
    }
}
