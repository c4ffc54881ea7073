// The decoder's calls for a player in C, over memory that it lends: the table file's bytes, a state's image, a payload, room for samples.
#![tactic(auto)]

ghost use Rattle.std.specs.Prelude.{◌≡◌, length};
ghost use Rattle.shelf.specs.Shelf as Shelf;
ghost use Rattle.desk_shelf.specs.Calls as Calls;
ghost use Rattle.desk_fields.specs.Calls as Fields;
ghost use Rattle.desk_tables.specs.Check as Check;
ghost use Rattle.seek.specs.Seek as Seek;
ghost use Rattle.desk_calls.specs.Desk as Desk;
ghost use Rattle.desk_calls.specs.Seeking as Seeking;

use refusal::Refusal;
use slots::Slot;
use state::State;

// The length of the table file, where its last bytes begin, and how many bytes the samples of a frame take.
const TABLES: usize = 15834;

const BYTES: usize = 11926;

const ROOM: usize = 640;

// A refusal is a number in this file, since C reads it. This is that of an image of another length.
const NO_IMAGE: u8 = 11;

// All zero.
fn clear(image: &mut [u8])
    ensures { image.new ≡ Desk.zeros (length image.old) }
{
    image.fill(0);
}

// The state that a call starts from, with mark 2, and sure.
#[unsafe(no_mangle)]
pub extern "C" fn drolkhise_reset(tables: &[u8], image: &mut [u8]) -> u8
    ensures number { result ≡ Desk.reset_number tables.now image.old }
    ensures image { image.new ≡ Desk.reset_image tables.now image.old }
{
    if image.len() != image::SIZE {
        return NO_IMAGE;
    }
    if tables.len() != TABLES {
        clear(image);
        return 1;
    }
    let mut words = [0i16; 5963];
    image::read_words(tables, 0, &mut words);
    let r = state::reset(&words, &tables[BYTES..]);
    let state = r.state;
    image_write::write(state, image);
    r.number
}

// The same state, with 0 and 0.
#[unsafe(no_mangle)]
pub extern "C" fn drolkhise_cold_start(tables: &[u8], image: &mut [u8]) -> u8
    ensures number { result ≡ Desk.cold_number tables.now image.old }
    ensures image { image.new ≡ Desk.cold_image tables.now image.old }
{
    if image.len() != image::SIZE {
        return NO_IMAGE;
    }
    if tables.len() != TABLES {
        clear(image);
        return 1;
    }
    let mut words = [0i16; 5963];
    image::read_words(tables, 0, &mut words);
    let r = state::cold_start(&words, &tables[BYTES..]);
    let state = r.state;
    image_write::write(state, image);
    r.number
}

// A frame: its samples and the next state's image, or where it is refused the last two bytes alone, which become 0.
#[unsafe(no_mangle)]
pub extern "C" fn drolkhise_decode(
    tables: &[u8],
    image: &mut [u8],
    payload: &[u8],
    samples: &mut [u8],
) -> u8
    ensures number { result ≡ Desk.decode_number tables.now image.old payload.now (length samples.old) }
    ensures image { image.new ≡ Desk.decode_image tables.now image.old payload.now (length samples.old) }
    ensures samples { samples.new ≡ Desk.decode_samples tables.now image.old payload.now samples.old }
{
    if image.len() != image::SIZE {
        return NO_IMAGE;
    }
    if tables.len() != TABLES {
        lowering::lower(image);
        return 1;
    }
    if samples.len() != ROOM {
        lowering::lower(image);
        return 2;
    }
    let mut words = [0i16; 5963];
    image::read_words(tables, 0, &mut words);
    let mut pcm = [0i16; 320];
    let state = image::read(image);
    let a = celp::decode(&words, &tables[BYTES..], state, payload, &mut pcm);
    if a.number != 0 {
        lowering::lower(image);
        return a.number;
    }
    let next = a.state;
    image_write::write(next, image);
    image_bytes::put_words(&pcm, samples, 0);
    0
}

// How many samples a room of so many bytes has: 320 for each 640, of 64 frames at most; another room has none.
fn samples_in(room: usize) -> usize
    ensures { result ≡ Desk.samples_in room }
{
    let n = room / ROOM;
    if room != ROOM * n {
        return 0;
    }
    if 64 < n {
        return 0;
    }
    320 * n
}

// 1 to 64 frames, by the call on states; `pcm` has a place for each sample of the room.
fn frames(
    tables: &[u8],
    image: &mut [u8],
    payloads: &[u8],
    samples: &mut [u8],
    numbers: &mut [u8],
    pcm: &mut [i16],
) -> u8
    requires fact_1 { length image.old ≡ 526 }
    requires fact_2 { length tables.now ≡ 15834 }
    requires fact_3 { length pcm.old ≡ Desk.samples_in (length samples.old) }
    ensures number { result ≡ Desk.frames_number tables.now image.old payloads.now (length samples.old) (length numbers.old) }
    ensures image { image.new ≡ Desk.frames_image tables.now image.old payloads.now (length samples.old) (length numbers.old) }
    ensures samples { samples.new ≡ Desk.frames_samples tables.now image.old payloads.now samples.old (length numbers.old) }
    ensures numbers { numbers.new ≡ Desk.frames_numbers tables.now image.old payloads.now (length samples.old) numbers.old }
{
    let mut words = [0i16; 5963];
    image::read_words(tables, 0, &mut words);
    let state = image::read(image);
    image::read_words(samples, 0, pcm); // a refused frame's are written back
    let r = celp::decode_frames(&words, &tables[BYTES..], state, payloads, pcm, numbers);
    if r.number != 0 {
        lowering::lower(image);
        return r.number;
    }
    let next = r.state;
    image_write::write(next, image);
    image_bytes::put_words(pcm, samples, 0);
    0
}

// 1 to 64 frames: what their single calls write, one after the other. A refused one leaves its samples.
#[unsafe(no_mangle)]
pub extern "C" fn drolkhise_decode_frames(
    tables: &[u8],
    image: &mut [u8],
    payloads: &[u8],
    samples: &mut [u8],
    numbers: &mut [u8],
) -> u8
    ensures number { result ≡ Desk.frames_number tables.now image.old payloads.now (length samples.old) (length numbers.old) }
    ensures image { image.new ≡ Desk.frames_image tables.now image.old payloads.now (length samples.old) (length numbers.old) }
    ensures samples { samples.new ≡ Desk.frames_samples tables.now image.old payloads.now samples.old (length numbers.old) }
    ensures numbers { numbers.new ≡ Desk.frames_numbers tables.now image.old payloads.now (length samples.old) numbers.old }
{
    if image.len() != image::SIZE {
        return NO_IMAGE;
    }
    if tables.len() != TABLES {
        lowering::lower(image);
        return 1;
    }
    let n = samples_in(samples.len());
    let mut pcm = [0i16; 20480];
    frames(tables, image, payloads, samples, numbers, &mut pcm[..n])
}

// A frame that was lost: the mark becomes 0, and with it how sure it is.
#[unsafe(no_mangle)]
pub extern "C" fn drolkhise_missed_frame(image: &mut [u8]) -> u8
    ensures number { result ≡ Desk.missed_number image.old }
    ensures image { image.new ≡ Desk.missed_image image.old }
{
    if image.len() != image::SIZE {
        return NO_IMAGE;
    }
    let state = image::read(image);
    let r = state::missed_frame(state);
    lowering::lower(image);
    r.number
}

// The shelf: the calls of desk_shelf under C names.

#[unsafe(no_mangle)]
pub extern "C" fn drolkhise_shelf_save(
    records: &mut [u8],
    images: &mut [u8],
    image: &[u8],
    frame: u32,
    slot: &mut [u8],
) -> u8
    ensures number { result ≡ Shelf.number (Calls.save records.old (length images.old) image.now frame (length slot.old)) }
    ensures records { records.new ≡ Calls.records_after (Calls.save records.old (length images.old) image.now frame (length slot.old)) records.old }
    ensures images { images.new ≡ Shelf.images_after (Calls.save records.old (length images.old) image.now frame (length slot.old)) (Calls.saved_image image.now) images.old }
    ensures slot { slot.new ≡ Calls.slot_after (Calls.save records.old (length images.old) image.now frame (length slot.old)) slot.old }
{
    refusal::told(desk_shelf::save(records, images, image, frame, slot))
}

#[unsafe(no_mangle)]
pub extern "C" fn drolkhise_shelf_hold(records: &mut [u8], images: &[u8], slot: u32) -> u8
    ensures number { result ≡ Shelf.number (Calls.hold records.old (length images.now) slot) }
    ensures records { records.new ≡ Calls.records_after (Calls.hold records.old (length images.now) slot) records.old }
{
    refusal::told(desk_shelf::hold(records, images, slot))
}

#[unsafe(no_mangle)]
pub extern "C" fn drolkhise_shelf_let_go(records: &mut [u8], images: &[u8], slot: u32) -> u8
    ensures number { result ≡ Shelf.number (Calls.let_go records.old (length images.now) slot) }
    ensures records { records.new ≡ Calls.records_after (Calls.let_go records.old (length images.now) slot) records.old }
{
    refusal::told(desk_shelf::let_go(records, images, slot))
}

#[unsafe(no_mangle)]
pub extern "C" fn drolkhise_shelf_fetch(
    records: &[u8],
    images: &[u8],
    slot: u32,
    image: &mut [u8],
) -> u8
    ensures number { result ≡ Calls.fetch_number records.now images.now slot (length image.old) }
    ensures image { image.new ≡ Calls.fetch_image records.now images.now slot image.old }
{
    refusal::told(desk_shelf::fetch(records, images, slot, image))
}

// By the call on states; `none` makes a set that is refused with 1, in its place among the refusals.
fn sought(
    tables: &[u8],
    slots: [Slot; 16],
    images: &[u8],
    recording: &[u8],
    k: u32,
) -> Result<State, Refusal>
    ensures { Seek.answer result ≡ Seek.seek (Desk.words tables.now) (Desk.bytes tables.now) slots images.now recording.now k }
{
    if tables.len() != TABLES {
        let none = [0i16; 1];
        return seek::seek(&none, tables, &slots, images, recording, k);
    }
    let mut words = [0i16; 5963];
    image::read_words(tables, 0, &mut words);
    seek::seek(&words, &tables[BYTES..], &slots, images, recording, k)
}

// The state that frame k of a recording will be decoded with, from the best save of the shelf.
#[unsafe(no_mangle)]
pub extern "C" fn drolkhise_seek(
    tables: &[u8],
    records: &[u8],
    images: &[u8],
    recording: &[u8],
    k: u32,
    image: &mut [u8],
) -> u8
    ensures number { result ≡ Seeking.seek_number tables.now records.now images.now recording.now k (length image.old) }
    ensures image { image.new ≡ Seeking.seek_image tables.now records.now images.now recording.now k image.old }
{
    if image.len() != image::SIZE {
        return NO_IMAGE;
    }
    if records.len() != desk_records::RECORDS {
        image_write::write(state::all_zero(), image);
        return 12;
    }
    match sought(
        tables,
        desk_records::read_records(records),
        images,
        recording,
        k,
    ) {
        Ok(state) => {
            image_write::write(state, image);
            0
        }
        Err(why) => {
            image_write::write(state::all_zero(), image);
            why.number()
        }
    }
}

// The table check, the unpacker and the packer: the calls of desk_tables and desk_fields under C names.

#[unsafe(no_mangle)]
pub extern "C" fn drolkhise_check_tables(tables: &[u8], told: &mut [u8]) -> u8
    ensures number { result ≡ Check.check_number tables.now (length told.old) }
    ensures told { told.new ≡ Check.check_told tables.now told.old }
{
    desk_tables::check_tables(tables, told)
}

#[unsafe(no_mangle)]
pub extern "C" fn drolkhise_unpack(payload: &[u8], fields: &mut [u8]) -> u8
    ensures number { result ≡ Fields.unpack_number payload.now (length fields.old) }
    ensures fields { fields.new ≡ Fields.unpack_fields payload.now fields.old }
{
    desk_fields::unpack(payload, fields)
}

#[unsafe(no_mangle)]
pub extern "C" fn drolkhise_pack(fields: &[u8], payload: &mut [u8]) -> u8
    ensures number { result ≡ Fields.pack_number fields.now payload.old }
    ensures payload { payload.new ≡ Fields.pack_payload fields.now payload.old }
{
    desk_fields::pack(fields, payload)
}
