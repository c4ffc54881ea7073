// Numbers stored as bytes from a place of a lent room on, the lowest byte first, a float by its bits.
#![tactic(auto)]

ghost use Rattle.std.specs.Prelude.{◌≡◌, map, ◌+◌, ◌*◌, ◌≤◌, length};
ghost use Rattle.std.proofs.lemmas.List.Edits.{sets};
ghost use Rattle.std.specs.Float.{binary32};
ghost use Rattle.std.specs.Float.Ieee.{to_bits};
ghost use Rattle.image.specs.Bytes as Bytes;
ghost use Rattle.image.specs.Parts as Parts;
ghost use Rattle.image.specs.Image as Image;

use std::num::f32_to_bits_with_nan;

fn unsigned_long(x: i32) -> u32
    ensures { result ≡ Image.unsigned 4 x }
{
    x.cast_unsigned()
}

fn put_word(n: u16, room: &mut [u8], at: usize)
    requires { at + 2 ≤ length room.old }
    ensures { room.new ≡ sets room.old at (Bytes.bytes_of 2 n) }
{
    room[at] = (n % 256) as u8;
    room[at + 1] = (n / 256) as u8;
}

// A number of 32 bits at a place of the room, the lowest byte first.
pub fn put_long(n: u32, room: &mut [u8], at: usize)
    requires { at + 4 ≤ length room.old }
    ensures { room.new ≡ sets room.old at (Bytes.bytes_of 4 n) }
{
    room[at] = (n % 256) as u8;
    room[at + 1] = (n / 256 % 256) as u8;
    room[at + 2] = (n / 65536 % 256) as u8;
    room[at + 3] = (n / 16777216) as u8;
}

// Words from a place of the room on.
pub fn put_words(words: &[i16], room: &mut [u8], at: usize)
    requires { at + 2 * length words.now ≤ length room.old }
    ensures { room.new ≡ sets room.old at (Parts.bytes_of_all 2 (map (Image.unsigned 2) words.now)) }
{
    // By index: where the bytes go follows from the place of the number.
    for k in 0..words.len() {
        put_word(tables::unsigned_word(words, k), room, at + 2 * k);
    }
}

// Numbers of 32 bits from a place of the room on.
pub fn put_longs(longs: &[i32], room: &mut [u8], at: usize)
    requires { at + 4 * length longs.now ≤ length room.old }
    ensures { room.new ≡ sets room.old at (Parts.bytes_of_all 4 (map (Image.unsigned 4) longs.now)) }
{
    // By index: where the bytes go follows from the place of the number.
    for k in 0..longs.len() {
        put_long(unsigned_long(longs[k]), room, at + 4 * k);
    }
}

// Floats from a place of the room on.
pub fn put_floats(floats: &[f32], room: &mut [u8], at: usize)
    requires { at + 4 * length floats.now ≤ length room.old }
    ensures { room.new ≡ sets room.old at (Parts.bytes_of_all 4 (map (to_bits binary32) floats.now)) }
{
    // By index: where the bytes go follows from the place of the number.
    for k in 0..floats.len() {
        put_long(f32_to_bits_with_nan(floats[k]), room, at + 4 * k);
    }
}
