// The unpacker and the packer for a player in C, over bytes that it lends. `desk` has these calls under C names.
#![tactic(auto)]

ghost use Rattle.std.specs.Prelude.{◌≡◌, ◌+◌, ◌*◌, ◌/◌, ◌%◌, ◌<◌, length};
ghost use Rattle.sequence.specs.Table.{table};
ghost use Rattle.bits.specs.Bits as Bits;
ghost use Rattle.image.specs.Bytes.{number_at};
ghost use Rattle.image.specs.Parts.{numbers_at};
ghost use Rattle.desk_fields.specs.Fields as Fields;
ghost use Rattle.desk_fields.specs.Calls as Calls;

use bits::FrameParams;
use std::array;

// How many bytes the 24 fields take.
const FIELDS: usize = 48;

// Fields, or a room for them, of another length: a number, since C reads it.
const NO_ROOM: u8 = 2;

// Field k of 24, out of its two bytes.
fn field(fields: &[u8], k: usize) -> u16
    requires fact_1 { length fields.now ≡ Fields.FIELDS }
    requires fact_2 { k < 24 }
    ensures { result ≡ number_at 2 fields.now (0 + 2 * k) }
{
    u16::from_le_bytes([fields[2 * k], fields[2 * k + 1]])
}

// The 24 fields.
fn numbers(fields: &[u8]) -> [u16; 24]
    requires { length fields.now ≡ Fields.FIELDS }
    ensures { result ≡ numbers_at 2 24 fields.now 0 }
{
    array::from_fn(|k| field(fields, k))
}

// Byte k of the fields' bytes: by turns a field's low one and its high one.
fn byte(fields: &[u16; 24], k: usize) -> u8
    requires { k < Fields.FIELDS }
    ensures { result ≡ Fields.byte_of fields.now k }
{
    fields[k / 2].to_le_bytes()[k % 2]
}

fn write(fields: &[u16; 24], room: &mut [u8])
    requires { length room.old ≡ Fields.FIELDS }
    ensures { room.new ≡ table (Fields.byte_of fields.now) Fields.FIELDS }
{
    let bytes: [u8; FIELDS] = array::from_fn(|k| byte(fields, k));
    room.copy_from_slice(&bytes);
}

// The fields of a frame; of one that is refused they are zeros.
pub fn unpack(payload: &[u8], fields: &mut [u8]) -> u8
    ensures number { result ≡ Calls.unpack_number payload.now (length fields.old) }
    ensures fields { fields.new ≡ Calls.unpack_fields payload.now fields.old }
{
    if fields.len() != FIELDS {
        return NO_ROOM;
    }
    let answer = frame_params::unpack(payload);
    let read = frame_params::list(frame_params::fields(answer));
    write(&read, fields);
    match answer {
        Ok(_) => 0,
        Err(why) => why.number(),
    }
}

// The frame of these fields; where they are refused nothing is written.
pub fn pack(fields: &[u8], payload: &mut [u8]) -> u8
    ensures number { result ≡ Calls.pack_number fields.now payload.old }
    ensures payload { payload.new ≡ Calls.pack_payload fields.now payload.old }
{
    if fields.len() != FIELDS {
        return NO_ROOM;
    }
    let read = numbers(fields);
    let first = frame_params::half_params(read, 0);
    let second = frame_params::half_params(read, 12);
    refusal::told(frame_params::pack(FrameParams { first, second }, payload))
}
