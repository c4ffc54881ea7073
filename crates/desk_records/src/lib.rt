// Slot records as bytes that a player in C lends, 5 each: read and written.
#![tactic(auto)]

ghost use Rattle.std.specs.Prelude.{◌≡◌, ◌*◌, ◌<◌, length};
ghost use Rattle.std.proofs.lemmas.List.Edits.{sets};
ghost use Rattle.desk_records.specs.Records as Records;

use slots::Slot;
use std::array;

// How many bytes a record takes, and sixteen.
const RECORD: usize = 5;

pub const RECORDS: usize = slot_users::SLOTS * RECORD;

// Record k.
fn record_at(records: &[u8], k: usize) -> Slot
    requires fact_1 { k < 16 }
    requires fact_2 { length records.now ≡ Records.RECORDS }
    ensures { result ≡ Records.record_at records.now k }
{
    let at = RECORD * k;
    Slot {
        users: records[at],
        frame: floats::bits_at(records, at + 1),
    }
}

// The sixteen records.
pub fn read_records(records: &[u8]) -> [Slot; 16]
    requires { length records.now ≡ Records.RECORDS }
    ensures { result ≡ Records.records records.now }
{
    array::from_fn(|k| record_at(records, k))
}

fn put_record(s: Slot, records: &mut [u8], k: usize)
    requires fact_1 { k < 16 }
    requires fact_2 { length records.old ≡ Records.RECORDS }
    ensures { records.new ≡ sets records.old (5 * k) (Records.record_bytes s) }
{
    let at = RECORD * k;
    records[at] = s.users;
    image_bytes::put_long(s.frame, records, at + 1);
}

pub fn write_records(slots: [Slot; 16], records: &mut [u8])
    requires { length records.old ≡ Records.RECORDS }
    ensures { records.new ≡ Records.bytes_of_records slots }
{
    for k in 0..slot_users::SLOTS {
        put_record(slots[k], records, k);
    }
}
