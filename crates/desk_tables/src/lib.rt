// The table check for a player in C, over bytes that it lends. `desk` has it under a C name.
#![tactic(auto)]

ghost use Rattle.std.specs.Prelude.{◌≡◌, ◌<◌, length};
ghost use Rattle.refusal.specs.Numbers.{number};
ghost use Rattle.table_file.specs.File as File;
ghost use Rattle.state.specs.State as State;
ghost use Rattle.desk_tables.specs.Check as Check;

use refusal::Refusal;
use tables::Fault;

// The length of the table file, and where its last bytes begin.
const TABLES: usize = 15834;

const BYTES: usize = 11926;

// How many bytes the rule and the place take.
const TOLD: usize = 5;

// Which set rule is broken and where: the set is looked through again, where it was refused for that and nowhere else.
fn fault(why: Refusal, words: &[i16], tables: &[u8]) -> Fault
    requires fact_1 { number why ≡ File.check_file tables.now }
    requires fact_2 { (number why ≡ 4 → words.now ≡ File.words tables.now) }
    ensures { result ≡ State.fault (number why) (File.words tables.now) (File.bytes tables.now) }
{
    if let Refusal::TablesRule = why {
        return rules::first_fault(words, &tables[BYTES..]);
    }
    Fault { rule: 0, place: 0 }
}

fn put_fault(f: Fault, told: &mut [u8])
    requires fact_1 { length told.old ≡ Check.TOLD }
    requires fact_2 { f.place < 4294967296 }
    ensures { told.new ≡ Check.bytes_of_fault f }
{
    told[0] = f.rule;
    image_bytes::put_long(f.place as u32, told, 1);
}

// The refusal number of the tables, and which set rule is broken and where.
pub fn check_tables(tables: &[u8], told: &mut [u8]) -> u8
    ensures number { result ≡ Check.check_number tables.now (length told.old) }
    ensures told { told.new ≡ Check.check_told tables.now told.old }
{
    if told.len() != TOLD {
        if tables.len() != TABLES {
            return Refusal::TablesLength.number();
        }
        return Refusal::Room.number();
    }
    let mut words = [0i16; 5963];
    match table_file::check_file(tables, &mut words) {
        Err(why) => {
            put_fault(fault(why, &words, tables), told);
            why.number()
        }
        Ok(()) => {
            put_fault(Fault { rule: 0, place: 0 }, told);
            0
        }
    }
}
