// The table file: its words and its refusal number, and the line that tells of a refusal.
#![tactic(auto)]

ghost use Rattle.std.specs.Prelude.{◌≡◌, ◌+◌, ◌*◌, ◌≤◌, ◌<◌, length};
ghost use Rattle.refusal.specs.Numbers.{told};
ghost use Rattle.tables.specs.Places.{WORDS};
ghost use Rattle.stream.specs.Room.{over};
ghost use Rattle.hex_lines.specs.Text as Text;
ghost use Rattle.table_file.specs.File as File;

use hex_lines::digit;
use refusal::Refusal;
use tables::Fault;

// The one line of a refused table file, with the rule and the place that are named. The answer is its length.
pub fn put_tables_refused(number: u8, told: Fault, out: &mut [u8]) -> usize
    requires fact_1 { number < 16 }
    requires fact_2 { told.rule < 16 }
    requires fact_3 { 40 ≤ length out.old }
    ensures length { result ≡ length (Text.tables_refused_text number told) }
    ensures text { out.new ≡ over (Text.tables_refused_text number told) out.old }
{
    stream::put(b"tables refused ", out);
    out[15] = digit(number);
    if told.rule == 0 {
        out[16] = b'\n';
        return 17;
    }
    out[16] = b' ';
    out[17] = digit(told.rule);
    stream::put_figure(b" ", told.place as u64, 18, out)
}

// A word of the table file.
fn word(low: u8, high: u8) -> i16
    ensures { result ≡ File.signed (low + 256 * high) }
{
    i16::from_le_bytes([low, high])
}

fn put_words(file: &[u8], words: &mut [i16])
    requires fact_1 { length file.now ≡ 15834 }
    requires fact_2 { length words.old ≡ WORDS }
    ensures { words.new ≡ File.words file.now }
{
    for k in 0..5963 {
        words[k] = word(file[2 * k], file[2 * k + 1]);
    }
}

// What the table file is refused with, and its words, which a file of another length leaves as they were.
pub fn check_file(file: &[u8], words: &mut [i16]) -> Result<(), Refusal>
    requires { length words.old ≡ WORDS }
    ensures number { told result ≡ File.check_file file.now }
    ensures words { words.new ≡ File.words_or file.now words.old }
{
    if file.len() != 15834 {
        return Err(Refusal::TablesLength);
    }
    put_words(file, words);
    rules::check(words, &file[11926..])
}
