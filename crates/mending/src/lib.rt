// A line that came back damaged, mended, and what is told of it.
#![tactic(auto)]

ghost use Rattle.std.specs.Prelude.{◌≡◌, true, ◌&&◌, ◌||◌, ◌+◌, ◌≤◌, min, length};
ghost use Rattle.stream.specs.Room.{over};
ghost use Rattle.hex_lines.specs.Text as Text;
ghost use Rattle.hex_lines.specs.Held as Held;
ghost use Rattle.writer.specs.Wrote.{Wrote};
ghost use Rattle.mending.specs.Repair as Repair;
ghost use Rattle.mending.specs.Look as Look;

use hex_lines::Line;
use writer::Writer;

// Where a file stands between two lines: the next line's number, and whether a `+` is in its place there.
#[derive(Clone, Copy)]
pub struct Place {
    pub number: u64,
    pub opens: bool,
}

// A line as it is looked through: what is held of it when it is cleaned, and what was in it.
#[derive(Clone, Copy)]
pub struct Found {
    pub line: Line,
    pub returns: bool,
    pub blanks: bool,
    pub letters: bool,
}

// A line's end: the place behind it, and how long its two texts are.
#[derive(Clone, Copy)]
pub struct Ended {
    pub place: Place,
    pub repaired: usize,
    pub listed: usize,
}

// A byte more of the line. In place: a record that is made anew for each byte takes longer.
#[tactic(auto, unfolding(crate::specs::Look::looked, crate::specs::Repair::is_return, crate::specs::Repair::is_blank, crate::specs::Repair::is_capital))]
fn look_at(found: &mut Found, b: u8)
    ensures { found.new ≡ Look.looked found.old b }
{
    match b {
        b'\r' => found.returns = true,
        b' ' => found.blanks = true,
        b'A'..=b'Z' => {
            found.letters = true;
            found.line = hex_lines::push(found.line, b.to_ascii_lowercase());
        }
        _ => found.line = hex_lines::push(found.line, b),
    }
}

fn look(line: &[u8]) -> Found
    ensures { result ≡ Look.found line.now }
{
    let mut found = Found {
        line: hex_lines::empty(),
        returns: false,
        blanks: false,
        letters: false,
    };
    for b in line {
        look_at(&mut found, *b);
    }
    found
}

// Whether a cleaned line is a `+` in its place.
fn is_start(opens: bool, line: Line) -> bool
    ensures { result ≡ opens && Text.is_only 43 (Held.held_line line) }
{
    opens && hex_lines::is_only(line, b'+')
}

// Whether a cleaned line is kept.
#[tactic(auto, using(crate::specs::Looked::passes_held), unfolding(crate::specs::Repair::passes))]
fn passes(opens: bool, line: Line) -> bool
    ensures kept { result ≡ Repair.passes opens (Held.held_line line) }
    ensures whole { result ≡ true → line.n ≤ 40 }
{
    hex_lines::is_only(line, b'=') || is_start(opens, line) || hex_lines::held_frame(line)
}

// A line that is `-` already.
#[tactic(auto, unfolding(hex_lines::specs::Text::is_only))]
fn is_dash(line: &[u8]) -> bool
    ensures { result ≡ Text.is_only 45 line.now }
{
    matches!(line, [b'-'])
}

// The cleaned line where it is kept, else `-`, over the beginning of out. The answer is its length.
#[tactic(auto, using(crate::specs::Looked::held_short), unfolding(crate::specs::Look::chosen))]
fn put_mended(kept: bool, line: Line, out: &mut [u8]) -> usize
    requires fact_1 { 41 ≤ length out.old }
    requires fact_2 { (kept ≡ true → line.n ≤ 40) }
    ensures length { result ≡ length (Look.chosen kept (Held.held_line line)) }
    ensures text { out.new ≡ over (Look.chosen kept (Held.held_line line)) out.old }
    ensures fits { result ≤ 40 }
{
    if kept {
        stream::put(&line.text[..line.n], out);
        return line.n;
    }
    stream::put(b"-", out);
    1
}

// The same, with a newline behind it where the line had one.
#[tactic(auto, unfolding(crate::specs::Look::chosen_line, crate::specs::Repair::said))]
fn put_line(kept: bool, line: Line, ended: bool, out: &mut [u8]) -> usize
    requires fact_1 { 41 ≤ length out.old }
    requires fact_2 { (kept ≡ true → line.n ≤ 40) }
    ensures length { result ≡ length (Look.chosen_line kept (Held.held_line line) ended) }
    ensures text { out.new ≡ over (Look.chosen_line kept (Held.held_line line) ended) out.old }
    ensures fits { result ≤ 41 }
{
    let n = put_mended(kept, line, out);
    if ended {
        return stream::put_at(b"\n", n, out);
    }
    n
}

// A word where it is said.
#[tactic(auto, using(writer::specs::Wrote::wrote_none), unfolding(crate::specs::Repair::said))]
fn put_word(out: &mut Writer, is: bool, word: &[u8])
    requires { out.old.n + length word.now ≤ length out.old.room.now }
    ensures wrote { Wrote out.old out.new (Repair.said is word.now) }
    ensures fits { out.new.n ≤ out.old.n + length word.now }
{
    if !is {
        return;
    }
    out.put(word);
}

// The words that are said of a kept line, over the beginning of the list.
fn put_changes(number: u64, found: Found, list: &mut [u8]) -> usize
    requires { 41 ≤ length list.old }
    ensures length { result ≡ length (Repair.entry number (Look.changes found.returns found.blanks found.letters)) }
    ensures text { list.new ≡ over (Repair.entry number (Look.changes found.returns found.blanks found.letters)) list.old }
{
    let changed = found.returns || found.blanks || found.letters;
    if !changed {
        return 0;
    }
    let mut out = Writer { room: list, n: 0 };
    out.put_decimal(number);
    put_word(&mut out, found.returns, b" return");
    put_word(&mut out, found.blanks, b" blank");
    put_word(&mut out, found.letters, b" letter");
    out.put(b"\n");
    out.n
}

fn put_replaced(number: u64, list: &mut [u8]) -> usize
    requires { 41 ≤ length list.old }
    ensures length { result ≡ length (Repair.entry number Repair.replaced) }
    ensures text { list.new ≡ over (Repair.entry number Repair.replaced) list.old }
{
    let mut out = Writer { room: list, n: 0 };
    out.put_decimal(number);
    out.put(b" replaced\n");
    out.n
}

// What is told of a line, over the beginning of the list.
#[tactic(auto, using(stream::specs::Room::over_none), unfolding(crate::specs::Look::told, crate::specs::Repair::entry))]
fn put_entry(number: u64, kept: bool, dash: bool, found: Found, list: &mut [u8]) -> usize
    requires { 41 ≤ length list.old }
    ensures length { result ≡ length (Repair.entry number (Look.told kept dash found)) }
    ensures text { list.new ≡ over (Repair.entry number (Look.told kept dash found)) list.old }
{
    if kept {
        return put_changes(number, found, list);
    }
    if dash {
        return 0;
    }
    put_replaced(number, list)
}

// The end of a line of up to 4,096 bytes: its texts go over the beginnings of out and list.
pub fn end_line(place: Place, line: &[u8], ended: bool, out: &mut [u8], list: &mut [u8]) -> Ended
    requires fact_1 { length line.now ≤ 4096 }
    requires fact_2 { 41 ≤ length out.old }
    requires fact_3 { 41 ≤ length list.old }
    ensures place { result ≡ Look.ended place line.now ended }
    ensures text { out.new ≡ over (Look.line_text place line.now ended) out.old }
    ensures entry { list.new ≡ over (Repair.line_entry place line.now) list.old }
{
    let found = look(line);
    let kept = passes(place.opens, found.line);
    let dash = is_dash(line);
    let repaired = put_line(kept, found.line, ended, out);
    let listed = put_entry(place.number, kept, dash, found, list);
    let equals = hex_lines::is_only(found.line, b'=');
    Ended {
        place: Place {
            number: place.number.saturating_add(1),
            opens: equals,
        },
        repaired,
        listed,
    }
}
