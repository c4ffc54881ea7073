// How a recording begins: from its table file, cold, or at reset behind a first `+`; and what a missed frame leaves.
#![tactic(auto)]

ghost use Rattle.std.specs.Prelude.{◌≡◌, ◌&&◌, ◌≤◌, length};
ghost use Rattle.io.specs.Counts.{IsPrefixLen};
ghost use Rattle.refusal.specs.Numbers as Numbers;
ghost use Rattle.tables.specs.Places.{WORDS};
ghost use Rattle.stream.specs.Room.{over};
ghost use Rattle.table_file.specs.File as File;
ghost use Rattle.hex_lines.specs.Held as Held;
ghost use Rattle.heard.specs.Recording as Recording;
ghost use Rattle.heard.specs.Start as Start;
ghost use Rattle.state.specs.State.{missed_frame, reset};

use hex_lines::Line;
use refusal::Refusal;
use state::State;
use tables::Fault;

// Where a recording stands: whether its first line is still to come, the decoder's state, and the line that is coming in.
#[derive(Clone, Copy)]
pub struct Recorder {
    pub first: bool,
    pub state: State,
    pub line: Line,
}

// The end of a line: how long its text is, and the state that its call returned.
#[derive(Clone, Copy)]
pub struct Said {
    pub n: usize,
    pub state: State,
}

// The start: the table file's refusal number, how long its text is, and where the recording stands.
#[derive(Clone, Copy)]
pub struct Started {
    pub recorder: Recorder,
    pub number: u8,
    pub n: usize,
}

// Cold until a first line says otherwise, with no line open.
fn from_cold(words: &[i16], bytes: &[u8]) -> Recorder
    ensures { result ≡ Start.begin words.now bytes.now }
{
    let r = state::cold_start(words, bytes);
    let state = r.state;
    let line = hex_lines::empty();
    Recorder {
        first: true,
        state,
        line,
    }
}

// Of tables that are refused: a cold start that is given none.
fn idle() -> Recorder
    ensures { result ≡ Start.idle }
{
    let words = [0i16; 1];
    let bytes = [0u8; 1];
    from_cold(&words, &bytes)
}

// A table file that is refused: its line goes over the beginning of room. The answer is its length.
fn refuse(why: Refusal, words: &[i16], file: &[u8], room: &mut [u8]) -> usize
    requires fact_1 { Numbers.number why ≡ File.check_file file.now }
    requires fact_2 { (Numbers.number why ≡ 4 → Start.Tables words.now file.now) }
    requires fact_3 { 40 ≤ length room.old }
    ensures length { result ≡ length (Recording.tables_text (Numbers.number why) file.now) }
    ensures text { room.new ≡ over (Recording.tables_text (Numbers.number why) file.now) room.old }
{
    let number = why.number();
    if let Refusal::TablesRule = why {
        let told = rules::first_fault(words, &file[11926..]);
        return table_file::put_tables_refused(number, told, room);
    }
    table_file::put_tables_refused(number, Fault { rule: 0, place: 0 }, room)
}

// The start from the table file's bytes, of which the first 15,835 are enough: its words are put, and its refusal goes over the beginning of room.
pub fn begin(file: &[u8], words: &mut [i16], room: &mut [u8]) -> Started
    requires fact_1 { length words.old ≡ WORDS }
    requires fact_2 { 40 ≤ length room.old }
    ensures started { result ≡ Start.started file.now }
    ensures words { words.new ≡ File.words_or file.now words.old }
    ensures text { room.new ≡ over (Start.start_text file.now) room.old }
    ensures ready { result.number ≡ 0 → Start.Tables words.new file.now }
    ensures fits { IsPrefixLen result.n room.new }
{
    match table_file::check_file(file, words) {
        Err(why) => Started {
            n: refuse(why, words, file, room),
            recorder: idle(),
            number: why.number(),
        },
        Ok(()) => Started {
            recorder: from_cold(words, &file[11926..]),
            number: 0,
            n: 0,
        },
    }
}

// The state that a missed frame leaves.
pub fn missed(state: State) -> State
    ensures { result ≡ (missed_frame state).state }
{
    let r = state::missed_frame(state);
    r.state
}

// The state that a recording begins in whose call was heard from its start.
pub fn reset(words: &[i16], bytes: &[u8]) -> State
    ensures { result ≡ (reset words.now bytes.now).state }
{
    let start = state::reset(words, bytes);
    start.state
}

// Whether the line is a first `+`.
pub fn is_opening(first: bool, line: Line) -> bool
    ensures { result ≡ first && Recording.is_start (Held.held_line line) }
{
    if first {
        return hex_lines::is_only(line, b'+');
    }
    false
}
