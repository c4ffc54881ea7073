// The term report: many recordings, one after the other, each ended by a line `=`. Each line is counted as it ends, and the report is written at the end.
#![tactic(auto)]

ghost use Rattle.std.specs.Prelude.{◌≡◌, ◌≤◌, length};
ghost use Rattle.io.specs.Counts.{IsPrefixLen};
ghost use Rattle.stream.specs.Room.{over};
ghost use Rattle.stream.specs.Machine.{fed_all};
ghost use Rattle.calls.specs.Run.{heard};
ghost use Rattle.hex_lines.specs.Held as Held;
ghost use Rattle.heard.specs.Start as Start;
ghost use Rattle.table_file.specs.File as File;
ghost use Rattle.tally.specs.Figures as Figures;
ghost use Rattle.term_steps.specs.Steps as Steps;
ghost use Rattle.term_steps.specs.Feed as Feed;

use hex_lines::Line;
use state::State;
use tally::Tally;
use term_steps::{Place, Recorder, Started};

// A frame's call, counted.
fn hear(words: &[i16], bytes: &[u8], state: State, payload: [u8; 20], tally: Tally) -> Place
    ensures { result ≡ Steps.called words.now bytes.now state tally (heard payload 320) }
{
    let mut samples = [0i16; 320];
    let a = celp::decode(words, bytes, state, &payload, &mut samples);
    outcomes::answered(a, tally)
}

// A line that is a frame, or a missed one.
fn call(words: &[i16], bytes: &[u8], state: State, line: Line, tally: Tally) -> Place
    ensures { result ≡ Steps.line_called words.now bytes.now state tally (Held.held_line line) }
{
    if hex_lines::held_frame(line) {
        let text = line.text;
        return hear(words, bytes, state, hex_lines::payload(text), tally);
    }
    let missed = state::missed_frame(state);
    let next = missed.state;
    Place {
        first: false,
        state: next,
        tally: counting::numbered(tally, 9),
    }
}

// The end of a line. Where the tally is full nothing is counted any more.
fn end_line(
    words: &[i16],
    bytes: &[u8],
    first: bool,
    state: State,
    line: Line,
    tally: Tally,
) -> Place
    ensures { result ≡ Steps.line_ended words.now bytes.now first state tally (Held.held_line line) }
{
    let place = Place {
        first,
        state,
        tally,
    };
    if tally::full(tally) {
        return place;
    }
    if hex_lines::is_only(line, b'=') {
        return outcomes::ended(words, bytes, place);
    }
    if heard::is_opening(first, line) {
        return outcomes::opened(words, bytes, place);
    }
    call(words, bytes, state, line, tally)
}

// The start from the table file's bytes, of which the first 15,835 are enough: its words are put, and its refusal goes over the beginning of room.
pub fn begin(file: &[u8], words: &mut [i16], room: &mut [u8]) -> Started
    requires fact_1 { length words.old ≡ 5963 }
    requires fact_2 { 40 ≤ length room.old }
    ensures started { result ≡ Feed.started file.now }
    ensures words { words.new ≡ File.words_or file.now words.old }
    ensures text { room.new ≡ over (Start.start_text file.now) room.old }
    ensures ready { result.number ≡ 0 → Start.Tables words.new file.now }
    ensures fits { IsPrefixLen result.n room.new }
{
    let start = heard::begin(file, words, room);
    let recorder = start.recorder;
    let state = recorder.state;
    let line = recorder.line;
    let tally = counting::empty();
    Started {
        recorder: Recorder {
            first: recorder.first,
            state,
            line,
            tally,
        },
        number: start.number,
        n: start.n,
    }
}

fn take_in(words: &[i16], bytes: &[u8], recorder: Recorder, chunk: &[u8]) -> Recorder
    ensures { result ≡ fed_all (Feed.fed words.now bytes.now) recorder chunk.now }
{
    let mut first = recorder.first;
    let mut state = recorder.state;
    let mut line = recorder.line;
    let mut tally = recorder.tally;
    for b in chunk {
        if *b != b'\n' {
            line = hex_lines::push(line, *b);
            continue;
        }
        let place = end_line(words, bytes, first, state, line, tally);
        first = place.first;
        state = place.state;
        tally = place.tally;
        line = hex_lines::empty();
    }
    Recorder {
        first,
        state,
        line,
        tally,
    }
}

// A chunk of the input.
pub fn feed(words: &[i16], file: &[u8], recorder: Recorder, chunk: &[u8]) -> Recorder
    requires { Start.Tables words.now file.now }
    ensures { result ≡ fed_all (Feed.fed_by file.now) recorder chunk.now }
{
    take_in(words, &file[11926..], recorder, chunk)
}

// Whether there is no use in more input.
pub fn is_full(recorder: Recorder) -> bool
    ensures { result ≡ Figures.full recorder.tally }
{
    let tally = recorder.tally;
    tally::full(tally)
}

// The tally where the input ends: a line that is open is a line, unless nothing stands in it.
fn end_tally(words: &[i16], bytes: &[u8], recorder: Recorder) -> Tally
    ensures { result ≡ Feed.end_tally words.now bytes.now recorder }
{
    let line = recorder.line;
    let tally = recorder.tally;
    if line.n == 0 {
        return tally;
    }
    let state = recorder.state;
    let place = end_line(words, bytes, recorder.first, state, line, tally);
    place.tally
}

// The end of the input: its report goes over the beginning of room.
pub fn report(words: &[i16], file: &[u8], recorder: Recorder, room: &mut [u8]) -> usize
    requires fact_1 { Start.Tables words.now file.now }
    requires fact_2 { 16384 ≤ length room.old }
    ensures length { result ≡ length (Feed.ending_by file.now recorder) }
    ensures text { room.new ≡ over (Feed.ending_by file.now recorder) room.old }
    ensures fits { IsPrefixLen result room.new }
{
    let tally = end_tally(words, &file[11926..], recorder);
    term_text::put_report(tally, room)
}
