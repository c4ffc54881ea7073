// Two channels on one table set, as text: a line says by its letter whose frame it is. All of the program's text.
#![tactic(auto)]

ghost use Rattle.std.specs.Prelude.{◌≡◌, [], ◌≤◌, ◌+◌, length};
ghost use Rattle.io.specs.Counts.{IsPrefixLen};
ghost use Rattle.tables.specs.Places.{WORDS};
ghost use Rattle.stream.specs.Room.{over};
ghost use Rattle.stream.specs.Machine.{written_all};
ghost use Rattle.table_file.specs.File as File;
ghost use Rattle.hex_lines.specs.Held as Hex;
ghost use Rattle.heard.specs.Recording as Recording;
ghost use Rattle.heard.specs.Start as Start;
ghost use Rattle.channel_lines.specs.Channels as Channels;
ghost use Rattle.channel_lines.specs.Feed as Feed;

use channel_lines::{Ended, Fed, Held, Pair, Recorder, Started, Whose};
use heard::Said;
use hex_lines::Line;
use state::State;

fn empty() -> Held
    ensures { result ≡ Feed.kept [] }
{
    let rest = hex_lines::empty();
    Held {
        first: 0,
        second: 0,
        n: 0,
        rest,
    }
}

// A byte more.
fn push(line: Held, b: u8) -> Held
    ensures { result ≡ Feed.push line b }
{
    let mut l = line;
    if l.n == 0 {
        l.first = b;
        l.n = 1;
        return l;
    }
    if l.n == 1 {
        l.second = b;
        l.n = 2;
        return l;
    }
    let rest = l.rest;
    let more = hex_lines::push(rest, b);
    l.rest = more;
    l
}

// The start from the table file's bytes, of which the first 15,835 are enough: its words are put, and its refusal goes over the beginning of room.
pub fn begin(file: &[u8], words: &mut [i16], room: &mut [u8]) -> Started
    requires fact_1 { length words.old ≡ WORDS }
    requires fact_2 { 40 ≤ length room.old }
    ensures started { result ≡ Feed.started file.now }
    ensures words { words.new ≡ File.words_or file.now words.old }
    ensures text { room.new ≡ over (Start.start_text file.now) room.old }
    ensures ready { result.number ≡ 0 → Start.Tables words.new file.now }
    ensures fits { IsPrefixLen result.n room.new }
{
    let start = heard::begin(file, words, room);
    let recorder = start.recorder;
    let state = recorder.state;
    let line = empty();
    Started {
        recorder: Recorder {
            channels: Pair { a: state, b: state },
            line,
        },
        number: start.number,
        n: start.n,
    }
}

// A channel's line: its letter and a blank go over the beginning of out, and behind them the text of its call.
fn call(words: &[i16], bytes: &[u8], letter: u8, state: State, line: Line, out: &mut [u8]) -> Said
    requires { 1285 ≤ length out.old }
    ensures said { result ≡ Feed.called words.now bytes.now letter state (Hex.held_line line) }
    ensures text { out.new ≡ over (Channels.lettered letter (Recording.line_text words.now bytes.now state (Hex.held_line line))) out.old }
    ensures fits { result.n ≤ 1285 }
    ensures paid { result.n ≤ Feed.worth line + 64 }
{
    out[0] = letter;
    out[1] = b' ';
    let said = hearing::call(words, bytes, state, line, &mut out[2..]);
    let next = said.state;
    Said {
        n: 2 + said.n,
        state: next,
    }
}

// The end of a line: its text goes over the beginning of out.
fn end_line(words: &[i16], bytes: &[u8], channels: Pair, line: Held, out: &mut [u8]) -> Ended
    requires { 1285 ≤ length out.old }
    ensures ended { result ≡ Feed.ended words.now bytes.now channels line }
    ensures text { out.new ≡ over (Channels.text words.now bytes.now channels (Feed.held_line line)) out.old }
    ensures fits { result.n ≤ 1285 }
    ensures paid { result.n ≤ Feed.held line + 32 }
{
    let a = channels.a;
    let b = channels.b;
    let rest = line.rest;
    match channel_lines::whose_line(line) {
        Whose::A => {
            let said = call(words, bytes, b'a', a, rest, out);
            let next = said.state;
            Ended {
                n: said.n,
                channels: Pair { a: next, b },
            }
        }
        Whose::B => {
            let said = call(words, bytes, b'b', b, rest, out);
            let next = said.state;
            Ended {
                n: said.n,
                channels: Pair { a, b: next },
            }
        }
        Whose::Neither => channel_lines::end_neither(channels, out),
    }
}

// A chunk of the input: all its text goes over the beginning of room.
fn feed(words: &[i16], bytes: &[u8], recorder: Recorder, chunk: &[u8], room: &mut [u8]) -> Fed
    requires { Feed.room_for (length chunk.now) ≤ length room.old }
    ensures fed { result ≡ Feed.fed_chunk words.now bytes.now recorder chunk.now }
    ensures text { room.new ≡ over (written_all (Feed.fed words.now bytes.now) (Feed.written words.now bytes.now) recorder chunk.now) room.old }
    ensures fits { IsPrefixLen result.n room.new }
{
    let mut channels = recorder.channels;
    let mut line = recorder.line;
    let mut n = 0;
    for &b in chunk {
        if b == b'\n' {
            let ended = end_line(words, bytes, channels, line, &mut room[n..]);
            n += ended.n;
            channels = ended.channels;
            line = empty();
        } else {
            line = push(line, b);
        }
    }
    Fed {
        recorder: Recorder { channels, line },
        n,
    }
}

// The end of the input: the text of a line that is open goes over the beginning of room.
fn end(words: &[i16], bytes: &[u8], recorder: Recorder, room: &mut [u8]) -> usize
    requires { Feed.room_for 0 ≤ length room.old }
    ensures length { result ≡ length (Feed.ending words.now bytes.now recorder) }
    ensures text { room.new ≡ over (Feed.ending words.now bytes.now recorder) room.old }
    ensures fits { IsPrefixLen result room.new }
{
    let line = recorder.line;
    if line.n == 0 {
        return 0;
    }
    let channels = recorder.channels;
    let ended = end_line(words, bytes, channels, line, room);
    ended.n
}

// What one read gave, nothing being the end of the input: all the text that it gives goes over the beginning of room.
pub fn answer(words: &[i16], file: &[u8], recorder: Recorder, chunk: &[u8], room: &mut [u8]) -> Fed
    requires fact_1 { Start.Tables words.now file.now }
    requires fact_2 { Feed.room_for (length chunk.now) ≤ length room.old }
    ensures fed { result ≡ Feed.answered file.now recorder chunk.now }
    ensures text { room.new ≡ over (Feed.answered_text file.now recorder chunk.now) room.old }
    ensures fits { IsPrefixLen result.n room.new }
{
    if chunk.len() == 0 {
        return Fed {
            recorder,
            n: end(words, &file[11926..], recorder, room),
        };
    }
    feed(words, &file[11926..], recorder, chunk, room)
}
