// A recording as text: frames come in as lines of hexadecimal, samples go out as lines of hexadecimal.
#![tactic(auto)]

ghost use Rattle.std.specs.Prelude.{◌≡◌, ◌+◌, ◌*◌, ◌≤◌, min, length};
ghost use Rattle.io.specs.Counts.{IsPrefixLen};
ghost use Rattle.stream.specs.Room.{over};
ghost use Rattle.stream.specs.Machine.{written_all};
ghost use Rattle.hex_lines.specs.Held as Held;
ghost use Rattle.heard.specs.Start as Start;
ghost use Rattle.recording.specs.Feed as Feed;

use heard::{Recorder, Said};
use hex_lines::Line;
use state::State;

// What a chunk of the input leaves, and how long its text is.
#[derive(Clone, Copy)]
pub struct Fed {
    pub recorder: Recorder,
    pub n: usize,
}

// The end of a line: its text goes over the beginning of out. A first `+` has none.
fn end_line(
    words: &[i16],
    bytes: &[u8],
    first: bool,
    state: State,
    line: Line,
    out: &mut [u8],
) -> Said
    requires { 1283 ≤ length out.old }
    ensures said { result ≡ Feed.said words.now bytes.now first state line }
    ensures text { out.new ≡ over (Feed.end_text words.now bytes.now first state (Held.held_line line)) out.old }
    ensures fits { result.n ≤ 1283 }
    ensures paid { result.n ≤ 32 * min line.n 41 + 32 }
{
    if heard::is_opening(first, line) {
        return Said {
            n: 0,
            state: heard::reset(words, bytes),
        };
    }
    hearing::call(words, bytes, state, line, out)
}

// A chunk of the input: all its text goes over the beginning of room.
fn feed(words: &[i16], bytes: &[u8], recorder: Recorder, chunk: &[u8], room: &mut [u8]) -> Fed
    requires { Feed.room_for (length chunk.now) ≤ length room.old }
    ensures fed { result ≡ Feed.fed_chunk words.now bytes.now recorder chunk.now }
    ensures text { room.new ≡ over (written_all (Feed.fed words.now bytes.now) (Feed.written words.now bytes.now) recorder chunk.now) room.old }
    ensures fits { IsPrefixLen result.n room.new }
{
    let mut first = recorder.first;
    let mut state = recorder.state;
    let mut line = recorder.line;
    let mut n = 0;
    for &b in chunk {
        if b == b'\n' {
            let said = end_line(words, bytes, first, state, line, &mut room[n..]);
            n += said.n;
            first = false;
            state = said.state;
            line = hex_lines::empty();
        } else {
            line = hex_lines::push(line, b);
        }
    }
    Fed {
        recorder: Recorder { first, state, line },
        n,
    }
}

// The end of the input: the text of a line that is open goes over the beginning of room.
fn end(words: &[i16], bytes: &[u8], recorder: Recorder, room: &mut [u8]) -> usize
    requires { Feed.room_for 0 ≤ length room.old }
    ensures length { result ≡ length (Feed.ending words.now bytes.now recorder) }
    ensures text { room.new ≡ over (Feed.ending words.now bytes.now recorder) room.old }
    ensures fits { IsPrefixLen result room.new }
{
    let line = recorder.line;
    if line.n == 0 {
        return 0;
    }
    let state = recorder.state;
    let said = end_line(words, bytes, recorder.first, state, line, room);
    said.n
}

// What one read gave, nothing being the end of the input: all the text that it gives goes over the beginning of room.
pub fn answer(words: &[i16], file: &[u8], recorder: Recorder, chunk: &[u8], room: &mut [u8]) -> Fed
    requires fact_1 { Start.Tables words.now file.now }
    requires fact_2 { Feed.room_for (length chunk.now) ≤ length room.old }
    ensures fed { result ≡ Feed.answered file.now recorder chunk.now }
    ensures text { room.new ≡ over (Feed.answered_text file.now recorder chunk.now) room.old }
    ensures fits { IsPrefixLen result.n room.new }
{
    if chunk.len() == 0 {
        return Fed {
            recorder,
            n: end(words, &file[11926..], recorder, room),
        };
    }
    feed(words, &file[11926..], recorder, chunk, room)
}
