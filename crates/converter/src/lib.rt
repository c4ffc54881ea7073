// A file of frames, converted as its bytes are fed. All of the two programs' text.
#![tactic(auto)]

ghost use Rattle.std.specs.Prelude.{◌≡◌, [], ◌+◌, ◌*◌, ◌≤◌, min, length};
ghost use Rattle.io.specs.Counts.{IsPrefixLen};
ghost use Rattle.stream.specs.Room.{over};
ghost use Rattle.stream.specs.Machine.{written_all};
ghost use Rattle.convert.specs.Convert as Convert;
ghost use Rattle.converter.specs.Feed as Feed;

use convert::Way;

// What is kept of the line that is coming in: its first 162 bytes, and how many it has, counted to 163.
#[derive(Clone, Copy)]
pub struct Held {
    pub text: [u8; 162],
    pub n: usize,
}

// Where a file stands: whether its first line is still to end, and the line that is coming in.
#[derive(Clone, Copy)]
pub struct Converter {
    pub first: bool,
    pub line: Held,
}

// What a chunk of the input leaves, and how long its text is.
#[derive(Clone, Copy)]
pub struct Fed {
    pub converter: Converter,
    pub n: usize,
}

fn empty() -> Held
    ensures { result ≡ Feed.kept [] }
{
    Held {
        text: [0; 162],
        n: 0,
    }
}

// A byte more.
fn push(line: Held, b: u8) -> Held
    ensures { result ≡ Feed.push line b }
{
    let n = line.n;
    let mut l = line;
    if n < 162 {
        l.text[n] = b;
        l.n = n + 1;
        return l;
    }
    l.n = 163;
    l
}

// The start of a file.
pub fn begin() -> Converter
    ensures { result ≡ Feed.begin }
{
    let line = empty();
    Converter { first: true, line }
}

// The same of the line that is held; one that is too long is refused as an empty one is.
fn end_line(way: Way, first: bool, line: Held, out: &mut [u8]) -> usize
    requires { 163 ≤ length out.old }
    ensures length { result ≡ length (Convert.text way first (Feed.held_line line)) }
    ensures text { out.new ≡ over (Convert.text way first (Feed.held_line line)) out.old }
    ensures fits { result ≤ 163 }
    ensures paid { result ≤ 11 * min line.n 163 + 11 }
{
    let n = line.n;
    let text = line.text;
    if 162 < n {
        return convert::put_text(way, first, &text[..0], out);
    }
    convert::put_text(way, first, &text[..n], out)
}

// A chunk of the input: all its text goes over the beginning of room.
fn feed(way: Way, converter: Converter, chunk: &[u8], room: &mut [u8]) -> Fed
    requires { Feed.room_for (length chunk.now) ≤ length room.old }
    ensures fed { result ≡ Feed.fed_chunk way converter chunk.now }
    ensures text { room.new ≡ over (written_all Feed.fed (Feed.written way) converter chunk.now) room.old }
    ensures fits { IsPrefixLen result.n room.new }
{
    let mut first = converter.first;
    let mut line = converter.line;
    let mut n = 0;
    for &b in chunk {
        if b == b'\n' {
            n += end_line(way, first, line, &mut room[n..]);
            first = false;
            line = empty();
        } else {
            line = push(line, b);
        }
    }
    Fed {
        converter: Converter { first, line },
        n,
    }
}

// The end of the input: the text of a line that is open goes over the beginning of room.
fn end(way: Way, converter: Converter, room: &mut [u8]) -> usize
    requires { Feed.room_for 0 ≤ length room.old }
    ensures length { result ≡ length (Feed.ending way converter) }
    ensures text { room.new ≡ over (Feed.ending way converter) room.old }
    ensures fits { IsPrefixLen result room.new }
{
    let line = converter.line;
    if line.n == 0 {
        return 0;
    }
    end_line(way, converter.first, line, room)
}

// What one read gave, nothing being the end of the input: all the text that it gives goes over the beginning of room.
pub fn answer(way: Way, converter: Converter, chunk: &[u8], room: &mut [u8]) -> Fed
    requires { Feed.room_for (length chunk.now) ≤ length room.old }
    ensures fed { result ≡ Feed.answered way converter chunk.now }
    ensures text { room.new ≡ over (Feed.answered_text way converter chunk.now) room.old }
    ensures fits { IsPrefixLen result.n room.new }
{
    if chunk.len() == 0 {
        return Fed {
            converter,
            n: end(way, converter, room),
        };
    }
    feed(way, converter, chunk, room)
}
