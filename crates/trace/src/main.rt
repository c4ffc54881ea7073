// Prints every figure of every frame of a recording, a line a part: numbers in decimal, floats by their bits.
// tables.bin lies beside it, the recording comes on standard input, and the state that it starts in, decode's, is said first.
// A line `digest NAME` begins another recording, with the table file of that name, and from there on 32 bits stand for each part.
#![tactic(auto)]

use calls::Answer;
use half::Clipped;
use hex_lines::Line;
use observation::Subframe;
use refusal::Refusal;
use state::State;
use std::fmt::Display;
use std::io::{Cursor, Write};
use std::ops::ControlFlow;

// A part of what is printed is put together in a room: lines of a name and numbers with a blank before each. The longest part, 320 samples, has 2,249 bytes
// at most; what were past the room would be left out.
type Room = Cursor<[u8; 4096]>;

fn numbers<T: Display>(out: &mut Room, name: &str, items: &[T]) {
    let _ = write!(out, "{name}");
    for x in items {
        let _ = write!(out, " {x}");
    }
    let _ = write!(out, "\n");
}

// Floats by their bits.
fn floats(out: &mut Room, name: &str, items: &[f32]) {
    let _ = write!(out, "{name}");
    for x in items {
        let bits = numbers::to_bits(*x);
        let _ = write!(out, " {bits}");
    }
    let _ = write!(out, "\n");
}

// The state is the last part of what a line of the recording gave.
fn state_part(rt: &HostRuntime, s: State, digest: bool) {
    let mut out = Cursor::new(io::buffer());
    numbers(&mut out, "lsp", &s.lsp);
    numbers(&mut out, "past", &s.excitation);
    numbers(&mut out, "memory", &s.memory);
    numbers(&mut out, "sharpen_fixed", &[s.sharpen_fixed]);
    numbers(&mut out, "last_half_lag", &[s.last_half_lag]);
    numbers(&mut out, "fir", &s.fir);
    numbers(&mut out, "iir", &s.iir);
    floats(&mut out, "residuals", &s.residuals);
    floats(&mut out, "gains", &s.gains);
    numbers(&mut out, "mark", &[s.mark]);
    numbers(&mut out, "sure", &[s.sure]);
    part(rt, &out, digest);
    if digest {
        let _ = pipe::write(rt, b"\n");
    }
}

// What is said first is never a digest; a part that is one stands in the same line.
fn head(rt: &HostRuntime, name: &[u8], n: u8, digest: bool) {
    let _ = pipe::write(rt, name);
    numbers::say_digits(rt, u64::from(n));
    if !digest {
        let _ = pipe::write(rt, b"\n");
    }
}

fn subframe_part(rt: &HostRuntime, s: Subframe, clipped: Clipped, sure: u8, digest: bool) {
    let mut out = Cursor::new(io::buffer());
    floats(&mut out, "figures", &s.figures);
    numbers(&mut out, "lag", &[s.lag, s.frac]);
    numbers(&mut out, "lpc", &s.lpc);
    numbers(&mut out, "innovation", &s.innovation);
    numbers(&mut out, "zero_residuals", &[s.zero_residuals]);
    numbers(
        &mut out,
        "clipped",
        &[
            clipped.prediction,
            clipped.mixing,
            clipped.synthesis,
            clipped.output,
        ],
    );
    numbers(&mut out, "sure", &[sure]);
    part(rt, &out, digest);
}

fn words_part(rt: &HostRuntime, name: &str, w: &[i16], digest: bool) {
    let mut out = Cursor::new(io::buffer());
    numbers(&mut out, name, w);
    part(rt, &out, digest);
}

fn answer_parts(rt: &HostRuntime, a: Answer, samples: &[i16], digest: bool) {
    if a.number != 0 {
        head(rt, b"refused ", a.number, digest);
        return;
    }
    head(rt, b"accepted ", a.mark, digest);
    words_part(rt, "samples", samples, digest);
    words_part(rt, "excitation", &a.excitation, digest);
    let subframes = a.subframes;
    let clipped = a.clipped;
    let sure = a.sure;
    for k in 0..4 {
        subframe_part(rt, subframes[k], clipped[k], sure[k], digest);
    }
}

// A line's call: the state after it.
fn heard(
    rt: &HostRuntime,
    words: &[i16],
    bytes: &[u8],
    state: State,
    line: Line,
    digest: bool,
) -> State {
    if hex_lines::held_frame(line) {
        let text = line.text;
        let payload = hex_lines::payload(text);
        let mut samples = [0i16; 320];
        let a = celp::decode(words, bytes, state, &payload, &mut samples);
        answer_parts(rt, a, &samples, digest);
        let next = a.state;
        state_part(rt, next, digest);
        return next;
    }
    head(rt, b"refused ", 9, digest);
    let missed = state::missed_frame(state);
    let next = missed.state;
    state_part(rt, next, digest);
    next
}

// A line is over: the state after it. With the first it is known, and said, which state the recording starts in: reset's where that line is `+`.
fn line_over(
    rt: &HostRuntime,
    words: &[i16],
    bytes: &[u8],
    first: bool,
    state: State,
    line: Line,
    digest: bool,
) -> State {
    if !first {
        return heard(rt, words, bytes, state, line, digest);
    }
    if hex_lines::is_only(line, b'+') {
        let start = state::reset(words, bytes);
        let next = start.state;
        state_part(rt, next, digest);
        return next;
    }
    state_part(rt, state, digest);
    heard(rt, words, bytes, state, line, digest)
}

// The end of a recording: one without a line starts cold.
fn ended(rt: &HostRuntime, first: bool, state: State, digest: bool) {
    if first {
        state_part(rt, state, digest);
    }
}

// The table file's words and bytes, and its number. A byte more than it should have tells one that is too long.
fn read_tables(
    rt: &HostRuntime,
    name: &[u8],
    words: &mut [i16; 5963],
    bytes: &mut [u8; 3908],
) -> Result<(), Refusal> {
    let mut file = [0u8; 15835];
    let n = pipe::moved(pipe::read_file(rt, name, &mut file));
    bytes.copy_from_slice(&file[11926..15834]);
    table_file::check_file(&file[..n], words)
}

fn is_heading(line: Line) -> bool {
    let text = line.text;
    text.starts_with(b"digest ")
}

// The table file that a heading, the first n bytes of the text, names behind its seventh.
fn read_named(
    rt: &HostRuntime,
    text: &[u8],
    n: usize,
    words: &mut [i16; 5963],
    bytes: &mut [u8; 3908],
) {
    if n <= text.len() {
        let _ = pipe::write(rt, &text[..n]);
        if 7 <= n {
            if let Err(why) = read_tables(rt, &text[7..n], words, bytes) {
                head(rt, b" refused ", why.number(), true);
            }
        }
    }
}

// Another recording begins.
fn headed(rt: &HostRuntime, line: Line, words: &mut [i16; 5963], bytes: &mut [u8; 3908]) -> State {
    let text = line.text;
    read_named(rt, &text, line.n, words, bytes);
    let start = state::cold_start(words, bytes);
    start.state
}

// What is carried from byte to byte.
#[derive(Drop)]
struct Carried {
    first: bool,
    state: State,
    line: Line,
    digest: bool,
}

fn taken(
    rt: &HostRuntime,
    words: &mut [i16; 5963],
    bytes: &mut [u8; 3908],
    c: Carried,
    s: &[u8],
) -> Carried {
    let mut first = c.first;
    let mut state = c.state;
    let mut line = c.line;
    let mut digest = c.digest;
    for b in s {
        if *b == b'\n' {
            if is_heading(line) {
                ended(rt, first, state, digest);
                state = headed(rt, line, words, bytes);
                first = true;
                digest = true;
            } else {
                state = line_over(rt, words, bytes, first, state, line, digest);
                first = false;
            }
            line = hex_lines::empty();
        } else {
            line = hex_lines::push(line, *b);
        }
    }
    Carried {
        first,
        state,
        line,
        digest,
    }
}

// A read, and all that it gives. One that failed, or gave nothing, is the last.
fn read_some(
    rt: &HostRuntime,
    words: &mut [i16; 5963],
    bytes: &mut [u8; 3908],
    c: Carried,
) -> ControlFlow<Carried, Carried> {
    let mut buf = io::buffer();
    let n = pipe::read(rt, &mut buf).unwrap_or(0);
    let next = taken(rt, words, bytes, c, &buf[..n]);
    if n > 0 {
        ControlFlow::Continue(next)
    } else {
        ControlFlow::Break(next)
    }
}

fn read_all(
    rt: &HostRuntime,
    words: &mut [i16; 5963],
    bytes: &mut [u8; 3908],
    start: Carried,
) -> Carried {
    let mut c = start;
    for _ in 0..u64::MAX {
        match read_some(rt, words, bytes, c) {
            ControlFlow::Continue(next) => c = next,
            ControlFlow::Break(last) => return last,
        }
    }
    c
}

// The recording; a last line without its end counts too.
fn run(rt: &HostRuntime, words: &mut [i16; 5963], bytes: &mut [u8; 3908]) {
    let start = state::cold_start(words, bytes);
    let cold = start.state;
    let start = Carried {
        first: true,
        state: cold,
        line: hex_lines::empty(),
        digest: false,
    };
    let c = read_all(rt, words, bytes, start);
    let line = c.line;
    let state = c.state;
    if line.n != 0 {
        line_over(rt, words, bytes, c.first, state, line, c.digest);
    } else {
        ended(rt, c.first, state, c.digest);
    }
}

fn main(rt: HostRuntime) {
    let mut words = [0i16; 5963];
    let mut bytes = [0u8; 3908];
    if let Err(why) = read_tables(&rt, b"tables.bin", &mut words, &mut bytes) {
        head(&rt, b"refused ", why.number(), false);
        return;
    }
    run(&rt, &mut words, &mut bytes);
}

// FNV-1a of 32 bits.
fn fnv(s: &[u8]) -> u64 {
    let mut h = 0x811c_9dc5;
    for b in s {
        h = (h ^ u64::from(*b)) % 0x1_0000_0000 * 0x0100_0193 % 0x1_0000_0000;
    }
    h
}

// A part is over: it is written, or in its place 32 bits of it.
fn part(rt: &HostRuntime, out: &Room, digest: bool) {
    let n = out.position();
    if 4096 < n {
        return;
    }
    let text = &out.get_ref()[..n as usize];
    if digest {
        let mut digits = [0u8; 16];
        let k = io::hex(fnv(text), 8, &mut digits);
        let _ = pipe::write(rt, b" ");
        let _ = pipe::write(rt, &digits[..k]);
    } else {
        let _ = pipe::write(rt, text);
    }
}
