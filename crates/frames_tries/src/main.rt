// Frames in one call, tried beside single calls. tables.bin and frames.bin, 70 frames of 20 bytes, lie beside it; each line of standard input is a question.
// `B`: all frames from reset, B in a call; the last mark, a digest of each frame's number and samples, and one of the last state are said.
// `P S N M`: one call from reset with mark M on the first P bytes, with rooms of S samples and N numbers; number, rule, place, mark and digests are said.
// Rooms are filled before a call, so that what it leaves untouched is seen.
#![tactic(auto)]

ghost use Rattle.std.specs.Prelude.{◌≤◌, ◌<◌};

use state::State;

const SAMPLES: usize = 20801;

const NUMBERS: usize = 66;

// A word as a number that is not negative: one below 0 as 65,536 more than its size.
fn lifted(x: i16) -> u64 {
    let n = u64::from(x.unsigned_abs());
    if x < 0 { n + 65536 } else { n }
}

// A number more in a digest of 32 bits.
fn mixed(digest: u64, x: u64) -> u64 {
    (digest % 0x1_0000_0000 * 16777619 + x % 0x1_0000_0000) % 0x1_0000_0000
}

fn words_in(digest: u64, words: &[i16]) -> u64 {
    let mut d = digest;
    for x in words {
        d = mixed(d, lifted(*x));
    }
    d
}

fn bytes_in(digest: u64, bytes: &[u8]) -> u64 {
    let mut d = digest;
    for x in bytes {
        d = mixed(d, u64::from(*x));
    }
    d
}

// Of a state: all its words but the filter's of 32 bits.
fn state_digest(s: State) -> u64 {
    let lsp = s.lsp;
    let excitation = s.excitation;
    let memory = s.memory;
    let fir = s.fir;
    let a = words_in(0, &lsp);
    let b = words_in(a, &excitation);
    let c = words_in(b, &memory);
    let d = words_in(c, &[s.sharpen_fixed, s.last_half_lag]);
    words_in(d, &fir)
}

fn say(rt: &HostRuntime, n: u64, last: bool) {
    numbers::say_digits(rt, n);
    if last {
        let _ = pipe::write(rt, b"\n");
    } else {
        let _ = pipe::write(rt, b" ");
    }
}

// One call, with so much of the rooms.
fn once(
    rt: &HostRuntime,
    words: &[i16],
    bytes: &[u8],
    start: State,
    payloads: &[u8],
    room: usize,
    answers: usize,
    samples: &mut [i16],
    numbers: &mut [u8],
) {
    if samples.len() < room {
        return;
    }
    if numbers.len() < answers {
        return;
    }
    let r = celp::decode_frames(
        words,
        bytes,
        start,
        payloads,
        &mut samples[..room],
        &mut numbers[..answers],
    );
    let state = r.state;
    say(rt, u64::from(r.number), false);
    say(rt, u64::from(r.rule), false);
    say(rt, r.place as u64, false);
    say(rt, u64::from(state.mark), false);
    say(rt, words_in(0, samples), false);
    say(rt, bytes_in(0, numbers), false);
    say(rt, state_digest(state), true);
}

// What is carried from call to call.
#[derive(Drop)]
struct Carried {
    state: State,
    digest: u64,
}

// The numbers and samples of the frames that one call gave.
fn frames_in(digest: u64, numbers: &[u8], samples: &[i16]) -> u64 {
    let mut d = digest;
    for (number, frame) in numbers.iter().zip(samples.chunks_exact(320)) {
        d = mixed(d, u64::from(*number));
        d = words_in(d, frame);
    }
    d
}

// One call of many.
fn part(
    words: &[i16],
    bytes: &[u8],
    c: Carried,
    payloads: &[u8],
    samples: &mut [i16],
    numbers: &mut [u8],
) -> Carried {
    let n = payloads.len() / 20;
    if 64 < n {
        return c;
    }
    let room = 320 * n;
    if samples.len() < room {
        return c;
    }
    if numbers.len() < n {
        return c;
    }
    let state = c.state;
    let r = celp::decode_frames(
        words,
        bytes,
        state,
        payloads,
        &mut samples[..room],
        &mut numbers[..n],
    );
    let next = r.state;
    Carried {
        state: next,
        digest: frames_in(c.digest, &numbers[..n], &samples[..room]),
    }
}

// It, with rooms that are filled.
fn filled(words: &[i16], bytes: &[u8], c: Carried, payloads: &[u8]) -> Carried {
    let mut samples = [21845i16; SAMPLES];
    let mut numbers = [170u8; NUMBERS];
    part(words, bytes, c, payloads, &mut samples, &mut numbers)
}

// All frames, so many bytes in a call.
fn all(rt: &HostRuntime, words: &[i16], bytes: &[u8], start: State, frames: &[u8], size: usize)
    requires { 0 < size }
{
    let mut c = Carried {
        state: start,
        digest: 0,
    };
    for payloads in frames.chunks(size) {
        c = filled(words, bytes, c, payloads);
    }
    let state = c.state;
    say(rt, u64::from(state.mark), false);
    say(rt, c.digest, false);
    say(rt, state_digest(state), true);
}

fn asked(x: i64) -> usize
    ensures { result < 65536 }
{
    (x.unsigned_abs() % 65536) as usize
}

fn question(
    rt: &HostRuntime,
    words: &[i16],
    bytes: &[u8],
    frames: &[u8],
    count: usize,
    n: [i64; 128],
) {
    let r = state::reset(words, bytes);
    let mut start = r.state;
    if count == 1 {
        let b = asked(n[0]);
        if 0 < b {
            all(rt, words, bytes, start, frames, 20 * b);
        }
        return;
    }
    let p = asked(n[0]);
    let mark = asked(n[3]);
    start.mark = (mark % 256) as u8;
    let mut samples = [21845i16; SAMPLES];
    let mut numbers = [170u8; NUMBERS];
    if p <= frames.len() {
        once(
            rt,
            words,
            bytes,
            start,
            &frames[0..p],
            asked(n[1]),
            asked(n[2]),
            &mut samples,
            &mut numbers,
        );
    }
}

fn each_line(rt: &HostRuntime, words: &[i16], bytes: &[u8], frames: &[u8], text: &[u8]) {
    asking::each(text, |q| {
        question(rt, words, bytes, frames, q.count, q.numbers);
    });
}

fn main(rt: HostRuntime) {
    let mut file = [0u8; 15835];
    let mut words = [0i16; 5963];
    let n = pipe::moved(pipe::read_file(&rt, b"tables.bin", &mut file));
    if let Err(why) = table_file::check_file(&file[..n], &mut words) {
        say(&rt, u64::from(why.number()), true);
        return;
    }
    let mut frames = [0u8; 1400];
    let m = pipe::moved(pipe::read_file(&rt, b"frames.bin", &mut frames));
    let mut text = io::buffer();
    let k = pipe::read(&rt, &mut text).unwrap_or(0);
    each_line(&rt, &words, &file[11926..15834], &frames[..m], &text[..k]);
}
