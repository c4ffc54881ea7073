// Standard input and output, and a file's bytes, for programs that take text in and give text out. A call that a signal interrupts is made again.
#![tactic(auto)]

ghost use Rattle.std.specs.Prelude.{◌≡◌, ◌+◌, ◌≤◌, length, IfOk, IfErr};
ghost use Rattle.io.specs.Counts.{IsPrefixLen};

use std::env::{Env, FillError};
use std::fs::File;
use std::io::{Cursor, Error, ErrorKind, Read, Write};

// The system's numbers: an argument that is missing, one that is too long, a name that is no text.
const INVALID: i32 = 22;

const TOO_LONG: i32 = 36;

const NO_TEXT: i32 = 84;

// A call that failed: how many bytes it had moved before, and why.
#[derive(Clone, Copy)]
pub struct Stopped {
    pub n: usize,
    pub why: Error,
}

// An input's next bytes, at the start of room; none where it is at its end. A read that is interrupted 2^64 - 1 times has failed.
pub fn read_from<R: Read>(from: &mut R, room: &mut [u8]) -> Result<usize, Error>
    ensures { IfOk result (λ n. IsPrefixLen n room.new) }
{
    let mut why = Error::from(ErrorKind::Interrupted);
    for _ in 0..u64::MAX {
        match from.read(room) {
            Err(e) if e.kind() == ErrorKind::Interrupted => why = e,
            got => return got,
        }
    }
    Err(why)
}

// Standard input's next bytes, at the start of room.
pub fn read(rt: &HostRuntime, room: &mut [u8]) -> Result<usize, Error>
    ensures { IfOk result (λ n. IsPrefixLen n room.new) }
{
    let mut input = rt.stdin();
    read_from(&mut input, room)
}

// Reads until the room is full or the input at its end.
fn read_whole<R: Read>(from: &mut R, room: &mut [u8]) -> Result<usize, Stopped>
    ensures whole { IfOk result (λ n. IsPrefixLen n room.new) }
    ensures stopped { IfErr result (λ e. IsPrefixLen e.n room.new) }
{
    let mut n = 0;
    // Not counted: it goes on by what a read gives.
    while n < room.len() {
        let more = read_from(from, &mut room[n..]).map_err(|why| Stopped { n, why })?;
        if more == 0 {
            break;
        }
        n += more;
    }
    Ok(n)
}

// Standard input's bytes, at the start of room, until it is full or the input at its end.
pub fn read_full(rt: &HostRuntime, room: &mut [u8]) -> Result<usize, Stopped>
    ensures whole { IfOk result (λ n. IsPrefixLen n room.new) }
    ensures stopped { IfErr result (λ e. IsPrefixLen e.n room.new) }
{
    let mut input = rt.stdin();
    read_whole(&mut input, room)
}

// A file's first bytes, at the start of room: all of them, or as many as room has. A file that is missing has none.
pub fn read_file(rt: &HostRuntime, name: &[u8], room: &mut [u8]) -> Result<usize, Stopped>
    ensures whole { IfOk result (λ n. IsPrefixLen n room.new) }
    ensures stopped { IfErr result (λ e. IsPrefixLen e.n room.new) }
{
    match open(rt, name) {
        Ok(mut file) => read_whole(&mut file, room),
        Err(why) if why.kind() == ErrorKind::NotFound => Ok(0),
        Err(why) => Err(Stopped { n: 0, why }),
    }
}

// How many bytes stand in the room that was read into, also where the read failed.
pub fn moved(read: Result<usize, Stopped>) -> usize
    ensures whole { IfOk read (λ n. result ≡ n) }
    ensures stopped { IfErr read (λ e. result ≡ e.n) }
{
    match read {
        Ok(n) => n,
        Err(stopped) => stopped.n,
    }
}

// A file, opened to be read. A name that is not UTF-8 is no file's.
pub fn open(rt: &HostRuntime, name: &[u8]) -> Result<File, Error> {
    match str::from_utf8(name) {
        Ok(path) => File::open(rt, path),
        Err(_) => Err(Error::from_raw_os_error(NO_TEXT)),
    }
}

// The argument of a place, at the start of room; 0 is the program's own name.
pub fn argument(rt: &HostRuntime, place: usize, room: &mut [u8]) -> Result<usize, Error>
    ensures { IfOk result (λ n. IsPrefixLen n room.new) }
{
    rt.arg(place, room).map_err(|e| {
        Error::from_raw_os_error(match e {
            FillError::NotPresent => INVALID,
            FillError::TooLong => TOO_LONG,
        })
    })
}

// One write of the text from a place on; one that is interrupted moves nothing.
fn write_some<W: Write>(to: &mut W, text: &[u8], at: usize) -> Result<usize, Error>
    requires { at ≤ length text.now }
    ensures { IfOk result (λ n. at + n ≤ length text.now) }
{
    match to.write(&text[at..]) {
        Err(why) if why.kind() == ErrorKind::Interrupted => Ok(0),
        put => put,
    }
}

// All of the text to an output; or it failed, as it has where 2^64 - 1 writes moved less than all.
fn write_to<W: Write>(to: &mut W, text: &[u8]) -> Result<usize, Stopped>
    ensures all { IfOk result (λ n. n ≡ length text.now) }
    ensures stopped { IfErr result (λ e. e.n ≤ length text.now) }
{
    let mut at = 0;
    for _ in 0..u64::MAX {
        if at == text.len() {
            return Ok(at);
        }
        let n = write_some(to, text, at).map_err(|why| Stopped { n: at, why })?;
        at += n;
    }
    Err(Stopped {
        n: at,
        why: Error::from(ErrorKind::Interrupted),
    })
}

// The same to standard output.
pub fn write(rt: &HostRuntime, text: &[u8]) -> Result<usize, Stopped>
    ensures all { IfOk result (λ n. n ≡ length text.now) }
    ensures stopped { IfErr result (λ e. e.n ≤ length text.now) }
{
    let mut output = rt.stdout();
    write_to(&mut output, text)
}

// And to standard error.
pub fn write_error(rt: &HostRuntime, text: &[u8]) -> Result<usize, Stopped>
    ensures all { IfOk result (λ n. n ≡ length text.now) }
    ensures stopped { IfErr result (λ e. e.n ≤ length text.now) }
{
    let mut output = rt.stderr();
    write_to(&mut output, text)
}

// A line to standard error: what failed, a colon, and why in the system's words. Where that cannot be written, nothing is left to tell it.
pub fn tell(rt: &HostRuntime, what: &[u8], why: Error) {
    let mut text = [0u8; 256];
    let n = words(why, &mut text);
    let _ = write_error(rt, what);
    let _ = write_error(rt, b": ");
    let _ = write_error(rt, &text[..n]);
    let _ = write_error(rt, b"\n");
}

// An error in the system's words, at the start of room: as it is printed, but for its number in brackets behind them.
fn words(why: Error, room: &mut [u8; 256]) -> usize
    ensures { IsPrefixLen result room.new }
{
    let mut to = Cursor::new(*room);
    let _ = write!(to, "{why}");
    *room = to.into_inner();
    room.windows(2)
        .position(|w| w[0] == 0 || w == b" (".as_slice())
        .unwrap_or(255)
}
