// Playing a recording by commands, turn by turn: each turn writes one frame's line, or takes in one command's line and writes what it is answered.
#![tactic(auto)]

ghost use Rattle.std.specs.Prelude.{◌≡◌, ◌≤◌, ◌<◌, ltb, length};
ghost use Rattle.io.specs.Counts.{IsPrefixLen};
ghost use Rattle.stream.specs.Machine.{fed_all};
ghost use Rattle.table_file.specs.File as File;
ghost use Rattle.hex_lines.specs.Held as Held;
ghost use Rattle.heard.specs.Start as Start;
ghost use Rattle.commands.specs.Commands as Commands;
ghost use Rattle.seek.specs.Seek as Seek;
ghost use Rattle.replies.specs.Replies as Replies;
ghost use Rattle.replies.specs.Promised as Promised;
ghost use Rattle.playback.specs.Playback as Playback;
ghost use Rattle.playback.specs.Turns as Turns;

use commands::Command;
use hex_lines::Line;
use refusal::Refusal;
use replies::{Cue, Obeyed};
use slots::Slot;
use state::State;

// Where the player stands: the records of the shelf, the line that is coming in, what is left to play, and whether all is told.
#[derive(Clone, Copy)]
pub struct Player {
    pub slots: [Slot; 16],
    pub line: Line,
    pub cue: Cue,
    pub told: bool,
}

// What a turn leaves, how many bytes of its chunk it used, and how long its text is.
#[derive(Clone, Copy)]
pub struct Turned {
    pub player: Player,
    pub used: usize,
    pub n: usize,
}

// What a frame leaves, and how long its text is.
#[derive(Clone, Copy)]
struct Played {
    cue: Cue,
    n: usize,
}

// Before the first turn.
pub fn start() -> Player
    ensures { result ≡ Turns.start }
{
    let none = Slot { users: 0, frame: 0 };
    Player {
        slots: [none; 16],
        line: hex_lines::empty(),
        cue: replies::silence(),
        told: false,
    }
}

// Whether a frame is to be played: then the turn asks no input.
pub fn playing(recording: &[u8], cue: Cue) -> bool
    ensures { result ≡ ltb 0 (length (Promised.ahead recording.now cue)) }
{
    if cue.left == 0 {
        return false;
    }
    cue.place < recording.len()
}

// The next frame: its line, as decode writes it, goes over the beginning of room.
fn frame(words: &[i16], bytes: &[u8], cue: Cue, recording: &[u8], room: &mut [u8]) -> Played
    requires fact_1 { 0 < cue.left }
    requires fact_2 { cue.place < length recording.now }
    requires fact_3 { 1283 ≤ length room.old }
    ensures { Turns.Plays words.now bytes.now recording.now cue room.old result room.new }
{
    let state = cue.state;
    let a = cue.place;
    let e = places::line_end(recording, a);
    let said = hearing::call(words, bytes, state, places::held(&recording[a..e]), room);
    let next = said.state;
    Played {
        cue: Cue {
            state: next,
            place: places::behind(recording, e),
            left: cue.left - 1,
        },
        n: said.n,
    }
}

// The state that is to be saved before frame k: from the best save, or where none is held at or below it from the recording's start.
fn found(
    words: &[i16],
    bytes: &[u8],
    slots: [Slot; 16],
    images: &[u8],
    recording: &[u8],
    k: u32,
) -> Result<State, Refusal>
    ensures { Seek.answer result ≡ Playback.found words.now bytes.now recording.now (Promised.shelf slots images.now) k }
{
    if let Some(_) = best_save::best(slots, k) {
        return seek::seek(words, bytes, &slots, images, recording, k);
    }
    if places::has_frame(recording, k) {
        return Ok(forward::before(words, bytes, recording, k));
    }
    Err(Refusal::NoFrame)
}

// The same with its refusal's number.
fn numbered(s: Result<State, Refusal>) -> Result<State, u8>
    ensures { Seek.numbered result ≡ Seek.answer s }
{
    s.map_err(Refusal::number)
}

// `save K`
fn save(
    words: &[i16],
    bytes: &[u8],
    slots: [Slot; 16],
    images: &mut [u8],
    recording: &[u8],
    k: u32,
    room: &mut [u8],
) -> Obeyed
    requires { 64 ≤ length room.old }
    ensures quiet { Promised.Quiet (Replies.save_left (Promised.shelf slots images.old) k (Playback.found words.now bytes.now recording.now (Promised.shelf slots images.old) k)).slots (Replies.save_said (Promised.shelf slots images.old) k (Playback.found words.now bytes.now recording.now (Promised.shelf slots images.old) k)) room.old result room.new }
    ensures images_after { images.new ≡ (Replies.save_left (Promised.shelf slots images.old) k (Playback.found words.now bytes.now recording.now (Promised.shelf slots images.old) k)).images }
{
    let s = found(words, bytes, slots, images, recording, k);
    sought::keep(numbered(s), slots, images, k, room)
}

// A command: its text goes over the beginning of room, but for the frames that it leaves to play.
fn obey(
    words: &[i16],
    bytes: &[u8],
    slots: [Slot; 16],
    images: &mut [u8],
    recording: &[u8],
    c: Command,
    room: &mut [u8],
) -> Obeyed
    requires { 64 ≤ length room.old }
    ensures { Turns.Obeys words.now bytes.now recording.now (Promised.shelf slots images.old) (Commands.told c) room.old result images.new room.new }
{
    match c {
        Command::Save(k) => save(words, bytes, slots, images, recording, k, room),
        Command::Hold(k) => replies::hold(slots, images, k, room),
        Command::LetGo(k) => replies::let_go(slots, images, k, room),
        Command::Seek(k) => {
            let s = seek::seek(words, bytes, &slots, images, recording, k);
            replies::tell(numbered(s), slots, k, room)
        }
        Command::Play(k, n) => {
            let s = seek::seek(words, bytes, &slots, images, recording, k);
            sought::begin_play(numbered(s), slots, recording, k, n, room)
        }
        Command::Unknown => replies::wonder(slots, room),
    }
}

// The end of a line, with so many bytes used.
fn end_line(
    words: &[i16],
    bytes: &[u8],
    slots: [Slot; 16],
    images: &mut [u8],
    recording: &[u8],
    line: Line,
    used: usize,
    room: &mut [u8],
) -> Turned
    requires { 64 ≤ length room.old }
    ensures { Turns.Took recording.now (Turns.ends words.now bytes.now recording.now (Promised.shelf slots images.old) line used) room.old result images.new room.new }
{
    let done = obey(
        words,
        bytes,
        slots,
        images,
        recording,
        commands::read(line),
        room,
    );
    let after = done.slots;
    let next = done.cue;
    Turned {
        player: Player {
            slots: after,
            line: hex_lines::empty(),
            cue: next,
            told: false,
        },
        used,
        n: done.n,
    }
}

// A line with more bytes.
fn push_all(line: Line, part: &[u8]) -> Line
    ensures { result ≡ fed_all Held.push line part.now }
{
    let mut l = line;
    for b in part {
        l = hex_lines::push(l, *b);
    }
    l
}

// What is unread of the input, nothing being its end: up to a newline it is taken in, and at a line's end its command is obeyed.
fn take(
    words: &[i16],
    bytes: &[u8],
    p: Player,
    images: &mut [u8],
    recording: &[u8],
    chunk: &[u8],
    room: &mut [u8],
) -> Turned
    requires { 64 ≤ length room.old }
    ensures took { Turns.Took recording.now (Turns.takes words.now bytes.now recording.now (Turns.seen recording.now p images.old) chunk.now) room.old result images.new room.new }
    ensures used { result.used ≤ length chunk.now }
{
    let slots = p.slots;
    let line = p.line;
    let cue = p.cue;
    if chunk.len() == 0 {
        if line.n == 0 {
            return Turned {
                player: Player {
                    slots,
                    line,
                    cue,
                    told: true,
                },
                used: 0,
                n: 0,
            };
        }
        return end_line(words, bytes, slots, images, recording, line, 0, room);
    }
    let k = places::line_end(chunk, 0);
    let more = push_all(line, &chunk[..k]);
    if k == chunk.len() {
        return Turned {
            player: Player {
                slots,
                line: more,
                cue,
                told: false,
            },
            used: k,
            n: 0,
        };
    }
    end_line(words, bytes, slots, images, recording, more, k + 1, room)
}

// A turn: a frame of those that are left to play or, where none is, what is unread of the input, nothing being its end. Its text goes over the beginning of room.
pub fn turn(
    words: &[i16],
    file: &[u8],
    p: Player,
    images: &mut [u8],
    recording: &[u8],
    chunk: &[u8],
    room: &mut [u8],
) -> Turned
    requires fact_1 { Start.Tables words.now file.now }
    requires fact_2 { 1283 ≤ length room.old }
    ensures took { Turns.Took recording.now (Turns.turn (File.words file.now) (File.bytes file.now) recording.now (Turns.seen recording.now p images.old) chunk.now) room.old result images.new room.new }
    ensures fits { IsPrefixLen result.n room.new }
    ensures used { result.used ≤ length chunk.now }
{
    let slots = p.slots;
    let line = p.line;
    let cue = p.cue;
    if playing(recording, cue) {
        let f = frame(words, &file[11926..], cue, recording, room);
        let next = f.cue;
        return Turned {
            player: Player {
                slots,
                line,
                cue: next,
                told: false,
            },
            used: 0,
            n: f.n,
        };
    }
    take(words, &file[11926..], p, images, recording, chunk, room)
}
