// Another decoder's lines beside ours: read, the calls of beside and judging, write. The first argument names the recording's file, the supplier's lines are standard input.
#![tactic(auto)]

ghost use Rattle.std.specs.Prelude.{◌≡◌, ◌≤◌, length};
ghost use Rattle.heard.specs.Start as Start;

use heard::Recorder;
use input::Input;
use judging::Judge;
use std::fs::File;
use std::os::fd::AsRawFd;
use turns::Told;

const PROGRAM: &[u8] = b"compare";

// Where the comparison stands between two turns: what the judge is to hear of the recording lies within its room.
#[derive(Drop)]
struct Stand {
    judge: Judge,
    ghost said: { judge.said ≤ 133696 },
}

// A turn of the recording's.
fn ours(
    rt: &HostRuntime,
    from: &mut File,
    words: &[i16],
    file: &[u8],
    stand: Stand,
    mine: &mut Input,
    text: &mut [u8; 133696],
) -> Result<Stand, Told>
    requires { Start.Tables words.now file.now }
{
    mine.refill(from).map_err(|why| turns::tell(rt, PROGRAM, b": cannot read the recording", why))?;
    let h = beside::ours(words, file, stand.judge, mine.unread(), text);
    mine.use_up(h.used);
    Ok(Stand { judge: h.judge })
}

// A turn of the supplier's, and what is told.
fn theirs(
    rt: &HostRuntime,
    stand: Stand,
    other: &mut Input,
    text: &[u8; 133696],
    held: &mut [u8; 1283],
) -> Result<Stand, Told> {
    let mut room = [0u8; 128];
    let mut from = rt.stdin();
    other
        .refill(&mut from)
        .map_err(|why| turns::tell(rt, PROGRAM, b": cannot read", why))?;
    let h = judging::theirs(stand.judge, text, held, other.unread(), &mut room);
    other.use_up(h.used);
    turns::write(rt, PROGRAM, &room[..h.n])?;
    Ok(Stand { judge: h.judge })
}

// A turn of the input that is wanted.
fn take_turn(
    rt: &HostRuntime,
    from: &mut File,
    words: &[i16],
    file: &[u8],
    stand: Stand,
    mine: &mut Input,
    text: &mut [u8; 133696],
    other: &mut Input,
    held: &mut [u8; 1283],
) -> Result<Stand, Told>
    requires { Start.Tables words.now file.now }
{
    if stand.judge.theirs {
        theirs(rt, stand, other, text, held)
    } else {
        ours(rt, from, words, file, stand, mine, text)
    }
}

// Each turn uses a byte or more, or is at an end. The arrays stand elsewhere: where they are made their zeros are known, and would be counted one by one.
fn take_turns(
    rt: &HostRuntime,
    from: &mut File,
    words: &[i16],
    file: &[u8],
    start: Stand,
    text: &mut [u8; 133696],
    held: &mut [u8; 1283],
) -> Result<Stand, Told>
    requires { Start.Tables words.now file.now }
{
    let mut mine = Input::new();
    let mut other = Input::new();
    turns::take_turns(
        rt,
        PROGRAM,
        b"turns",
        start,
        |stand|
            requires { Start.Tables words.now file.now }
        {
            let next = take_turn(
                rt, from, words, file, stand, &mut mine, text, &mut other, held,
            )?;
            Ok(turns::after(!next.judge.told, next))
        },
    )
}

fn play(
    rt: &HostRuntime,
    from: &mut File,
    words: &[i16],
    file: &[u8],
    recorder: Recorder,
) -> Result<Stand, Told>
    requires { Start.Tables words.now file.now }
{
    let mut text = [0u8; 133696];
    let mut held = [0u8; 1283];
    let start = Stand {
        judge: beside::begin(recorder),
    };
    take_turns(rt, from, words, file, start, &mut text, &mut held)
}

// Once the recording is open. A byte more than a table file has tells one that is too long.
fn opened(rt: &HostRuntime, recording: &mut File) -> Result<(), Told> {
    let mut file = [0u8; 15835];
    let mut words = [0i16; 5963];
    let mut room = [0u8; 40];
    let n = turns::read_tables(rt, PROGRAM, &mut file)?;
    let start = heard::begin(&file[..n], &mut words, &mut room);
    turns::write(rt, PROGRAM, &room[..start.n])?;
    if start.number == 0 {
        play(rt, recording, &words, &file[..n], start.recorder)?;
    }
    Ok(())
}

// Where standard input is closed, the recording is opened in its place, and nothing is there to compare. Where no name is given, no file is opened.
fn begin(rt: &HostRuntime) -> Result<(), Told> {
    let mut name = io::buffer();
    let n = pipe::argument(rt, 1, &mut name).unwrap_or(0);
    let mut recording = pipe::open(rt, &name[..n]).map_err(|why| turns::tell(
        rt,
        PROGRAM,
        b": cannot open the recording",
        why,
    ))?;
    if recording.as_raw_fd() == 0 {
        let _ = pipe::write_error(rt, b"compare: standard input is closed\n");
        return Err(Told);
    }
    opened(rt, &mut recording)
}

// What failed is told.
fn main(rt: HostRuntime) {
    let _ = begin(&rt);
}
