// Two channels on one table set: open, read, channels' call, write.
#![tactic(auto)]

ghost use Rattle.std.specs.Prelude.{false, IfOk};
ghost use Rattle.channel_lines.specs.Feed as Feed;
ghost use Rattle.heard.specs.Start as Start;
ghost use Rattle.turns.specs.Turns.{OfTurn};

use channel_lines::Recorder;
use std::ops::ControlFlow;
use turns::Told;

const PROGRAM: &[u8] = b"two_channels";

// One read, and all the text that it gives: where that leaves the recording, and how long the text was.
fn take_in(
    rt: &HostRuntime,
    words: &[i16],
    file: &[u8],
    recorder: Recorder,
) -> Result<(ControlFlow<Recorder, Recorder>, usize), Told>
    requires { Start.Tables words.now file.now }
    ensures { IfOk result (λ t. OfTurn t.0 (λ next more. Feed.TookIn file.now recorder next t.1 more false)) }
{
    let mut chunk = io::buffer();
    let mut room = [0u8; 133760];
    let n = turns::read(rt, PROGRAM, &mut chunk)?;
    let fed = channels::answer(words, file, recorder, &chunk[..n], &mut room);
    let sent = turns::write(rt, PROGRAM, &room[..fed.n])?;
    Ok((turns::after(n > 0, fed.recorder), sent))
}

fn play(rt: &HostRuntime, words: &[i16], file: &[u8], start: Recorder) -> Result<Recorder, Told>
    requires { Start.Tables words.now file.now }
{
    turns::take_turns(rt, PROGRAM, b"reads", start, |recorder| {
        let (turn, _) = take_in(rt, words, file, recorder)?;
        Ok(turn)
    })
}

// A byte more than a table file has tells one that is too long.
fn begin(rt: &HostRuntime) -> Result<(), Told> {
    let mut file = [0u8; 15835];
    let mut words = [0i16; 5963];
    let mut room = [0u8; 40];
    let n = turns::read_tables(rt, PROGRAM, &mut file)?;
    let start = channels::begin(&file[..n], &mut words, &mut room);
    turns::write(rt, PROGRAM, &room[..start.n])?;
    if start.number == 0 {
        play(rt, &words, &file[..n], start.recorder)?;
    }
    Ok(())
}

// What failed is told.
fn main(rt: HostRuntime) {
    let _ = begin(&rt);
}
