// The term report: reads table file and recordings, a chunk at a time, until the input ends or so many lines were read that it stops; then writes the report.
#![tactic(auto)]

ghost use Rattle.std.specs.Prelude.{◌≡◌, false, not, ◌&&◌, ltb, IfOk};
ghost use Rattle.heard.specs.Start as Start;
ghost use Rattle.term_steps.specs.Feed as Feed;
ghost use Rattle.turns.specs.Turns.{OfTurn};

use std::ops::ControlFlow;
use term_steps::Recorder;
use turns::Told;

const PROGRAM: &[u8] = b"report";

// There is use in more where something was read and the recorder is not full.
fn goes_on(n: usize, full: bool) -> bool
    ensures { result ≡ ltb 0 n && not full }
{
    n > 0 && !full
}

// One read: where it leaves the input, and whether there is use in more.
fn take_in(
    rt: &HostRuntime,
    words: &[i16],
    file: &[u8],
    recorder: Recorder,
) -> Result<ControlFlow<Recorder, Recorder>, Told>
    requires { Start.Tables words.now file.now }
    ensures { IfOk result (λ t. OfTurn t (λ next more. Feed.TookIn file.now recorder next more false)) }
{
    let mut chunk = io::buffer();
    let n = turns::read(rt, PROGRAM, &mut chunk)?;
    let next = term::feed(words, file, recorder, &chunk[..n]);
    let full = term::is_full(next);
    Ok(turns::after(goes_on(n, full), next))
}

fn tell(rt: &HostRuntime, words: &[i16], file: &[u8], recorder: Recorder) -> Result<usize, Told>
    requires { Start.Tables words.now file.now }
{
    let mut room = [0u8; 16384];
    let n = term::report(words, file, recorder, &mut room);
    turns::write(rt, PROGRAM, &room[..n])
}

fn count(rt: &HostRuntime, words: &[i16], file: &[u8], start: Recorder) -> Result<usize, Told>
    requires { Start.Tables words.now file.now }
{
    let last = turns::take_turns(rt, PROGRAM, b"reads", start, |recorder| {
        take_in(rt, words, file, recorder)
    })?;
    tell(rt, words, file, last)
}

// A byte more than a table file has tells one that is too long.
fn begin(rt: &HostRuntime) -> Result<(), Told> {
    let mut file = [0u8; 15835];
    let mut words = [0i16; 5963];
    let mut room = [0u8; 40];
    let n = turns::read_tables(rt, PROGRAM, &mut file)?;
    let start = term::begin(&file[..n], &mut words, &mut room);
    turns::write(rt, PROGRAM, &room[..start.n])?;
    if start.number == 0 {
        count(rt, &words, &file[..n], start.recorder)?;
    }
    Ok(())
}

// What failed is told.
fn main(rt: HostRuntime) {
    let _ = begin(&rt);
}
