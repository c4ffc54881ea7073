// Recordings that two_channels is tried on. A line of standard input names a table file and a recording; a heading and what two_channels writes of the two follow.
#![tactic(auto)]

ghost use Rattle.std.specs.Prelude.{◌≤◌, length};
ghost use Rattle.heard.specs.Start as Start;

use channel_lines::Recorder;

// What one chunk gives, written; an empty one is the end.
fn part(rt: &HostRuntime, words: &[i16], file: &[u8], recorder: Recorder, chunk: &[u8]) -> Recorder
    requires fact_1 { Start.Tables words.now file.now }
    requires fact_2 { length chunk.now ≤ 25 }
{
    let mut room = [0u8; 3488];
    let fed = channels::answer(words, file, recorder, chunk, &mut room);
    let _ = pipe::write(rt, &room[..fed.n]);
    fed.recorder
}

// A recording in chunks of 25 bytes, so that lines are cut by them.
fn play(rt: &HostRuntime, words: &[i16], file: &[u8], start: Recorder, input: &[u8])
    requires { Start.Tables words.now file.now }
{
    let mut recorder = start;
    for chunk in input.chunks(25) {
        recorder = part(rt, words, file, recorder, chunk);
    }
    part(rt, words, file, recorder, &[]);
}

// A case: the two files' names. A file that is not there is empty.
fn attempt(rt: &HostRuntime, tables: &[u8], name: &[u8]) {
    let mut file = [0u8; 15835];
    let mut words = [0i16; 5963];
    let mut room = [0u8; 40];
    let n = pipe::moved(pipe::read_file(rt, tables, &mut file));
    let start = channels::begin(&file[..n], &mut words, &mut room);
    let _ = pipe::write(rt, &room[..start.n]);
    if start.number == 0 {
        let mut input = [0u8; 65536];
        let m = pipe::moved(pipe::read_file(rt, name, &mut input));
        play(rt, &words, &file[..n], start.recorder, &input[..m]);
    }
}

fn main(rt: HostRuntime) {
    attempts::each_case(&rt, |line| {
        attempts::head(&rt, line);
        if let Some((tables, name)) = attempts::two_names(line) {
            attempt(&rt, tables, name);
        }
    });
}
