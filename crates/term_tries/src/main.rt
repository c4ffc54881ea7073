// Recordings that report is tried on. A line of standard input names a table file and recordings; a heading and what report writes of the two follow.
// Where a line begins with `near `, two lines may be counted before the limit, classes and one sum of clipped samples are at their top, another is 3 below it, and
// code gains go from 5 to 7.
#![tactic(auto)]

ghost use Rattle.heard.specs.Start as Start;

use tally::{Clippings, Subframes, Tally};
use term_steps::Recorder;

fn near(recorder: Recorder) -> Recorder {
    Recorder {
        tally: Tally {
            lines: 4294967293,
            accepted: 4294967000,
            refused_6: 0,
            refused_7: 0,
            refused_9: 0,
            subframes: Subframes {
                n: 8,
                classes: [u64::MAX; 6],
                lags: [0; 126],
                gain_indexes: [0; 128],
                largest: 7,
                smallest: 5,
            },
            clipped: Clippings {
                prediction: u64::MAX,
                mixing: u64::MAX - 3,
                synthesis: 0,
                output: 7,
            },
        },
        ..recorder
    }
}

fn tell(rt: &HostRuntime, words: &[i16], file: &[u8], recorder: Recorder)
    requires { Start.Tables words.now file.now }
{
    let mut room = [0u8; 16384];
    let n = term::report(words, file, recorder, &mut room);
    let _ = pipe::write(rt, &room[..n]);
}

// In chunks of 7 bytes, so that lines are cut by them.
fn count(rt: &HostRuntime, words: &[i16], file: &[u8], start: Recorder, input: &[u8])
    requires { Start.Tables words.now file.now }
{
    let mut recorder = start;
    for chunk in input.chunks(7) {
        recorder = term::feed(words, file, recorder, chunk);
    }
    tell(rt, words, file, recorder);
}

// A case: the two files' names. A file that is not there is empty.
fn attempt(rt: &HostRuntime, tables: &[u8], name: &[u8], is_near: bool) {
    let mut file = [0u8; 15835];
    let mut words = [0i16; 5963];
    let mut room = [0u8; 40];
    let n = pipe::moved(pipe::read_file(rt, tables, &mut file));
    let start = term::begin(&file[..n], &mut words, &mut room);
    let _ = pipe::write(rt, &room[..start.n]);
    if start.number == 0 {
        let mut input = [0u8; 4096];
        let m = pipe::moved(pipe::read_file(rt, name, &mut input));
        let begun = if is_near {
            near(start.recorder)
        } else {
            start.recorder
        };
        count(rt, &words, &file[..n], begun, &input[..m]);
    }
}

fn main(rt: HostRuntime) {
    attempts::each_case(&rt, |line| {
        attempts::head(&rt, line);
        if 5 <= line.len() {
            let is_near = line[0] == b'n';
            let names = if is_near { &line[5..] } else { line };
            if let Some((tables, name)) = attempts::two_names(names) {
                attempt(&rt, tables, name, is_near);
            }
        }
    });
}
