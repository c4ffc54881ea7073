// Another decoder's lines beside ours: the first difference between the two. All of compare's text.
#![tactic(auto)]

ghost use Rattle.std.specs.Prelude.{◌≡◌, ◌≤◌, length};
ghost use Rattle.stream.specs.Room.{over};
ghost use Rattle.heard.specs.Start as Start;
ghost use Rattle.recording.specs.Feed as Feed;
ghost use Rattle.judging.specs.Talk as Talk;

use heard::Recorder;
use judging::{Heard, Judge};

// Before the first line.
pub fn begin(recorder: Recorder) -> Judge
    ensures { result ≡ Talk.begin recorder }
{
    Judge {
        recorder,
        number: 1,
        said: 0,
        n: 0,
        theirs: false,
        told: false,
    }
}

// At the end of the recording no line is left open.
fn closed(recorder: Recorder) -> Recorder
    ensures { result ≡ Talk.closed recorder }
{
    let line = hex_lines::empty();
    Recorder { line, ..recorder }
}

// What is unread of the recording, nothing being its end: up to a newline it is answered, over the beginning of text.
pub fn ours(words: &[i16], file: &[u8], judge: Judge, chunk: &[u8], text: &mut [u8]) -> Heard
    requires fact_1 { Start.Tables words.now file.now }
    requires fact_2 { Feed.room_for (length chunk.now) ≤ length text.old }
    ensures heard { result ≡ Talk.hear_ours file.now judge chunk.now }
    ensures text { text.new ≡ over (Talk.ours_text file.now judge chunk.now) text.old }
    ensures fits { result.judge.said ≤ length text.new }
    ensures used { result.used ≤ length chunk.now }
{
    let k = verdict::up_to(chunk);
    let fed = recording::answer(words, file, judge.recorder, &chunk[..k], text);
    let said = fed.n;
    if k == 0 {
        let over = closed(fed.recorder);
        return Heard {
            judge: Judge {
                recorder: over,
                said,
                theirs: true,
                ..judge
            },
            used: 0,
            n: 0,
        };
    }
    Heard {
        judge: Judge {
            recorder: fed.recorder,
            said,
            theirs: 0 < said,
            ..judge
        },
        used: k,
        n: 0,
    }
}
