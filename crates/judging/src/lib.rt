// Another decoder's lines as they come in, each judged beside ours, whose text is there.
#![tactic(auto)]

ghost use Rattle.std.specs.Prelude.{◌≡◌, ◌≤◌, length};
ghost use Rattle.io.specs.Counts.{IsPrefixLen};
ghost use Rattle.stream.specs.Room.{over};
ghost use Rattle.judging.specs.Talk as Talk;

use heard::Recorder;

// Where the comparison stands: the recording, the number of the line that is looked at, how long the text of our line is (nothing where we have none), how many
// bytes of theirs have come in, counted to 1,284, whose turn it is to be read, and whether all is told. Our text and their first bytes stand in lent buffers.
#[derive(Clone, Copy)]
pub struct Judge {
    pub recorder: Recorder,
    pub number: u64,
    pub said: usize,
    pub n: usize,
    pub theirs: bool,
    pub told: bool,
}

// What a call leaves, how many bytes of its chunk it used, and how long its text is.
#[derive(Clone, Copy)]
pub struct Heard {
    pub judge: Judge,
    pub used: usize,
    pub n: usize,
}

// The end of a line of theirs.
fn end_line(judge: Judge, used: usize, text: &[u8], held: &[u8], room: &mut [u8]) -> Heard
    requires fact_1 { judge.said ≤ length text.now }
    requires fact_2 { length held.now ≡ 1283 }
    requires fact_3 { 128 ≤ length room.old }
    ensures heard { result ≡ Talk.ended judge used text.now held.now }
    ensures text { room.new ≡ over (Talk.end_text judge text.now held.now) room.old }
{
    let k = verdict::least(judge.n);
    let n = verdict_text::put_round(
        judge.number,
        &text[..judge.said],
        &held[..k],
        judge.n <= 1283,
        room,
    );
    if n == 0 {
        let number = verdict::next(judge.number);
        return Heard {
            judge: Judge {
                number,
                said: 0,
                n: 0,
                theirs: false,
                told: false,
                ..judge
            },
            used,
            n: 0,
        };
    }
    Heard {
        judge: Judge {
            theirs: true,
            told: true,
            ..judge
        },
        used,
        n,
    }
}

// What is unread of the supplier's lines, nothing being their end: up to a newline it is taken in, and at a line's end the two are compared. What is told goes over
// the beginning of room.
pub fn theirs(judge: Judge, text: &[u8], held: &mut [u8], chunk: &[u8], room: &mut [u8]) -> Heard
    requires fact_1 { judge.said ≤ length text.now }
    requires fact_2 { length held.old ≡ 1283 }
    requires fact_3 { 128 ≤ length room.old }
    ensures heard { result ≡ Talk.hear_theirs judge text.now held.old chunk.now }
    ensures held { held.new ≡ Talk.theirs_held judge held.old chunk.now }
    ensures text { room.new ≡ over (Talk.theirs_text judge text.now held.old chunk.now) room.old }
    ensures fits { IsPrefixLen result.n room.new }
    ensures used { result.used ≤ length chunk.now }
    ensures said { result.judge.said ≤ length text.now }
{
    if chunk.len() == 0 {
        if judge.n == 0 {
            let n = verdict_text::put_last(judge.number, judge.said, room);
            return Heard {
                judge: Judge {
                    n: 0,
                    theirs: true,
                    told: true,
                    ..judge
                },
                used: 0,
                n,
            };
        }
        return end_line(judge, 0, text, held, room);
    }
    let k = verdict::line_end(chunk);
    let n = verdict::push_all(held, judge.n, &chunk[..k]);
    let more = Judge {
        n,
        theirs: true,
        told: false,
        ..judge
    };
    if k == chunk.len() {
        return Heard {
            judge: more,
            used: k,
            n: 0,
        };
    }
    end_line(more, k + 1, text, held, room)
}
