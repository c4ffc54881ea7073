// What two channels on one table set write, as specs/ has it: whose a line is, and the end of one that is neither's. No call here decodes.
#![tactic(auto)]

ghost use Rattle.std.specs.Prelude.{◌≡◌, ◌≤◌, length};
ghost use Rattle.stream.specs.Room.{over};
ghost use Rattle.state.specs.State.{missed_frame};
ghost use Rattle.hex_lines.specs.Text as Text;
ghost use Rattle.channel_lines.specs.Channels as Channels;
ghost use Rattle.channel_lines.specs.Feed as Feed;

use hex_lines::Line;
use state::State;

// Whose a line is: the channel's whose letter and a blank it begins with, or neither's.
#[derive(Clone, Copy)]
pub enum Whose {
    A,
    B,
    Neither,
}

// The two channels' states.
#[derive(Clone, Copy)]
pub struct Pair {
    pub a: State,
    pub b: State,
}

// What is kept of the line that is coming in: its first two bytes, how many of them there are, and what is kept of the rest.
#[derive(Clone, Copy)]
pub struct Held {
    pub first: u8,
    pub second: u8,
    pub n: usize,
    pub rest: Line,
}

// Where a recording stands: the channels, and the line that is coming in.
#[derive(Clone, Copy)]
pub struct Recorder {
    pub channels: Pair,
    pub line: Held,
}

// The end of a line: how long its text is, and the channels that it leaves.
#[derive(Clone, Copy)]
pub struct Ended {
    pub n: usize,
    pub channels: Pair,
}

// What a chunk of the input leaves, and how long its text is.
#[derive(Clone, Copy)]
pub struct Fed {
    pub recorder: Recorder,
    pub n: usize,
}

// The start: the table file's refusal number, how long its text is, and where the recording stands.
// A number beside the recorder: the definition `Feed.started`, on which `program_told` stands, gives both for every file.
#[derive(Clone, Copy)]
pub struct Started {
    pub recorder: Recorder,
    pub number: u8,
    pub n: usize,
}

// Whose the line is that is held.
pub fn whose_line(line: Held) -> Whose
    ensures { result ≡ Channels.whose (Feed.held_line line) }
{
    if line.n < 2 {
        return Whose::Neither;
    }
    if line.second != b' ' {
        return Whose::Neither;
    }
    let first = line.first;
    match first {
        b'a' => Whose::A,
        b'b' => Whose::B,
        _ => Whose::Neither,
    }
}

// The line of a frame that may have been either's.
fn put_neither(out: &mut [u8]) -> usize
    requires { 1285 ≤ length out.old }
    ensures length { result ≡ 12 }
    ensures text { out.new ≡ over (Channels.lettered 63 (Text.refused_text 9)) out.old }
{
    out[0] = b'?';
    out[1] = b' ';
    2 + hex_lines::put_refused(9, &mut out[2..])
}

// The end of a line that may have been either's: a missed frame in both. Its text goes over the beginning of out.
pub fn end_neither(channels: Pair, out: &mut [u8]) -> Ended
    requires { 1285 ≤ length out.old }
    ensures length { result.n ≡ 12 }
    ensures a { result.channels.a ≡ (missed_frame channels.a).state }
    ensures b { result.channels.b ≡ (missed_frame channels.b).state }
    ensures text { out.new ≡ over (Channels.lettered 63 (Text.refused_text 9)) out.old }
{
    let a = channels.a;
    let b = channels.b;
    let missed_a = heard::missed(a);
    let missed_b = heard::missed(b);
    Ended {
        n: put_neither(out),
        channels: Pair {
            a: missed_a,
            b: missed_b,
        },
    }
}
