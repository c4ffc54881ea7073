// What a line of a recording is answered with: a frame is decoded, any other line is a missed frame.
#![tactic(auto)]

ghost use Rattle.std.specs.Prelude.{◌≡◌, ◌+◌, ◌*◌, ◌≤◌, min, length};
ghost use Rattle.stream.specs.Room.{over};
ghost use Rattle.hex_lines.specs.Held as Held;
ghost use Rattle.heard.specs.Recording as Recording;
ghost use Rattle.heard.specs.Start as Start;
ghost use Rattle.calls.specs.Run.{heard};

use heard::Said;
use hex_lines::Line;
use state::State;

// A frame's call: its text goes over the beginning of out.
fn hear(words: &[i16], bytes: &[u8], state: State, payload: [u8; 20], out: &mut [u8]) -> Said
    requires { 1283 ≤ length out.old }
    ensures said { result ≡ Start.called words.now bytes.now state (heard payload 320) }
    ensures text { out.new ≡ over (Recording.text words.now bytes.now state (heard payload 320)) out.old }
    ensures fits { result.n ≤ 1283 }
{
    let mut samples = [0i16; 320];
    let a = celp::decode(words, bytes, state, &payload, &mut samples);
    let next = a.state;
    let number = a.number;
    if number != 0 {
        return Said {
            n: hex_lines::put_refused(number, out),
            state: next,
        };
    }
    Said {
        n: hex_lines::put_frame(a.mark, &samples, out),
        state: next,
    }
}

// A line's call: its text goes over the beginning of out.
pub fn call(words: &[i16], bytes: &[u8], state: State, line: Line, out: &mut [u8]) -> Said
    requires { 1283 ≤ length out.old }
    ensures said { result ≡ Start.called words.now bytes.now state (Recording.event (Held.held_line line)) }
    ensures text { out.new ≡ over (Recording.line_text words.now bytes.now state (Held.held_line line)) out.old }
    ensures fits { result.n ≤ 1283 }
    ensures paid { result.n ≤ 32 * min line.n 41 + 32 }
{
    if hex_lines::held_frame(line) {
        let text = line.text;
        return hear(words, bytes, state, hex_lines::payload(text), out);
    }
    let next = heard::missed(state);
    Said {
        n: hex_lines::put_refused(9, out),
        state: next,
    }
}
