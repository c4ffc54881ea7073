// Forward over a recording that is lent whole: the state that some of its frames leave.
#![tactic(auto)]

ghost use Rattle.std.specs.Prelude.{◌≡◌};
ghost use Rattle.stream.specs.Lines.{lines};
ghost use Rattle.calls.specs.Run.{heard, step};
ghost use Rattle.hex_lines.specs.Held as Held;
ghost use Rattle.heard.specs.Recording as Recording;
ghost use Rattle.forward.specs.Forward as Forward;

use hex_lines::Line;
use state::State;

// The state that a frame's call leaves.
fn hear(words: &[i16], bytes: &[u8], state: State, payload: [u8; 20]) -> State
    ensures { result ≡ step words.now bytes.now state (heard payload 320) }
{
    let mut samples = [0i16; 320];
    let a = celp::decode(words, bytes, state, &payload, &mut samples);
    a.state
}

// The state that a line's call leaves; one that is no frame counts as missed.
fn line_step(words: &[i16], bytes: &[u8], state: State, line: Line) -> State
    ensures { result ≡ Recording.line_step words.now bytes.now state (Held.held_line line) }
{
    if hex_lines::held_frame(line) {
        let text = line.text;
        return hear(words, bytes, state, hex_lines::payload(text));
    }
    heard::missed(state)
}

// The state that frames j up to k, k not among them, leave; where the recording ends before, those that there are.
pub fn forward(words: &[i16], bytes: &[u8], state: State, recording: &[u8], j: u32, k: u32) -> State
    ensures { result ≡ Forward.forward words.now bytes.now state recording.now j k }
{
    let mut s = state;
    let mut a = places::place_of(recording, j);
    for n in j..k {
        if recording.len() <= a {
            return s;
        }
        let e = places::line_end(recording, a);
        s = line_step(words, bytes, s, places::held(&recording[a..e]));
        a = places::behind(recording, e);
    }
    s
}

// The state that a recording's calls begin in.
fn opening(words: &[i16], bytes: &[u8], recording: &[u8]) -> State
    ensures { result ≡ (Recording.opening words.now bytes.now (lines recording.now)).state }
{
    if places::start_of(recording) == 0 {
        let cold = state::cold_start(words, bytes);
        return cold.state;
    }
    let reset = state::reset(words, bytes);
    reset.state
}

// The state before frame k, where the recording is played from its start.
pub fn before(words: &[i16], bytes: &[u8], recording: &[u8], k: u32) -> State
    ensures { result ≡ Forward.before words.now bytes.now recording.now k }
{
    let s = opening(words, bytes, recording);
    forward(words, bytes, s, recording, 0, k)
}
