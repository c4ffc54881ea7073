// The answers of gain: 0 an index, four of history and the 80 of a code; out come the gains and the history,
// or 1, and out comes the history at the start.
ghost use Rattle.std.specs.Prelude.{◌≡◌, ◌<◌, length};
ghost use Rattle.tables.specs.Places.{BYTES};

use fixed::magnitude;
use gain::Decoded;
use numbers::{floats_from, say_floats, say_numbers, words};

fn index(x: i64) -> usize
    ensures { result < 128 }
{
    (magnitude(x) % 128) as usize
}

fn history(n: [i64; 128]) -> [f32; 4] {
    let mut out = [0.0f32; 4];
    floats_from(n, 3, &mut out);
    out
}

fn decoded(bytes: &[u8], n: [i64; 128]) -> Decoded
    requires { length bytes.now ≡ BYTES }
{
    let mut code = [0i16; 80];
    words(n, 7, &mut code);
    gain_state::decode(bytes, history(n), index(n[2]), &code)
}

fn say_decoded(rt: &HostRuntime, d: Decoded) {
    let after = d.gains;
    say_numbers(rt, &[i64::from(d.pitch_gain), i64::from(d.code_gain)]);
    let _ = pipe::write(rt, b" ");
    say_floats(rt, &after);
}

pub fn answer(rt: &HostRuntime, bytes: &[u8], n: [i64; 128])
    requires { length bytes.now ≡ BYTES }
{
    match n[1] {
        0 => say_decoded(rt, decoded(bytes, n)),
        _ => say_floats(rt, &gain_state::initial_history(bytes)),
    }
}
