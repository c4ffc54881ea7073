// The answers of spectral: 0 residual of three indexes, 1 predict of a mode, 30 of history and ten of residual,
// 2 the pairs of ten, quantised, as the Rust's to_lsp gives them, 3 the history at the start, 4 push of 30 and ten.
ghost use Rattle.std.specs.Prelude.{◌≡◌, ◌+◌, ◌<◌, ◌≤◌, length};
ghost use Rattle.tables.specs.Places.{WORDS, BYTES};

use fixed::magnitude;
use numbers::{floats_from, say_floats, say_line};

fn stage1(x: i64) -> usize
    ensures { result < 128 }
{
    (magnitude(x) % 128) as usize
}

fn stage2(x: i64) -> usize
    ensures { result < 64 }
{
    (magnitude(x) % 64) as usize
}

fn mode(x: i64) -> usize
    ensures { result < 2 }
{
    (magnitude(x) % 2) as usize
}

fn ten(n: [i64; 128], from: usize) -> [f32; 10]
    requires { from + 10 ≤ 128 }
{
    let mut out = [0.0f32; 10];
    floats_from(n, from, &mut out);
    out
}

fn thirty(n: [i64; 128], from: usize) -> [f32; 30]
    requires { from + 30 ≤ 128 }
{
    let mut out = [0.0f32; 30];
    floats_from(n, from, &mut out);
    out
}

fn residual(words: &[i16], bytes: &[u8], n: [i64; 128]) -> [f32; 10]
    requires { (length words.now ≡ WORDS) × (length bytes.now ≡ BYTES) }
{
    spectral::residual(words, bytes, stage1(n[2]), stage2(n[3]), stage2(n[4]))
}

fn predicted(bytes: &[u8], n: [i64; 128]) -> [f32; 10]
    requires { length bytes.now ≡ BYTES }
{
    let history = thirty(n, 3);
    let residual = ten(n, 33);
    frequencies::predict(&history, &residual, bytes, mode(n[2]))
}

// The ten quantised, and their pairs.
fn paired(words: &[i16], lsf: [f32; 10]) -> [i16; 10]
    requires { length words.now ≡ WORDS }
{
    lsp::lsf_to_lsp(words, spectral::quantise_lsf(lsf))
}

pub fn answer(rt: &HostRuntime, words: &[i16], bytes: &[u8], n: [i64; 128])
    requires { (length words.now ≡ WORDS) × (length bytes.now ≡ BYTES) }
{
    match n[1] {
        0 => say_floats(rt, &residual(words, bytes, n)),
        1 => say_floats(rt, &predicted(bytes, n)),
        2 => say_line(rt, &paired(words, ten(n, 2))),
        3 => say_floats(rt, &spectral::initial(words)),
        _ => say_floats(rt, &spectral::push(thirty(n, 2), ten(n, 32))),
    }
}
