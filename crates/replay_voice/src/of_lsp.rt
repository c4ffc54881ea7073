// The answers of lsp: 0 lsf_to_lsp of ten, 1 lsp_to_lpc of ten, 2 midpoint of ten and ten, 3 reflection_coefficients of eleven,
// and how many of its residuals are 0.
ghost use Rattle.std.specs.Prelude.{◌≡◌, ℕ, ◌+◌, ◌<◌, ◌≤◌, length, get_or, pos, ◌≤ℤ◌};
ghost use Rattle.tables.specs.Places.{WORDS};

use numbers::{end_line, say_line, say_words};
use reflection::Reflection;

// A word, and 0 for one that is negative.
fn natural(x: i64) -> i16
    ensures { pos 0 ≤ℤ result }
{
    let w = fixed::low(x);
    if w < 0 { 0 } else { w }
}

// Line spectral frequencies, which are not negative.
fn frequencies(n: [i64; 128]) -> [i16; 10]
    ensures { (k : ℕ) → k < 10 → pos 0 ≤ℤ get_or result k (pos 0) }
{
    let mut lsf = [0i16; 10];
    for i in 0..10 {
        lsf[i] = natural(n[2 + i]);
    }
    lsf
}

fn ten(n: [i64; 128], from: usize) -> [i16; 10]
    requires { from + 10 ≤ 128 }
{
    let mut w = [0i16; 10];
    numbers::words(n, from, &mut w);
    w
}

fn eleven(n: [i64; 128]) -> [i16; 11] {
    let mut w = [0i16; 11];
    numbers::words(n, 2, &mut w);
    w
}

fn say_reflection(rt: &HostRuntime, r: Reflection) {
    let coefficients = r.coefficients;
    say_words(rt, &coefficients, false);
    let _ = pipe::write(rt, b" ");
    numbers::say_digits(rt, r.zero_residuals as u64);
    end_line(rt);
}

pub fn answer(rt: &HostRuntime, words: &[i16], n: [i64; 128])
    requires { length words.now ≡ WORDS }
{
    match n[1] {
        0 => say_line(rt, &lsp::lsf_to_lsp(words, frequencies(n))),
        1 => say_line(rt, &lsp::lsp_to_lpc(ten(n, 2))),
        2 => say_line(rt, &lsp::midpoint(ten(n, 2), ten(n, 12))),
        _ => say_reflection(rt, levinson::reflection_coefficients(eleven(n))),
    }
}
