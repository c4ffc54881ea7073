// The answers of pitch: an absolute code, or from 256 on a lag integer before; a relative code or -1; then nothing, and out comes the lag,
// or 2 and a seed, and out comes the prediction from its samples, or 3, a seed and a gain, and out come its samples, sharpened.
ghost use Rattle.std.specs.Prelude.{◌≡◌, ◌<◌, length};
ghost use Rattle.tables.specs.Places.{WORDS};
ghost use Rattle.pitch.specs.Pitch as Pitch;

use fixed::magnitude;
use numbers::{samples, say_line};
use pitch::Lag;

fn absolute(x: i64) -> u16
    ensures { result < 256 }
{
    (magnitude(x) % 256) as u16
}

fn relative(x: i64) -> u16
    ensures { result < 32 }
{
    (magnitude(x) % 32) as u16
}

fn lag(n: [i64; 128]) -> Lag
    ensures { Pitch.Sane result }
{
    let first = pitch::decode_absolute(absolute(n[1]));
    if n[2] < 0 {
        return first;
    }
    pitch::decode_relative(relative(n[2]), first.integer)
}

// A lag integer, 19 to 144, that a relative code may follow.
fn before(x: i64) -> i16
    ensures { Pitch.InRange result }
{
    19 + (magnitude(x) % 126) as i16
}

fn asked(n: [i64; 128]) -> Lag
    ensures { Pitch.Sane result }
{
    if n[1] < 256 {
        return lag(n);
    }
    pitch::decode_relative(relative(n[2]), before(n[1]))
}

fn say_lag(rt: &HostRuntime, l: Lag) {
    say_line(rt, &[l.integer, l.frac]);
}

// The last 80 of the samples are rewritten before they are read.
fn say_prediction(rt: &HostRuntime, words: &[i16], l: Lag, seed: u64)
    requires { (length words.now ≡ WORDS) × Pitch.Sane l }
{
    let mut exc = [0i16; 234];
    samples(seed, &mut exc);
    adaptive::predict(words, &mut exc, 154, l);
    say_line(rt, &exc[154..]);
}

fn say_sharpened(rt: &HostRuntime, words: &[i16], l: Lag, seed: u64, gain: i16)
    requires { (length words.now ≡ WORDS) × Pitch.Sane l }
{
    let mut code = [0i16; 80];
    samples(seed, &mut code);
    adaptive::sharpen(words, &mut code, l, gain);
    say_line(rt, &code);
}

pub fn answer(rt: &HostRuntime, words: &[i16], n: [i64; 128])
    requires { length words.now ≡ WORDS }
{
    let l = asked(n);
    match n[3] {
        2 => say_prediction(rt, words, l, magnitude(n[4])),
        3 => say_sharpened(rt, words, l, magnitude(n[4]), fixed::low(n[5])),
        _ => say_lag(rt, l),
    }
}
