// Reflection coefficients of LPC numbers, by the Levinson recursion backwards.
#![tactic(auto)]

ghost use Rattle.std.specs.Prelude.{◌≡◌, ◌<◌, pos, length, get_or, set};
ghost use Rattle.std.specs.Int.{from_bool};
ghost use Rattle.reflection.specs.Reflection as Levinson;

use fixed::{acc, fold, hi, mul, mul32x16, sat, shift};
use reciprocal::normalised_reciprocal;
use reflection::Reflection;
use std::array;

// 1 - k^2 in Q30: zero or negative for a k of 4096 or more.
fn residual(kv: i16) -> i64
    ensures { result ≡ Levinson.residual kv }
{
    fold(1073741824, -shift(acc(mul(kv, kv)), 5))
}

// x - y·k, saturated.
fn difference(kv: i16, x: i16, y: i16) -> i64
    ensures { result ≡ Levinson.difference kv x y }
{
    sat(fold((x as i64) * 65536, -shift(acc(mul(y, kv)), 3)))
}

// That by 1 - k^2.
fn updated(kv: i16, inverse: i16, scale: i32, x: i16, y: i16) -> i16
    ensures { result ≡ Levinson.updated kv inverse scale x y }
{
    hi(shift(mul32x16(difference(kv, x, y), inverse), scale))
}

// Two numbers, each by the other as it was.
fn update_pair(k: &mut [i16], n: usize, m: usize, kv: i16, inverse: i16, scale: i32)
    requires { (n < length k.old) × (m < length k.old) }
    ensures { k.new ≡ set (set k.old n (Levinson.updated kv inverse scale (get_or k.old n (pos 0)) (get_or k.old m (pos 0)))) m (Levinson.updated kv inverse scale (get_or k.old m (pos 0)) (get_or k.old n (pos 0))) }
{
    let x = k[n];
    let y = k[m];
    let first = updated(kv, inverse, scale, x, y);
    let second = updated(kv, inverse, scale, y, x);
    k[n] = first;
    k[m] = second;
}

// Each number before top, by the one as far from the other end: pair by pair, in place.
fn update_all(k: &mut [i16], top: usize, kv: i16, inverse: i16, scale: i32)
    requires { (length k.old ≡ 10) × (top < 10) }
    ensures { k.new ≡ Levinson.update_all top kv inverse scale k.old }
{
    let pairs = (top + 1) / 2;
    for n in 0..pairs {
        update_pair(k, n, top - 1 - n, kv, inverse, scale);
    }
}

// A step: the coefficient at top is peeled off, and the numbers before it are divided by its residual. Whether that is 0 is the answer.
// The Rust reads the exponent as a signed 5-bit field, which it is already.
fn step(k: &mut [i16], top: usize) -> bool
    requires { (length k.old ≡ 10) × (top < 10) }
    ensures numbers { k.new ≡ Levinson.step top k.old }
    ensures zero { from_bool result ≡ Levinson.zero_residual (get_or k.old top (pos 0)) }
{
    let kv = k[top];
    let r = normalised_reciprocal(residual(kv));
    let inverse = hi(shift(r.quotient(), -1));
    update_all(k, top, kv, inverse, r.exponent());
    r.is_zero()
}

// The numbers after the first, which is 1.
fn tail(lpc: [i16; 11]) -> [i16; 10]
    ensures { result ≡ Levinson.tail lpc }
{
    array::from_fn(|n| lpc[n + 1])
}

// LPC numbers to reflection coefficients, by the Levinson recursion backwards.
pub fn reflection_coefficients(lpc: [i16; 11]) -> Reflection
    ensures { result ≡ Levinson.reflection lpc }
{
    let mut k = tail(lpc);
    let mut zeros = 0u8;
    // (from 9 down to 1; counted up, as the definition counts its steps)
    for n in 0..9 {
        let is_zero = step(&mut k[..], 9 - n);
        zeros += u8::from(is_zero);
    }
    Reflection {
        coefficients: k,
        zero_residuals: zeros,
    }
}
