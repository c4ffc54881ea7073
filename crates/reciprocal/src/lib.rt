// The reciprocal, by a division that takes the divisor away where it can.
#![tactic(auto)]

ghost use Rattle.std.specs.Prelude.{◌≡◌, ◌*◌, ◌≤◌, pos, nat_abs};
ghost use Rattle.fixed.specs.Wrap.{REACH};
ghost use Rattle.fixed.specs.Fixed as Fixed;
ghost use Rattle.reciprocal.specs.Narrow as Narrow;

use fixed::{Reciprocal, acc, fold, fold_narrow, hi, magnitude, sat, shift};

// What the reciprocal divides: 16383 in the high half.
const NUMERATOR: i64 = 16383 * 65536;

// The left shift that normalises an accumulator against bit 31; 0 of 0.
pub fn exp(v: i64) -> i32
    ensures { result ≡ Fixed.exp v }
{
    let a = acc(v);
    if a == 0 {
        return 0;
    }
    magnitude(a).leading_zeros() as i32 - 33
}

// One step of a division that takes the divisor away where it can. What it takes away and the quotient's bit are one term, or 0: a choice between two numbers, not between two ways.
fn restoring_step(num: i64, den: i16) -> i64
    requires { nat_abs num ≤ REACH }
    ensures { result ≡ Fixed.restoring_step num den }
{
    let divisor = (den as i64) * 32768;
    let term = if num - divisor >= 0 {
        1 - divisor * 2
    } else {
        0
    };
    fold(num * 2, term)
}

// As many steps of the division of an accumulator by den; the quotient's bits come in at the low end.
pub fn restoring_divide(num: i64, den: i16, steps: u32) -> i64
    requires { nat_abs num ≤ REACH }
    ensures { result ≡ Fixed.restoring_divide num den steps }
{
    let mut n = num;
    for _ in 0..steps {
        n = restoring_step(n, den);
    }
    n
}

// What a step keeps of a number, from the difference.
fn kept(num: i32, left: i32) -> i32
    ensures { result ≡ Narrow.kept num left }
{
    if left >= 0 { left } else { num }
}

// A step in 32 bits. What is kept and the bit are chosen between numbers that are there by then, and so without a branch, which could not be foretold.
fn narrow_step(num: i32, den: i16) -> i32
    requires { Narrow.Below num den }
    ensures { result ≡ Fixed.restoring_step num den }
{
    let left = num - (den as i32) * 32768;
    fold_narrow(kept(num, left) * 2, i32::from(left >= 0))
}

// As many steps in 32 bits.
fn narrow_divide(num: i32, den: i16, steps: u32) -> i32
    requires { Narrow.Below num den }
    ensures { result ≡ Fixed.restoring_divide num den steps }
{
    let mut n = num;
    for _ in 0..steps {
        n = narrow_step(n, den);
    }
    n
}

// The low 16 bits of 16383 by a size, fifteen steps. Of what is normalised only 0 has a size below 16384.
fn reciprocal_bits(size: i16) -> i64
    ensures { result ≡ pos (Fixed.residue 65536 (Fixed.restoring_divide (pos (16383 * 65536)) size 15)) }
{
    let divided = if size < 16384 {
        restoring_divide(NUMERATOR, size, 15)
    } else {
        narrow_divide(NUMERATOR as i32, size, 15) as i64
    };
    divided & 65535
}

// 16383 by a normalised number's size, without its sign.
fn size_reciprocal(n: i64) -> i64
    requires { nat_abs n ≤ REACH }
    ensures { result ≡ Fixed.size_reciprocal n }
{
    let size = (sat(n.abs()) >> 16) as i16;
    acc(reciprocal_bits(size) * 65536)
}

// The same with its sign.
fn signed_reciprocal(n: i64) -> i64
    requires { nat_abs n ≤ REACH }
    ensures { result ≡ Fixed.signed_reciprocal n }
{
    let q = size_reciprocal(n);
    if hi(n) < 0 { acc(-q) } else { q }
}

// 16383 by value's normalised size, with value's sign, and the exponent that it takes.
pub fn normalised_reciprocal(value: i64) -> Reciprocal
    ensures { result ≡ Fixed.normalised_reciprocal value }
{
    let e = exp(value);
    let quotient = signed_reciprocal(shift(value, e));
    let exponent = e + 1;
    if acc(value) == 0 {
        Reciprocal::Zero(quotient, exponent)
    } else {
        Reciprocal::Ordinary(quotient, exponent)
    }
}
