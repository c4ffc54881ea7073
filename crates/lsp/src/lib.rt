// Line spectral conversions and interpolation.
#![tactic(auto)]

ghost use Rattle.std.specs.Prelude.{◌≡◌, ℕ, ◌<◌, ◌≤◌, pos, ◌≤ℤ◌, length, get_or};
ghost use Rattle.tables.specs.Places.{WORDS};
ghost use Rattle.fixed.specs.Fixed as Fixed;
ghost use Rattle.lsp.specs.Lsp as Lsp;

use fixed::{fold, hi, low, mul, mul32x16, shift, trunc32};
use std::array;

// Where an LSF stands in the cosine table, in 256ths of an entry: 20861 in Q15, doubled, is 4/pi.
fn position(lsf: i16) -> usize
    requires { pos 0 ≤ℤ lsf }
    ensures { result ≡ Lsp.position lsf }
{
    (lsf as usize) * 20861 * 2 / 65536
}

// The entry at or before a position; a position beyond the table has the last.
fn entry(p: usize) -> usize
    ensures { result ≡ Lsp.entry p }
{
    (p / 256).min(63)
}

// One LSF to its LSP.
fn cosine(words: &[i16], lsf: i16) -> i16
    requires fact_1 { length words.now ≡ WORDS }
    requires fact_2 { pos 0 ≤ℤ lsf }
    ensures { result ≡ Lsp.cosine words.now lsf }
{
    let p = position(lsf);
    let e = entry(p);
    let x = words[tables::COS + e];
    let slope = words[tables::COS_SLOPE + e];
    hi(fold((x as i64) * 65536, mul((p % 256 * 8) as i16, slope)))
}

// LSFs to LSPs, by table lookup with linear interpolation.
pub fn lsf_to_lsp(words: &[i16], lsf: [i16; 10]) -> [i16; 10]
    requires fact_1 { length words.now ≡ WORDS }
    requires fact_2 { ((k : ℕ) → k < 10 → pos 0 ≤ℤ get_or lsf k (pos 0)) }
    ensures { result ≡ Lsp.lsf_to_lsp words.now lsf }
{
    array::from_fn(|i| cosine(words, lsf[i]))
}

// A sum, stored in 32 bits.
fn stored(v: i64) -> i32
    ensures { result ≡ Fixed.trunc32 v }
{
    trunc32(v) as i32
}

// In 16 bits: -32768 stays.
fn negated(x: i16) -> i16
    ensures { result ≡ Lsp.negated x }
{
    low(-(x as i64))
}

// A coefficient of a polynomial times 1 + 2·l·z^-1 + z^-2, by it and the two before.
fn product(x: i32, y: i32, z: i32, l: i16) -> i32
    ensures { result ≡ Lsp.product x y z l }
{
    stored(fold(fold(x as i64, mul32x16(y as i64, l) * 2), z as i64))
}

// The second coefficient of such a product, whose first is 1.
fn linear(x: i32, l: i16) -> i32
    ensures { result ≡ Lsp.linear x l }
{
    stored(fold(x as i64, (l as i64) * 1024))
}

// The polynomial is symmetric about its coefficient i - 1.
fn own(i: usize, f: [i32; 6], j: usize) -> i32
    requires { (2 ≤ j) × (j < 6) }
    ensures { result ≡ Lsp.own i f j }
{
    if i == j {
        return f[j - 2];
    }
    f[j]
}

// Coefficient j of i LSPs by those of the i - 1 before.
fn coefficient(l: i16, i: usize, f: [i32; 6], j: usize) -> i32
    requires { j < 6 }
    ensures { result ≡ Lsp.coefficient l i f j }
{
    if j == 0 {
        return f[0];
    }
    if j == 1 {
        return linear(f[1], l);
    }
    if i < j {
        return f[j];
    }
    product(own(i, f, j), f[j - 1], f[j - 2], l)
}

// All are made from f's, none from one that is new.
fn next_polynomial(l: i16, i: usize, f: [i32; 6]) -> [i32; 6]
    ensures { result ≡ Lsp.next_polynomial l i f }
{
    array::from_fn(|j| coefficient(l, i, f, j))
}

// Here the negative is of 64 bits.
fn first_polynomial(x: i16) -> [i32; 6]
    ensures { result ≡ Lsp.first_polynomial x }
{
    [16777216, stored(-((x as i64) * 1024)), 0, 0, 0, 0]
}

// Five LSPs, every second one.
fn lsp_polynomial(lsp: [i16; 10], first: usize) -> [i32; 6]
    requires { first < 2 }
    ensures { result ≡ Lsp.lsp_polynomial lsp first }
{
    let mut f = first_polynomial(lsp[first]);
    for n in 0..4 {
        // The proof's generator takes no array of a call straight into one that is there.
        let next = next_polynomial(negated(lsp[first + 2 * (n + 1)]), n + 2, f);
        f = next;
    }
    f
}

// A coefficient of f times 1 + z^-1, and of f times 1 - z^-1.
fn plus(f: [i32; 6], i: usize) -> i32
    requires { (1 ≤ i) × (i < 6) }
    ensures { result ≡ Lsp.plus f i }
{
    stored(fold(f[i] as i64, f[i - 1] as i64))
}

fn minus(f: [i32; 6], i: usize) -> i32
    requires { (1 ≤ i) × (i < 6) }
    ensures { result ≡ Lsp.minus f i }
{
    stored(fold(f[i] as i64, -(f[i - 1] as i64)))
}

// Q24 to Q12, rounded.
fn halved(sum: i64) -> i16
    ensures { result ≡ Lsp.halved sum }
{
    hi(fold(shift(shift(sum, -1), 4), 32768))
}

// The predictor's first half and, by the symmetries, its second.
fn front(p: i32, m: i32) -> i16
    ensures { result ≡ Lsp.front p m }
{
    halved(fold(p as i64, m as i64))
}

fn back(p: i32, m: i32) -> i16
    ensures { result ≡ Lsp.back p m }
{
    halved(fold(p as i64, -(m as i64)))
}

fn predictor(f: [i32; 6], g: [i32; 6], n: usize) -> i16
    requires { n < 11 }
    ensures { result ≡ Lsp.predictor f g n }
{
    if n == 0 {
        return 4096;
    }
    if n < 6 {
        return front(plus(f, n), minus(g, n));
    }
    back(plus(f, 11 - n), minus(g, 11 - n))
}

// LSPs to the predictor's direct form.
pub fn lsp_to_lpc(lsp: [i16; 10]) -> [i16; 11]
    ensures { result ≡ Lsp.lsp_to_lpc lsp }
{
    let f = lsp_polynomial(lsp, 0);
    let g = lsp_polynomial(lsp, 1);
    array::from_fn(|n| predictor(f, g, n))
}

// Rounded down.
fn midway(x: i16, y: i16) -> i16
    ensures { result ≡ Lsp.midway x y }
{
    (((x as i64) + (y as i64)) >> 1) as i16
}

// The midpoint of two LSP sets.
pub fn midpoint(first: [i16; 10], second: [i16; 10]) -> [i16; 10]
    ensures { result ≡ Lsp.midpoint first second }
{
    array::from_fn(|i| midway(first[i], second[i]))
}

// No type parameter shared with half's ParamsPair: two fields are as short, and the definitions name their type.
#[derive(Clone, Copy)]
pub struct Pair {
    pub first: [i16; 11],
    pub second: [i16; 11],
}

// The two LPC sets of a half frame: of the midpoint between the LSPs before and the present ones, and of the present ones.
pub fn interpolate_pair(prev: [i16; 10], cur: [i16; 10]) -> Pair
    ensures { result ≡ Lsp.interpolate_pair prev cur }
{
    let first = lsp_to_lpc(midpoint(prev, cur));
    let second = lsp_to_lpc(cur);
    Pair { first, second }
}
