// The prediction of the line spectral frequencies: four products summed, the sums sorted and spread.
#![tactic(auto)]

ghost use Rattle.std.specs.Prelude.{◌≡◌, ◌++◌, ◌+◌, ◌<◌, length, get_or, take, drop};
ghost use Rattle.std.specs.Float.{nan};
ghost use Rattle.std.specs.Float.Ieee.{lt};
ghost use Rattle.tables.specs.Places.{BYTES};
ghost use Rattle.spectral.specs.Spectral as Spectral;

use std::array;

// The sum of four products, worked left to right.
fn sum_at(history: &[f32; 30], residual: &[f32; 10], bytes: &[u8], mode: usize, k: usize) -> f32
    requires fact_1 { length bytes.now ≡ BYTES }
    requires fact_2 { mode < 2 }
    requires fact_3 { k < 10 }
    ensures { result ≡ Spectral.sum_at history.now residual.now bytes.now mode k }
{
    let a = tables::ma(bytes, mode, 0, k);
    let b = tables::ma(bytes, mode, 1, k);
    let c = tables::ma(bytes, mode, 2, k);
    let d = tables::ma(bytes, mode, 3, k);
    ((residual[k] * a + history[k] * b) + history[k + 10] * c) + history[k + 20] * d
}

// The ten sums.
fn sums(history: &[f32; 30], residual: &[f32; 10], bytes: &[u8], mode: usize) -> [f32; 10]
    requires fact_1 { length bytes.now ≡ BYTES }
    requires fact_2 { mode < 2 }
    ensures { result ≡ Spectral.sums history.now residual.now bytes.now mode }
{
    array::from_fn(|k| sum_at(history, residual, bytes, mode, k))
}

// Puts a[n] into its place among those after it: each smaller one moves one place down.
fn insert(a: &mut [f32; 10], n: usize)
    requires { n < 10 }
    ensures { a.new ≡ take n a.old ++ Spectral.insert lt (get_or a.old n nan) (drop (n + 1) a.old) }
{
    let x = a[n];
    let mut j = n;
    // Not counted: it goes on as long as the next is smaller.
    while j < 9 && a[j + 1] < x {
        a[j] = a[j + 1];
        j += 1;
    }
    a[j] = x;
}

// The ten in rising order. `sort_by(f32::total_cmp)` would move a NaN, and a negative zero before zero; here each stays where it stood.
fn sort(a: [f32; 10]) -> [f32; 10]
    ensures { result ≡ Spectral.sort lt a }
{
    let mut out = a;
    for n in (0..10).rev() {
        insert(&mut out, n);
    }
    out
}

// `f32::max`, for a b that is no NaN: of two zeros that promises either, and the definition says which.
fn larger(a: f32, b: f32) -> f32
    ensures { result ≡ Spectral.larger a b }
{
    if a >= b { a } else { b }
}

// `f32::min`, likewise.
fn smaller(a: f32, b: f32) -> f32
    ensures { result ≡ Spectral.smaller a b }
{
    if a <= b { a } else { b }
}

// The floor of the first, the gaps, and the ceiling of the last alone, which may undo its gap.
fn spread(a: [f32; 10]) -> [f32; 10]
    ensures { result ≡ Spectral.spread a }
{
    let mut out = [0.0f32; 10];
    let mut prior = larger(a[0], 41.0);
    out[0] = prior;
    for k in 1..10 {
        prior = larger(a[k], prior + 321.0);
        out[k] = prior;
    }
    out[9] = smaller(prior, 25682.0);
    out
}

// The ten line spectral frequencies: the sums sorted and spread.
pub fn predict(history: &[f32; 30], residual: &[f32; 10], bytes: &[u8], mode: usize) -> [f32; 10]
    requires fact_1 { length bytes.now ≡ BYTES }
    requires fact_2 { mode < 2 }
    ensures { result ≡ Spectral.predict history.now residual.now bytes.now mode }
{
    spread(sort(sums(history, residual, bytes, mode)))
}
