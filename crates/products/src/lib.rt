// Runs of products in the accumulator: for small taps the plain sum in 32 bits, eight at a time.
#![tactic(auto)]

ghost use Rattle.std.specs.Prelude.{true, ◌≡◌, ℕ, ◌≤◌, ◌<◌, pos, nat_abs, length, get_or};
ghost use Rattle.sequence.specs.Total.{total};
ghost use Rattle.fixed.specs.Fixed as Fixed;
ghost use Rattle.products.specs.Runs as Runs;

use fixed::{acc, fold, mul};

// Whether the taps' sizes add up to at most 65,535: then a sum of products by them is one of 32 bits, whatever the signal.
pub fn small(taps: &[i16]) -> bool
    requires { length taps.now < 65536 }
    ensures { result ≡ Runs.small taps.now }
{
    let mut sum = 0u32;
    for tap in taps {
        sum += u32::from(tap.unsigned_abs());
    }
    sum <= 65535
}

// The plain sum of the products by small taps: in 32 bits, so that eight are made at a time. The taps come first, since the compiler would draw reads in `each`'s order before the choice and make fewer at a time.
fn plain(taps: &[i16], signal: &[i16]) -> i32
    requires { (length taps.now ≡ length signal.now) × (Runs.small taps.now ≡ true) }
    ensures { result ≡ Runs.products taps.now signal.now (length signal.now) }
{
    let mut sum = 0i32;
    // By index: two slices, place by place, as the definition sums them.
    for k in 0..signal.len() {
        sum += (taps[k] as i32) * (signal[k] as i32);
    }
    sum
}

// The products one by one.
fn each(sum: i64, taps: &[i16], signal: &[i16]) -> i64
    requires { length taps.now ≡ length signal.now }
    ensures { result ≡ total Fixed.fold (Fixed.acc sum) (λ (k : ℕ). Fixed.mul (get_or signal.now k (pos 0)) (get_or taps.now k (pos 0))) (length signal.now) }
{
    let mut value = acc(sum);
    // By index: two slices, place by place, as the definition sums them.
    for k in 0..signal.len() {
        value = fold(value, mul(signal[k], taps[k]));
    }
    value
}

// A run of products more in a sum that the accumulator holds. For taps that are known to be small they come in together.
pub fn fold_products(sum: i64, taps: &[i16], small: bool, signal: &[i16]) -> i64
    requires { (length taps.now ≡ length signal.now) × (1 ≤ length signal.now) × (small ≡ true → Runs.small taps.now ≡ true) }
    ensures { result ≡ total Fixed.fold sum (λ (k : ℕ). Fixed.mul (get_or signal.now k (pos 0)) (get_or taps.now k (pos 0))) (length signal.now) }
{
    if small {
        fold(sum, (plain(taps, signal) as i64) * 2)
    } else {
        each(sum, taps, signal)
    }
}
