// The synthesis filter's sum for one output: the excitation and the ten samples before it.
#![tactic(auto)]

ghost use Rattle.std.specs.Prelude.{◌≡◌, ℕ, ◌+◌, length, pos, ◌+ℤ◌, ◌*ℤ◌};
ghost use Rattle.sequence.specs.Total.{total};
ghost use Rattle.fixed.specs.Fixed as Fixed;
ghost use Rattle.synth.specs.Synth as Synth;

use fixed::{fold, mul, shift};

// What all but the last of the ten outputs before a sample bring into its prediction: history[9] is the last.
fn older(a: &[i16], history: &[i16]) -> i64
    requires { (length a.now ≡ 11) × (length history.now ≡ 10) }
    ensures { result ≡ total Fixed.fold (pos 0) (λ (k : ℕ). Synth.term a.now history.now (k + 1)) 9 }
{
    let mut sum = 0i64;
    for k in 0..9 {
        let back = k + 1;
        sum = fold(sum, -mul(a[back + 1], history[9 - back]));
    }
    sum
}

// What is known of a sample before the last output is: the older ones, brought from Q12 to Q15, and the input, rounded.
fn known(a: &[i16], history: &[i16], x: i16) -> i64
    requires { (length a.now ≡ 11) × (length history.now ≡ 10) }
    ensures { result ≡ Fixed.fold (Fixed.shift (total Fixed.fold (pos 0) (λ (k : ℕ). Synth.term a.now history.now (k + 1)) 9) (pos 3)) (x *ℤ pos 65536 +ℤ pos 32768) }
{
    let sum = shift(older(a, history), 3);
    fold(sum, (x as i64) * 65536 + 32768)
}

// What the last output brings in.
fn last(a: &[i16], history: &[i16]) -> i64
    requires { (length a.now ≡ 11) × (length history.now ≡ 10) }
    ensures { result ≡ Fixed.shift (Synth.term a.now history.now 0) (pos 3) }
{
    shift(-mul(a[1], history[9]), 3)
}

// What is saturated for an output, from the ten before it and the input. The last of them comes in at the end, since the next output waits for this one.
pub fn sum(a: &[i16], history: &[i16], x: i16) -> i64
    requires { (length a.now ≡ 11) × (length history.now ≡ 10) }
    ensures { result ≡ Synth.sum a.now history.now x }
{
    let before = known(a, history, x);
    fold(before, last(a, history))
}
