// The synthesis filter: each sample from the excitation and the ten samples before it.
#![tactic(auto)]

ghost use Rattle.std.specs.Prelude.{◌≡◌, ℕ, ◌≤◌, pos, length, get_or, drop};
ghost use Rattle.sequence.specs.Count.{count};
ghost use Rattle.sequence.specs.Table.{table};
ghost use Rattle.fixed.specs.Fixed as Fixed;
ghost use Rattle.synth.specs.Synth as Synth;

use fixed::{clips, ends, hi, sat};
use synthesis_sum::sum;

// The filter over a block of at most 80 samples: mem is the ten outputs before it, and then the last ten. What is saturated for each output is kept.
fn filter(a: &[i16], input: &[i16], output: &mut [i16], mem: &mut [i16], sums: &mut [i64])
    requires a_len { (length a.now ≡ 11) × (length mem.old ≡ 10) }
    requires input_len_bound { (length input.now ≤ 80) × (length output.old ≡ length input.now) × (length sums.old ≡ length input.now) }
    ensures outputs { output.new ≡ Synth.synthesis a.now mem.old input.now }
    ensures last { mem.new ≡ Synth.memory a.now mem.old input.now }
    ensures sums { sums.new ≡ table (λ (n : ℕ). Synth.sum a.now (drop n (Synth.window a.now mem.old input.now n)) (get_or input.now n (pos 0))) (length input.now) }
{
    let mut window = [0i16; 90];
    window[..10].copy_from_slice(mem);
    let count = input.len();
    for n in 0..count {
        let end = n + 10;
        let v = sum(a, &window[n..end], input[n]);
        let y = hi(sat(v));
        window[end] = y;
        output[n] = y;
        sums[n] = v;
    }
    let last = count + 10;
    mem.copy_from_slice(&window[count..last]);
}

// How many of a block's sums saturation changes.
fn changed(sums: &[i64]) -> u8
    requires { length sums.now ≤ 80 }
    ensures { result ≡ count (λ (n : ℕ). Fixed.clips (get_or sums.now n (pos 0))) (length sums.now) }
{
    let mut clipped = 0u8;
    for sum in sums {
        clipped += u8::from(clips(*sum));
    }
    clipped
}

// The filter over a block of at most 80 samples: mem is the ten outputs before it, and then the last ten. How many outputs saturation changed is the answer: each of
// those is at an end of 16 bits, so only a block with such an output has its sums looked through.
pub fn synthesis(a: &[i16], input: &[i16], output: &mut [i16], mem: &mut [i16]) -> u8
    requires a_len { (length a.now ≡ 11) × (length mem.old ≡ 10) }
    requires input_len_bound { (length input.now ≤ 80) × (length output.old ≡ length input.now) }
    ensures outputs { output.new ≡ Synth.synthesis a.now mem.old input.now }
    ensures clipped { result ≡ Synth.clipped a.now mem.old input.now }
    ensures last { mem.new ≡ Synth.memory a.now mem.old input.now }
{
    let count = input.len();
    let mut sums = [0i64; 80];
    filter(a, input, output, mem, &mut sums[..count]);
    if ends(&output[..]) == 0 {
        return 0;
    }
    changed(&sums[..count])
}
