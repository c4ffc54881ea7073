// Mixing: 80 predicted samples and an innovation, each by its gain, summed and saturated.
#![tactic(auto)]

ghost use Rattle.std.specs.Prelude.{◌≡◌, ◌+◌, ◌≤◌, length};
ghost use Rattle.half.specs.Core as Spec;

use fixed::{clips, ends, fold, fold_narrow, mul, shift};

// What is saturated for a sample: the predicted one by the pitch gain, and the innovation's by the code gain.
fn mixed_sum(pitch_gain: i16, code_gain: i16, a: i16, c: i16) -> i64
    ensures { result ≡ Spec.mixed_sum pitch_gain code_gain a c }
{
    let sum = fold(mul(a, pitch_gain), shift(mul(c, code_gain), 1));
    fold(shift(sum, 1), 32768)
}

// The mixed sample, by an eighth of that sum, rounded down: it is one of 32 bits, so that a loop makes eight samples at a time.
fn mixed(pitch_gain: i16, code_gain: i16, a: i16, c: i16) -> i16
    ensures { result ≡ Spec.mixed pitch_gain code_gain a c }
{
    let predicted = (i32::from(a) * i32::from(pitch_gain)) >> 1;
    let innovation = i32::from(c) * i32::from(code_gain);
    let v = fold_narrow(fold_narrow(predicted, innovation), 4096) >> 13;
    v.clamp(-32768, 32767) as i16
}

// At how many of the 80 predicted samples saturation changes that sum.
fn mix_clipped(pitch_gain: i16, code_gain: i16, innovation: &[i16; 80], predicted: &[i16; 80]) -> u8
    ensures { result ≡ Spec.mix_clipped pitch_gain code_gain innovation.now 0 predicted.now }
{
    let mut clipped = 0u8;
    for n in 0..80 {
        let v = mixed_sum(pitch_gain, code_gain, predicted[n], innovation[n]);
        clipped += u8::from(clips(v));
    }
    clipped
}

pub fn part(exc: &[i16], start: usize) -> [i16; 80]
    requires { start + 80 ≤ length exc.now }
    ensures { result ≡ Spec.part exc.now start }
{
    let end = start + 80;
    let mut out = [0i16; 80];
    out.copy_from_slice(&exc[start..end]);
    out
}

// The samples from place start on, each mixed with the innovation's, and how many of them saturation changed. Each of those is at an end of 16 bits, so only a block with such a sample is counted.
pub fn mix(
    pitch_gain: i16,
    code_gain: i16,
    innovation: &[i16; 80],
    start: usize,
    exc: &mut [i16],
) -> u8
    requires { start + 80 ≤ length exc.old }
    ensures samples { exc.new ≡ Spec.mix pitch_gain code_gain innovation.now start exc.old }
    ensures clipped { result ≡ Spec.mix_clipped pitch_gain code_gain innovation.now start exc.old }
{
    let predicted = part(&exc[..], start);
    // a gain for each sample, since the compiler multiplies 16 bits by 16 only where it reads both in the loop
    let pitch_gains = [pitch_gain; 80];
    let code_gains = [code_gain; 80];
    for n in 0..80 {
        let place = start + n;
        let y = mixed(pitch_gains[n], code_gains[n], predicted[n], innovation[n]);
        exc[place] = y;
    }
    let end = start + 80;
    if ends(&exc[start..end]) == 0 {
        return 0;
    }
    mix_clipped(pitch_gain, code_gain, innovation, &predicted)
}
