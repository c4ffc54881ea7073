// A subframe: its fields and LPC numbers in, 80 samples of excitation and its figures out.
#![tactic(auto)]

ghost use Rattle.std.specs.Prelude.{◌≡◌, ◌+◌, ◌≤◌, length};
ghost use Rattle.tables.specs.Places.{WORDS};
ghost use Rattle.pitch.specs.Pitch as Pitch;
ghost use Rattle.half.specs.Accepted.{Usable};
ghost use Rattle.half.specs.Core as Spec;

use half::{Counted, Counts, SubframeParams};
use mixing::{mix, part};
use pitch::Lag;
use shaping::{innovation, traced};

// The predicted samples from place start on, with the innovation mixed in.
fn excite(
    words: &[i16],
    exc: &mut [i16],
    start: usize,
    lag: Lag,
    pitch_gain: i16,
    code_gain: i16,
    innovation: &[i16; 80],
) -> Counts
    requires { (length words.now ≡ WORDS) × (154 ≤ start) × (start + 80 ≤ length exc.old) × Pitch.Sane lag }
    ensures samples { exc.new ≡ Spec.excited words.now exc.old start lag pitch_gain code_gain innovation.now }
    ensures counts { result ≡ Spec.counts words.now exc.old start lag pitch_gain code_gain innovation.now }
{
    let prediction = adaptive::predict(words, exc, start, lag);
    let mixing = mix(pitch_gain, code_gain, innovation, start, exc);
    Counts { prediction, mixing }
}

// A subframe whose excitation is the 80 samples from place start on.
pub fn decode_subframe(
    words: &[i16],
    bytes: &[u8],
    exc: &mut [i16],
    start: usize,
    params: SubframeParams,
    sharpen_fixed: i16,
    last_half_lag: i16,
    gains: [f32; 4],
) -> Counted
    requires fact_1 { Usable words.now bytes.now params }
    requires fact_2 { 154 ≤ start }
    requires fact_3 { start + 80 ≤ length exc.old }
    ensures is { result.subframe ≡ Spec.decode_subframe words.now bytes.now exc.old start params sharpen_fixed last_half_lag gains }
    ensures room { exc.new ≡ Spec.excited_by words.now exc.old start result.subframe.trace }
    ensures counts { result.counts ≡ Spec.counts_by words.now exc.old start result.subframe.trace }
{
    let reflection = levinson::reflection_coefficients(params.lpc);
    let k = reflection.coefficients;
    let i = innovation(words, params, k[0], sharpen_fixed, last_half_lag);
    let code = i.code;
    let g = gain_state::decode(bytes, gains, params.gain_index, &code);
    let counts = excite(
        words,
        exc,
        start,
        params.lag,
        g.pitch_gain,
        g.code_gain,
        &code,
    );
    let samples = part(&exc[..], start);
    let subframe = traced(params, gains, i, g, samples, reflection.zero_residuals);
    Counted { subframe, counts }
}
