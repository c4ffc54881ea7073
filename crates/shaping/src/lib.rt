// A subframe's innovation, sharpened by its class and lag, and its figures as they are reported.
#![tactic(auto)]

ghost use Rattle.std.specs.Prelude.{◌≡◌, true, pos, length, get_or};
ghost use Rattle.tables.specs.Places.{WORDS};
ghost use Rattle.tables.specs.SoundWords.{SoundWords};
ghost use Rattle.reflection.specs.Reflection as Levinson;
ghost use Rattle.pitch.specs.Pitch as Pitch;
ghost use Rattle.code_index.specs.Codebook as Codebook;
ghost use Rattle.half.specs.Core as Spec;

use code_index::Innovation;
use excitation::{InterpolationGains, interpolation_gains};
use gain::Decoded;
use half::{Subframe, SubframeParams, SubframeTrace};
use pitch::Lag;

fn clamped(pitch_gain: i16) -> i16
    ensures { result ≡ Spec.clamped pitch_gain }
{
    pitch_gain.clamp(3277, 13017)
}

fn sharpen_gain(class: usize, g: InterpolationGains) -> i16
    ensures { result ≡ Spec.sharpen_gain class g }
{
    match class {
        1 | 2 | 5 => g.voiced,
        _ => g.fixed,
    }
}

// The innovation with itself, a lag earlier, mixed in where the lag is shorter than a subframe.
fn shaped(words: &[i16], innovation: Innovation, lag: Lag, g: InterpolationGains) -> Innovation
    requires fact_1 { length words.now ≡ WORDS }
    requires fact_2 { Pitch.Sane lag }
    ensures { result ≡ Spec.shaped words.now innovation lag g }
{
    if lag.integer < 80 {
        let mut code = innovation.code;
        adaptive::sharpen(words, &mut code, lag, sharpen_gain(innovation.class, g));
        return Innovation { code, ..innovation };
    }
    innovation
}

// By the first reflection coefficient of its LPC numbers.
pub fn innovation(
    words: &[i16],
    params: SubframeParams,
    reflection: i16,
    sharpen_fixed: i16,
    last_half_lag: i16,
) -> Innovation
    requires fact_1 { SoundWords words.now }
    requires fact_2 { Codebook.digits_fit words.now params.index ≡ true }
    requires fact_3 { Pitch.Sane params.lag }
    requires fact_4 { reflection ≡ get_or (Levinson.reflection_coefficients params.lpc) 0 (pos 0) }
    ensures { result ≡ Spec.innovation words.now params sharpen_fixed last_half_lag }
{
    let lag = params.lag;
    let g = interpolation_gains(reflection, sharpen_fixed, lag.integer, last_half_lag);
    shaped(words, codebook::decode(words, params.index), lag, g)
}

pub fn traced(
    params: SubframeParams,
    gains: [f32; 4],
    innovation: Innovation,
    g: Decoded,
    samples: [i16; 80],
    zero_residuals: u8,
) -> Subframe
    requires { zero_residuals ≡ Levinson.zero_residuals_of params.lpc }
    ensures { result ≡ Spec.traced params gains innovation g samples }
{
    let lpc = params.lpc;
    let code = innovation.code;
    let next = g.gains;
    Subframe {
        trace: SubframeTrace {
            lag: params.lag,
            code_class: innovation.class,
            gain_index: params.gain_index,
            pitch_gain: g.pitch_gain,
            code_gain: g.code_gain,
            gains,
            lpc,
            innovation: code,
            mixed_excitation: samples,
            zero_residuals,
        },
        sharpen_fixed: clamped(g.pitch_gain),
        gains: next,
    }
}
