// The gain step: the code gain that a history of four log gains predicts, and the pitch gain.
#![tactic(auto)]

ghost use Rattle.std.specs.Prelude.{◌≡◌, pos};
ghost use Rattle.gain.specs.Gain as Gain;
ghost use Rattle.gain.specs.Ranges.{Carried};

// The argument of the code gain's exponential.
#[derive(Drop)]
pub enum CodeGainArgument {
    Below,
    Above,
    Within(f32),
}

// The gains of a subframe, and the history that the next one starts from.
#[derive(Drop)]
pub struct Decoded {
    pub pitch_gain: i16,
    pub code_gain: i16,
    pub gains: [f32; 4],
}

// `e.max(1.0)`; but of two that are equal that promises either, and the definition says which.
fn at_least_one(e: f32) -> f32
    ensures { result ≡ Gain.at_least_one e }
{
    if e >= 1.0 { e } else { 1.0 }
}

pub fn weighted(v: [f32; 4]) -> f32
    ensures { result ≡ Gain.weighted v }
{
    ((v[0] * 0.68 + v[1] * 0.5) + v[2] * 0.33) + v[3] * 0.16
}

fn prediction(gains: [f32; 4], e: f32, bias: f32) -> f32
    ensures { result ≡ Gain.prediction gains e bias }
{
    weighted(gains) - 0.5 * elementary::ln(at_least_one(e)) + bias
}

fn argument(x: f32) -> CodeGainArgument
    ensures { result ≡ Gain.argument x }
{
    if x >= -1.0 {
        if x <= 10.5 {
            CodeGainArgument::Within(x)
        } else {
            CodeGainArgument::Above
        }
    } else {
        CodeGainArgument::Below
    }
}

fn code_gain(a: CodeGainArgument) -> i16
    requires { Carried a }
    ensures { result ≡ pos (Gain.code_gain_of a) }
{
    match a {
        CodeGainArgument::Below => 0,
        CodeGainArgument::Above => 32767,
        CodeGainArgument::Within(x) => floats::quantise(32767, elementary::exp(x)),
    }
}

// The gains of a subframe whose code has the energy e, and the history after it.
pub fn step(gains: [f32; 4], e: f32, pitch_gain: f32, correction: f32, bias: f32) -> Decoded
    ensures { result ≡ Gain.step gains e pitch_gain correction bias }
{
    let x = prediction(gains, e, bias) + correction;
    Decoded {
        pitch_gain: floats::quantise(32767, pitch_gain),
        code_gain: code_gain(argument(x)),
        gains: [correction, gains[0], gains[1], gains[2]],
    }
}
