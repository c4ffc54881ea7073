// Functions of `elementary` and `gain_state` under C names, for tools/sweep and tools/compare_gain.
#![tactic(auto)]

ghost use Rattle.std.specs.Prelude.{◌≡◌, not, ◌<◌, T, length};
ghost use Rattle.std.specs.Float.Ieee.{is_nan};
ghost use Rattle.std.specs.Float.Ieee.Scale.{finite};
ghost use Rattle.tables.specs.Places.{BYTES};
ghost use Rattle.elementary.specs.Elementary as Elementary;
ghost use Rattle.gain.specs.Gain as Gain;

// The logarithm, of any x but a NaN.
#[unsafe(no_mangle)]
pub extern "C" fn gain_ln(x: f32) -> f32
    requires { T (not (is_nan x)) }
    ensures { result ≡ Elementary.ln x }
{
    elementary::ln(x)
}

// The exponential, of any finite x.
#[unsafe(no_mangle)]
pub extern "C" fn gain_exp(x: f32) -> f32
    requires { T (finite x) }
    ensures { result ≡ Elementary.exp x }
{
    elementary::exp(x)
}

// A gain step: the gain history is lent and changed, the pitch gain is written, the code gain returned.
#[unsafe(no_mangle)]
pub extern "C" fn gain_decode(
    bytes: &[u8],
    gains: &mut [f32; 4],
    index: usize,
    code: &[i16; 80],
    pitch_gain: &mut i16,
) -> i16
    requires fact_1 { length bytes.now ≡ BYTES }
    requires fact_2 { index < 128 }
    ensures code_gain { result ≡ (Gain.decode bytes.now gains.old index code.now).code_gain }
    ensures pitch_gain { pitch_gain.new ≡ (Gain.decode bytes.now gains.old index code.now).pitch_gain }
    ensures gains { gains.new ≡ (Gain.decode bytes.now gains.old index code.now).gains }
{
    let d = gain_state::decode(bytes, *gains, index, code);
    let next = d.gains;
    *gains = next;
    *pitch_gain = d.pitch_gain;
    d.code_gain
}
