// The gains by the tables: of a subframe, by its gain index and its code; the history at reset; the figures of energy and amplitude.
#![tactic(auto)]

ghost use Rattle.std.specs.Prelude.{◌≡◌, ◌≤◌, ◌<◌, length};
ghost use Rattle.tables.specs.Places.{BYTES};
ghost use Rattle.gain.specs.Gain as Gain;

use gain::Decoded;

#[tactic(auto, unfolding(gain::specs::Gain::square))]
fn square(c: i16) -> u64
    ensures is { result ≡ Gain.square c }
    ensures small { result ≤ 1073741824 }
{
    let size = u32::from(c.unsigned_abs());
    u64::from(size * size)
}

fn squares(code: &[i16; 80]) -> u64
    ensures is { result ≡ Gain.squares code.now }
    ensures small { result ≤ 85899345920 }
{
    let mut n = 0u64;
    for &c in code {
        n += square(c);
    }
    n
}

// The mean of a code's squares. The sum may pass 2^24: it is rounded once, before the division.
pub fn energy(code: &[i16; 80]) -> f32
    ensures { result ≡ Gain.energy code.now }
{
    std::num::nearest_u64_to_f32(squares(code)) / 80.0
}

// The gains of a subframe, by its gain index and its code, and the history after it.
pub fn decode(bytes: &[u8], gains: [f32; 4], index: usize, code: &[i16; 80]) -> Decoded
    requires fact_1 { length bytes.now ≡ BYTES }
    requires fact_2 { index < 128 }
    ensures { result ≡ Gain.decode bytes.now gains index code.now }
{
    let pitch_gain = tables::pitch_gain(bytes, index);
    let correction = tables::log_gain(bytes, index);
    gain::step(
        gains,
        energy(code),
        pitch_gain,
        correction,
        tables::gain_bias(bytes),
    )
}

// The figure that mod.rs reports: the prediction without the energy's term, plus bias and correction.
pub fn amplitude(bytes: &[u8], gains: [f32; 4], index: usize) -> f32
    requires fact_1 { length bytes.now ≡ BYTES }
    requires fact_2 { index < 128 }
    ensures { result ≡ Gain.amplitude bytes.now gains index }
{
    gain::weighted(gains) + tables::gain_bias(bytes) + tables::log_gain(bytes, index)
}

// The mean of the 128 log gains, summed in order.
fn mean(bytes: &[u8]) -> f32
    requires { length bytes.now ≡ BYTES }
    ensures { result ≡ Gain.mean bytes.now }
{
    let mut t = 0.0f32;
    for i in 0..128 {
        t += tables::log_gain(bytes, i);
    }
    t / 128.0
}

// The history at reset: four times that mean.
pub fn initial_history(bytes: &[u8]) -> [f32; 4]
    requires { length bytes.now ≡ BYTES }
    ensures { result ≡ Gain.initial_history bytes.now }
{
    [mean(bytes); 4]
}
