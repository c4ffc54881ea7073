// What a frame leaves, and what is reported of its four subframes, by its halves: the Rust's Observation, and more.
#![tactic(auto)]

ghost use Rattle.std.specs.Prelude.{◌≡◌, ◌++◌, ◌<◌, ◌≤◌, length};
ghost use Rattle.tables.specs.Places.{BYTES};
ghost use Rattle.observation.specs.Frame as Frame;
ghost use Rattle.observation.specs.Named.{Named};

use half::{Clipped, Core, Half, SubframeTrace};

// What is reported of a subframe.
#[derive(Clone, Copy)]
pub struct Subframe {
    // Gain index, correction, the four numbers of the gain history, amplitude, energy, code gain, pitch gain, lag, class.
    pub figures: [f32; 12],
    pub lag: i16,
    pub frac: i16,
    pub lpc: [i16; 11],
    pub innovation: [i16; 80],
    // At how many of the nine steps to its reflection coefficients the residual was 0.
    pub zero_residuals: u8,
}

// A half frame, and the residuals that the next one starts from.
#[derive(Clone, Copy)]
pub struct Step {
    pub half: Half,
    pub residuals: [f32; 30],
}

// Both halves of a frame, as they were decoded.
#[derive(Clone, Copy)]
pub struct Both {
    pub first: Step,
    pub second: Step,
}

// A frame: what the next one starts from, and what is reported.
#[derive(Clone, Copy)]
pub struct Decoded {
    pub core: Core,
    pub residuals: [f32; 30],
    pub excitation: [i16; 320],
    pub subframes: [Subframe; 4],
    pub clipped: [Clipped; 4],
    // The pitch gain that each of them was mixed with.
    pub pitch_gains: [i16; 4],
}

// The twelve figures of a subframe.
fn figures(bytes: &[u8], t: SubframeTrace) -> [f32; 12]
    requires fact_1 { length bytes.now ≡ BYTES }
    requires fact_2 { t.gain_index < 128 }
    requires fact_3 { t.code_class ≤ 5 }
    ensures { result ≡ Frame.figures bytes.now t }
{
    let v = t.gains;
    let correction = tables::log_gain(bytes, t.gain_index);
    let amplitude = gain_state::amplitude(bytes, v, t.gain_index);
    let energy = gain_state::energy(&t.innovation);
    [
        t.gain_index as f32,
        correction,
        v[0],
        v[1],
        v[2],
        v[3],
        amplitude,
        energy,
        t.code_gain as f32,
        t.pitch_gain as f32,
        t.lag.integer as f32,
        t.code_class as f32,
    ]
}

// What is reported of a subframe.
fn reported(bytes: &[u8], t: SubframeTrace) -> Subframe
    requires fact_1 { length bytes.now ≡ BYTES }
    requires fact_2 { t.gain_index < 128 }
    requires fact_3 { t.code_class ≤ 5 }
    ensures { result ≡ Frame.reported bytes.now t }
{
    let figures = figures(bytes, t);
    let lpc = t.lpc;
    let innovation = t.innovation;
    Subframe {
        figures,
        lag: t.lag.integer,
        frac: t.lag.frac,
        lpc,
        innovation,
        zero_residuals: t.zero_residuals,
    }
}

// Two subframes' samples, one after the other.
fn put_pair(out: &mut [i16], a: [i16; 80], b: [i16; 80])
    requires { length out.old ≡ 160 }
    ensures { out.new ≡ a ++ b }
{
    out[..80].copy_from_slice(&a);
    out[80..].copy_from_slice(&b);
}

// The excitation of the four subframes, one after the other.
fn put_excitation(x: Half, y: Half, out: &mut [i16])
    requires { length out.old ≡ 320 }
    ensures { out.new ≡ Frame.excitation x y }
{
    put_pair(
        &mut out[..160],
        x.first.mixed_excitation,
        x.second.mixed_excitation,
    );
    put_pair(
        &mut out[160..],
        y.first.mixed_excitation,
        y.second.mixed_excitation,
    );
}

// What is reported of the four subframes of two halves.
fn subframes(bytes: &[u8], x: Half, y: Half) -> [Subframe; 4]
    requires fact_1 { length bytes.now ≡ BYTES }
    requires fact_2 { Named x }
    requires fact_3 { Named y }
    ensures { result ≡ Frame.subframes bytes.now x y }
{
    [
        reported(bytes, x.first),
        reported(bytes, x.second),
        reported(bytes, y.first),
        reported(bytes, y.second),
    ]
}

// What was clipped in them.
fn clipped(x: Half, y: Half) -> [Clipped; 4]
    ensures { result ≡ Frame.clipped x y }
{
    [
        x.first_clipped,
        x.second_clipped,
        y.first_clipped,
        y.second_clipped,
    ]
}

// The pitch gains that they were mixed with.
fn pitch_gains(x: Half, y: Half) -> [i16; 4]
    ensures { result ≡ Frame.pitch_gains_of x y }
{
    [
        x.first.pitch_gain,
        x.second.pitch_gain,
        y.first.pitch_gain,
        y.second.pitch_gain,
    ]
}

// What a frame leaves, and what is reported of it, by its halves.
pub fn report(bytes: &[u8], h: Both) -> Decoded
    requires fact_1 { length bytes.now ≡ BYTES }
    requires fact_2 { Named h.first.half }
    requires fact_3 { Named h.second.half }
    ensures { result ≡ Frame.report bytes.now h }
{
    let x = h.first.half;
    let y = h.second.half;
    let mut excitation = [0i16; 320];
    put_excitation(x, y, &mut excitation[..]);
    let subframes = subframes(bytes, x, y);
    let clipped = clipped(x, y);
    let pitch_gains = pitch_gains(x, y);
    let residuals = h.second.residuals;
    Decoded {
        core: y.core,
        residuals,
        excitation,
        subframes,
        clipped,
        pitch_gains,
    }
}
