// An accepted frame: two half frames, one after the other, and what is reported of their subframes.
#![tactic(auto)]

ghost use Rattle.std.specs.Prelude.{◌≡◌, ◌<◌, true, length};
ghost use Rattle.tables.specs.Sound.{Sound};
ghost use Rattle.bits.specs.Widths.{InWidths};
ghost use Rattle.observation.specs.Frame as Frame;

use bits::{FrameParams, HalfParams};
use half::Core;
use observation::{Both, Decoded, Step};

// The residual that the fields of a half select.
fn residual(words: &[i16], bytes: &[u8], p: HalfParams) -> [f32; 10]
    requires fact_1 { Sound words.now bytes.now }
    requires fact_2 { InWidths p }
    ensures { result ≡ Frame.residual words.now bytes.now p }
{
    spectral::residual(
        words,
        bytes,
        usize::from(p.stage1),
        usize::from(p.stage2_low),
        usize::from(p.stage2_high),
    )
}

// The LSPs of the frequencies that are predicted from the residuals before.
fn predicted(
    words: &[i16],
    bytes: &[u8],
    residuals: &[f32; 30],
    residual: &[f32; 10],
    mode: u16,
) -> [i16; 10]
    requires fact_1 { Sound words.now bytes.now }
    requires fact_2 { mode < 2 }
    ensures { result ≡ Frame.predicted words.now bytes.now residuals.now residual.now mode }
{
    let lsf = frequencies::predict(residuals, residual, bytes, usize::from(mode));
    lsp::lsf_to_lsp(words, spectral::quantise_lsf(lsf))
}

// A half frame, by its fields: its LSPs first, and then the rest.
fn half(
    words: &[i16],
    bytes: &[u8],
    core: Core,
    residuals: [f32; 30],
    p: HalfParams,
    samples: &mut [i16],
) -> Step
    requires fact_1 { Sound words.now bytes.now }
    requires fact_2 { InWidths p }
    requires fact_3 { Frame.half_fits words.now p ≡ true }
    requires fact_4 { length samples.old ≡ 160 }
    ensures step { result ≡ Frame.half words.now bytes.now core residuals p }
    ensures samples { samples.new ≡ Frame.half_samples words.now bytes.now core residuals p }
{
    let residual = residual(words, bytes, p);
    let lsp = predicted(words, bytes, &residuals, &residual, p.mode);
    let half = half_frame::decode(words, bytes, core, lsp, p, samples);
    let next = spectral::push(residuals, residual);
    Step {
        half,
        residuals: next,
    }
}

// The second half starts from what the first leaves.
fn halves(
    words: &[i16],
    bytes: &[u8],
    core: Core,
    residuals: [f32; 30],
    f: FrameParams,
    samples: &mut [i16],
) -> Both
    requires fact_1 { Sound words.now bytes.now }
    requires fact_2 { InWidths f.first }
    requires fact_3 { InWidths f.second }
    requires fact_4 { Frame.digits_fit words.now f ≡ true }
    requires fact_5 { length samples.old ≡ 320 }
    ensures halves { result ≡ Frame.halves words.now bytes.now core residuals f }
    ensures samples { samples.new ≡ Frame.samples words.now bytes.now core residuals f }
{
    let first = half(words, bytes, core, residuals, f.first, &mut samples[..160]);
    let second = half(
        words,
        bytes,
        first.half.core,
        first.residuals,
        f.second,
        &mut samples[160..],
    );
    Both { first, second }
}

// A frame, by its fields: what it leaves and what is reported of it; the samples are written.
pub fn decode(
    words: &[i16],
    bytes: &[u8],
    core: Core,
    residuals: [f32; 30],
    f: FrameParams,
    samples: &mut [i16],
) -> Decoded
    requires fact_1 { Sound words.now bytes.now }
    requires fact_2 { InWidths f.first }
    requires fact_3 { InWidths f.second }
    requires fact_4 { Frame.digits_fit words.now f ≡ true }
    requires fact_5 { length samples.old ≡ 320 }
    ensures decoded { result ≡ Frame.decode words.now bytes.now core residuals f }
    ensures samples { samples.new ≡ Frame.samples words.now bytes.now core residuals f }
{
    observation::report(bytes, halves(words, bytes, core, residuals, f, samples))
}
