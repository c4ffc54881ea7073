// The line spectral frequencies of a half frame: the residual, the history of three residuals that they are predicted from, and how they are quantised.
#![tactic(auto)]

ghost use Rattle.std.specs.Prelude.{◌≡◌, ◌<◌, length};
ghost use Rattle.tables.specs.Places.{WORDS, BYTES};
ghost use Rattle.spectral.specs.Spectral as Spectral;

use std::array;

// A word of the mean, at place k of a history.
fn initial_at(words: &[i16], k: usize) -> f32
    requires fact_1 { length words.now ≡ WORDS }
    requires fact_2 { k < 30 }
    ensures { result ≡ Spectral.initial_at words.now k }
{
    tables::word(words, tables::LSF_MEAN + k % 10) as f32
}

// The history at reset: three times the mean.
pub fn initial(words: &[i16]) -> [f32; 30]
    requires { length words.now ≡ WORDS }
    ensures { result ≡ Spectral.initial words.now }
{
    array::from_fn(|k| initial_at(words, k))
}

// The second stage's float for place k: five places each from two codebooks.
fn stage2_at(bytes: &[u8], low: usize, high: usize, k: usize) -> f32
    requires fact_1 { length bytes.now ≡ BYTES }
    requires fact_2 { low < 64 }
    requires fact_3 { high < 64 }
    requires fact_4 { k < 10 }
    ensures { result ≡ Spectral.stage2_at bytes.now low high k }
{
    if k < 5 {
        tables::low(bytes, low, k)
    } else {
        tables::high(bytes, high, k - 5)
    }
}

// A word of the first stage's codebook and a float of the second's.
fn residual_at(words: &[i16], bytes: &[u8], stage1: usize, low: usize, high: usize, k: usize) -> f32
    requires fact_1 { length words.now ≡ WORDS }
    requires fact_2 { length bytes.now ≡ BYTES }
    requires fact_3 { (stage1 < 128) × (low < 64) × (high < 64) }
    requires fact_4 { k < 10 }
    ensures { result ≡ Spectral.residual_at words.now bytes.now stage1 low high k }
{
    tables::word(words, tables::LSF_CB1 + (stage1 * 10 + k)) as f32 + stage2_at(bytes, low, high, k)
}

// The ten floats of a residual.
pub fn residual(words: &[i16], bytes: &[u8], stage1: usize, low: usize, high: usize) -> [f32; 10]
    requires fact_1 { length words.now ≡ WORDS }
    requires fact_2 { length bytes.now ≡ BYTES }
    requires fact_3 { (stage1 < 128) × (low < 64) × (high < 64) }
    ensures { result ≡ Spectral.residual words.now bytes.now stage1 low high }
{
    array::from_fn(|k| residual_at(words, bytes, stage1, low, high, k))
}

// The history with a residual before it: its last ten are dropped.
pub fn push(history: [f32; 30], residual: [f32; 10]) -> [f32; 30]
    ensures { result ≡ Spectral.push history residual }
{
    let mut out = [0.0f32; 30];
    out[..10].copy_from_slice(&residual);
    out[10..].copy_from_slice(&history[..20]);
    out
}

// Each rounded, a tie to the even number, and brought to 0..=25682, but never below the one before it.
pub fn quantise_lsf(lsf: [f32; 10]) -> [i16; 10]
    ensures { result ≡ Spectral.quantise_lsf lsf }
{
    let mut out = [0i16; 10];
    let mut prior = 0i16;
    for k in 0..10 {
        prior = floats::quantise(25682, lsf[k]).max(prior);
        out[k] = prior;
    }
    out
}
