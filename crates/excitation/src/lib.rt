// Sharpening gains for the fixed codebook's innovation.
#![tactic(auto)]

ghost use Rattle.std.specs.Prelude.{◌≡◌};
ghost use Rattle.excitation.specs.Excitation as Excitation;

use fixed::{fold, shift};

// A half, which both gains are set to where they are set at all.
const HALF: i16 = 16384;

// The same, taken away in an accumulator's high word.
const LESS_HALF: i64 = -16384 * 65536;

// The gain before, doubled, has to be above 13107 for the second to be raised.
const LESS_WAS_STRONG: i64 = -13107 * 65536;

// How far the lag may have moved and still be the same pitch: three quarters, in an accumulator.
const SAME_PITCH: i64 = 24576 * 2;

// The gains of the classes without a strong pitch, and of those with one.
#[derive(Drop)]
pub struct InterpolationGains {
    pub fixed: i16,
    pub voiced: i16,
}

// Whether the spectrum is sharp enough to disable extension.
fn peaky_spectrum(reflection: i16) -> bool
    ensures { result ≡ Excitation.peaky_spectrum reflection }
{
    fold(shift((reflection as i64) * 65536, 3), LESS_HALF) > 0
}

// Whether the adaptive gain before is strong enough to extend.
fn gain_was_strong(previous_gain: i16) -> bool
    ensures { result ≡ Excitation.gain_was_strong previous_gain }
{
    fold(shift((previous_gain as i64) * 65536, 1), LESS_WAS_STRONG) > 0
}

// Whether the lag is above three quarters of the one before.
fn above_floor(lag: i16, previous_lag: i16) -> bool
    ensures { result ≡ Excitation.above_floor lag previous_lag }
{
    fold((lag as i64) * 65536, -((previous_lag as i64) * SAME_PITCH)) > 0
}

// Whether the lag is below one and a half times the one before.
fn below_ceiling(lag: i16, previous_lag: i16) -> bool
    ensures { result ≡ Excitation.below_ceiling lag previous_lag }
{
    let ceiling = shift((previous_lag as i64) * SAME_PITCH, 1);
    fold(ceiling, -((lag as i64) * 65536)) > 0
}

fn pitch_continues(lag: i16, previous_lag: i16) -> bool
    ensures { result ≡ Excitation.pitch_continues lag previous_lag }
{
    above_floor(lag, previous_lag) && below_ceiling(lag, previous_lag)
}

// The second gain: a sharp spectrum clears it, and where the others fail it stays what it was.
fn second(reflection: i16, previous_gain: i16, lag: i16, previous_lag: i16) -> i16
    ensures { result ≡ Excitation.second reflection previous_gain lag previous_lag }
{
    if peaky_spectrum(reflection) {
        0
    } else if gain_was_strong(previous_gain) && pitch_continues(lag, previous_lag) {
        HALF
    } else {
        previous_gain
    }
}

// The two gains of the coming subframe.
pub fn interpolation_gains(
    reflection: i16,
    previous_gain: i16,
    lag: i16,
    previous_lag: i16,
) -> InterpolationGains
    ensures { result ≡ Excitation.interpolation_gains reflection previous_gain lag previous_lag }
{
    InterpolationGains {
        fixed: HALF,
        voiced: second(reflection, previous_gain, lag, previous_lag),
    }
}
