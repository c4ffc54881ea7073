// The adaptive codebook's prediction, and pitch sharpening.
#![tactic(auto)]

ghost use Rattle.std.specs.Prelude.{◌≡◌, ℕ, ◌+◌, ◌-◌, ◌≤◌, ◌<◌, length};
ghost use Rattle.sequence.specs.Count.{count};
ghost use Rattle.sequence.specs.Rewritten.{rewritten};
ghost use Rattle.fixed.specs.Fixed as Fixed;
ghost use Rattle.tables.specs.Places.{WORDS};
ghost use Rattle.pitch.specs.Pitch as Pitch;
ghost use Rattle.adaptive.specs.Window as Window;

use fixed::{acc, clips, ends, fold, hi, mul32x16, sat, shift};
use pitch::Lag;
use products::{fold_products, small};

// The interpolation filter's taps.
fn interp(words: &[i16]) -> &[i16]
    requires { length words.now ≡ WORDS }
    ensures { result.now ≡ Pitch.interp words.now }
{
    let start = tables::PITCH_INTERP;
    let end = start + 31;
    &words[start..end]
}

// The twenty taps of a phase in the signal's order, and four more that are 0; and whether the first sixteen are small, and the last eight.
#[derive(Drop)]
struct PhaseTaps {
    window: [i16; 24],
    narrow: bool,
    ghost ended: { Window.Ended window },
    ghost narrowed: { narrow ≡ Window.narrow window },
}

impl PhaseTaps {
    fn new(taps: &[i16], phase: usize) -> PhaseTaps
        requires { (length taps.now ≡ 31) × (phase < 3) }
        ensures { Window.Windowed taps.now phase result.window }
    {
        let mut window = [0i16; 24];
        // by an index: each turn takes two taps, three apart from those before, and writes on both sides of the centre
        for k in 0..10 {
            window[9 - k] = taps[phase + 3 * k];
            window[10 + k] = taps[3 - phase + 3 * k];
        }
        let narrow = small(&window[..16]) && small(&window[16..]);
        PhaseTaps { window, narrow }
    }

    // One sample between those of a signal, by the two-sided filter: by narrow taps in two runs, since all of them together are seldom small; by others the twenty alone, one by one.
    fn interpolated_sample(&self, signal: &[i16], from: usize) -> i64
        requires { from + 24 ≤ length signal.now }
        ensures { result ≡ Window.sample self.now.window signal.now from }
    {
        if self.narrow {
            let middle = from + 16;
            let end = from + 24;
            let first = fold_products(0, &self.window[..16], true, &signal[from..middle]);
            fold_products(first, &self.window[16..], true, &signal[middle..end])
        } else {
            let end = from + 20;
            fold_products(0, &self.window[..20], false, &signal[from..end])
        }
    }

    // At how many of the 80 predicted samples saturation changed the sum: each is made of samples before it, which stand as they were read.
    fn predict_clipped(&self, exc: &[i16], at: usize, delay: usize) -> u8
        requires { (154 ≤ at) × (at + 80 ≤ length exc.now) × (20 ≤ delay) × (delay ≤ 144) }
        ensures { result ≡ count (λ (n : ℕ). Fixed.clips (Window.predicted_sum self.now.window delay at n exc.now)) 80 }
    {
        let mut clipped = 0u8;
        // by an index: no sample is read alone, each turn reads 24 from a place on
        for n in 0..80 {
            let value = self.interpolated_sample(exc, at + n - delay - 9);
            clipped += u8::from(clips(fold(value, 32768)));
        }
        clipped
    }

    // The 80 samples, and how many of them saturation changed. Each of those is at an end of 16 bits, so only a block with such a sample is counted.
    fn predict_from(&self, exc: &mut [i16], at: usize, delay: usize) -> u8
        requires { (154 ≤ at) × (at + 80 ≤ length exc.old) × (20 ≤ delay) × (delay ≤ 144) }
        ensures samples { exc.new ≡ rewritten (Window.predicted self.now.window delay at) at exc.old 80 }
        ensures clipped { result ≡ Window.clipped self.now.window delay at exc.old }
    {
        // by an index: the array that is written is read at earlier places in the same turn
        for n in 0..80 {
            let place = at + n;
            let value = self.interpolated_sample(&exc[..], place - delay - 9);
            let y = hi(sat(fold(value, 32768)));
            exc[place] = y;
        }
        let end = at + 80;
        if ends(&exc[at..end]) == 0 {
            return 0;
        }
        self.predict_clipped(&exc[..], at, delay)
    }

    // The innovation behind its guard, from sample first on.
    fn sharpen_from(&self, buf: &mut [i16], first: usize, gain: i16)
        requires { (length buf.old ≡ 101) × (10 ≤ first) × (first ≤ 80) }
        ensures { buf.new ≡ rewritten (Window.sharpened self.now.window first gain) (21 + first) buf.old (80 - first) }
    {
        let count = 80 - first;
        // by an index: the array that is written is read at earlier places in the same turn
        for n in 0..count {
            let place = 21 + first + n;
            let value = self.interpolated_sample(&buf[..], 2 + n);
            let y = mixed(value, gain, buf[place]);
            buf[place] = y;
        }
    }
}

// The adaptive codebook's 80 samples from place at on, and how many of them saturation changed.
pub fn predict(words: &[i16], exc: &mut [i16], at: usize, lag: Lag) -> u8
    requires { (length words.now ≡ WORDS) × (154 ≤ at) × (at + 80 ≤ length exc.old) × Pitch.Sane lag }
    ensures samples { exc.new ≡ Pitch.predict (Pitch.interp words.now) exc.old at lag }
    ensures clipped { result ≡ Pitch.clipped (Pitch.interp words.now) exc.old at lag }
{
    let taps = PhaseTaps::new(interp(words), lag.phase());
    taps.predict_from(exc, at, lag.delay())
}

// A sample of the innovation with its share of an earlier one.
fn mixed(value: i64, gain: i16, x: i16) -> i16
    ensures { result ≡ Pitch.mixed value gain x }
{
    let scaled = shift(mul32x16(acc(value), gain), 1);
    hi(fold(fold(scaled, i64::from(x) * 65536), 32768))
}

// The innovation behind zeros, which stand for the innovation before this subframe.
fn guarded(code: &[i16]) -> [i16; 101]
    requires { length code.now ≡ 80 }
    ensures { result ≡ Pitch.guarded code.now }
{
    let mut buf = [0i16; 101];
    buf[21..].copy_from_slice(code);
    buf
}

// The innovation with itself, a lag earlier, mixed in.
pub fn sharpen(words: &[i16], code: &mut [i16], lag: Lag, gain: i16)
    requires { (length words.now ≡ WORDS) × (length code.old ≡ 80) × Pitch.Sane lag }
    ensures { code.new ≡ Pitch.sharpen (Pitch.interp words.now) code.old lag gain }
{
    // the filter reaches ten samples past the delay
    let first = lag.delay() - 10;
    if first >= 80 {
        return;
    }
    let mut buf = guarded(&code[..]);
    let taps = PhaseTaps::new(interp(words), lag.phase());
    taps.sharpen_from(&mut buf, first, gain);
    code.copy_from_slice(&buf[21..]);
}
