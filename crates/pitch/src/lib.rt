// Lags in thirds of a sample, as codes give them, with the phase and the delay of each; in specs also what the adaptive codebook and sharpening are.
#![tactic(auto)]

ghost use Rattle.std.specs.Prelude.{◌≡◌, ◌≤◌, ◌<◌, pos};
ghost use Rattle.pitch.specs.Pitch as Pitch;

// A lag's whole samples, and the thirds of a sample that are left, -1, 0 or 1. `Sane` is no invariant of it: the definitions give a lag for any number, also one that no code has.
#[derive(Clone, Copy)]
pub struct Lag {
    pub integer: i16,
    pub frac: i16,
}

// The lag of n thirds of a sample. Its nearest whole number is n + 1 divided by 3 and rounded down: 3k - 1, 3k and 3k + 1 thirds give k.
fn thirds(n: u16) -> Lag
    requires { n ≤ 431 }
    ensures { result ≡ Pitch.thirds n }
{
    let whole = (n + 1) / 3;
    Lag {
        integer: whole as i16,
        frac: n as i16 - (whole * 3) as i16,
    }
}

// The lag of an absolute code, which the first subframe of a half has.
pub fn decode_absolute(code: u16) -> Lag
    requires { code < 256 }
    ensures { result ≡ Pitch.decode_absolute code }
{
    if code >= 197 {
        // the top of the range has whole samples only
        return Lag {
            integer: code as i16 - 112,
            frac: 0,
        };
    }
    // code + 58 thirds of a sample, from 19 and a third on; to the nearest whole sample, so that a third more or less is left
    thirds(code + 58)
}

// The lag integer at which the relative codes begin.
fn lowest(prev: i16) -> i16
    requires { Pitch.InRange prev }
    ensures { result ≡ pos (Pitch.lowest prev) }
{
    (prev - 5).clamp(20, 134)
}

// The lag of a relative code, which the second subframe has, by the first's lag integer.
pub fn decode_relative(code: u16, prev: i16) -> Lag
    requires { (code < 32) × Pitch.InRange prev }
    ensures { result ≡ Pitch.decode_relative code prev }
{
    let m = lowest(prev) as u16;
    // code thirds from two thirds below m on; to the nearest whole sample, as in an absolute code
    thirds(m * 3 + code - 2)
}

impl Lag {
    // The phase of the filter that interpolates at a lag: the negated fraction, which is made positive with a whole sample more of delay.
    pub fn phase(self) -> usize
        requires { Pitch.Sane self }
        ensures { result ≡ Pitch.phase self }
    {
        let p = -self.frac;
        if p < 0 { (p + 3) as usize } else { p as usize }
    }

    // The delay that goes with it, in whole samples.
    pub fn delay(self) -> usize
        requires { Pitch.Sane self }
        ensures { result ≡ Pitch.delay self }
    {
        let d = self.integer as usize;
        if -self.frac < 0 { d + 1 } else { d }
    }
}
