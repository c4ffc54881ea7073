// The natural logarithm and the exponential that the gain step takes.
#![tactic(auto)]

ghost use Rattle.std.specs.Prelude.{◌≡◌, not, T};
ghost use Rattle.std.specs.Float.Ieee.{is_nan};
ghost use Rattle.std.specs.Float.Ieee.Scale.{finite};
ghost use Rattle.elementary.specs.Elementary as Elementary;

// The natural logarithm, for an x from 1 to 2^30. docs/ELEMENTARY.md has the constants.
pub fn ln(x: f32) -> f32
    requires { T (not (is_nan x)) }
    ensures { result ≡ Elementary.ln x }
{
    let i = x.to_bits() % 0x8000_0000 + 0x55_5555;
    let f = f32::from_bits(i % 0x80_0000 + 0x3f2a_aaab) - 1.0;
    let d = (i / 0x80_0000) as f32 - 127.0;
    let z = f * f;
    let a0 = 0.33333215 - 0.24999797 * f;
    let a2 = 0.20010415 - 0.1668049 * f;
    let a4 = 0.14005876 - 0.121842735 * f;
    let a6 = 0.1398447 - 0.12891668 * f;
    let p = a0 + z * (a2 + z * (a4 + z * a6));
    ((f * z * p - d * 2.9088971e-5) - 0.5 * z + f) + d * 0.69317627
}

// e to the x, for an x from -1 to 10.5.
pub fn exp(x: f32) -> f32
    requires { T (finite x) }
    ensures { result ≡ Elementary.exp x }
{
    let t = x * 1.442695 + 12582944.0;
    let n = t.to_bits() % 64;
    let k = n as f32 - 32.0;
    let g = x - k * 0.69317627;
    let c = k * 2.9088971e-5;
    let r = g + c;
    let z = r * r;
    let b0 = 0.16666521 * r + 0.49999994;
    let b2 = 0.008368707 * r + 0.04166833;
    let q = (0.0013814606 * z + b2) * z + b0;
    let w = f32::from_bits((n + 95) * 0x80_0000);
    (((z * q + c) + g) + 1.0) * w
}
