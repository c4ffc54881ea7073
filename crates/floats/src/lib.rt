// f32 out of lent bytes, an integer rounded to f32 once, ties to even, and the rule of a bounded float.
#![tactic(auto)]

ghost use Rattle.std.specs.Prelude.{◌≡◌, ◌+◌, ◌*◌, ◌^◌, ◌<◌, ◌≤◌, false, T, length, pos, from_bits};
ghost use Rattle.std.specs.Float.{fin, binary32};
ghost use Rattle.std.specs.Float.Ieee.{lt, of_int};
ghost use Rattle.floats.specs.Floats as Floats;

use std::num::{f32_from_bits_with_nan, truncating_f32_to_u64};

// The bit pattern at byte `at`.
pub fn bits_at(b: &[u8], at: usize) -> u32
    requires { at + 4 ≤ length b.now }
    ensures { result ≡ Floats.bits_at b.now at }
{
    u32::from_le_bytes([b[at], b[at + 1], b[at + 2], b[at + 3]])
}

// The float at byte `at`.
pub fn float_at(b: &[u8], at: usize) -> f32
    requires { at + 4 ≤ length b.now }
    ensures { result ≡ Floats.float_at b.now at }
{
    f32_from_bits_with_nan(bits_at(b, at))
}

// Whether x is finite and at most `bound` in size. A NaN fails the first comparison.
pub fn within(bound: u32, x: f32) -> bool
    requires { bound ≤ 2 ^ 24 }
    ensures { result ≡ Floats.within bound x }
{
    let b = bound as f32;
    x >= -b && x <= b
}

// Whether the float of a bit pattern is finite and at most 65,536 in size: patterns without their
// sign are in the order of the sizes, and 0x4780_0000 is that of 65,536.
pub fn pattern_within(n: u32) -> bool
    ensures { result ≡ Floats.within 65536 (from_bits binary32 n) }
{
    n % 0x8000_0000 <= 0x4780_0000
}

// The whole number nearest to x, a tie going to the even one.
fn round_even(x: f32) -> u64
    requires fact_1 { T (lt (fin false 0 (pos 0)) x) }
    requires fact_2 { T (lt x (fin false 32767 (pos 0))) }
    ensures { result ≡ Floats.nearest_even x }
{
    truncating_f32_to_u64(x.round_ties_even())
}

// x rounded, a tie to the even number, and brought to 0..=top. A NaN gives 0.
pub fn quantise(top: u16, x: f32) -> i16
    requires { top ≤ 32767 }
    ensures { result ≡ pos (Floats.quantise top x) }
{
    if x > 0.0 {
        if x < top as f32 {
            round_even(x) as i16
        } else {
            top as i16
        }
    } else {
        0
    }
}
