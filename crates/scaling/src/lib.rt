// A value of the output filter saturated to 16 bits, and scaled; and whether saturation changes one on a sample's way.
#![tactic(auto)]

ghost use Rattle.std.specs.Prelude.{◌≡◌, map};
ghost use Rattle.output_filter.specs.Postfilter as Postfilter;
ghost use Rattle.output_filter.specs.Sections as Sections;

use fixed::fold_narrow;

// Final output scaling, Q15.
const OUT_SCALE: i16 = 19661;

// Saturated to 16 bits.
pub fn short(v: i32) -> i16
    ensures { result ≡ Sections.short v }
{
    v.clamp(-32768, 32767) as i16
}

// Whether that changes a value.
fn beyond(v: i32) -> bool
    ensures { result ≡ Sections.beyond v }
{
    v < -32768 || 32767 < v
}

// A value scaled, rounded, and not yet saturated: all in 32 bits.
fn scaled_by(value: i16, scale: i16) -> i32
    ensures { result ≡ Sections.scaled_by value scale }
{
    fold_narrow((value as i32) * (scale as i32), 8192) >> 14
}

// Scale a block.
pub fn scale(block: &mut [i16])
    ensures { block.new ≡ map Postfilter.scaled block.old }
{
    for x in block.iter_mut() {
        *x = short(scaled_by(*x, OUT_SCALE));
    }
}

// Whether saturation changes a value on a sample's way, by what the sections made of it.
pub fn clips_at(first: i32, second: i32) -> bool
    ensures { result ≡ Sections.clips_at first second }
{
    beyond(first) || beyond(scaled_by(short(second), OUT_SCALE))
}
