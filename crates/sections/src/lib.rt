// One section of the output filter: its taps and its delay lines, a block through it, the block saturated, and how much of it that changed.
#![tactic(auto)]

ghost use Rattle.std.specs.Prelude.{◌≡◌, ◌≤◌, map, length};
ghost use Rattle.tables.specs.Places.{WORDS};
ghost use Rattle.fixed.specs.Fixed as Fixed;
ghost use Rattle.output_filter.specs.Postfilter as Postfilter;
ghost use Rattle.output_filter.specs.Sections as Sections;

use fixed::{ends, fold, mul, shift, trunc32};
use output_filter::{Lines, OutputFilter, Taps};
use scaling::{clips_at, short};
use std::array;
use tables::{OUT_FIR, OUT_IIR, word};

// The words are read once, not at each sample.
pub fn taps_of(words: &[i16]) -> Taps
    requires { length words.now ≡ WORDS }
    ensures { result ≡ Postfilter.taps_of words.now }
{
    Taps {
        ff: array::from_fn(|k| word(words, OUT_FIR + k)),
        fb: array::from_fn(|k| word(words, OUT_IIR + k)),
    }
}

// One input more in a section's sum.
fn forward(sum: i64, x: i16, tap: i16) -> i64
    ensures { result ≡ Fixed.fold sum (Fixed.mul x tap) }
{
    fold(sum, mul(x, tap))
}

// One earlier sum more, fed back. One product is what mul32x16 makes of two halves, and quicker.
fn back(sum: i64, x: i32, tap: i16) -> i64
    ensures { result ≡ Fixed.fold sum (Postfilter.back x tap) }
{
    let product = ((x as i64) * (tap as i64)) >> 15;
    fold(sum, -shift(product, 1))
}

// A section's sum: what comes in, and what is fed back. Each of those terms is wrapped by itself: the compiler then needs no shift for it.
fn section_sum(taps: Taps, lines: Lines, value: i16) -> i64
    ensures { result ≡ Sections.line_sum taps lines value }
{
    let ff = taps.ff;
    let fb = taps.fb;
    let fir = lines.fir;
    let iir = lines.iir;
    let b0 = forward(0, value, ff[0]);
    let b1 = forward(b0, fir[0], ff[1]);
    let b2 = forward(b1, fir[1], ff[2]);
    let b3 = forward(b2, fir[2], ff[3]);
    let b4 = fold(b3, back(0, iir[2], fb[2]));
    let b5 = fold(b4, back(0, iir[1], fb[1]));
    fold(b5, back(0, iir[0], fb[0]))
}

// The section's output before it is saturated: four times the sum, rounded, without its low half.
fn wide(sum: i64) -> i32
    ensures { result ≡ Sections.wide sum }
{
    (fold(shift(sum, 2), 32768) >> 16) as i32
}

// The lines moved on by an input and its sum.
fn moved(lines: Lines, value: i16, sum: i64) -> Lines
    ensures { result ≡ Sections.moved lines value sum }
{
    let fir = lines.fir;
    let iir = lines.iir;
    let memory = trunc32(shift(sum, 1)) as i32;
    Lines {
        fir: [value, fir[0], fir[1]],
        iir: [memory, iir[0], iir[1]],
    }
}

// A block through one section. Its outputs are saturated after it, eight at a time: no sum waits for them.
pub fn through(taps: Taps, lines: Lines, input: &[i16], output: &mut [i32]) -> Lines
    requires { length output.old ≡ length input.now }
    ensures outputs { output.new ≡ Sections.through taps lines input.now }
    ensures left { result ≡ Sections.left taps lines input.now }
{
    let mut state = lines;
    // By index: two slices, place by place.
    for n in 0..input.len() {
        let x = input[n];
        let sum = section_sum(taps, state, x);
        output[n] = wide(sum);
        state = moved(state, x, sum);
    }
    state
}

// A block's values saturated.
pub fn shorten(input: &[i32], output: &mut [i16])
    requires { length output.old ≡ length input.now }
    ensures { output.new ≡ map Sections.short input.now }
{
    // By index: two slices, place by place.
    for n in 0..input.len() {
        output[n] = short(input[n]);
    }
}

// At how many samples of a block saturation changes a value. What saturation changed is at an end of 16 bits: only a block with such a sample, behind the first section or at last, is
// looked through.
pub fn clipped(first: &[i32], second: &[i32], firsts: &[i16], outputs: &[i16]) -> u8
    requires first_len_bound { (length first.now ≤ 80) × (length second.now ≡ length first.now) }
    requires firsts_value { (firsts.now ≡ map Sections.short first.now) × (outputs.now ≡ map Postfilter.scaled (map Sections.short second.now)) }
    ensures { result ≡ Sections.clipped_by first.now second.now }
{
    if ends(&firsts[..]) + ends(&outputs[..]) == 0 {
        return 0;
    }
    let mut clipped = 0u8;
    // By index: two slices, place by place.
    for n in 0..first.len() {
        clipped += u8::from(clips_at(first[n], second[n]));
    }
    clipped
}

// The lines of the section whose delay lines begin at a place.
pub fn lines_of(filter: OutputFilter, at: usize) -> Lines
    requires { «at» ≤ 3 }
    ensures { result ≡ Sections.lines_of filter «at» }
{
    let fir = filter.fir;
    let iir = filter.iir;
    Lines {
        fir: [fir[at], fir[at + 1], fir[at + 2]],
        iir: [iir[at], iir[at + 1], iir[at + 2]],
    }
}

// Both sections' lines as one filter.
pub fn both(first: Lines, second: Lines) -> OutputFilter
    ensures { result ≡ Sections.both first second }
{
    let f = first.fir;
    let s = second.fir;
    let g = first.iir;
    let t = second.iir;
    OutputFilter {
        fir: [f[0], f[1], f[2], s[0], s[1], s[2]],
        iir: [g[0], g[1], g[2], t[0], t[1], t[2]],
    }
}
