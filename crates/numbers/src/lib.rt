// A question's numbers as words, floats and samples, and numbers as the text of an answer: what the replaying programs share. A float goes by its bits.
#![tactic(auto)]

ghost use Rattle.std.specs.Prelude.{◌≡◌, ◌<◌, ◌≤◌, ◌+◌, nat_abs, length};
ghost use Rattle.std.specs.Float.{binary32};
ghost use Rattle.std.specs.Float.Ieee.{to_bits};
ghost use Rattle.sequence.specs.Table.{table};
ghost use Rattle.questions.specs.Questions as Questions;

use std::num::{f32_from_bits_with_nan, f32_to_bits_with_nan};

// The numbers from a place on, each cut to a word, as many as out has room for.
#[tactic(auto, using(sequence::specs::Table::written_none, sequence::specs::Table::written_more, sequence::specs::Table::written_end), unfolding(questions::specs::Questions::word_at))]
pub fn words(n: [i64; 128], from: usize, out: &mut [i16])
    requires { from + length out.old ≤ 128 }
    ensures { out.new ≡ table (Questions.word_at n from) (length out.old) }
{
    for (i, word) in out.iter_mut().enumerate() {
        *word = fixed::low(n[from + i]);
    }
}

// The bits that a number says.
#[tactic(auto, unfolding(questions::specs::Questions::bits))]
fn bits(x: i64) -> u32
    ensures { result ≡ Questions.bits x }
{
    (fixed::magnitude(x) % 0x1_0000_0000) as u32
}

// The floats whose bits stand from a place on, as many as out has room for.
#[tactic(auto, using(sequence::specs::Table::written_none, sequence::specs::Table::written_more, sequence::specs::Table::written_end), unfolding(questions::specs::Questions::float_at))]
pub fn floats_from(n: [i64; 128], from: usize, out: &mut [f32])
    requires { from + length out.old ≤ 128 }
    ensures { out.new ≡ table (Questions.float_at n from) (length out.old) }
{
    for (i, float) in out.iter_mut().enumerate() {
        *float = f32_from_bits_with_nan(bits(n[from + i]));
    }
}

// The sample of place k, by the number that is drawn for it.
#[tactic(auto, unfolding(questions::specs::Questions::sample))]
fn sample(k: usize, x: u64) -> i16
    requires { x < 65536 }
    ensures { result ≡ Questions.sample k x }
{
    let s = fixed::low(x as i64);
    if k % 3 == 0 {
        fixed::low(fixed::shift(i64::from(s), -4))
    } else {
        s
    }
}

// Samples that a seed gives, by the rule of the questions.
pub fn samples(seed: u64, out: &mut [i16])
    ensures { out.new ≡ table (Questions.sample_at seed) (length out.old) }
{
    let mut x = seed % 65536;
    for (i, word) in out.iter_mut().enumerate() {
        x = (x * 31 + 7) % 65536;
        *word = sample(i, x);
    }
}

// How far x is from 0.
pub fn size(x: i64) -> u64
    ensures { result ≡ nat_abs x }
{
    x.unsigned_abs()
}

// A number that is not negative, in decimal.
pub fn say_digits(rt: &HostRuntime, n: u64) {
    let mut digits = [0u8; 20];
    let k = io::decimal(n, &mut digits);
    let _ = pipe::write(rt, &digits[..k]);
}

fn say_number(rt: &HostRuntime, x: i64) {
    if x < 0 {
        let _ = pipe::write(rt, b"-");
    }
    say_digits(rt, size(x));
}

// Items, each said by `say_one`, with a blank between them and, where something stands before them, in front.
fn say_each<T: Copy, F: Fn(T)>(rt: &HostRuntime, items: &[T], follows: bool, say_one: F)
    requires { F.IsAlwaysCallable say_one }
{
    for (i, item) in items.iter().enumerate() {
        if follows || 0 < i {
            let _ = pipe::write(rt, b" ");
        }
        say_one(*item);
    }
}

// The numbers, with a blank between them.
pub fn say_numbers(rt: &HostRuntime, numbers: &[i64]) {
    say_each(rt, numbers, false, |x| say_number(rt, x));
}

// The numbers, as a line.
pub fn say(rt: &HostRuntime, numbers: &[i64]) {
    say_numbers(rt, numbers);
    end_line(rt);
}

pub fn wide_word(x: i16) -> i64
    ensures { result ≡ x }
{
    i64::from(x)
}

// The words, with a blank between them and, where something stands before them, in front.
pub fn say_words(rt: &HostRuntime, w: &[i16], follows: bool) {
    say_each(rt, w, follows, |x| say_number(rt, i64::from(x)));
}

pub fn end_line(rt: &HostRuntime) {
    let _ = pipe::write(rt, b"\n");
}

// A float's bits; of a NaN those of the one that the definitions have.
pub fn to_bits(x: f32) -> u32
    ensures { result ≡ to_bits binary32 x }
{
    f32_to_bits_with_nan(x)
}

// The floats by their bits, as a line.
pub fn say_floats(rt: &HostRuntime, x: &[f32]) {
    say_each(rt, x, false, |x| say_digits(rt, u64::from(to_bits(x))));
    end_line(rt);
}

// The words, as a line.
pub fn say_line(rt: &HostRuntime, w: &[i16]) {
    say_words(rt, w, false);
    end_line(rt);
}
